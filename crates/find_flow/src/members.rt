//! The roles of nodes.

use crate::racks::Racks;
use crate::wish::WishedChange;
use ring_names::{NodeId, Refusal};
use ring_table::Ring;
use std::alloc::Global;
use texts::{at, quotient, small};

/// A node's role in a change.
#[derive(Clone, Copy, PartialEq, Eq)]
pub enum Role {
    /// Neither a member nor joining.
    Absent,
    /// A staying member.
    Stays,
    Joins,
    /// A leaving member.
    Leaves,
}

/// The roles, weights and racks of nodes.
#[derive(Drop)]
pub struct Members {
    roles: Vec<Role>,
    weights: Vec<u32>,
    // by joining node, its due slots, rounded down
    parts: Vec<u32>,
    // the final number of members
    after: u32,
    /// The final members' total weight.
    pub weight: u32,
    pub racks: Racks,
}

impl Members {
    /// Starts empty.
    pub fn new(alloc: Global) -> Members {
        Members {
            roles: Vec::new(alloc),
            weights: Vec::new(alloc),
            parts: Vec::new(alloc),
            after: 0,
            weight: 0,
            racks: Racks::new(alloc),
        }
    }

    /// Sets the roles. Fails with `NoPlan` if a joining node is a member or undeclared, a leaving node is not a member,
    /// or too few members remain.
    pub fn begin(
        &mut self,
        alloc: Global,
        ring: &Ring,
        wish: &WishedChange,
    ) -> Result<(), Refusal> {
        for node in ring.nodes() {
            self.roles.push(if node.is_member {
                Role::Stays
            } else {
                Role::Absent
            })?;
            let number = small(self.weights.len());
            self.weights.push(wish.weight(number))?;
        }
        turn_all(&mut self.roles, wish.joins, Role::Absent, Role::Joins)?;
        turn_all(&mut self.roles, wish.leaves, Role::Stays, Role::Leaves)?;
        let count = self.count();
        self.racks.fill(alloc, wish.racks, count)?;
        self.count_after();
        if !wish.leaves.is_empty() && self.after < ring.n() {
            return Err(Refusal::NoPlan);
        }
        self.racks.set_level(ring.n())?;
        self.share(ring)
    }

    fn count_after(&mut self) {
        for node in 0..self.count() {
            if self.is_after(node) {
                self.after = self.after.saturating_add(1);
                self.weight = self.weight.saturating_add(self.weight(node));
                self.racks.add(node);
            }
        }
    }

    fn share(&mut self, ring: &Ring) -> Result<(), Refusal> {
        let total = ring.q().saturating_mul(ring.n());
        for node in 0..self.count() {
            let part = if self.role(node) == Role::Joins {
                quotient(total.saturating_mul(self.weight(node)), self.weight).min(ring.q())
            } else {
                0
            };
            self.parts.push(part)?;
        }
        Ok(())
    }

    /// The node's role.
    pub fn role(&self, node: u32) -> Role {
        match self.roles.get(node as usize) {
            Some(role) => *role,
            None => Role::Absent,
        }
    }

    /// Whether the node is a final member.
    pub fn is_after(&self, node: u32) -> bool {
        let role = self.role(node);
        role == Role::Stays || role == Role::Joins
    }

    /// The node's weight.
    pub fn weight(&self, node: u32) -> u32 {
        at(&self.weights, node as usize)
    }

    /// How many slots a joining node should get; 0 for others.
    pub fn part(&self, node: u32) -> u32 {
        at(&self.parts, node as usize)
    }

    /// Counts the nodes.
    pub fn count(&self) -> u32 {
        small(self.roles.len())
    }
}

fn turn_all(roles: &mut [Role], nodes: &[NodeId], old: Role, new: Role) -> Result<(), Refusal> {
    for node in nodes {
        match roles.get_mut(node.0 as usize) {
            Some(role) if *role == old => *role = new,
            _ => return Err(Refusal::NoPlan),
        }
    }
    Ok(())
}
