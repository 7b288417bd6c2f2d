//! Groups of transfers.

use ring_names::{NodeId, Refusal};
use ring_table::{Allowance, NodeSide, Ring, Side};
use std::alloc::Global;
use texts::{at, set};

/// Two groups for each node: copies from it, and copies to it. A joint allowance has all copies in the first group.
#[derive(Drop)]
pub struct Groups {
    // each group's limit of open transfers; 0 if unused or barred
    most: Vec<u32>,
    barred: u32,
}

impl Groups {
    /// Makes the ring's groups.
    pub fn of(alloc: Global, ring: &Ring) -> Result<Groups, Refusal> {
        let mut most = Vec::new(alloc);
        for node in ring.nodes() {
            let (give, take) = match node.allowance {
                Allowance::Joint(both) => (both, 0),
                Allowance::Split { take, give } => (give, take),
            };
            most.push(give)?;
            most.push(take)?;
        }
        Ok(Groups { most, barred: 0 })
    }

    /// Bars transfers from and to the node.
    pub fn bar(&mut self, node: u32) {
        let first = self.giver(node);
        set(&mut self.most, first, 0);
        set(&mut self.most, first.saturating_add(1), 0);
        self.barred = self.barred.saturating_add(1);
    }

    /// Whether the node is barred.
    pub fn is_barred(&self, node: u32) -> bool {
        self.most(self.giver(node)) == 0
    }

    /// Whether any node is barred.
    pub fn has_barred(&self) -> bool {
        self.barred > 0
    }

    /// Counts the groups.
    pub fn len(&self) -> usize {
        self.most.len()
    }

    /// The group's limit of open transfers; 0 if unused or barred.
    pub fn most(&self, group: usize) -> u32 {
        at(&self.most, group)
    }

    /// The group of copies from the node.
    pub fn giver(&self, node: u32) -> usize {
        (node as usize).saturating_mul(2)
    }

    /// The group of copies to the node.
    pub fn taker(&self, node: u32) -> usize {
        let first = self.giver(node);
        let second = first.saturating_add(1);
        if self.most(second) == 0 {
            first
        } else {
            second
        }
    }

    /// The group as a side of its node.
    pub fn side(&self, group: u32) -> NodeSide {
        let node = NodeId(group / 2);
        if group % 2 == 1 {
            return NodeSide {
                node,
                side: Side::Take,
            };
        }
        let first = self.giver(node.0);
        let side = if self.taker(node.0) == first {
            Side::Both
        } else {
            Side::Give
        };
        NodeSide { node, side }
    }
}
