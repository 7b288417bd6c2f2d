//! The drops of a slot's data.

ghost use Rattle.std.specs.Prelude.{◌≡◌, None, Some, IfErr, OnOk, if◌then◌else◌};
ghost use Rattle.ring_names.specs.declared.ids.NodeId.{NodeId as TheNode};
ghost use Rattle.ring_names.specs.declared.refusal.Refusal.TheVariants.{OutOfMemory};
ghost use Rattle.plan_stage.specs.Occupancy.{is_node};
ghost use Rattle.plan_stage.specs.Looking.Drops.{dropped_among, dropped_in};

use crate::few::Few;
use ring_names::{NodeId, Refusal};
use std::alloc::Global;
use std::collections::HashMap;

/// A node, and the step of its drop.
#[derive(Clone, Copy)]
pub struct Dropped {
    pub node: NodeId,
    pub number: u32,
}

/// Each node's drop, as last set. The first four take no memory.
#[derive(Drop)]
pub struct Drops {
    alloc: Global,
    first: Few<Dropped>,
    others: Option<Box<HashMap<NodeId, u32>>>,
}

impl Drops {
    /// Starts empty.
    pub fn new(alloc: Global) -> Drops
        ensures { (x : TheNode) → dropped_in result x ≡ None }
    {
        Drops {
            alloc,
            first: Few::new(Dropped {
                node: NodeId(0),
                number: 0,
            }),
            others: None,
        }
    }

    /// Returns the node's drop.
    pub fn get(&self, node: NodeId) -> Option<u32>
        ensures { result ≡ dropped_in self.now node }
    {
        if let Some(others) = &self.others {
            if let Some(number) = others.get(&node) {
                return Some(*number);
            }
        }
        dropped_among(self.first.as_slice(), node)
    }

    /// Sets the node's drop.
    pub fn set(&mut self, node: NodeId, number: u32) -> Result<(), Refusal>
        ensures ok { OnOk result
            ((x : TheNode) → dropped_in self.new x ≡ (if is_node x node then Some number else dropped_in self.old x)) }
        ensures memory { IfErr result (λ e. e ≡ OutOfMemory) }
    {
        match &mut self.others {
            Some(others) => {
                others.insert(node, number)?;
            }
            None => {
                if !self.first.try_push(Dropped { node, number }) {
                    let mut others = HashMap::new(self.alloc);
                    others.insert(node, number)?;
                    self.others = Some(Box::new(self.alloc, others)?);
                }
            }
        }
        Ok(())
    }
}

fn dropped_among(drops: &[Dropped], node: NodeId) -> Option<u32>
    ensures { result ≡ dropped_among drops.now node }
{
    drops
        .iter()
        .rev()
        .find(|drop| drop.node.0 == node.0)
        .map(|drop| drop.number)
}
