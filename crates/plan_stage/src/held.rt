//! What nodes hold of a slot.

ghost use Rattle.std.specs.Prelude.{◌≡◌, [], ◌∷◌, ◌++◌, IfErr, OnOk, if◌then◌else◌};
ghost use Rattle.ring_names.specs.declared.ids.NodeId.{NodeId as TheNode};
ghost use Rattle.ring_names.specs.declared.refusal.Refusal.TheVariants.{OutOfMemory};
ghost use Rattle.plan_stage.specs.Occupancy.{is_node};
ghost use Rattle.plan_stage.specs.Looking.Held.{held_of, held_beside};

use crate::few::Few;
use crate::holding::Holding;
use ring_names::{Lists, NodeId, Refusal};
use std::alloc::Global;

/// A node, and one of its holdings.
#[derive(Clone, Copy)]
pub struct Found {
    pub node: NodeId,
    pub holding: Holding,
}

/// Each node's holdings of a slot. The first four take no memory.
#[derive(Drop)]
pub struct Held {
    alloc: Global,
    first: Few<Found>,
    others: Option<Box<Lists<NodeId, Holding>>>,
}

impl Held {
    /// Starts empty.
    pub fn new(alloc: Global) -> Held
        ensures { (x : TheNode) → held_of result x ≡ [] }
    {
        let holding = Holding {
            begin: None,
            end: None,
            drop: None,
        };
        Held {
            alloc,
            first: Few::new(Found {
                node: NodeId(0),
                holding,
            }),
            others: None,
        }
    }

    /// Adds a holding after the node's others.
    pub fn add(&mut self, node: NodeId, holding: Holding) -> Result<(), Refusal>
        ensures ok { OnOk result ((x : TheNode) → held_of self.new x
            ≡ (if is_node x node then held_of self.old x ++ holding ∷ [] else held_of self.old x)) }
        ensures memory { IfErr result (λ e. e ≡ OutOfMemory) }
    {
        match &mut self.others {
            Some(others) => others.add(node, holding),
            None => {
                if !self.first.try_push(Found { node, holding }) {
                    let mut others = Lists::new(self.alloc);
                    others.add(node, holding)?;
                    self.others = Some(Box::new(self.alloc, others)?);
                }
                Ok(())
            }
        }
    }

    /// Returns the first four holdings, of any nodes.
    pub fn first(&self) -> &[Found]
        ensures { result.now ≡ self.now.first }
    {
        self.first.as_slice()
    }

    /// Returns the node's holdings not in `first`.
    pub fn others(&self, node: NodeId) -> &[Holding]
        ensures { result.now ≡ held_beside self.now.others node }
    {
        match &self.others {
            Some(others) => others.items(&node),
            None => &[],
        }
    }
}
