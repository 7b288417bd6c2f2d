//! A small set of nodes, mostly one.

ghost use Rattle.std.specs.Prelude.{◌≡◌, [], IfOk, IfErr, OnOk};
ghost use Rattle.ring_names.specs.declared.refusal.Refusal.TheVariants.{OutOfMemory};
ghost use Rattle.plan_stage.specs.Stage.{is_among, with_node, without_node};

use ring_names::{NodeId, Refusal};
use std::alloc::{AllocError, Global};
use std::collections::BTreeSet;
use std::marker::Model;

/// Nodes that owned a slot and have not dropped it. A single node takes no memory.
#[derive(Drop)]
pub struct Leftovers {
    // The only node.
    one: Option<NodeId>,
    // All nodes, if several.
    more: BTreeSet<NodeId>,
}

impl Model for Leftovers {
    ghost use Rattle.std.specs.Prelude.{List};
    ghost use Rattle.ring_names.specs.declared.ids.NodeId.{NodeId};
    ghost use Rattle.plan_stage.specs.Looking.Leftovers.{nodes_of, IsAlone};

    ghost Value = { List NodeId };

    ghost view = { λ a. nodes_of a.one a.more.keys };

    ghost invariant = { λ a. IsAlone a.one a.more.keys };
}

impl Leftovers {
    /// Starts empty.
    pub fn new(alloc: Global) -> Leftovers
        ensures { result ≡ [] }
    {
        Leftovers {
            one: None,
            more: BTreeSet::new(alloc),
        }
    }

    /// Whether the set has the node.
    pub fn contains(&self, node: NodeId) -> bool
        ensures { result ≡ is_among node self.now }
    {
        match self.one {
            Some(only) => node.0 == only.0,
            None => self.more.contains(&node),
        }
    }

    /// Adds the node.
    pub fn add(&mut self, node: NodeId) -> Result<(), Refusal>
        ensures ok { OnOk result (self.new ≡ with_node node self.old) }
        ensures memory { IfErr result (λ e. e ≡ OutOfMemory) }
    {
        match self.one {
            Some(only) => {
                self.one = None;
                self.more.insert(only)?;
                self.more.insert(node)?;
            }
            None if self.more.is_empty() => self.one = Some(node),
            None => {
                self.more.insert(node)?;
            }
        }
        Ok(())
    }

    /// Removes the node.
    pub fn remove(&mut self, node: NodeId)
        ensures { self.new ≡ without_node node self.old }
    {
        match self.one {
            Some(only) => {
                if node.0 == only.0 {
                    self.one = None;
                }
            }
            None => {
                self.more.remove(&node);
            }
        }
    }

    /// Returns the nodes by number.
    pub fn to_vec(&self, alloc: Global) -> Result<Vec<NodeId>, AllocError>
        ensures { IfOk result (λ list. list.items ≡ self.now) }
    {
        match self.one {
            Some(only) => {
                let mut list = Vec::new(alloc);
                list.push(only)?;
                Ok(list)
            }
            None => listed(alloc, &self.more),
        }
    }
}

/// Lists the nodes by number.
pub fn listed(alloc: Global, nodes: &BTreeSet<NodeId>) -> Result<Vec<NodeId>, AllocError>
    ensures { IfOk result (λ list. list.items ≡ nodes.now.keys) }
{
    nodes.iter().copied().collect(alloc)
}
