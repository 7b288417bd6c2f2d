//! A change being read.

ghost use Rattle.std.specs.Prelude.{◌≡◌, ◌<◌, ◌++◌, ◌∷◌, [], OnOk, IfErr};
ghost use Rattle.ring_names.specs.declared.refusal.Refusal.TheVariants.{OutOfMemory};
ghost use Rattle.change_text.specs.Draft.{names};

use crate::change::Change;
use crate::marks::Marks;
use ring_names::{Listed, NodeId, Refusal};
use std::alloc::Global;
use std::marker::Model;

/// The joins and leaves so far, and their nodes' marks.
#[derive(Drop)]
pub struct Draft {
    joins: Vec<NodeId>,
    leaves: Vec<NodeId>,
    named: Marks,
}

impl Model for Draft {
    ghost use Rattle.change_text.specs.declared.change.Change.{Change};

    ghost Value = { Change };

    ghost use Rattle.change_text.specs.Draft.{drafted, HasMarks};

    ghost view = { drafted };

    ghost invariant = { HasMarks };
}

impl Draft {
    /// Starts empty.
    pub fn new(alloc: Global) -> Draft
        ensures { result ≡ record { joins = []; leaves = [] } }
    {
        Draft {
            joins: Vec::new(alloc),
            leaves: Vec::new(alloc),
            named: Marks::new(),
        }
    }

    /// Whether a join or leave names the node.
    pub fn names(&self, node: NodeId) -> bool
        ensures { result ≡ names self.now node }
    {
        self.named.has(node)
    }

    /// Adds a join.
    pub fn join(&mut self, node: NodeId) -> Result<(), Refusal>
        requires { node.0 < 1024 }
        ensures joins { OnOk result (self.new.joins ≡ self.old.joins ++ node ∷ []) }
        ensures leaves { self.new.leaves ≡ self.old.leaves }
        ensures memory { IfErr result (λ e. e ≡ OutOfMemory) }
    {
        self.joins.push(node)?;
        self.named.add(node);
        Ok(())
    }

    /// Adds a leave.
    pub fn leave(&mut self, node: NodeId) -> Result<(), Refusal>
        requires { node.0 < 1024 }
        ensures joins { self.new.joins ≡ self.old.joins }
        ensures leaves { OnOk result (self.new.leaves ≡ self.old.leaves ++ node ∷ []) }
        ensures memory { IfErr result (λ e. e ≡ OutOfMemory) }
    {
        self.leaves.push(node)?;
        self.named.add(node);
        Ok(())
    }

    /// Returns the change.
    pub fn into_change(self) -> Change
        ensures { result ≡ self }
    {
        let Draft {
            joins,
            leaves,
            named: _,
        } = self;
        Change {
            joins: Listed::from_vec(joins),
            leaves: Listed::from_vec(leaves),
        }
    }
}
