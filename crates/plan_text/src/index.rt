//! A plan's index: look-ups need no pass over the steps.

ghost use Rattle.std.specs.Prelude.{◌≡◌, ℕ, length, ◌++◌, ◌∷◌, [], ◌==◌, ◌&&◌, not, List, Some, None, IfErr, OnOk};
ghost use Rattle.std.specs.Prelude.{OnErr, if◌then◌else◌, true};
ghost use Rattle.ring_names.specs.declared.refusal.Refusal.TheVariants.{OutOfMemory};
ghost use Rattle.plan_text.specs.declared.step.Planned.{Planned};
ghost use Rattle.std.specs.Option.{option_or};
ghost use Rattle.plan_text.specs.Held.{first_of, holds, HoldsSteps};
ghost use Rattle.plan_text.specs.SlotSteps.{numbers_at};

use crate::slot_steps::SlotSteps;
use crate::step::Step;
use ring_names::{NodeId, Refusal, Slot};
use std::alloc::Global;
use std::collections::HashMap;

/// Which step first names each node, and whether none is named twice.
#[derive(Drop)]
pub struct NodeIndex {
    firsts: HashMap<NodeId, u32>,
    different: bool,
}

impl NodeIndex {
    /// Starts empty.
    pub fn new(alloc: Global) -> NodeIndex
        ensures firsts { (x : ℕ) → first_of result x ≡ None }
        ensures different { result.different ≡ true }
    {
        NodeIndex {
            firsts: HashMap::new(alloc),
            different: true,
        }
    }

    /// Returns the first step that names the node.
    pub fn first(&self, node: NodeId) -> Option<u32>
        ensures { result ≡ first_of self.now node.0 }
    {
        self.firsts.get(&node).copied()
    }

    /// Whether the node was named.
    pub fn holds(&self, node: NodeId) -> bool
        ensures { result ≡ holds self.now node.0 }
    {
        self.first(node).is_some()
    }

    /// Whether each node was named only once.
    pub fn all_different(&self) -> bool
        ensures { result ≡ self.now.different }
    {
        self.different
    }

    /// Adds a node that this step names.
    pub fn add(&mut self, node: NodeId, number: u32) -> Result<(), Refusal>
        ensures firsts { OnOk result ((x : ℕ)
            → first_of self.new x ≡ option_or (first_of self.old x) (if x == node.0 then Some number else None)) }
        ensures different { OnOk result (self.new.different ≡ (self.old.different && not (holds self.old node.0))) }
        ensures err { OnErr result ((x : ℕ) → first_of self.new x ≡ first_of self.old x) }
        ensures same { OnErr result (self.new.different ≡ self.old.different) }
        ensures memory { IfErr result (λ e. e ≡ OutOfMemory) }
    {
        if self.holds(node) {
            self.different = false;
        } else {
            self.firsts.insert(node, number)?;
        }
        Ok(())
    }
}

/// A plan's steps by slot and by node.
pub struct Index {
    slots: SlotSteps,
    joins: NodeIndex,
    retirements: NodeIndex,
}

// Saves dependent crates from checking the parts.
impl Drop for Index {
    fn drop(self) {
        let Index {
            slots,
            joins,
            retirements,
        } = self;
        drop(slots);
        drop(joins);
        drop(retirements);
    }
}

impl Index {
    /// Starts without steps.
    pub fn new(alloc: Global) -> Index
        ensures { HoldsSteps result [] }
    {
        Index {
            slots: SlotSteps::new(alloc),
            joins: NodeIndex::new(alloc),
            retirements: NodeIndex::new(alloc),
        }
    }

    /// Adds the plan's next step.
    #[inline(always)]
    pub fn add(&mut self, step: &Step, number: u32) -> Result<(), Refusal>
        ensures ok { OnOk result ((plan : List Planned) → HoldsSteps self.old plan → length plan ≡ number
            → (x : Planned) → x.step ≡ step.now → HoldsSteps self.new (plan ++ x ∷ [])) }
        ensures err { OnErr result ((plan : List Planned) → HoldsSteps self.old plan → HoldsSteps self.new plan) }
        ensures memory { IfErr result (λ e. e ≡ OutOfMemory) }
    {
        match step {
            Step::Join(node) => self.joins.add(*node, number),
            Step::Retire(node) => self.retirements.add(*node, number),
            Step::Mirror(slot, _)
            | Step::Copy(slot, _)
            | Step::Switch(slot)
            | Step::Drop(slot, _) => { self.slots.add(*slot, number) }
        }
    }

    /// Returns the slot's steps.
    #[inline(always)]
    pub fn slot_numbers(&self, slot: Slot) -> &[u32]
        ensures { result.now ≡ numbers_at self.now.slots slot }
    {
        self.slots.items(slot)
    }

    /// Returns the first step that joins the node.
    pub fn join_of(&self, node: NodeId) -> Option<u32>
        ensures { result ≡ first_of self.now.joins node.0 }
    {
        self.joins.first(node)
    }

    /// Returns the first step that retires the node.
    pub fn retirement_of(&self, node: NodeId) -> Option<u32>
        ensures { result ≡ first_of self.now.retirements node.0 }
    {
        self.retirements.first(node)
    }

    /// Whether some step joins the node.
    pub fn is_joined(&self, node: NodeId) -> bool
        ensures { result ≡ holds self.now.joins node.0 }
    {
        self.joins.holds(node)
    }

    /// Whether some step retires the node.
    pub fn is_retired(&self, node: NodeId) -> bool
        ensures { result ≡ holds self.now.retirements node.0 }
    {
        self.retirements.holds(node)
    }

    /// Whether no node joins twice or retires twice.
    pub fn all_different(&self) -> bool
        ensures { result ≡ (self.now.joins.different && self.now.retirements.different) }
    {
        self.joins.different && self.retirements.different
    }
}
