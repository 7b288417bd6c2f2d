//! Plans, always well formed.

ghost use Rattle.std.specs.Prelude.{◌≡◌, ◌+◌, ◌<◌, ◌≤◌, ◌++◌, ◌∷◌, ◌↔◌, [], Some, length, slice_get, slice_index};
ghost use Rattle.std.specs.Prelude.{EachIndex, option_map, IsTrue, OnOk, IfErr, IfSome, OnErr};
ghost use Rattle.std.specs.List.{list_all};
ghost use Rattle.ring_names.specs.Lists.{has};
ghost use Rattle.ring_names.specs.declared.refusal.Refusal.TheVariants.{OutOfMemory};

use crate::fulfils::all_name_only;
use crate::index::Index;
use crate::step::Step;
use crate::suits::all_suit;
use ring_names::{NodeId, Refusal, Rows, Slot};
use ring_table::Ring;
use std::alloc::Global;
use std::marker::Model;

/// A plan. Its steps are numbered from 0, as written.
pub struct Plan {
    steps: Vec<Step>,
    // Dependencies by step.
    rows: Rows,
    index: Index,
}

// Saves dependent crates from checking the parts.
impl Drop for Plan {
    fn drop(self) {
        let Plan { steps, rows, index } = self;
        drop(steps);
        drop(rows);
        drop(index);
    }
}

impl Model for Plan {
    ghost use Rattle.std.specs.Prelude.{List};
    ghost use Rattle.plan_text.specs.declared.step.Planned.{Planned};

    ghost Value = { List Planned };

    ghost use Rattle.plan_text.specs.Kept.{plan_of, HoldsPlan};

    ghost view = { plan_of };

    ghost invariant = { HoldsPlan };
}

impl Plan {
    ghost use Rattle.plan_text.specs.Steps.{steps_of, depends, dependencies, joined, retired, join_of, retirement_of};
    ghost use Rattle.plan_text.specs.Valid.{IsPlanned, IsPlan, Suits, step_suits};
    ghost use Rattle.plan_text.specs.Changes.{fulfils, step_names};

    /// Starts without steps.
    pub fn new(alloc: Global) -> Plan
        ensures { result ≡ [] }
    {
        Plan {
            steps: Vec::new(alloc),
            rows: Rows::new(alloc),
            index: Index::new(alloc),
        }
    }

    /// Adds the next step and its dependencies.
    #[inline(always)]
    pub fn push(&mut self, step: Step, after: &[u32]) -> Result<(), Refusal>
        requires planned { IsPlanned (length self.old) (record { step = step; after = after.now }) }
        requires steps { length self.old < 131072 }
        requires dependencies { dependencies self.old + length after.now ≤ 524288 }
        ensures ok { OnOk result (self.new ≡ self.old ++ record { step = step; after = after.now } ∷ []) }
        ensures err { OnErr result (self.new ≡ self.old) }
        ensures memory { IfErr result (λ e. e ≡ OutOfMemory) }
    {
        let number = self.len();
        self.steps.reserve(1)?;
        self.rows.push(after)?;
        if let Err(refusal) = self.index.add(&step, number) {
            self.rows.pop();
            return Err(refusal);
        }
        self.steps.push_reserved(step);
        Ok(())
    }

    /// Counts the steps, at most 131,072.
    pub fn len(&self) -> u32
        ensures value { result ≡ length self.now }
        ensures valid { IsPlan self.now }
    {
        self.steps.len() as u32
    }

    /// Returns step `n`.
    pub fn step(&self, n: u32) -> &Step
        requires { n < length self.now }
        ensures value { option_map (λ x. x.step) (slice_get self.now n) ≡ Some result.now }
        ensures valid { IsPlan self.now }
    {
        &self.steps[n as usize]
    }

    /// Returns the step's direct dependencies, strictly ascending.
    pub fn deps(&self, n: u32) -> &[u32]
        requires { n < length self.now }
        ensures value { option_map (λ x. x.after) (slice_get self.now n) ≡ Some result.now }
        ensures valid { IsPlan self.now }
    {
        self.rows.row(n as usize)
    }

    /// Returns the slot's steps, ascending.
    #[inline(always)]
    pub fn slot_steps(&self, slot: Slot) -> &[u32]
        ensures value { result.now ≡ steps_of self.now slot }
        ensures within { EachIndex result.now (λ k. slice_index result.now k < length self.now) }
        ensures valid { IsPlan self.now }
    {
        self.index.slot_numbers(slot)
    }

    /// Counts all dependencies, at most 524,288.
    pub fn dependencies(&self) -> u32
        ensures value { result ≡ dependencies self.now }
        ensures valid { IsPlan self.now }
    {
        self.rows.total() as u32
    }

    /// Whether step `b` directly depends on step `a`.
    pub fn depends(&self, a: u32, b: u32) -> bool
        requires { b < length self.now }
        ensures { result ≡ depends self.now a b }
    {
        self.deps(b).binary_search(&a).is_ok()
    }

    /// Returns the step that joins the node.
    pub fn join_of(&self, node: NodeId) -> Option<u32>
        ensures value { result ≡ join_of self.now node.0 }
        ensures within { IfSome result (λ j. j < length self.now) }
    {
        self.index.join_of(node)
    }

    /// Returns the step that retires the node.
    pub fn retirement_of(&self, node: NodeId) -> Option<u32>
        ensures value { result ≡ retirement_of self.now node.0 }
        ensures within { IfSome result (λ j. j < length self.now) }
    {
        self.index.retirement_of(node)
    }

    /// Whether some step joins the node.
    pub fn is_joined(&self, node: NodeId) -> bool
        ensures { result ≡ has node.0 (joined self.now) }
    {
        self.index.is_joined(node)
    }

    /// Whether some step retires the node.
    pub fn is_retired(&self, node: NodeId) -> bool
        ensures { result ≡ has node.0 (retired self.now) }
    {
        self.index.is_retired(node)
    }

    /// Whether the plan's nodes and slots are the ring's, no member joins, and no node joins or retires twice.
    pub fn suits(&self, ring: &Ring) -> bool
        ensures { IsTrue result ↔ Suits ring.now self.now }
    {
        self.index.all_different() && self.all_suit(ring)
    }

    fn all_suit(&self, ring: &Ring) -> bool
        ensures { result ≡ list_all (λ x. step_suits ring.now x.step) self.now }
    {
        all_suit(ring, self.steps.as_slice())
    }

    /// Whether the plan joins exactly `joins` and retires exactly `leaves`, in any order.
    pub fn fulfils(&self, joins: &[NodeId], leaves: &[NodeId]) -> bool
        ensures { result ≡ fulfils self.now joins.now leaves.now }
    {
        if !self.joins_all(joins) {
            return false;
        }
        if !self.retires_all(leaves) {
            return false;
        }
        self.names_only(joins, leaves)
    }

    fn joins_all(&self, nodes: &[NodeId]) -> bool
        ensures { result ≡ list_all (λ x. has x.0 (joined self.now)) nodes.now }
    {
        nodes.iter().all(|x| self.is_joined(*x))
    }

    fn retires_all(&self, nodes: &[NodeId]) -> bool
        ensures { result ≡ list_all (λ x. has x.0 (retired self.now)) nodes.now }
    {
        nodes.iter().all(|x| self.is_retired(*x))
    }

    fn names_only(&self, joins: &[NodeId], leaves: &[NodeId]) -> bool
        ensures { result ≡ list_all (λ x. step_names joins.now leaves.now x.step) self.now }
    {
        all_name_only(joins, leaves, self.steps.as_slice())
    }
}
