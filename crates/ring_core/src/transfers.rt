//! A node's open copies.

use crate::world::World;
use plan_text::{Source, Step};
use ring_names::{NodeId, Slot};
use ring_table::Side;

impl<'a> World<'a> {
    ghost use Rattle.std.specs.Prelude.{◌≡◌, ℕ, ◌<◌, ◌≤◌, false, length, Some, None};
    ghost use Rattle.std.specs.List.{list_any};
    ghost use Rattle.ring_table.specs.declared.allowance.Side.TheVariants.{Both, Take, Give};
    ghost use Rattle.ring_table.specs.Value.{allowance_of};
    ghost use Rattle.plan_stage.specs.Parties.{source_slots};
    ghost use Rattle.plan_check.specs.Safe.{open_copies, takes_part_now};
    ghost use Rattle.plan_runs.specs.World.{World as TheWorld, copy_at, passing_below, slot_at};
    ghost use Rattle.ring_core.specs.Transfers.{owns_kept, mirrors_kept, part_kept, is_open_kept};
    ghost use Rattle.ring_core.specs.World.{ring_of, plan_of, Meets};

    fn owns(&self, slot: Slot, node: NodeId) -> bool
        ensures { result ≡ owns_kept self.now.parts.slots node.0 slot }
    {
        match self.parts.slots.owner(slot) {
            Some(owner) => node.0 == owner.0,
            None => false,
        }
    }

    fn mirrors(&self, slot: Slot, node: NodeId) -> bool
        ensures { result ≡ mirrors_kept self.now.parts.slots node.0 slot }
    {
        let Some(now) = self.parts.slots.at(slot) else {
            return false;
        };
        match now.mirror {
            Some(mirror) => node.0 == mirror.0,
            None => false,
        }
    }

    fn owns_at(&self, partition: u32, index: u8, node: NodeId) -> bool
        ensures { result ≡ owns_kept self.now.parts.slots node.0 (slot_at partition index) }
    {
        let index = u32::from(index);
        self.owns(Slot { partition, index }, node)
    }

    fn owns_some(&self, partition: u32, indexes: &[u8], node: NodeId) -> bool
        ensures { result ≡ list_any (λ i. owns_kept self.now.parts.slots node.0 (slot_at partition i)) indexes.now }
    {
        indexes
            .iter()
            .any(|index| self.owns_at(partition, *index, node))
    }

    fn gives(&self, slot: Slot, from: &Source, node: NodeId) -> bool
        ensures { result ≡ list_any (owns_kept self.now.parts.slots node.0) (source_slots slot from.now) }
    {
        match from {
            Source::Owner => self.owns(slot, node),
            Source::Slots(indexes) => self.owns_some(slot.partition, indexes.as_slice(), node),
        }
    }

    fn takes_part(&self, slot: Slot, from: &Source, node: NodeId, side: Side) -> bool
        ensures { result ≡ part_kept self.now.parts.slots node.0 side slot from.now }
    {
        match side {
            Side::Both => self.mirrors(slot, node) || self.gives(slot, from, node),
            Side::Take => self.mirrors(slot, node),
            Side::Give => self.gives(slot, from, node),
        }
    }

    fn is_open_part(&self, step: u32, node: NodeId, side: Side) -> bool
        requires { step < length (plan_of self.now) }
        ensures { result ≡ is_open_kept (plan_of self.now) self.now.parts.steps self.now.parts.slots node.0 side step }
    {
        if !self.parts.steps.is_open(step) {
            return false;
        }
        match self.parts.approved.plan().step(step) {
            Step::Copy(slot, from) => self.takes_part(*slot, from, node, side),
            _ => false,
        }
    }

    #[tactic(auto, using(store_parts::proofs::Counting::count_next, store_parts::proofs::Counting::count_most))]
    fn transfers(&self, node: NodeId, side: Side) -> u32
        ensures { result ≡ length (passing_below (length (plan_of self.now))
            (is_open_kept (plan_of self.now) self.now.parts.steps self.now.parts.slots node.0 side)) }
    {
        let steps = self.parts.approved.plan().len();
        let mut count = 0;
        for step in 0..steps {
            if self.is_open_part(step, node, side) {
                count += 1;
            }
        }
        count
    }

    /// Counts the node's open copies: at most its joint allowance, if any. Looks at each step.
    pub fn open_transfers(&self, node: NodeId) -> u32
        ensures most { (a : ℕ) → allowance_of (ring_of self.now) node.0 Both ≡ Some a → result ≤ a }
        ensures now { (w : TheWorld) → Meets self.now w
            → result ≡ open_copies (plan_of self.now) w
            (takes_part_now (ring_of self.now) (plan_of self.now) w node.0 Both) }
    {
        self.transfers(node, Side::Both)
    }

    /// Counts the open copies to the node: at most the allowance for them, if any. Looks at each step.
    pub fn open_take(&self, node: NodeId) -> u32
        ensures most { (a : ℕ) → allowance_of (ring_of self.now) node.0 Take ≡ Some a → result ≤ a }
        ensures now { (w : TheWorld) → Meets self.now w
            → result ≡ open_copies (plan_of self.now) w
            (takes_part_now (ring_of self.now) (plan_of self.now) w node.0 Take) }
    {
        self.transfers(node, Side::Take)
    }

    /// Counts the open copies from the node: at most the allowance for them, if any. Looks at each step.
    pub fn open_give(&self, node: NodeId) -> u32
        ensures most { (a : ℕ) → allowance_of (ring_of self.now) node.0 Give ≡ Some a → result ≤ a }
        ensures now { (w : TheWorld) → Meets self.now w
            → result ≡ open_copies (plan_of self.now) w
            (takes_part_now (ring_of self.now) (plan_of self.now) w node.0 Give) }
    {
        self.transfers(node, Side::Give)
    }
}
