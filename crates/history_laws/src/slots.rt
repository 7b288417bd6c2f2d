//! Sets of slots.

ghost use Rattle.std.specs.Prelude.{◌≡◌, ◌||◌, false, IsTrue, OnOk};
ghost use Rattle.plan_text.specs.Steps.{is_slot};
ghost use Rattle.ring_names.specs.declared.ids.Slot.{Slot as TheSlot};
ghost use Rattle.history_laws.specs.Slots.{is_in};

use ring_names::{Refusal, Slot};
use std::alloc::Global;
use std::collections::HashSet;

/// Whether the slots are equal.
pub fn is_slot(a: Slot, b: Slot) -> bool
    ensures value { result ≡ is_slot a b }
    ensures same { IsTrue result → b ≡ a }
{
    a.partition == b.partition && a.index == b.index
}

/// A set of slots.
#[derive(Drop)]
pub struct SlotSet {
    slots: HashSet<Slot>,
}

impl SlotSet {
    /// Starts empty.
    pub fn new(alloc: Global) -> SlotSet
        ensures { (s : TheSlot) → is_in result s ≡ false }
    {
        SlotSet {
            slots: HashSet::new(alloc),
        }
    }

    /// Whether the set has the slot.
    pub fn has(&self, slot: Slot) -> bool
        ensures { result ≡ is_in self.now slot }
    {
        self.slots.contains(&slot)
    }

    /// Adds the slot.
    pub fn add(&mut self, slot: Slot) -> Result<(), Refusal>
        ensures { OnOk result ((s : TheSlot) → is_in self.new s ≡ (is_slot s slot || is_in self.old s)) }
    {
        self.slots.insert(slot)?;
        Ok(())
    }
}
