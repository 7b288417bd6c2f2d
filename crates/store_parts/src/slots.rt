//! A running store's slots.

ghost use Rattle.std.specs.Prelude.{◌≡◌, ◌+◌, ◌<◌, map, option_map, slice_get, slice_set, Some, None, IfOk, IfErr};
ghost use Rattle.std.specs.Prelude.{IfSome};
ghost use Rattle.ring_names.specs.declared.ids.Slot.{Slot as TheSlot};
ghost use Rattle.ring_names.specs.declared.refusal.Refusal.TheVariants.{OutOfMemory};
ghost use Rattle.ring_table.specs.Value.{owner_of};
ghost use Rattle.store_parts.specs.Slots.{slot_at_start, slot_now, switched, ChangesSlot};

use ring_names::{NodeId, Refusal, Slot};
use ring_table::Ring;
use std::alloc::Global;
use std::marker::Model;

/// A slot's state.
#[derive(Clone, Copy, Debug, PartialEq, Eq)]
pub struct SlotNow {
    /// The node that serves it.
    pub owner: NodeId,
    /// The node that also takes its writes, and owns it after the switch.
    pub mirror: Option<NodeId>,
    /// How many mirrors the slot had, plus how often a node of its group lost its data.
    pub generation: u32,
}

impl SlotNow {
    fn switched(self) -> SlotNow
        ensures { result ≡ switched self }
    {
        match self.mirror {
            Some(owner) => SlotNow {
                owner,
                mirror: None,
                generation: self.generation,
            },
            None => self,
        }
    }
}

#[derive(Drop)]
struct SlotRow {
    slots: Vec<SlotNow>,
}

impl Model for SlotRow {
    ghost use Rattle.std.specs.Prelude.{List};
    ghost use Rattle.store_parts.specs.declared.slots.SlotNow.{SlotNow};

    ghost Value = { List SlotNow };

    ghost view = { λ a. a.slots.items };
}

impl SlotRow {
    fn start(alloc: Global, owners: &[NodeId]) -> Result<SlotRow, Refusal>
        ensures start { IfOk result (λ row. row ≡ map slot_at_start owners.now) }
        ensures memory { IfErr result (λ e. e ≡ OutOfMemory) }
    {
        let mut slots = Vec::with_capacity(alloc, owners.len())?;
        for owner in owners {
            slots.push_reserved(SlotNow {
                owner: *owner,
                mirror: None,
                generation: 0,
            });
        }
        Ok(SlotRow { slots })
    }

    fn at(&self, index: u32) -> Option<SlotNow>
        ensures { result ≡ slice_get self.now index }
    {
        self.slots.get(index as usize).copied()
    }

    fn put(&mut self, index: u32, now: SlotNow)
        ensures { self.new ≡ slice_set self.old index now }
    {
        let place = index as usize;
        if place < self.slots.len() {
            self.slots[place] = now;
        }
    }
}

/// A ring's slots, by partition and index. Each call except `start` costs at most two look-ups.
#[derive(Drop)]
pub struct Slots {
    rows: Vec<SlotRow>,
}

impl Model for Slots {
    ghost use Rattle.std.specs.Prelude.{List};
    ghost use Rattle.store_parts.specs.declared.slots.SlotNow.{SlotNow};

    ghost Value = { List (List SlotNow) };

    ghost view = { λ a. a.rows.items };
}

impl Slots {
    /// Returns the slots before a plan: the ring's owners, no mirrors, generation 0.
    pub fn start(alloc: Global, ring: &Ring) -> Result<Slots, Refusal>
        ensures start { IfOk result
            (λ slots. (t : TheSlot) → slot_now slots t ≡ option_map slot_at_start (owner_of ring.now t)) }
        ensures memory { IfErr result (λ e. e ≡ OutOfMemory) }
    {
        let mut rows = Vec::with_capacity(alloc, ring.rows().len())?;
        for owners in ring.rows() {
            rows.push_reserved(SlotRow::start(alloc, owners.as_slice())?);
        }
        Ok(Slots { rows })
    }

    /// Returns the slot's state, if the ring has the slot.
    pub fn at(&self, slot: Slot) -> Option<SlotNow>
        ensures { result ≡ slot_now self.now slot }
    {
        match self.rows.get(slot.partition as usize) {
            Some(row) => row.at(slot.index),
            None => None,
        }
    }

    /// Returns the slot's owner, if the ring has the slot.
    pub fn owner(&self, slot: Slot) -> Option<NodeId>
        ensures { result ≡ option_map (λ x. x.owner) (slot_now self.now slot) }
    {
        match self.at(slot) {
            Some(now) => Some(now.owner),
            None => None,
        }
    }

    fn put(&mut self, slot: Slot, now: SlotNow)
        ensures { ChangesSlot self.old self.new slot (λ x. now) }
    {
        let place = slot.partition as usize;
        if place < self.rows.len() {
            self.rows[place].put(slot.index, now);
        }
    }

    /// Sets the slot's mirror.
    pub fn set_mirror(&mut self, slot: Slot, node: NodeId)
        ensures { ChangesSlot self.old self.new slot (λ x. record x { mirror = Some node }) }
    {
        if let Some(mut now) = self.at(slot) {
            now.mirror = Some(node);
            self.put(slot, now);
        }
    }

    /// Makes the slot's mirror, if any, its owner.
    pub fn switch(&mut self, slot: Slot)
        ensures { ChangesSlot self.old self.new slot switched }
    {
        if let Some(now) = self.at(slot) {
            self.put(slot, now.switched());
        }
    }

    /// Raises the slot's generation by one.
    pub fn raise(&mut self, slot: Slot)
        requires { IfSome (slot_now self.old slot) (λ x. x.generation < 4294967295) }
        ensures { ChangesSlot self.old self.new slot (λ x. record x { generation = x.generation + 1 }) }
    {
        if let Some(mut now) = self.at(slot) {
            now.generation += 1;
            self.put(slot, now);
        }
    }
}
