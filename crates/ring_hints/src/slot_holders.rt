//! Keepers by slot and key.

use crate::kept_for::KeptFor;
use ring_names::{NodeId, Refusal, Slot};
use std::alloc::Global;
use std::collections::{BTreeSet, HashMap};
use store_maps::{Holders, KeyId, SlotMap};

/// The keepers of each slot's keys. A search for a key sees only its keepers.
#[derive(Drop)]
pub(crate) struct SlotHolders {
    alloc: Global,
    slots: HashMap<Slot, Holders>,
}

impl SlotHolders {
    ghost use Rattle.std.specs.Prelude.{◌≡◌, ◌&&◌, ◌||◌, if◌then◌else◌, not, ℕ, true, false, Some, IfSome, IfNone, IfErr, OnOk, OnErr};
    ghost use Rattle.ring_names.specs.declared.ids.Slot.{Slot};
    ghost use Rattle.ring_names.specs.declared.refusal.Refusal.TheVariants.{OutOfMemory};
    ghost use Rattle.store_maps.specs.declared.key_id.KeyId.{KeyId};
    ghost use Rattle.store_maps.specs.Holders.{is_among};
    ghost use Rattle.store_maps.specs.Ids.{same_key};
    ghost use Rattle.store_maps.specs.Slots.{has_place_for};
    ghost use Rattle.ring_hints.specs.SlotHolders.{is_slot, holders_for, holds_for};
    ghost use Rattle.ring_hints.specs.Views.{is_of};

    pub(crate) fn new(alloc: Global) -> SlotHolders
        ensures { (s : Slot) (k : KeyId) (x : ℕ) → holds_for result s k x ≡ false }
    {
        SlotHolders {
            alloc,
            slots: HashMap::new(alloc),
        }
    }

    pub(crate) fn of(&self, slot: Slot, key: KeyId) -> Option<&BTreeSet<NodeId>>
        ensures some { IfSome result (λ nodes. (x : ℕ) → is_among x nodes.now.keys ≡ holds_for self.now slot key x) }
        ensures none { IfNone result ((x : ℕ) → holds_for self.now slot key x ≡ false) }
    {
        match self.slots.get(&slot) {
            Some(holders) => holders.of(key),
            None => None,
        }
    }

    pub(crate) fn add(&mut self, pair: KeptFor, key: KeyId) -> Result<(), Refusal>
        ensures ok { OnOk result ((s : Slot) (k : KeyId) (x : ℕ)
            → holds_for self.new s k x ≡ ((is_of pair x s && same_key key k) || holds_for self.old s k x)) }
        ensures err { OnErr result ((s : Slot) (k : KeyId) (x : ℕ)
            → holds_for self.new s k x ≡ holds_for self.old s k x) }
        ensures memory { IfErr result (λ e. e ≡ OutOfMemory) }
    {
        if let Some(holders) = self.slots.get_mut(&pair.slot) {
            return holders.add(key, pair.keeper);
        }
        let mut holders = Holders::new(self.alloc);
        holders.add(key, pair.keeper)?;
        self.put(pair.slot, holders)
    }

    fn put(&mut self, slot: Slot, holders: Holders) -> Result<(), Refusal>
        ensures ok { OnOk result ((s : Slot)
            → holders_for self.new s ≡ (if is_slot slot s then Some holders else holders_for self.old s)) }
        ensures err { OnErr result ((s : Slot) (k : KeyId) (x : ℕ)
            → holds_for self.new s k x ≡ holds_for self.old s k x) }
        ensures memory { IfErr result (λ e. e ≡ OutOfMemory) }
    {
        self.slots.insert(slot, holders)?;
        Ok(())
    }

    pub(crate) fn remove(&mut self, pair: KeptFor, key: KeyId)
        ensures { (s : Slot) (k : KeyId) (x : ℕ)
            → holds_for self.new s k x ≡ (not (is_of pair x s && same_key key k) && holds_for self.old s k x) }
    {
        if let Some(holders) = self.slots.get_mut(&pair.slot) {
            holders.remove(key, pair.keeper);
        }
    }

    /// Removes the pair's node from the keepers of the map's keys for its slot. Costs a look-up for each.
    pub(crate) fn forget(&mut self, pair: KeptFor, map: &SlotMap)
        ensures others { (s : Slot) (k : KeyId) (x : ℕ)
            → is_of pair x s ≡ false → holds_for self.new s k x ≡ holds_for self.old s k x }
        ensures gone { (k : KeyId) → has_place_for map.now k ≡ true → holds_for self.new pair.slot k pair.keeper.0 ≡ false }
        ensures stays { (k : KeyId) → has_place_for map.now k ≡ false
            → holds_for self.new pair.slot k pair.keeper.0 ≡ holds_for self.old pair.slot k pair.keeper.0 }
    {
        if let Some(holders) = self.slots.get_mut(&pair.slot) {
            holders.forget(pair.keeper, map);
        }
    }
}
