//! The maps of all keepers.

ghost use Rattle.ring_hints.specs.Kept.{AreKept, AreKept-prop, ArePaired};

use crate::kept_for::KeptFor;
use crate::pairs::Pairs;
use ring_names::{NodeId, Refusal, Slot};
use ring_versions::Versions;
use std::alloc::Global;
use std::collections::{BTreeMap, BTreeSet};
use store_maps::{KeyId, KeyMap, SlotMap};

/// A map for each keeper and slot. Methods and costs are those of `Hints`.
#[derive(Drop)]
pub(crate) struct Maps {
    alloc: Global,
    pairs: Pairs,
    maps: BTreeMap<KeptFor, SlotMap>,
    ghost paired: { ArePaired pairs maps },
    ghost kept: { AreKept maps } by { AreKept-prop maps },
}

impl Maps {
    ghost use Rattle.std.specs.Prelude.{◌≡◌, ◌≢◌, ◌↔◌, ◌≤◌, ◌<◌, ◌+◌, ℕ, true, false, [], ◌∷◌, List, Some, None, is_some};
    ghost use Rattle.std.specs.Prelude.{slice_get, option_map, if◌then◌else◌};
    ghost use Rattle.std.specs.Prelude.{IfSome, IfNone, IfErr, OnOk, OnErr};
    ghost use Rattle.ring_names.specs.declared.ids.Slot.{Slot};
    ghost use Rattle.ring_names.specs.declared.refusal.Refusal.TheVariants.{OutOfMemory};
    ghost use Rattle.store_maps.specs.declared.key_id.KeyId.{KeyId};
    ghost use Rattle.store_maps.specs.Held.{held, has_place};
    ghost use Rattle.store_maps.specs.Ids.{id};
    ghost use Rattle.store_maps.specs.Merges.{at_key};
    ghost use Rattle.store_maps.specs.Slots.{held_for};
    ghost use Rattle.ring_hints.specs.Maps.{hinted_at, kept_count, kept_pairs};
    ghost use Rattle.ring_hints.specs.Maps.{AddsHints, AreSameHints, Keeps, TakesHints};
    ghost use Rattle.ring_hints.specs.Kept.{map_of, IsKept, PutsMap};
    ghost use Rattle.ring_hints.specs.Views.{pair_of, in_keepers};

    pub(crate) fn new(alloc: Global) -> Maps
        ensures { (x : ℕ) (s : Slot) (k : KeyId) → hinted_at result x s k ≡ [] }
    {
        Maps {
            alloc,
            pairs: Pairs::new(alloc),
            maps: BTreeMap::new(alloc),
        }
    }

    pub(crate) fn keeps(&self, keeper: NodeId, slot: Slot) -> bool
        ensures { (result ≡ false) ↔ ((k : KeyId) → hinted_at self.now keeper.0 slot k ≡ []) }
    {
        self.pairs.has(KeptFor { keeper, slot })
    }

    pub(crate) fn keeps_any(&self, keeper: NodeId) -> bool
        ensures { (result ≡ false) ↔ ((s : Slot) (k : KeyId) → hinted_at self.now keeper.0 s k ≡ []) }
    {
        self.pairs.has_keeper(keeper)
    }

    pub(crate) fn keeps_other(&self, keeper: NodeId, slot: Slot) -> bool
        ensures { (result ≡ false) ↔ ((s : Slot) → s.partition ≡ slot.partition → s.index ≢ slot.index → (k : KeyId)
            → hinted_at self.now keeper.0 s k ≡ []) }
    {
        let partition = slot.partition;
        'indexes: for index in 0..7u32 {
            if index != slot.index && self.keeps(keeper, Slot { partition, index }) {
                return true;
            }
        }
        false
    }

    pub(crate) fn key_versions_in(&self, pair: KeptFor, key: KeyId) -> Option<&Versions>
        ensures some { IfSome result
            (λ v. (v.now ≡ hinted_at self.now pair.keeper.0 pair.slot key) × (v.now ≢ [])) }
        ensures none { IfNone result (hinted_at self.now pair.keeper.0 pair.slot key ≡ []) }
    {
        match self.maps.get(&pair) {
            Some(map) => map.key_versions(key),
            None => None,
        }
    }

    pub(crate) fn keepers(&self, slot: Slot) -> Option<&BTreeSet<NodeId>>
        ensures some { IfSome result (λ nodes. (x : ℕ)
            → (in_keepers x nodes.now.keys ≡ false) ↔ ((k : KeyId) → hinted_at self.now x slot k ≡ [])) }
        ensures none { IfNone result ((x : ℕ) (k : KeyId) → hinted_at self.now x slot k ≡ []) }
    {
        self.pairs.keepers(slot)
    }

    pub(crate) fn nth(&self, n: u32) -> Option<(NodeId, Slot)>
        ensures value { result ≡ option_map (λ pair. (pair.keeper, pair.slot)) (slice_get (kept_pairs self.now) n) }
        ensures some { IfSome result (λ pair. Keeps self.now pair.0.0 pair.1) }
        ensures none { IfNone result (kept_count self.now ≤ n) }
    {
        match self.pairs.nth(n) {
            Some(pair) => Some((pair.keeper, pair.slot)),
            None => None,
        }
    }

    pub(crate) fn map(&self, pair: KeptFor) -> Option<&SlotMap>
        ensures some { IfSome result
            (λ m. (k : KeyId) → held_for m.now k ≡ hinted_at self.now pair.keeper.0 pair.slot k) }
        ensures none { IfNone result ((k : KeyId) → hinted_at self.now pair.keeper.0 pair.slot k ≡ []) }
    {
        self.maps.get(&pair)
    }

    pub(crate) fn chunk_map(&self, pair: KeptFor, chunk: u32) -> Option<&KeyMap>
        ensures some { IfSome result
            (λ m. (n : ℕ) → held m.now n ≡ hinted_at self.now pair.keeper.0 pair.slot (id chunk n)) }
        ensures filled { IfSome result (λ m. (n : ℕ) → has_place m.now n ≡ true → held m.now n ≢ []) }
        ensures none { IfNone result ((n : ℕ) → hinted_at self.now pair.keeper.0 pair.slot (id chunk n) ≡ []) }
    {
        match self.maps.get(&pair) {
            Some(map) => Some(map.chunk(chunk)),
            None => None,
        }
    }

    pub(crate) fn keeps_chunk(&self, keeper: NodeId, slot: Slot, chunk: u32) -> bool
        ensures { (result ≡ false) ↔ ((n : ℕ) → hinted_at self.now keeper.0 slot (id chunk n) ≡ []) }
    {
        match self.chunk_map(KeptFor { keeper, slot }, chunk) {
            Some(map) => !map.is_empty(),
            None => false,
        }
    }

    fn put(&mut self, pair: KeptFor, map: SlotMap) -> Result<(), Refusal>
        requires absent { map_of self.old.maps pair ≡ None }
        requires kept { IsKept pair map }
        ensures ok { OnOk result (PutsMap self.old.maps self.new.maps pair (Some map)) }
        ensures err { OnErr result (AreSameHints self.old self.new) }
        ensures memory { IfErr result (λ e. e ≡ OutOfMemory) }
    {
        self.maps.insert(pair, map)?;
        if let Err(refusal) = self.pairs.add(pair) {
            self.maps.remove(&pair);
            return Err(refusal);
        }
        Ok(())
    }

    pub(crate) fn add_set(
        &mut self,
        pair: KeptFor,
        key: KeyId,
        more: &Versions,
    ) -> Result<(), Refusal>
        requires chunk { key.chunk < 16 }
        requires some { more.now ≢ [] }
        requires few { pair.slot.index < 7 }
        ensures ok { OnOk result (AddsHints self.old self.new pair (at_key key more.now)) }
        ensures err { OnErr result (AreSameHints self.old self.new) }
        ensures memory { IfErr result (λ e. e ≡ OutOfMemory) }
    {
        if let Some(map) = self.maps.get_mut(&pair) {
            return map.merge(key, more);
        }
        let mut map = SlotMap::new(self.alloc);
        map.merge(key, more)?;
        self.put(pair, map)
    }

    pub(crate) fn take(&mut self, keeper: NodeId, slot: Slot) -> Option<SlotMap>
        ensures some { IfSome result (λ m. (k : KeyId) → held_for m k ≡ hinted_at self.old keeper.0 slot k) }
        ensures none { IfNone result ((k : KeyId) → hinted_at self.old keeper.0 slot k ≡ []) }
        ensures after { TakesHints self.old self.new (pair_of keeper.0 slot) }
        ensures count { kept_count self.new + (if is_some result then 1 else 0) ≡ kept_count self.old }
    {
        let pair = KeptFor { keeper, slot };
        self.pairs.remove(pair);
        self.maps.remove(&pair)
    }

    pub(crate) fn slot_of(&self, keeper: NodeId) -> Option<Slot>
        ensures some { IfSome result (λ s. Keeps self.now keeper.0 s) }
        ensures none { IfNone result ((s : Slot) (k : KeyId) → hinted_at self.now keeper.0 s k ≡ []) }
    {
        self.pairs.slot_of(keeper)
    }
}
