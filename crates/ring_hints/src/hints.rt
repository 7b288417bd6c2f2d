//! The hints of all keepers.

ghost use Rattle.ring_hints.specs.Held.{AreHeld, AreHeld-prop};

use crate::kept_for::KeptFor;
use crate::maps::Maps;
use crate::slot_holders::SlotHolders;
use ring_names::{NodeId, Refusal, Slot};
use ring_versions::Versions;
use std::alloc::Global;
use std::collections::BTreeSet;
use store_maps::{KeyId, KeyMap, SlotMap};

/// Versions that stand-ins keep for slots with unreachable nodes, by keeper, slot and key. Refused calls change nothing
/// visible.
///
/// A look-up takes logarithmic time in pairs and the chunk's keys.
#[derive(Drop)]
pub struct Hints {
    kept: Maps,
    holders: SlotHolders,
    ghost held: { AreHeld kept holders } by { AreHeld-prop kept holders },
}

impl Hints {
    ghost use Rattle.std.specs.Prelude.{◌≡◌, ◌≢◌, ◌↔◌, ◌≤◌, ◌<◌, ◌+◌, ℕ, true, false, [], ◌∷◌, List, is_some};
    ghost use Rattle.std.specs.Prelude.{slice_get, option_map, if◌then◌else◌};
    ghost use Rattle.std.specs.Prelude.{IfSome, IfNone, IfErr, OnOk, OnErr};
    ghost use Rattle.ring_names.specs.declared.ids.Slot.{Slot};
    ghost use Rattle.ring_names.specs.declared.refusal.Refusal.TheVariants.{OutOfMemory};
    ghost use Rattle.store_maps.specs.declared.key_id.KeyId.{KeyId};
    ghost use Rattle.store_maps.specs.Held.{held, has_place};
    ghost use Rattle.store_maps.specs.Ids.{id};
    ghost use Rattle.store_maps.specs.Merges.{at_key};
    ghost use Rattle.store_maps.specs.Slots.{held_for};
    ghost use Rattle.ring_hints.specs.Hints.{hinted_at, kept_count, kept_pairs};
    ghost use Rattle.ring_hints.specs.Hints.{AddsHints, AreSameHints, Keeps, TakesHints};
    ghost use Rattle.ring_hints.specs.Views.{pair_of, in_keepers};

    /// Returns an empty map.
    pub fn new(alloc: Global) -> Hints
        ensures { (x : ℕ) (s : Slot) (k : KeyId) → hinted_at result x s k ≡ [] }
    {
        Hints {
            kept: Maps::new(alloc),
            holders: SlotHolders::new(alloc),
        }
    }

    /// Whether the node keeps anything for the slot. Costs one look-up.
    pub fn keeps(&self, keeper: NodeId, slot: Slot) -> bool
        ensures { (result ≡ false) ↔ ((k : KeyId) → hinted_at self.now keeper.0 slot k ≡ []) }
    {
        self.kept.keeps(keeper, slot)
    }

    /// Whether the node keeps anything for any slot.
    pub fn keeps_any(&self, keeper: NodeId) -> bool
        ensures { (result ≡ false) ↔ ((s : Slot) (k : KeyId) → hinted_at self.now keeper.0 s k ≡ []) }
    {
        self.kept.keeps_any(keeper)
    }

    /// Whether the node keeps anything for the partition's other slots. Costs at most seven look-ups.
    pub fn keeps_other(&self, keeper: NodeId, slot: Slot) -> bool
        ensures { (result ≡ false) ↔ ((s : Slot) → s.partition ≡ slot.partition → s.index ≢ slot.index → (k : KeyId)
            → hinted_at self.now keeper.0 s k ≡ []) }
    {
        self.kept.keeps_other(keeper, slot)
    }

    /// Returns the key's versions that the pair's node keeps for its slot.
    pub fn key_versions_in(&self, pair: KeptFor, key: KeyId) -> Option<&Versions>
        ensures some { IfSome result
            (λ v. (v.now ≡ hinted_at self.now pair.keeper.0 pair.slot key) × (v.now ≢ [])) }
        ensures none { IfNone result (hinted_at self.now pair.keeper.0 pair.slot key ≡ []) }
    {
        self.kept.key_versions_in(pair, key)
    }

    /// Returns the nodes that keep anything for the slot, ascending.
    pub fn keepers(&self, slot: Slot) -> Option<&BTreeSet<NodeId>>
        ensures some { IfSome result (λ nodes. (x : ℕ)
            → (in_keepers x nodes.now.keys ≡ false) ↔ ((k : KeyId) → hinted_at self.now x slot k ≡ [])) }
        ensures none { IfNone result ((x : ℕ) (k : KeyId) → hinted_at self.now x slot k ≡ []) }
    {
        self.kept.keepers(slot)
    }

    /// Returns the n-th pair. The order stays until something is added or taken.
    pub fn nth(&self, n: u32) -> Option<(NodeId, Slot)>
        ensures value { result ≡ option_map (λ pair. (pair.keeper, pair.slot)) (slice_get (kept_pairs self.now) n) }
        ensures some { IfSome result (λ pair. Keeps self.now pair.0.0 pair.1) }
        ensures none { IfNone result (kept_count self.now ≤ n) }
    {
        self.kept.nth(n)
    }

    /// Returns all that the pair's node keeps for its slot.
    pub fn map(&self, pair: KeptFor) -> Option<&SlotMap>
        ensures some { IfSome result
            (λ m. (k : KeyId) → held_for m.now k ≡ hinted_at self.now pair.keeper.0 pair.slot k) }
        ensures none { IfNone result ((k : KeyId) → hinted_at self.now pair.keeper.0 pair.slot k ≡ []) }
    {
        self.kept.map(pair)
    }

    /// Returns a chunk's map that the pair's node keeps for its slot, if anything.
    pub fn chunk_map(&self, pair: KeptFor, chunk: u32) -> Option<&KeyMap>
        ensures some { IfSome result
            (λ m. (n : ℕ) → held m.now n ≡ hinted_at self.now pair.keeper.0 pair.slot (id chunk n)) }
        ensures filled { IfSome result (λ m. (n : ℕ) → has_place m.now n ≡ true → held m.now n ≢ []) }
        ensures none { IfNone result ((n : ℕ) → hinted_at self.now pair.keeper.0 pair.slot (id chunk n) ≡ []) }
    {
        self.kept.chunk_map(pair, chunk)
    }

    /// Whether the node keeps anything of a chunk for the slot. Costs one look-up.
    pub fn keeps_chunk(&self, keeper: NodeId, slot: Slot, chunk: u32) -> bool
        ensures { (result ≡ false) ↔ ((n : ℕ) → hinted_at self.now keeper.0 slot (id chunk n) ≡ []) }
    {
        self.kept.keeps_chunk(keeper, slot, chunk)
    }

    /// Returns the key's keepers for the slot, ascending. Looks at no other keeper.
    pub fn key_keepers(&self, slot: Slot, key: KeyId) -> Option<&BTreeSet<NodeId>>
        ensures some { IfSome result (λ nodes. (x : ℕ)
            → (in_keepers x nodes.now.keys ≡ false) ↔ (hinted_at self.now x slot key ≡ [])) }
        ensures none { IfNone result ((x : ℕ) → hinted_at self.now x slot key ≡ []) }
    {
        self.holders.of(slot, key)
    }

    /// Merges a key's versions into what the pair's node keeps for its slot.
    pub fn add_set(&mut self, pair: KeptFor, key: KeyId, more: &Versions) -> Result<(), Refusal>
        requires chunk { key.chunk < 16 }
        requires some { more.now ≢ [] }
        requires few { pair.slot.index < 7 }
        ensures ok { OnOk result (AddsHints self.old self.new pair (at_key key more.now)) }
        ensures err { OnErr result (AreSameHints self.old self.new) }
        ensures memory { IfErr result (λ e. e ≡ OutOfMemory) }
    {
        let had = self.kept.key_versions_in(pair, key).is_some();
        self.holders.add(pair, key)?;
        let added = self.kept.add_set(pair, key, more);
        if added.is_err() && !had {
            self.holders.remove(pair, key);
        }
        added
    }

    /// Removes and returns what the node keeps for the slot. Costs a look-up for each key.
    pub fn take(&mut self, keeper: NodeId, slot: Slot) -> Option<SlotMap>
        ensures some { IfSome result (λ m. (k : KeyId) → held_for m k ≡ hinted_at self.old keeper.0 slot k) }
        ensures none { IfNone result ((k : KeyId) → hinted_at self.old keeper.0 slot k ≡ []) }
        ensures after { TakesHints self.old self.new (pair_of keeper.0 slot) }
        ensures count { kept_count self.new + (if is_some result then 1 else 0) ≡ kept_count self.old }
    {
        let taken = self.kept.take(keeper, slot);
        if let Some(map) = &taken {
            self.holders.forget(KeptFor { keeper, slot }, map);
        }
        taken
    }

    /// Removes all that the node keeps.
    pub fn drop_keeper(&mut self, keeper: NodeId)
        ensures gone { (s : Slot) (k : KeyId) → hinted_at self.new keeper.0 s k ≡ [] }
        ensures others { (x : ℕ) (s : Slot) (k : KeyId) → x ≢ keeper.0
            → hinted_at self.new x s k ≡ hinted_at self.old x s k }
    {
        'slots: while let Some(slot) = self.kept.slot_of(keeper) {
            self.take(keeper, slot);
        }
    }
}
