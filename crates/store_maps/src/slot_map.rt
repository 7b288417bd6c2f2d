//! The keys of one slot.

ghost use Rattle.std.specs.List.Sorted.{IsStrictlySortedBy-prop};
ghost use Rattle.std.specs.Map.{keys_of};
ghost use Rattle.std.specs.Ordering.{nat_cmp};
ghost use Rattle.store_maps.specs.Chunks.{AreNarrow, IsBare};
ghost use Rattle.store_maps.specs.Sorted.{Ascends, IsThere};

use crate::key_id::KeyId;
use crate::key_map::KeyMap;
use crate::lists::{lengthen, place_of};
use ring_names::Refusal;
use ring_versions::Versions;
use std::alloc::Global;

/// The versions of a slot's keys, by chunk. A chunk that got nothing has no map. Refused calls change nothing visible.
#[derive(Drop)]
pub struct SlotMap {
    alloc: Global,
    // Read for a chunk without a map.
    empty: KeyMap,
    // By chunk, ascending.
    chunks: Vec<(u32, KeyMap)>,
    ghost order: { Ascends nat_cmp chunks.items } by { IsStrictlySortedBy-prop nat_cmp (keys_of chunks.items) },
    ghost narrow: { AreNarrow chunks.items },
    ghost bare: { IsBare empty },
}

#[tactic(auto, unfolding(crate::specs::Slots::held_for, crate::specs::Slots::has_place_for))]
impl SlotMap {
    ghost use Rattle.std.specs.Prelude.{◌≡◌, ◌≢◌, ◌↔◌, ◌⊎◌, ◌<◌, ℕ, true, false, [], IsTrue, IfSome, IfNone, IfOk};
    ghost use Rattle.std.specs.Prelude.{IfErr, OnOk, OnErr};
    ghost use Rattle.ring_names.specs.declared.refusal.Refusal.TheVariants.{OutOfMemory};
    ghost use Rattle.store_maps.specs.Held.{held, has_place};
    ghost use Rattle.store_maps.specs.Ids.{id};
    ghost use Rattle.store_maps.specs.Merges.{MergesAll, at_key};
    ghost use Rattle.store_maps.specs.Slots.{held_for, has_place_for};
    ghost use Rattle.store_maps.specs.declared.key_id.KeyId.{KeyId};

    /// Returns an empty map.
    pub fn new(alloc: Global) -> SlotMap
        ensures versions { (k : KeyId) → held_for result k ≡ [] }
        ensures places { (k : KeyId) → has_place_for result k ≡ false }
    {
        SlotMap {
            alloc,
            empty: KeyMap::new(alloc),
            chunks: Vec::new(alloc),
        }
    }

    // Finds or adds the chunk's map.
    fn open(&mut self, chunk: u32) -> Result<usize, Refusal>
        requires { chunk < 16 }
        ensures same { (k : KeyId) → held_for self.new k ≡ held_for self.old k }
        ensures places { (k : KeyId) → has_place_for self.new k ≡ has_place_for self.old k }
        ensures at { IfOk result (IsThere nat_cmp chunk self.new.chunks.items) }
        ensures memory { IfErr result (λ e. e ≡ OutOfMemory) }
    {
        match place_of(self.chunks.as_slice(), &chunk) {
            Ok(place) => Ok(place),
            Err(place) => {
                lengthen(&mut self.chunks)?;
                self.chunks.insert(place, (chunk, KeyMap::new(self.alloc)))?;
                Ok(place)
            }
        }
    }

    /// Returns the map of a chunk.
    pub fn chunk(&self, chunk: u32) -> &KeyMap
        ensures same { (n : ℕ) → held result.now n ≡ held_for self.now (id chunk n) }
        ensures places { (n : ℕ) → has_place result.now n ≡ has_place_for self.now (id chunk n) }
    {
        match place_of(self.chunks.as_slice(), &chunk) {
            Ok(place) => &self.chunks[place].1,
            Err(_) => &self.empty,
        }
    }

    /// Returns the key's versions.
    pub fn key_versions(&self, key: KeyId) -> Option<&Versions>
        ensures some { IfSome result (λ v. (v.now ≡ held_for self.now key) × (v.now ≢ [])) }
        ensures none { IfNone result (held_for self.now key ≡ []) }
    {
        self.chunk(key.chunk).key_versions(key.number)
    }

    /// Merges at one key. Never makes an empty place.
    pub fn merge(&mut self, key: KeyId, more: &Versions) -> Result<(), Refusal>
        requires { key.chunk < 16 }
        ensures ok { OnOk result (MergesAll (held_for self.old) (at_key key more.now) (held_for self.new)) }
        ensures err { OnErr result ((k : KeyId) → held_for self.new k ≡ held_for self.old k) }
        ensures stays { (k : KeyId) → has_place_for self.old k ≡ true → has_place_for self.new k ≡ true }
        ensures filled { (k : KeyId) → has_place_for self.new k ≡ true
            → (has_place_for self.old k ≡ true) ⊎ (held_for self.new k ≢ []) }
        ensures places { OnErr result ((k : KeyId) → has_place_for self.new k ≡ has_place_for self.old k) }
        ensures memory { IfErr result (λ e. e ≡ OutOfMemory) }
    {
        if more.is_empty() {
            return Ok(());
        }
        let place = self.open(key.chunk)?;
        self.chunks[place].1.merge(key.number, more)
    }

    /// Whether no key has a place, for maps without empty places.
    pub fn is_empty(&self) -> bool
        ensures { IsTrue result ↔ ((k : KeyId) → has_place_for self.now k ≡ false) }
    {
        'chunks: for chunk in 0..16u32 {
            if !self.chunk(chunk).is_empty() {
                return false;
            }
        }
        true
    }
}
