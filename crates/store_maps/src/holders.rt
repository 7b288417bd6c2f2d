//! Which nodes have versions of which keys.

use crate::key_id::KeyId;
use crate::key_map::KeyMap;
use crate::key_tree::KeyTree;
use crate::slot_map::SlotMap;
use ring_names::{NodeId, Refusal};
use std::alloc::Global;
use std::collections::{BTreeMap, BTreeSet};

/// For each key, the nodes that have it. A look-up takes logarithmic time.
#[derive(Drop)]
pub struct Holders {
    alloc: Global,
    sets: BTreeMap<KeyId, BTreeSet<NodeId>>,
}

impl Holders {
    ghost use Rattle.std.specs.Prelude.{◌≡◌, ◌≢◌, ◌&&◌, ◌||◌, ◌==◌, ◌<◌, not, ℕ, true, false, [], IfSome, IfNone, IfOk, IfErr};
    ghost use Rattle.std.specs.Prelude.{OnOk, OnErr};
    ghost use Rattle.ring_names.specs.declared.refusal.Refusal.TheVariants.{OutOfMemory};
    ghost use Rattle.store_maps.specs.Held.{map_entry, has_place};
    ghost use Rattle.store_maps.specs.Holders.{key_cmp, holders_at, holds};
    ghost use Rattle.store_maps.specs.Ids.{is_in, same_key};
    ghost use Rattle.store_maps.specs.Slots.{has_place_for};
    ghost use Rattle.store_maps.specs.Sorted.{PutsAt};
    ghost use Rattle.store_maps.specs.Trees.{has_entry};
    ghost use Rattle.store_maps.specs.declared.key_id.KeyId.{KeyId};

    /// Returns an empty map.
    pub fn new(alloc: Global) -> Holders
        ensures { (k : KeyId) → holders_at result k ≡ [] }
    {
        Holders {
            alloc,
            sets: BTreeMap::new(alloc),
        }
    }

    /// Returns the nodes of the key, ascending.
    pub fn of(&self, key: KeyId) -> Option<&BTreeSet<NodeId>>
        ensures some { IfSome result (λ nodes. nodes.now.keys ≡ holders_at self.now key) }
        ensures none { IfNone result (holders_at self.now key ≡ []) }
    {
        self.sets.get(&key)
    }

    fn put(&mut self, key: KeyId, nodes: BTreeSet<NodeId>) -> Result<(), Refusal>
        ensures ok { OnOk result (PutsAt key_cmp self.old.sets.entries self.new.sets.entries key nodes) }
        ensures err { OnErr result (self.new.sets.entries ≡ self.old.sets.entries) }
        ensures memory { IfErr result (λ e. e ≡ OutOfMemory) }
    {
        self.sets.insert(key, nodes)?;
        Ok(())
    }

    /// Adds the node to the key's nodes.
    pub fn add(&mut self, key: KeyId, node: NodeId) -> Result<(), Refusal>
        ensures ok { OnOk result ((k : KeyId) (x : ℕ)
            → holds self.new k x ≡ ((same_key key k && (node.0 == x)) || holds self.old k x)) }
        ensures err { OnErr result ((k : KeyId) (x : ℕ) → holds self.new k x ≡ holds self.old k x) }
        ensures memory { IfErr result (λ e. e ≡ OutOfMemory) }
    {
        if let Some(nodes) = self.sets.get_mut(&key) {
            nodes.insert(node)?;
            return Ok(());
        }
        let mut nodes = BTreeSet::new(self.alloc);
        nodes.insert(node)?;
        self.put(key, nodes)
    }

    /// Removes the node from the key's nodes.
    pub fn remove(&mut self, key: KeyId, node: NodeId)
        ensures { (k : KeyId) (x : ℕ)
            → holds self.new k x ≡ (not (same_key key k && (node.0 == x)) && holds self.old k x) }
    {
        if let Some(nodes) = self.sets.get_mut(&key) {
            nodes.remove(&node);
            if nodes.is_empty() {
                self.sets.remove(&key);
            }
        }
    }

    fn forget_keys(&mut self, node: NodeId, chunk: u32, map: &KeyTree)
        ensures others { (k : KeyId) (x : ℕ) → x ≢ node.0 → holds self.new k x ≡ holds self.old k x }
        ensures gone { (k : KeyId) → is_in chunk (has_entry map.now) k ≡ true → holds self.new k node.0 ≡ false }
        ensures stays { (k : KeyId) → is_in chunk (has_entry map.now) k ≡ false
            → holds self.new k node.0 ≡ holds self.old k node.0 }
    {
        'keys: for (number, _) in map.entries.walk() {
            let key = KeyId {
                chunk,
                number: *number,
            };
            self.remove(key, node);
        }
    }

    #[tactic(auto, unfolding(crate::specs::Held::map_entry))]
    fn forget_map(&mut self, node: NodeId, chunk: u32, map: &KeyMap)
        ensures others { (k : KeyId) (x : ℕ) → x ≢ node.0 → holds self.new k x ≡ holds self.old k x }
        ensures gone { (k : KeyId) → is_in chunk (has_place map.now) k ≡ true → holds self.new k node.0 ≡ false }
        ensures stays { (k : KeyId) → is_in chunk (has_place map.now) k ≡ false
            → holds self.new k node.0 ≡ holds self.old k node.0 }
    {
        self.forget_keys(node, chunk, &map.own);
        if let Some(shared) = &map.shared {
            self.forget_keys(node, chunk, shared);
        }
    }

    /// Removes the node from each key of the slot's map. Costs a look-up for each.
    pub fn forget(&mut self, node: NodeId, map: &SlotMap)
        ensures others { (k : KeyId) (x : ℕ) → x ≢ node.0 → holds self.new k x ≡ holds self.old k x }
        ensures gone { (k : KeyId) → has_place_for map.now k ≡ true → holds self.new k node.0 ≡ false }
        ensures stays { (k : KeyId) → has_place_for map.now k ≡ false
            → holds self.new k node.0 ≡ holds self.old k node.0 }
    {
        'chunks: for chunk in 0..16u32 {
            self.forget_map(node, chunk, map.chunk(chunk));
        }
    }
}
