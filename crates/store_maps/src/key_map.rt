//! Maps from key to versions.

use crate::fresh_keys::FreshKeys;
use crate::key_tree::KeyTree;
use ring_names::Refusal;
use ring_versions::{Fresh, Versions};
use std::alloc::Global;
use std::collections::BTreeMap;
use std::mem;
use std::sync::Arc;

/// Versions by key number. A key may have an empty place, made for a merge that must not fail. Readers do not see it.
///
/// A look-up takes logarithmic time. Preparations and refused calls change nothing visible.
///
/// Maps are copy-on-write. The first change of a shared key copies it, not its versions, into the map's own tree, an
/// overlay.
///
/// A look-up searches at most two trees. Copying a map copies only its overlay.
pub struct KeyMap {
    pub(crate) own: KeyTree,
    // Read for keys without a place in the own tree.
    pub(crate) shared: Option<Arc<KeyTree>>,
}

// Explicit, so that crates above need not check both trees.
impl Drop for KeyMap {
    fn drop(self) {
        let KeyMap { own, shared } = self;
        drop(own);
        drop(shared);
    }
}

#[tactic(auto, unfolding(crate::specs::Held::map_entry))]
impl KeyMap {
    ghost use Rattle.std.specs.Prelude.{◌≡◌, ◌≢◌, ◌↔◌, ◌⊎◌, ℕ, true, false, [], List, Some, None, IsTrue, IfSome, IfNone, IfOk};
    ghost use Rattle.std.specs.Prelude.{IfErr, OnOk, OnErr};
    ghost use Rattle.ring_names.specs.declared.refusal.Refusal.TheVariants.{OutOfMemory};
    ghost use Rattle.ring_versions.specs.Fresh.{IsFreshFor, BringsNothing};
    ghost use Rattle.ring_versions.specs.declared.version.Version.{Version};
    ghost use Rattle.store_maps.specs.Held.{map_entry, held, has_place, has_room, IsReady};
    ghost use Rattle.store_maps.specs.Merges.{MergesAll, at_number, AreFreshFor, AreReady, has_fresh};
    ghost use Rattle.store_maps.specs.Trees.{kept, tree_entry, has_entry};

    /// Returns an empty map.
    pub fn new(alloc: Global) -> KeyMap
        ensures versions { (k : ℕ) → held result k ≡ [] }
        ensures places { (k : ℕ) → has_place result k ≡ false }
    {
        KeyMap {
            own: KeyTree::new(alloc),
            shared: None,
        }
    }

    fn entry(&self, key: usize) -> Option<&Versions>
        ensures some { IfSome result (λ v. map_entry self.now key ≡ Some v.now) }
        ensures none { IfNone result (map_entry self.now key ≡ None) }
    {
        match (self.own.entries.get(key), &self.shared) {
            (None, Some(shared)) => shared.entries.get(key),
            (own, _) => own,
        }
    }

    /// Returns the key's versions.
    pub fn key_versions(&self, key: usize) -> Option<&Versions>
        ensures some { IfSome result (λ v. (v.now ≡ held self.now key) × (v.now ≢ [])) }
        ensures none { IfNone result (held self.now key ≡ []) }
    {
        match self.entry(key) {
            Some(versions) if !versions.is_empty() => Some(versions),
            _ => None,
        }
    }

    /// Whether no key has a place, for maps without empty places.
    pub fn is_empty(&self) -> bool
        ensures { IsTrue result ↔ ((k : ℕ) → has_place self.now k ≡ false) }
    {
        match &self.shared {
            Some(shared) => self.own.entries.is_empty() && shared.entries.is_empty(),
            None => self.own.entries.is_empty(),
        }
    }

    fn alone(&self) -> Option<&KeyTree>
        ensures { IfSome result (λ t. (k : ℕ) → tree_entry t.now k ≡ map_entry self.now k) }
    {
        match &self.shared {
            None => Some(&self.own),
            Some(shared) if self.own.entries.is_empty() => Some(shared),
            Some(_) => None,
        }
    }

    // Copies all keys into one tree.
    fn flat(&self) -> Result<KeyTree, Refusal>
        ensures same { IfOk result (λ t. (k : ℕ) → tree_entry t k ≡ map_entry self.now k) }
        ensures memory { IfErr result (λ e. e ≡ OutOfMemory) }
    {
        let Some(shared) = &self.shared else {
            return self.own.try_copy();
        };
        let mut flat = shared.try_copy()?;
        flat.put_all(&self.own)?;
        Ok(flat)
    }

    // Ends sharing. Copies each key if the map is shared.
    fn unshare(&mut self) -> Result<(), Refusal>
        ensures same { (k : ℕ) → map_entry self.new k ≡ map_entry self.old k }
        ensures ok { OnOk result (self.new.shared ≡ None) }
        ensures memory { IfErr result (λ e. e ≡ OutOfMemory) }
    {
        if self.shared.is_some() {
            self.own = self.flat()?;
            self.shared = None;
        }
        Ok(())
    }

    // Moves the overlay into the shared tree if no other map shares it. Returns whether it did.
    fn put_down(&mut self) -> Result<bool, Refusal>
        ensures same { (k : ℕ) → map_entry self.new k ≡ map_entry self.old k }
        ensures memory { IfErr result (λ e. e ≡ OutOfMemory) }
    {
        let Some(shared) = &mut self.shared else {
            return Ok(false);
        };
        let Some(tree) = Arc::get_mut(shared) else {
            return Ok(false);
        };
        tree.put_all(&self.own)?;
        self.own = KeyTree::new(self.own.alloc);
        Ok(true)
    }

    // Estimates whether copying the overlay is cheaper than sharing a new tree of all keys.
    fn lies_thinly(&self) -> bool {
        let over = self.own.len();
        match &self.shared {
            Some(shared) => over.saturating_mul(over) < shared.len(),
            None => false,
        }
    }

    /// Lets copies share the map. Free if the overlay is empty; one allocation if nothing is shared yet.
    ///
    /// Otherwise costs a look-up for each key of the overlay if no other map shares, and at most a copy of each key.
    pub fn share(&mut self) -> Result<(), Refusal>
        ensures same { (k : ℕ) → held self.new k ≡ held self.old k }
        ensures places { (k : ℕ) → has_place self.new k ≡ has_place self.old k }
        ensures memory { IfErr result (λ e. e ≡ OutOfMemory) }
    {
        if self.own.entries.is_empty() || self.put_down()? || self.lies_thinly() {
            return Ok(());
        }
        self.unshare()?;
        let alloc = self.own.alloc;
        let own = mem::replace(&mut self.own, KeyTree::new(alloc));
        match Arc::new(alloc, own) {
            Ok(shared) => {
                self.shared = Some(shared);
                Ok(())
            }
            Err(refused) => {
                self.own = refused.value;
                Err(Refusal::OutOfMemory)
            }
        }
    }

    // Copies a shared key into the overlay, for a change.
    fn bring_up(&mut self, key: usize) -> Result<(), Refusal>
        ensures same { (k : ℕ) → map_entry self.new k ≡ map_entry self.old k }
        ensures rooms { (k : ℕ) → has_room self.old k ≡ true → has_room self.new k ≡ true }
        ensures up { OnOk result (has_place self.new key ≡ true → has_room self.new key ≡ true) }
        ensures memory { IfErr result (λ e. e ≡ OutOfMemory) }
    {
        let Some(shared) = &self.shared else {
            return Ok(());
        };
        if self.own.entries.get(key).is_some() {
            return Ok(());
        }
        let Some(versions) = shared.entries.get(key) else {
            return Ok(());
        };
        let brought = versions.try_copy()?;
        self.own.put(key, brought)
    }

    /// Copies the map: only keys changed since it was shared, or all if it never was.
    pub fn try_copy(&self) -> Result<KeyMap, Refusal>
        ensures same { IfOk result (λ m. (k : ℕ) → held m k ≡ held self.now k) }
        ensures places { IfOk result (λ m. (k : ℕ) → has_place m k ≡ has_place self.now k) }
        ensures memory { IfErr result (λ e. e ≡ OutOfMemory) }
    {
        let shared = match &self.shared {
            Some(shared) => Some(Arc::try_clone(shared)?),
            None => None,
        };
        Ok(KeyMap {
            own: self.own.try_copy()?,
            shared,
        })
    }

    /// Prepares a merge at one key, and makes its place if missing. Costs `Versions::fresh_of`, and a copy of a shared
    /// key.
    pub fn prepare(&mut self, key: usize, more: &Versions) -> Result<Fresh, Refusal>
        ensures same { (k : ℕ) → held self.new k ≡ held self.old k }
        ensures stays { (k : ℕ) → has_place self.old k ≡ true → has_place self.new k ≡ true }
        ensures rooms { (k : ℕ) → has_room self.old k ≡ true → has_room self.new k ≡ true }
        ensures only { (k : ℕ) → has_place self.new k ≡ true → (has_place self.old k ≡ true) ⊎ (k ≡ key) }
        ensures ok { IfOk result (λ f. IsFreshFor (held self.old key) more.now f) }
        ensures ready { IfOk result (λ f. IsReady self.new key f) }
        ensures memory { IfErr result (λ e. e ≡ OutOfMemory) }
    {
        self.bring_up(key)?;
        self.own.prepare(key, more)
    }

    /// Completes a merge at one key.
    pub fn settle(&mut self, key: usize, fresh: Fresh)
        requires { IsReady self.old key fresh }
        ensures merged { (more : List Version) → IsFreshFor (held self.old key) more fresh
            → MergesAll (held self.old) (at_number key more) (held self.new) }
        ensures others { (k : ℕ) → k ≢ key → held self.new k ≡ held self.old k }
        ensures places { (k : ℕ) → has_place self.new k ≡ has_place self.old k }
        ensures rooms { (k : ℕ) → has_room self.new k ≡ has_room self.old k }
    {
        self.own.settle(key, fresh);
    }

    /// Merges at one key. Never makes an empty place.
    pub fn merge(&mut self, key: usize, more: &Versions) -> Result<(), Refusal>
        ensures ok { OnOk result (MergesAll (held self.old) (at_number key more.now) (held self.new)) }
        ensures err { OnErr result ((k : ℕ) → held self.new k ≡ held self.old k) }
        ensures stays { (k : ℕ) → has_place self.old k ≡ true → has_place self.new k ≡ true }
        ensures only { (k : ℕ) → has_place self.new k ≡ true → (has_place self.old k ≡ true) ⊎ (k ≡ key) }
        ensures filled { (k : ℕ) → has_place self.new k ≡ true
            → (has_place self.old k ≡ true) ⊎ (held self.new k ≢ []) }
        ensures places { OnErr result ((k : ℕ) → has_place self.new k ≡ has_place self.old k) }
        ensures memory { IfErr result (λ e. e ≡ OutOfMemory) }
    {
        self.bring_up(key)?;
        self.own.merge(key, more)
    }

    // Prepares a merge at one key. Copies a shared key only if something is new.
    fn prepare_new(&mut self, key: usize, more: &Versions) -> Result<Fresh, Refusal>
        ensures same { (k : ℕ) → held self.new k ≡ held self.old k }
        ensures stays { (k : ℕ) → has_place self.old k ≡ true → has_place self.new k ≡ true }
        ensures rooms { (k : ℕ) → has_room self.old k ≡ true → has_room self.new k ≡ true }
        ensures only { (k : ℕ) → has_place self.new k ≡ true → (has_place self.old k ≡ true) ⊎ (k ≡ key) }
        ensures made { OnOk result (has_place self.new key ≡ true) }
        ensures ok { IfOk result (λ f. IsFreshFor (held self.old key) more.now f) }
        ensures room { IfOk result (λ f. (BringsNothing f) ⊎ (has_room self.new key ≡ true)) }
        ensures memory { IfErr result (λ e. e ≡ OutOfMemory) }
    {
        let Some(versions) = self.entry(key) else {
            return self.own.prepare(key, more);
        };
        let fresh = versions.fresh_of(more)?;
        if !fresh.is_empty() {
            self.bring_up(key)?;
        }
        Ok(fresh)
    }

    fn prepare_tree(&mut self, other: &KeyTree) -> Result<FreshKeys, Refusal>
        ensures same { (k : ℕ) → held self.new k ≡ held self.old k }
        ensures stays { (k : ℕ) → has_place self.old k ≡ true → has_place self.new k ≡ true }
        ensures rooms { (k : ℕ) → has_room self.old k ≡ true → has_room self.new k ≡ true }
        ensures only { (k : ℕ) → has_place self.new k ≡ true
            → (has_place self.old k ≡ true) ⊎ (has_entry other.now k ≡ true) }
        ensures made { OnOk result ((k : ℕ) → has_entry other.now k ≡ true → has_place self.new k ≡ true) }
        ensures keys { IfOk result (λ f. (k : ℕ) → has_fresh f k ≡ true → has_entry other.now k ≡ true) }
        ensures ok { IfOk result (λ f. AreFreshFor (held self.old) (kept other.now) f) }
        ensures ready { IfOk result (λ f. AreReady self.new f) }
        ensures memory { IfErr result (λ e. e ≡ OutOfMemory) }
    {
        let mut keys = FreshKeys {
            map: BTreeMap::new(self.own.alloc),
        };
        'keys: for (key, versions) in other.entries.walk() {
            let fresh = self.prepare_new(*key, versions)?;
            if !fresh.is_empty() {
                keys.put(*key, fresh)?;
            }
        }
        Ok(keys)
    }

    /// Prepares a merge with a whole map, and makes missing places.
    ///
    /// Costs two look-ups and a merge for each key of the other map, and a copy of its keys if both its trees have
    /// some.
    pub fn prepare_all(&mut self, other: &KeyMap) -> Result<FreshKeys, Refusal>
        ensures same { (k : ℕ) → held self.new k ≡ held self.old k }
        ensures stays { (k : ℕ) → has_place self.old k ≡ true → has_place self.new k ≡ true }
        ensures rooms { (k : ℕ) → has_room self.old k ≡ true → has_room self.new k ≡ true }
        ensures only { (k : ℕ) → has_place self.new k ≡ true
            → (has_place self.old k ≡ true) ⊎ (has_place other.now k ≡ true) }
        ensures made { OnOk result ((k : ℕ) → has_place other.now k ≡ true → has_place self.new k ≡ true) }
        ensures keys { IfOk result (λ f. (k : ℕ) → has_fresh f k ≡ true → has_place other.now k ≡ true) }
        ensures ok { IfOk result (λ f. AreFreshFor (held self.old) (held other.now) f) }
        ensures ready { IfOk result (λ f. AreReady self.new f) }
        ensures memory { IfErr result (λ e. e ≡ OutOfMemory) }
    {
        match other.alone() {
            Some(tree) => self.prepare_tree(tree),
            None => self.prepare_tree(&other.flat()?),
        }
    }

    /// Completes a merge with a whole map. Costs a look-up for each key that gets something.
    pub fn settle_all(&mut self, fresh: FreshKeys)
        requires { AreReady self.old fresh }
        ensures merged { (more : ℕ → List Version) → AreFreshFor (held self.old) more fresh
            → MergesAll (held self.old) more (held self.new) }
        ensures places { (k : ℕ) → has_place self.new k ≡ has_place self.old k }
        ensures rooms { (k : ℕ) → has_room self.new k ≡ has_room self.old k }
    {
        self.own.settle_all(fresh);
    }

    fn goes_over(&self, other: &KeyMap) -> bool {
        match &other.shared {
            Some(shared) => self.shared.is_none() && self.own.len() < shared.len(),
            None => false,
        }
    }

    fn put_over(&mut self, other: &KeyMap) -> Result<(), Refusal>
        ensures ok { OnOk result (MergesAll (held self.old) (held other.now) (held self.new)) }
        ensures err { OnErr result ((k : ℕ) → held self.new k ≡ held self.old k) }
        ensures stays { (k : ℕ) → has_place self.old k ≡ true → has_place self.new k ≡ true }
        ensures only { (k : ℕ) → has_place self.new k ≡ true
            → (has_place self.old k ≡ true) ⊎ (has_place other.now k ≡ true) }
        ensures memory { IfErr result (λ e. e ≡ OutOfMemory) }
    {
        let mut made = other.try_copy()?;
        let fresh = made.prepare_all(self)?;
        made.settle_all(fresh);
        *self = made;
        Ok(())
    }

    /// Merges a whole map. If this map is empty, costs a copy of the other; otherwise `prepare_all`.
    ///
    /// If only the other map shares a tree, larger than this map, costs a copy of the other. Each own key then costs
    /// two look-ups and a merge.
    pub fn take_in(&mut self, other: &KeyMap) -> Result<(), Refusal>
        ensures ok { OnOk result (MergesAll (held self.old) (held other.now) (held self.new)) }
        ensures err { OnErr result ((k : ℕ) → held self.new k ≡ held self.old k) }
        ensures stays { (k : ℕ) → has_place self.old k ≡ true → has_place self.new k ≡ true }
        ensures only { (k : ℕ) → has_place self.new k ≡ true
            → (has_place self.old k ≡ true) ⊎ (has_place other.now k ≡ true) }
        ensures memory { IfErr result (λ e. e ≡ OutOfMemory) }
    {
        if self.is_empty() {
            *self = other.try_copy()?;
            return Ok(());
        }
        if self.goes_over(other) {
            return self.put_over(other);
        }
        let fresh = self.prepare_all(other)?;
        self.settle_all(fresh);
        Ok(())
    }
}
