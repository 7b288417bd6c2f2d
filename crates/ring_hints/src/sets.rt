//! Sets of values by key.

ghost use Rattle.std.specs.Prelude.{◌≡◌, [], true, false, if◌then◌else◌, IfErr, IfNone, IfSome, OnOk, OnErr};
ghost use Rattle.std.specs.List.{list_any};
ghost use Rattle.std.specs.BTreeMap.{is_at};
ghost use Rattle.std.specs.Set.{remove_key};
ghost use Rattle.ring_names.specs.declared.refusal.Refusal.TheVariants.{OutOfMemory};
ghost use Rattle.ring_hints.specs.Sets.{set_at, AddsValue, AreSame};

use ring_names::Refusal;
use std::alloc::Global;
use std::collections::{BTreeSet, HashMap};
use std::hash::Hash;

/// A set of values for each key, empty by default.
#[derive(Drop)]
pub struct Sets<K: Eq + Hash, V: Ord> {
    alloc: Global,
    sets: HashMap<K, BTreeSet<V>>,
}

impl<K: Eq + Hash + Drop, V: Ord + Drop> Sets<K, V> {
    /// Returns empty sets.
    pub fn new(alloc: Global) -> Sets<K, V>
        ensures { (key : K) → set_at K.eq result key ≡ [] }
    {
        Sets {
            alloc,
            sets: HashMap::new(alloc),
        }
    }

    /// Returns the values of the key, in order.
    pub fn values(&self, key: &K) -> Option<&BTreeSet<V>>
        ensures some { IfSome result (λ s. s.now.keys ≡ set_at K.eq self.now key.now) }
        ensures none { IfNone result (set_at K.eq self.now key.now ≡ []) }
    {
        self.sets.get(key)
    }

    /// Adds the value to the key's set.
    pub fn add(&mut self, key: K, value: V) -> Result<(), Refusal>
        ensures ok { OnOk result (AddsValue K.eq V.cmp self.old self.new key value) }
        ensures err { OnErr result (AreSame K.eq self.old self.new) }
        ensures memory { IfErr result (λ e. e ≡ OutOfMemory) }
    {
        match self.sets.get_mut(&key) {
            Some(set) => {
                set.insert(value)?;
            }
            None => {
                let mut set = BTreeSet::new(self.alloc);
                set.insert(value)?;
                self.sets.insert(key, set)?;
            }
        }
        Ok(())
    }

    /// Removes the value from the key's set.
    pub fn remove(&mut self, key: &K, value: &V)
        ensures each { (k : K) → set_at K.eq self.new k ≡ (if K.eq k key.now then remove_key (is_at (V.cmp value.now))
            (set_at K.eq self.old k) else set_at K.eq self.old k) }
        ensures gone { (k : K) → K.eq k key.now ≡ true
            → list_any (is_at (V.cmp value.now)) (set_at K.eq self.new k) ≡ false }
    {
        if let Some(set) = self.sets.get_mut(key) {
            set.remove(value);
        }
    }
}
