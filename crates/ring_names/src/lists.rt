//! Lists of values by key.

ghost use Rattle.std.specs.Prelude.{◌≡◌, [], IfErr, OnOk, OnErr};
ghost use Rattle.ring_names.specs.declared.refusal.Refusal.TheVariants.{OutOfMemory};
ghost use Rattle.ring_names.specs.ByKey.{list_at, AddsLast, AreSame};

use crate::refusal::Refusal;
use std::alloc::Global;
use std::collections::HashMap;
use std::hash::Hash;

/// A list of values for each key, by default empty.
///
/// Hashes with a fixed seed: for few keys, such as nodes, not for keys that a text's author chose.
#[derive(Drop)]
pub struct Lists<K: Eq + Hash, V> {
    alloc: Global,
    lists: HashMap<K, Vec<V>>,
}

impl<K: Eq + Hash + Drop, V: Drop> Lists<K, V> {
    /// Starts empty.
    pub fn new(alloc: Global) -> Lists<K, V>
        ensures { (key : K) → list_at K.eq result key ≡ [] }
    {
        Lists {
            alloc,
            lists: HashMap::new(alloc),
        }
    }

    /// Returns the key's values, in order of addition.
    #[inline(always)]
    pub fn items(&self, key: &K) -> &[V]
        ensures { result.now ≡ list_at K.eq self.now key.now }
    {
        match self.lists.get(key) {
            Some(list) => list.as_slice(),
            None => &[],
        }
    }

    /// Adds the value to the key's list.
    #[inline(always)]
    pub fn add(&mut self, key: K, value: V) -> Result<(), Refusal>
        ensures ok { OnOk result (AddsLast K.eq self.old self.new key value) }
        ensures err { OnErr result (AreSame K.eq self.old self.new) }
        ensures memory { IfErr result (λ e. e ≡ OutOfMemory) }
    {
        match self.lists.get_mut(&key) {
            Some(list) => {
                list.push(value)?;
            }
            None => {
                let mut list = Vec::new(self.alloc);
                list.push(value)?;
                self.lists.insert(key, list)?;
            }
        }
        Ok(())
    }
}
