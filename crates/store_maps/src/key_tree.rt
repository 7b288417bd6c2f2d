//! Trees from key to versions.

ghost use Rattle.store_maps.specs.Entries.{entries_of, IsInOrder, IsInOrder-prop};
ghost use Rattle.store_maps.specs.Places.{AreApart, AreApart-prop};

use crate::entries::Entries;
use ring_names::Refusal;
use ring_versions::Versions;
use std::alloc::Global;

/// Versions by key, ascending: a map's overlay or its shared tree.
#[derive(Drop)]
pub struct KeyTree {
    pub(crate) alloc: Global,
    pub(crate) entries: Entries,
    ghost order: { IsInOrder entries } by { IsInOrder-prop entries },
    ghost apart: { AreApart (entries_of entries) } by { AreApart-prop (entries_of entries) },
}

impl KeyTree {
    ghost use Rattle.std.specs.Prelude.{◌≡◌, ◌⊎◌, ℕ, true, None, IfOk, IfErr, OnOk, OnErr};
    ghost use Rattle.std.specs.Option.{option_or};
    ghost use Rattle.ring_names.specs.declared.refusal.Refusal.TheVariants.{OutOfMemory};
    ghost use Rattle.ring_versions.specs.Versions.{IsApart};
    ghost use Rattle.std.specs.Ordering.{nat_cmp};
    ghost use Rattle.store_maps.specs.Places.{value_in};
    ghost use Rattle.store_maps.specs.Sorted.{PutsAt};
    ghost use Rattle.store_maps.specs.Trees.{tree_entry, kept, has_entry};

    /// Returns an empty tree.
    pub fn new(alloc: Global) -> KeyTree
        ensures { (k : ℕ) → tree_entry result k ≡ None }
    {
        KeyTree {
            alloc,
            entries: Entries::new(alloc),
        }
    }

    /// Copies the tree.
    pub fn try_copy(&self) -> Result<KeyTree, Refusal>
        ensures same { IfOk result (λ t. (k : ℕ) → tree_entry t k ≡ tree_entry self.now k) }
        ensures memory { IfErr result (λ e. e ≡ OutOfMemory) }
    {
        let mut copy = KeyTree::new(self.alloc);
        copy.put_all(self)?;
        Ok(copy)
    }

    /// Copies all keys from `other`. If refused, some may be copied already.
    pub fn put_all(&mut self, other: &KeyTree) -> Result<(), Refusal>
        ensures ok { OnOk result ((k : ℕ)
            → tree_entry self.new k ≡ option_or (tree_entry other.now k) (tree_entry self.old k)) }
        ensures others { (k : ℕ) → tree_entry other.now k ≡ None → tree_entry self.new k ≡ tree_entry self.old k }
        ensures memory { IfErr result (λ e. e ≡ OutOfMemory) }
    {
        'keys: for (key, versions) in other.entries.walk() {
            self.put(*key, versions.try_copy()?)?;
        }
        Ok(())
    }

    /// Counts keys with places, for estimates.
    pub fn len(&self) -> usize {
        self.entries.len()
    }

    pub(crate) fn put(&mut self, key: usize, versions: Versions) -> Result<(), Refusal>
        requires { IsApart versions }
        ensures ok { OnOk result (PutsAt nat_cmp (entries_of self.old.entries) (entries_of self.new.entries) key versions) }
        ensures err { OnErr result ((k : ℕ)
            → value_in (entries_of self.new.entries) k ≡ value_in (entries_of self.old.entries) k) }
        ensures only { (k : ℕ) → has_entry self.new k ≡ true → (has_entry self.old k ≡ true) ⊎ (k ≡ key) }
        ensures memory { IfErr result (λ e. e ≡ OutOfMemory) }
    {
        self.entries.put(self.alloc, key, versions)
    }
}
