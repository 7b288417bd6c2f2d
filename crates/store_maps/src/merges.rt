//! Merges at one key of a tree, and at many.

use crate::fresh_keys::FreshKeys;
use crate::key_tree::KeyTree;
use ring_names::Refusal;
use ring_versions::{Fresh, Versions};

impl KeyTree {
    ghost use Rattle.std.specs.Prelude.{◌≡◌, ◌≢◌, ◌⊎◌, ℕ, true, [], List, IfOk, IfErr, OnOk, OnErr};
    ghost use Rattle.ring_names.specs.declared.refusal.Refusal.TheVariants.{OutOfMemory};
    ghost use Rattle.ring_versions.specs.Fresh.{IsFreshFor};
    ghost use Rattle.ring_versions.specs.declared.version.Version.{Version};
    ghost use Rattle.store_maps.specs.Trees.{kept, has_entry, IsReadyIn};
    ghost use Rattle.store_maps.specs.Merges.{MergesAll, at_number, AreFreshFor, AreReadyIn};

    /// Prepares a merge at one key, and makes its place if missing.
    pub fn prepare(&mut self, key: usize, more: &Versions) -> Result<Fresh, Refusal>
        ensures same { (k : ℕ) → kept self.new k ≡ kept self.old k }
        ensures stays { (k : ℕ) → has_entry self.old k ≡ true → has_entry self.new k ≡ true }
        ensures only { (k : ℕ) → has_entry self.new k ≡ true → (has_entry self.old k ≡ true) ⊎ (k ≡ key) }
        ensures ok { IfOk result (λ f. IsFreshFor (kept self.old key) more.now f) }
        ensures ready { IfOk result (λ f. IsReadyIn self.new key f) }
        ensures memory { IfErr result (λ e. e ≡ OutOfMemory) }
    {
        if let Some(versions) = self.entries.get(key) {
            return versions.fresh_of(more);
        }
        self.put(key, Versions::new(self.alloc))?;
        Versions::new(self.alloc).fresh_of(more)
    }

    /// Completes a merge at one key.
    pub fn settle(&mut self, key: usize, fresh: Fresh)
        requires { IsReadyIn self.old key fresh }
        ensures merged { (more : List Version) → IsFreshFor (kept self.old key) more fresh
            → MergesAll (kept self.old) (at_number key more) (kept self.new) }
        ensures others { (k : ℕ) → k ≢ key → kept self.new k ≡ kept self.old k }
        ensures places { (k : ℕ) → has_entry self.new k ≡ has_entry self.old k }
    {
        self.entries.absorb(key, fresh);
    }

    /// Merges at one key. Never makes an empty place.
    pub fn merge(&mut self, key: usize, more: &Versions) -> Result<(), Refusal>
        ensures ok { OnOk result (MergesAll (kept self.old) (at_number key more.now) (kept self.new)) }
        ensures err { OnErr result ((k : ℕ) → kept self.new k ≡ kept self.old k) }
        ensures stays { (k : ℕ) → has_entry self.old k ≡ true → has_entry self.new k ≡ true }
        ensures only { (k : ℕ) → has_entry self.new k ≡ true → (has_entry self.old k ≡ true) ⊎ (k ≡ key) }
        ensures filled { (k : ℕ) → has_entry self.new k ≡ true
            → (has_entry self.old k ≡ true) ⊎ (kept self.new k ≢ []) }
        ensures places { OnErr result ((k : ℕ) → has_entry self.new k ≡ has_entry self.old k) }
        ensures memory { IfErr result (λ e. e ≡ OutOfMemory) }
    {
        if let Some(merged) = self.entries.merge(key, more) {
            return merged;
        }
        if more.is_empty() {
            return Ok(());
        }
        self.put(key, more.try_copy()?)
    }

    /// Completes a merge with a whole tree.
    pub fn settle_all(&mut self, fresh: FreshKeys)
        requires { AreReadyIn self.old fresh }
        ensures merged { (more : ℕ → List Version) → AreFreshFor (kept self.old) more fresh
            → MergesAll (kept self.old) more (kept self.new) }
        ensures places { (k : ℕ) → has_entry self.new k ≡ has_entry self.old k }
    {
        let FreshKeys { map } = fresh;
        'keys: for (key, fresh) in map {
            self.settle(key, fresh);
        }
    }
}
