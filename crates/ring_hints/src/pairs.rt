//! Which nodes keep hints for which slots.

ghost use Rattle.ring_hints.specs.Views.{AreViews, AreViews-prop};

use crate::kept_for::KeptFor;
use crate::numbered::Numbered;
use crate::sets::Sets;
use ring_names::{NodeId, Refusal, Slot};
use std::alloc::Global;
use std::collections::BTreeSet;

/// Pairs of keeper and slot, numbered, and found by either. Calls cost a few look-ups of at most logarithmic time.
#[derive(Drop)]
pub struct Pairs {
    order: Numbered,
    slots: Sets<NodeId, Slot>,
    keepers: Sets<Slot, NodeId>,
    ghost viewed: { AreViews order slots keepers } by { AreViews-prop order slots keepers },
}

impl Pairs {
    ghost use Rattle.std.specs.Prelude.{◌≡◌, ◌↔◌, ◌≤◌, ◌<◌, ◌+◌, ◌&&◌, ◌||◌, if◌then◌else◌, not, ℕ, [], true, false};
    ghost use Rattle.std.specs.Prelude.{length, map, slice_get, IsTrue, IfErr, IfNone, IfSome, OnOk, OnErr};
    ghost use Rattle.ring_names.specs.declared.ids.Slot.{Slot};
    ghost use Rattle.ring_names.specs.declared.refusal.Refusal.TheVariants.{OutOfMemory};
    ghost use Rattle.ring_hints.specs.Pairs.{is_pair, keepers_of, pair_count, pairs_of};
    ghost use Rattle.ring_hints.specs.Views.{is_of};

    /// Returns an empty set.
    pub fn new(alloc: Global) -> Pairs
        ensures { (x : ℕ) (s : Slot) → is_pair result x s ≡ false }
    {
        Pairs {
            order: Numbered::new(alloc),
            slots: Sets::new(alloc),
            keepers: Sets::new(alloc),
        }
    }

    /// Whether the pair is present.
    pub fn has(&self, pair: KeptFor) -> bool
        ensures { result ≡ is_pair self.now pair.keeper.0 pair.slot }
    {
        self.order.has(pair)
    }

    /// Whether the node keeps hints for any slot.
    pub fn has_keeper(&self, keeper: NodeId) -> bool
        ensures { IsTrue result ↔ ((s : Slot) × (is_pair self.now keeper.0 s ≡ true)) }
    {
        self.slot_of(keeper).is_some()
    }

    /// Returns a slot for which the node keeps hints.
    pub fn slot_of(&self, keeper: NodeId) -> Option<Slot>
        ensures some { IfSome result (λ s. is_pair self.now keeper.0 s ≡ true) }
        ensures none { IfNone result ((s : Slot) → is_pair self.now keeper.0 s ≡ false) }
    {
        match self.slots.values(&keeper) {
            Some(slots) => slots.first().copied(),
            None => None,
        }
    }

    /// Returns the nodes that keep hints for the slot, ascending.
    pub fn keepers(&self, slot: Slot) -> Option<&BTreeSet<NodeId>>
        ensures some { IfSome result (λ s. s.now.keys ≡ keepers_of self.now slot) }
        ensures none { IfNone result (keepers_of self.now slot ≡ []) }
    {
        self.keepers.values(&slot)
    }

    /// Returns the n-th pair. The order stays until a pair is added or removed.
    pub fn nth(&self, n: u32) -> Option<KeptFor>
        ensures value { result ≡ slice_get (pairs_of self.now) n }
        ensures some { IfSome result (λ pair. is_pair self.now pair.keeper.0 pair.slot ≡ true) }
        ensures none { IfNone result (pair_count self.now ≤ n) }
    {
        self.order.nth(n)
    }

    /// Adds the pair, unless present.
    pub fn add(&mut self, pair: KeptFor) -> Result<(), Refusal>
        ensures ok { OnOk result
            ((x : ℕ) (s : Slot) → is_pair self.new x s ≡ (is_of pair x s || is_pair self.old x s)) }
        ensures err { OnErr result ((x : ℕ) (s : Slot) → is_pair self.new x s ≡ is_pair self.old x s) }
        ensures memory { IfErr result (λ e. e ≡ OutOfMemory) }
    {
        if self.has(pair) {
            return Ok(());
        }
        self.slots.add(pair.keeper, pair.slot)?;
        if let Err(refusal) = self.keepers.add(pair.slot, pair.keeper) {
            self.slots.remove(&pair.keeper, &pair.slot);
            return Err(refusal);
        }
        if let Err(refusal) = self.order.push(pair) {
            self.slots.remove(&pair.keeper, &pair.slot);
            self.keepers.remove(&pair.slot, &pair.keeper);
            return Err(refusal);
        }
        Ok(())
    }

    /// Removes the pair. The last pair takes its number.
    pub fn remove(&mut self, pair: KeptFor)
        ensures pairs { (x : ℕ) (s : Slot) → is_pair self.new x s ≡ (not (is_of pair x s) && is_pair self.old x s) }
        ensures count { pair_count self.new + (if is_pair self.old pair.keeper.0 pair.slot then 1 else 0)
            ≡ pair_count self.old }
    {
        self.order.swap_remove(pair);
        self.slots.remove(&pair.keeper, &pair.slot);
        self.keepers.remove(&pair.slot, &pair.keeper);
    }
}
