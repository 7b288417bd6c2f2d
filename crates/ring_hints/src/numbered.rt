//! Pairs and their numbers.

ghost use Rattle.std.specs.Prelude.{◌≡◌, ◌+◌, ◌++◌, ◌∷◌, ◌&&◌, ℕ, [], not, false, length, slice_get, swap_remove};
ghost use Rattle.std.specs.Prelude.{if◌then◌else◌};
ghost use Rattle.std.specs.Prelude.{Some, IsSome, IfErr, OnOk, OnErr};
ghost use Rattle.std.specs.BTreeMap.{get, Updates};
ghost use Rattle.ring_names.specs.declared.ids.Slot.{Slot};
ghost use Rattle.ring_names.specs.declared.refusal.Refusal.TheVariants.{OutOfMemory};
ghost use Rattle.ring_hints.specs.Views.{by_keeper, in_order, is_of};

use crate::kept_for::KeptFor;
use ring_names::Refusal;
use std::alloc::Global;
use std::collections::BTreeMap;
use std::marker::Model;

/// Pairs of keeper and slot, numbered from 0. Texts choose them, so they are ordered, not hashed: each look-up takes
/// logarithmic time.
#[derive(Drop)]
pub(crate) struct Numbered {
    pairs: Vec<KeptFor>,
    numbers: BTreeMap<KeptFor, usize>,
}

impl Model for Numbered {
    ghost use Rattle.std.specs.Prelude.{List};
    ghost use Rattle.ring_hints.specs.declared.kept_for.KeptFor.{KeptFor};

    ghost Value = { List KeptFor };

    ghost use Rattle.ring_hints.specs.Numbered.{IsNumbered};

    ghost view = { λ a. a.pairs.items };

    ghost invariant = { IsNumbered };
}

impl Numbered {
    pub(crate) fn new(alloc: Global) -> Numbered
        ensures { result ≡ [] }
    {
        Numbered {
            pairs: Vec::new(alloc),
            numbers: BTreeMap::new(alloc),
        }
    }

    pub(crate) fn has(&self, pair: KeptFor) -> bool
        ensures { result ≡ in_order pair.keeper.0 pair.slot self.now }
    {
        self.numbers.contains_key(&pair)
    }

    pub(crate) fn nth(&self, number: u32) -> Option<KeptFor>
        ensures { result ≡ slice_get self.now number }
    {
        self.pairs.get(number as usize).copied()
    }

    pub(crate) fn push(&mut self, pair: KeptFor) -> Result<(), Refusal>
        requires { in_order pair.keeper.0 pair.slot self.old ≡ false }
        ensures ok { OnOk result (self.new ≡ self.old ++ pair ∷ []) }
        ensures err { OnErr result (self.new ≡ self.old) }
        ensures memory { IfErr result (λ e. e ≡ OutOfMemory) }
    {
        self.pairs.reserve(1)?;
        self.numbers.insert(pair, self.pairs.len())?;
        self.pairs.push_reserved(pair);
        Ok(())
    }

    /// Removes the pair, if present. The last pair takes its number.
    pub(crate) fn swap_remove(&mut self, pair: KeptFor)
        ensures pairs { (x : ℕ) (s : Slot) → in_order x s self.new ≡ (not (is_of pair x s) && in_order x s self.old) }
        ensures numbers { (n : ℕ) → slice_get self.old n ≡ Some pair → self.new ≡ swap_remove self.old n pair }
        ensures absent { in_order pair.keeper.0 pair.slot self.old ≡ false → self.new ≡ self.old }
        ensures count { length self.new + (if in_order pair.keeper.0 pair.slot self.old then 1 else 0)
            ≡ length self.old }
    {
        if let Some(number) = self.numbers.get(&pair).copied() {
            let last = self.pairs[self.pairs.len() - 1];
            renumber(&mut self.numbers, last, number);
            self.numbers.remove(&pair);
            self.pairs.swap_remove(number);
        }
    }
}

fn renumber(numbers: &mut BTreeMap<KeptFor, usize>, pair: KeptFor, number: usize)
    requires { IsSome (get by_keeper numbers.old pair) }
    ensures { Updates by_keeper numbers.old numbers.new pair (Some number) }
{
    if let Some(kept) = numbers.get_mut(&pair) {
        *kept = number;
    }
}
