//! Measures successive numbers.

ghost use Rattle.std.specs.Prelude.{◌≡◌, ◌≤◌, ◌<◌, ◌+◌, ◌++◌, ◌∷◌, ◌&&◌, [], ℕ, List, nat_le, length, take, is_some};
ghost use Rattle.std.specs.Prelude.{IfSome};
ghost use Rattle.texts.specs.Number.{capped};
ghost use Rattle.texts.specs.Numbers.{are_small};
ghost use Rattle.texts.specs.KeptRow.{Measures};

use crate::number::CAP;

/// Facts about successive numbers.
#[derive(Clone, Copy, Drop)]
pub(crate) struct Measure {
    pub(crate) count: u64,
    // The greatest number plus one, at most `CAP` plus one; 0 without numbers.
    pub(crate) bound: u64,
    // Only known if all numbers are below `CAP`.
    pub(crate) ascends: bool,
    // Numbers from `CAP` on are not exact.
    pub(crate) first: [u32; 8],
}

impl Measure {
    /// Starts without numbers.
    pub(crate) fn new() -> Measure
        ensures { Measures [] result }
    {
        Measure {
            count: 0,
            bound: 0,
            ascends: true,
            first: [0; 8],
        }
    }

    #[inline(always)]
    fn keep(&mut self, value: u64)
        requires { value ≤ 4294967296 }
        ensures first { self.old.count < 8 → value < 4294967296
            → take (self.old.count + 1) self.new.first ≡ take self.old.count self.old.first ++ value ∷ [] }
        ensures count { self.new.count ≡ self.old.count }
        ensures bound { self.new.bound ≡ self.old.bound }
        ensures ascends { self.new.ascends ≡ self.old.ascends }
    {
        if self.count < 8 {
            self.first[self.count as usize] = value.min(CAP - 1) as u32;
        }
    }

    /// Adds a number, given as `CAP` if greater.
    #[inline(always)]
    pub(crate) fn add(&mut self, value: u64)
        requires { value ≤ 4294967296 }
        ensures { (xs : List ℕ) (n : ℕ) → value ≡ capped n → Measures xs self.old → Measures (xs ++ n ∷ []) self.new }
    {
        self.keep(value);
        self.count = self.count.saturating_add(1);
        self.ascends = self.ascends & (self.bound <= value);
        self.bound = self.bound.max(value + 1);
    }

    /// Returns the numbers if at most 8, each a `u32`.
    pub(crate) fn kept(&self) -> Option<&[u32]>
        ensures some { (xs : List ℕ) → Measures xs self.now → is_some result ≡ (nat_le (length xs) 8 && are_small xs) }
        ensures same { IfSome result (λ s. (xs : List ℕ) → Measures xs self.now → s.now ≡ xs) }
    {
        if self.count <= 8 && self.bound <= CAP {
            return Some(&self.first[..self.count as usize]);
        }
        None
    }
}
