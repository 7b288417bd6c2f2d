//! Small sets of numbers.

ghost use Rattle.std.specs.Prelude.{◌≡◌, ◌<◌, ◌≤◌, ℕ, false, ◌||◌, ◌==◌, length};
ghost use Rattle.plan_runs.specs.World.{passing_below};
ghost use Rattle.store_parts.specs.Marks.{no_marks, has_mark, with_mark};

/// A set of numbers below 16, such as a copy's chunks or a partition's slots.
#[derive(Clone, Copy, Debug, PartialEq, Eq)]
pub struct Marks {
    bits: u16,
}

impl Marks {
    /// Returns the empty set.
    pub fn none() -> Marks
        ensures set { result ≡ no_marks }
        ensures numbers { (m : ℕ) → has_mark result m ≡ false }
    {
        Marks { bits: 0 }
    }

    /// Whether the number is in the set.
    pub fn has(self, number: u32) -> bool
        ensures { result ≡ has_mark self number }
    {
        number < 16 && (self.bits >> number) & 1 == 1
    }

    /// Returns the set with this number added.
    #[tactic(auto, using(crate::proofs::Bits::has_with))]
    pub fn with(self, number: u32) -> Marks
        requires { number < 16 }
        ensures set { result ≡ with_mark self number }
        ensures numbers { (m : ℕ) → has_mark result m ≡ (m == number) || has_mark self m }
    {
        Marks {
            bits: self.bits | (1 << number),
        }
    }

    /// Counts the set's numbers below `end`.
    #[tactic(auto, using(crate::proofs::Counting::count_next, crate::proofs::Counting::count_most))]
    pub fn count_below(self, end: u32) -> u32
        ensures { result ≡ length (passing_below end (has_mark self)) }
    {
        let mut count = 0;
        for number in 0..end {
            if self.has(number) {
                count += 1;
            }
        }
        count
    }
}
