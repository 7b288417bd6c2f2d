//! A partition's slots, by index.

ghost use Rattle.std.specs.Prelude.{◌≡◌, ◌≤◌, true, length, nat_lt, IfSome, IfNone};
ghost use Rattle.std.specs.List.{list_all};

use std::marker::Model;

/// Up to 7 slot indexes, in the order written.
#[derive(Debug, Drop)]
pub struct Indexes {
    first: [u8; 7],
    count: u8,
}

impl Model for Indexes {
    ghost use Rattle.std.specs.Prelude.{List, ℕ, take, ◌≤◌};

    ghost Value = { List ℕ };

    ghost view = { λ a. take a.count a.first };

    ghost invariant = { λ a. a.count ≤ 7 };
}

fn are_small(numbers: &[u32]) -> bool
    ensures { result ≡ list_all (λ i. nat_lt i 256) numbers.now }
{
    numbers.iter().all(|i| *i < 256)
}

impl Indexes {
    /// Keeps at most 7 indexes, each below 256.
    pub fn of(numbers: &[u32]) -> Option<Indexes>
        ensures some { IfSome result (λ x. x ≡ numbers.now) }
        ensures none { IfNone result (length numbers.now ≤ 7 → list_all (λ i. nat_lt i 256) numbers.now ≡ true → ⊥) }
    {
        if numbers.len() > 7 || !are_small(numbers) {
            return None;
        }
        Some(Indexes::from_numbers(numbers))
    }

    fn from_numbers(numbers: &[u32]) -> Indexes
        requires few { length numbers.now ≤ 7 }
        requires small { list_all (λ i. nat_lt i 256) numbers.now ≡ true }
        ensures { result ≡ numbers.now }
    {
        let mut first = [0u8; 7];
        for k in 0..numbers.len() {
            first[k] = numbers[k] as u8;
        }
        Indexes {
            first,
            count: numbers.len() as u8,
        }
    }

    /// Copies the indexes.
    pub(crate) fn copy(&self) -> Indexes
        ensures { result ≡ self.now }
    {
        Indexes {
            first: self.first,
            count: self.count,
        }
    }

    /// Returns the indexes.
    pub fn as_slice(&self) -> &[u8]
        ensures { result.now ≡ self.now }
    {
        &self.first[..self.count as usize]
    }
}
