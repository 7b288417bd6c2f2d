//! Rows of numbers in one vector.

ghost use Rattle.std.specs.Prelude.{◌≡◌, ◌<◌, ◌≤◌, ◌-◌, ◌++◌, ◌∷◌, [], Some, length, slice_get, slice_index, take, sum_by, OnOk, OnErr, IfErr};
ghost use Rattle.std.specs.List.{slice_range};
ghost use Rattle.ring_names.specs.declared.refusal.Refusal.TheVariants.{OutOfMemory};

use crate::refusal::Refusal;
use std::alloc::Global;
use std::marker::Model;

/// Rows in one vector: a row needs no allocation.
#[derive(Debug)]
pub struct Rows {
    // Each row's end.
    ends: Vec<usize>,
    numbers: Vec<u32>,
}

// Saves dependent crates from checking the parts.
impl Drop for Rows {
    fn drop(self) {
        let Rows { ends, numbers } = self;
        drop(ends);
        drop(numbers);
    }
}

fn start_of(ends: &[usize], place: usize) -> usize
    requires { place ≤ length ends.now }
    ensures { result ≡ slice_index (0 ∷ ends.now) place }
{
    if place == 0 { 0 } else { ends[place - 1] }
}

fn row_at<'a>(ends: &[usize], numbers: &'a [u32], place: usize) -> &'a [u32]
    requires there { place < length ends.now }
    requires from { slice_index (0 ∷ ends.now) place ≤ slice_index ends.now place }
    requires to { slice_index ends.now place ≤ length numbers.now }
    ensures { result.now ≡ slice_range numbers.now (slice_index (0 ∷ ends.now) place) (slice_index ends.now place) }
{
    &numbers[start_of(ends, place)..ends[place]]
}

impl Model for Rows {
    ghost use Rattle.std.specs.Prelude.{List, ℕ};
    ghost use Rattle.ring_names.specs.Rows.{rows_of, HoldsRows};

    ghost Value = { List (List ℕ) };

    ghost view = { rows_of };

    ghost invariant = { HoldsRows };
}

impl Rows {
    /// Starts empty.
    pub fn new(alloc: Global) -> Rows
        ensures { result ≡ [] }
    {
        Rows {
            ends: Vec::new(alloc),
            numbers: Vec::new(alloc),
        }
    }

    /// Counts the rows.
    pub fn len(&self) -> usize
        ensures { result ≡ length self.now }
    {
        self.ends.len()
    }

    /// Counts all rows' numbers.
    pub fn total(&self) -> usize
        ensures { result ≡ sum_by (λ row. length row) self.now }
    {
        self.numbers.len()
    }

    /// Returns the row at the place.
    pub fn row(&self, place: usize) -> &[u32]
        requires { place < length self.now }
        ensures { slice_get self.now place ≡ Some result.now }
    {
        row_at(self.ends.as_slice(), self.numbers.as_slice(), place)
    }

    /// Adds a row.
    #[inline(always)]
    pub fn push(&mut self, row: &[u32]) -> Result<(), Refusal>
        ensures ok { OnOk result (self.new ≡ self.old ++ row.now ∷ []) }
        ensures err { OnErr result (self.new ≡ self.old) }
        ensures memory { IfErr result (λ e. e ≡ OutOfMemory) }
    {
        self.ends.reserve(1)?;
        self.numbers.extend_from_slice(row)?;
        self.ends.push_reserved(self.numbers.len());
        Ok(())
    }

    /// Removes the last row, if any.
    pub fn pop(&mut self)
        ensures { self.new ≡ take (length self.old - 1) self.old }
    {
        if let Some(_end) = self.ends.pop() {
            let ends = self.ends.as_slice();
            self.numbers.truncate(start_of(ends, ends.len()));
        }
    }
}
