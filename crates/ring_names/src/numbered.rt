//! Bytes and their numbers.

ghost use Rattle.std.specs.Prelude.{◌≡◌, ◌≤◌, [], length, slice_get, IfOk, IfErr, OnOk, OnErr, option_map};
ghost use Rattle.ring_names.specs.Names.{place, with_name};
ghost use Rattle.ring_names.specs.declared.refusal.Refusal.TheVariants.{OutOfMemory};

use crate::finder::Finder;
use crate::noted::bytes_at;
use crate::refusal::Refusal;
use std::alloc::Global;
use std::marker::Model;

/// Bytes, numbered by first mention from 0.
///
/// A look-up costs the bytes' length; if their author made them collide, times the logarithm of their count.
#[derive(Drop)]
pub struct Numbered {
    alloc: Global,
    list: Vec<Vec<u8>>,
    finder: Finder,
}

impl Model for Numbered {
    ghost use Rattle.std.specs.Prelude.{List, ℕ};
    ghost use Rattle.ring_names.specs.Numbered.{bytes_of, IsNumbered};

    ghost Value = { List (List ℕ) };

    ghost view = { bytes_of };

    ghost invariant = { IsNumbered };
}

impl Numbered {
    /// Starts empty.
    pub fn new(alloc: Global) -> Numbered
        ensures { result ≡ [] }
    {
        Numbered {
            alloc,
            list: Vec::new(alloc),
            finder: Finder::new(alloc),
        }
    }

    /// Counts the entries.
    pub fn len(&self) -> usize
        ensures { result ≡ length self.now }
    {
        self.list.len()
    }

    /// Returns the bytes' number. Adds new bytes, which may fail.
    pub fn add(&mut self, bytes: &[u8]) -> Result<usize, Refusal>
        ensures number { IfOk result (λ n. place self.new bytes.now ≡ Some n) }
        ensures below { IfOk result (λ n. n ≤ length self.old) }
        ensures list { OnOk result (self.new ≡ with_name self.old bytes.now) }
        ensures memory { IfErr result (λ e. (e ≡ OutOfMemory) × (place self.old bytes.now ≡ None)) }
        ensures err { OnErr result (self.new ≡ self.old) }
    {
        if let Some(number) = self.number_of(bytes) {
            return Ok(number);
        }
        let number = self.len();
        let kept = Vec::from_slice(self.alloc, bytes)?;
        self.list.reserve(1)?;
        self.finder.add(self.list.as_slice(), bytes)?;
        self.list.push_reserved(kept);
        Ok(number)
    }

    /// Returns the bytes' number, if added.
    pub fn number_of(&self, bytes: &[u8]) -> Option<usize>
        ensures { result ≡ place self.now bytes.now }
    {
        self.finder.number_of(self.list.as_slice(), bytes)
    }

    /// Returns the number's bytes.
    pub fn get(&self, number: usize) -> Option<&[u8]>
        ensures { option_map (λ bytes. bytes.now) result ≡ slice_get self.now number }
    {
        bytes_at(self.list.as_slice(), number)
    }
}
