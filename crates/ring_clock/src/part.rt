//! Iterates over a block.

ghost use Rattle.std.specs.Prelude.{◌≡◌, ◌∷◌, ◌+◌, ◌≤◌, [], MatchOption, length};
ghost use Rattle.ring_clock.specs.Places.{entries_from};

use crate::entry::Entry;
use ring_names::WriterId;
use std::marker::Model;

/// A block's remaining entries, or counters of consecutive writers.
#[derive(Drop)]
pub struct Part<'a> {
    few: &'a [Entry],
    first: u64,
    counters: &'a [u32],
}

impl<'a> Model for Part<'a> {
    ghost use Rattle.std.specs.Prelude.{List, ◌++◌, ◌+◌, ◌≤◌, length};
    ghost use Rattle.ring_clock.specs.Places.{entries_from};
    ghost use Rattle.ring_clock.specs.declared.entry.Entry.{Entry};

    ghost Value = { List Entry };

    ghost view = { λ a. a.few.now ++ entries_from a.first a.counters.now };

    ghost invariant = { λ a. a.first + length a.counters.now ≤ 4294967296 };
}

impl<'a> Part<'a> {
    /// Iterates over entries.
    pub fn few(entries: &'a [Entry]) -> Part<'a>
        ensures { result ≡ entries.now }
    {
        Part {
            few: entries,
            first: 0,
            counters: &[],
        }
    }

    /// Iterates over the counters above 0; the first is writer `first`'s.
    pub fn full(first: u64, counters: &'a [u32]) -> Part<'a>
        requires { first + length counters.now ≤ 4294967296 }
        ensures { result ≡ entries_from first counters.now }
    {
        Part {
            few: &[],
            first,
            counters,
        }
    }

    /// Takes the next entry.
    pub fn next(&mut self) -> Option<Entry>
        ensures { MatchOption result ((self.old ≡ []) × (self.new ≡ [])) (λ entry. self.old ≡ entry ∷ self.new) }
    {
        if let Some((entry, later)) = self.few.split_first() {
            self.few = later;
            return Some(*entry);
        }
        'places: while let Some((counter, later)) = self.counters.split_first() {
            let writer = WriterId(self.first as u32);
            self.first += 1;
            self.counters = later;
            if *counter > 0 {
                return Some(Entry {
                    writer,
                    counter: u64::from(*counter),
                });
            }
        }
        None
    }
}
