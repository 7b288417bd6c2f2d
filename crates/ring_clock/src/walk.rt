//! Iterates over a clock.

ghost use Rattle.std.specs.Prelude.{◌≡◌, ◌∷◌, [], MatchOption};
ghost use Rattle.ring_clock.specs.Blocks.{entries_of};

use crate::block::Block;
use crate::entry::Entry;
use crate::part::Part;
use std::marker::Model;

/// A clock's remaining counters above 0, by writer.
#[derive(Drop)]
pub struct Walk<'a> {
    part: Part<'a>,
    blocks: &'a [Block],
}

impl<'a> Model for Walk<'a> {
    ghost use Rattle.std.specs.Prelude.{List, ◌++◌};
    ghost use Rattle.ring_clock.specs.Blocks.{entries_of};
    ghost use Rattle.ring_clock.specs.declared.entry.Entry.{Entry};

    ghost Value = { List Entry };

    ghost view = { λ a. a.part ++ entries_of a.blocks.now };
}

impl<'a> Walk<'a> {
    pub(crate) fn of(blocks: &'a [Block]) -> Walk<'a>
        ensures { result ≡ entries_of blocks.now }
    {
        Walk {
            part: Part::few(&[]),
            blocks,
        }
    }

    /// Takes the next entry.
    pub fn next(&mut self) -> Option<Entry>
        ensures { MatchOption result ((self.old ≡ []) × (self.new ≡ [])) (λ entry. self.old ≡ entry ∷ self.new) }
    {
        'groups: loop {
            if let Some(entry) = self.part.next() {
                return Some(entry);
            }
            let (block, later) = self.blocks.split_first()?;
            self.part = block.part();
            self.blocks = later;
        }
    }
}
