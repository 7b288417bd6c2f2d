//! A layout being read.

ghost use Rattle.std.specs.Prelude.{◌≡◌, []};
ghost use Rattle.texts.specs.Judging.{Gives, map_ok};
ghost use Rattle.change_text.specs.LayoutReading.{with_fact};

use crate::fact::subject_of;
use crate::layout::{Entry, Fact, Layout};
use ring_names::{Listed, Names, Refusal};
use std::alloc::Global;
use std::marker::Model;

// Four facts for each of 1,024 nodes, and one for each of 4,096 partitions.
const MOST: usize = 8192;

/// The facts so far, and their subjects.
#[derive(Drop)]
pub struct Draft {
    alloc: Global,
    subjects: Names,
    entries: Vec<Entry>,
}

impl Model for Draft {
    ghost use Rattle.std.specs.Prelude.{List};
    ghost use Rattle.change_text.specs.declared.layout.Entry.{Entry};

    ghost Value = { List Entry };

    ghost use Rattle.change_text.specs.LayoutDraft.{HoldsEntries};

    ghost view = { λ a. a.entries.items };

    ghost invariant = { HoldsEntries };
}

impl Draft {
    /// Starts empty.
    pub fn new(alloc: Global) -> Draft
        ensures { result ≡ [] }
    {
        Draft {
            alloc,
            subjects: Names::new(alloc),
            entries: Vec::new(alloc),
        }
    }

    /// Adds a line's fact. Fails with `TooLarge` after 8,192 facts, and with `Repeated` if its subject has one.
    pub fn add(&mut self, line: u32, fact: Fact) -> Result<(), Refusal>
        ensures { Gives (map_ok (λ _. self.new) result) (with_fact self.old line fact) }
    {
        if self.entries.len() >= MOST {
            return Err(Refusal::TooLarge(line));
        }
        let subject = subject_of(self.alloc, &fact)?;
        if self.subjects.number_of(subject.as_slice()).is_some() {
            return Err(Refusal::Repeated(line));
        }
        self.entries.reserve(1)?;
        self.subjects.add(subject.as_slice())?;
        self.entries.push_reserved(Entry { line, fact });
        Ok(())
    }

    /// Returns the layout.
    pub fn into_layout(self) -> Layout
        ensures { result ≡ record { entries = self } }
    {
        let Draft {
            alloc: _,
            subjects: _,
            entries,
        } = self;
        Layout {
            entries: Listed::from_vec(entries),
        }
    }
}
