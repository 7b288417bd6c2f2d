//! Counts a part's text, and keeps it while a replay would take it.

ghost use Rattle.std.specs.Prelude.{◌≡◌, ◌≤◌, ◌-◌, ◌+◌, ◌++◌, ◌↔◌, ℕ, List, IsTrue, OnOk, length, min};
ghost use Rattle.ring_table.specs.Value.{names_of};
ghost use Rattle.history_text.specs.Spelling.{entry_line};
ghost use Rattle.history_text.specs.Input.{max_input};
ghost use Rattle.history_text.specs.Room.{Holds, most};

use crate::input::MOST_ENTRIES;
use crate::writing::push_entry;
use plan_cert::MAX_INPUT;
use plan_runs::Entry;
use ring_names::Names;
use ring_table::Ring;
use std::alloc::AllocError;

/// A part's text so far, and its bytes and entries. Dropped once too long for a replay.
#[derive(Drop)]
pub struct PartText {
    pub text: Vec<u8>,
    pub bytes: u64,
    pub entries: u64,
}

impl PartText {
    /// Wraps the text, without entries.
    pub fn of(text: Vec<u8>) -> PartText
        ensures { Holds result text.items 0 }
    {
        PartText {
            bytes: text.len() as u64,
            text,
            entries: 0,
        }
    }

    /// Whether a replay takes the text.
    pub fn is_small(&self) -> bool
        ensures { IsTrue result ↔ ((self.now.bytes ≤ max_input) × (self.now.entries ≤ 1000000)) }
    {
        self.bytes <= MAX_INPUT as u64 && self.entries <= MOST_ENTRIES
    }

    // Counts added bytes, and drops the text if too long.
    fn count(&mut self, before: usize)
        requires { before ≤ length self.old.text.items }
        ensures bytes { self.new.bytes ≡ min (self.old.bytes + (length self.old.text.items - before)) most }
        ensures entries { self.new.entries ≡ self.old.entries }
        ensures items { self.new.bytes ≤ max_input → self.new.entries ≤ 1000000 → self.new.text.items ≡ self.old.text.items }
    {
        self.bytes = self.bytes.saturating_add((self.text.len() - before) as u64);
        if !self.is_small() {
            self.text.clear();
        }
    }

    /// Adds some text.
    pub fn push_text(&mut self, text: &[u8]) -> Result<(), AllocError>
        ensures { OnOk result ((t : List ℕ) (n : ℕ) → Holds self.old t n → Holds self.new (t ++ text.now) n) }
    {
        let before = self.text.len();
        self.text.extend_from_slice(text)?;
        self.count(before);
        Ok(())
    }

    /// Adds an entry's line.
    pub fn push_entry(
        &mut self,
        ring: &Ring,
        writers: &Names,
        entry: &Entry,
    ) -> Result<(), AllocError>
        ensures { OnOk result ((t : List ℕ) (n : ℕ) → Holds self.old t n
            → Holds self.new (t ++ entry_line (names_of ring.now) writers.now entry.now) (n + 1)) }
    {
        let before = self.text.len();
        push_entry(&mut self.text, ring, writers, entry)?;
        self.entries = self.entries.saturating_add(1);
        self.count(before);
        Ok(())
    }
}
