//! A history read line by line.

ghost use Rattle.std.specs.Prelude.{◌≡◌, ◌≢◌, ◌≤◌, ◌++◌, ℕ, true, List, codes, length, take, drop, IfOk, IfErr, OnOk, OnErr};
ghost use Rattle.ring_names.specs.declared.refusal.Refusal.TheVariants.{OutOfMemory, TooLarge};
ghost use Rattle.texts.specs.Parts.{lines_of};
ghost use Rattle.texts.specs.Judging.{end_at, map_ok};
ghost use Rattle.ring_table.specs.Value.{RingValue};
ghost use Rattle.history_text.specs.Said.{SaidEntry};
ghost use Rattle.history_text.specs.StreamReading.{resume_at};
ghost use Rattle.texts.specs.Left.{next_number};
ghost use Rattle.texts.specs.Frames.{header_at};
ghost use Rattle.history_text.specs.declared.reader.Stage.TheVariants.{First, Entries, Over};
ghost use Rattle.history_text.specs.State.{is_start, Counted, Counts, IsFirst, IsHeld, IsRun, TakesEntry, RefusesEntry, Takes, TakesSome, Refuses, RefusesLine, line_and, lines_and};

use crate::lines::{entry_line, keep_entry};
use memchr::memchr;
use plan_cert::MAX_INPUT;
use plan_runs::{Entry, Event};
use ring_names::{Names, Refusal};
use ring_table::Ring;
use std::alloc::Global;
use texts::{Fields, both, finish};

/// The next line.
#[derive(Clone, Copy, Debug, PartialEq, Eq)]
pub enum Stage {
    /// `history 1`.
    First,
    /// An entry, or `end`.
    Entries,
    /// None.
    Over,
}

/// A partly read history. Keeps entries until taken.
#[derive(Drop)]
pub struct Reader<'a> {
    pub ring: &'a Ring,
    pub writers: Names,
    /// The next line's number.
    pub line: u32,
    pub stage: Stage,
    /// How many puts and gets started.
    pub started: u32,
    /// The entries read and not taken.
    pub entries: Vec<Entry>,
}

// Reads the line `history 1`.
#[tactic(auto, unfolding(texts::specs::Frames::header_at))]
fn first_line(mut fields: Fields) -> Result<(), Refusal>
    ensures { result ≡ header_at (codes "history") (codes "1") fields.entry.number fields.entry.fields }
{
    let word = fields.word(b"history");
    let format = fields.word(b"1");
    finish(both(word, format), fields)?;
    Ok(())
}

#[tactic(auto, unfolding(texts::specs::Left::next_number))]
fn next_line(line: u32) -> u32
    ensures { result ≡ next_number line }
{
    if line < u32::MAX { line + 1 } else { line }
}

fn is_start(event: &Event) -> bool
    ensures { result ≡ is_start event.now }
{
    match event {
        Event::StartPut(_, _, _, _) | Event::StartGet(_) => true,
        _ => false,
    }
}

impl<'a> Reader<'a> {
    /// Returns a reader. `line` is the first line's number.
    pub fn of(alloc: Global, ring: &'a Ring, line: u32) -> Reader<'a>
        ensures { IsFirst ring.now line result }
    {
        Reader {
            ring,
            writers: Names::new(alloc),
            line,
            stage: Stage::First,
            started: 0,
            entries: Vec::new(alloc),
        }
    }

    // Counts a starting put or get. The 4,294,967,295th is `TooLarge`.
    fn count(&mut self, line: u32, event: &Event) -> Result<(), Refusal>
        ensures ok { OnOk result (Counts self.old self.new event.now) }
        ensures err { IfErr result (λ e. (e ≡ TooLarge line) × (4294967294 ≤ self.old.started) × (is_start event.now ≡ true)) }
        ensures held { OnErr result (IsHeld self.old self.new) }
    {
        if is_start(event) {
            if self.started >= u32::MAX - 1 {
                return Err(Refusal::TooLarge(line));
            }
            self.started += 1;
        }
        Ok(())
    }

    fn take_entry(&mut self, alloc: Global, fields: Fields) -> Result<(), Refusal>
        ensures counted { OnOk result ((taken : ℕ) → Counted taken self.old → Counted taken self.new) }
        ensures line { OnOk result (self.new.line ≡ self.old.line) }
        ensures stage { OnOk result (self.new.stage ≡ self.old.stage) }
        ensures ok { OnOk result (TakesEntry self.old self.new fields.entry.number fields.entry.fields) }
        ensures err { IfErr result (λ e. e ≢ OutOfMemory → RefusesEntry self.old fields.entry.number fields.entry.fields e) }
        ensures held { OnErr result (IsHeld self.old self.new) }
    {
        let line = fields.line();
        let said = entry_line(self.ring, &self.writers, &[], fields)?;
        let entry = keep_entry(alloc, &mut self.writers, said)?;
        self.count(line, &entry.event)?;
        self.entries.push(entry)?;
        Ok(())
    }

    fn take_first(&mut self, text: &[u8]) -> Result<(), Refusal>
        requires stage { self.old.stage ≡ First }
        ensures counted { OnOk result ((taken : ℕ) → Counted taken self.old → Counted taken self.new) }
        ensures ok { OnOk result (Takes self.old self.new (line_and text.now)) }
        ensures err { IfErr result (λ e. RefusesLine self.old text.now e) }
        ensures held { OnErr result (IsHeld self.old self.new) }
    {
        first_line(Fields::of(self.line, text))?;
        self.stage = Stage::Entries;
        self.line = next_line(self.line);
        Ok(())
    }

    fn take_end(&mut self, mut fields: Fields) -> Result<(), Refusal>
        ensures ok { OnOk result (self.new ≡ record self.old { stage = Over; line = next_number self.old.line }) }
        ensures end { result ≡ (end_at fields.entry.number fields.entry.fields).0 }
        ensures held { OnErr result (IsHeld self.old self.new) }
    {
        fields.ended()?;
        self.stage = Stage::Over;
        self.line = next_line(self.line);
        Ok(())
    }

    fn take_next(&mut self, alloc: Global, text: &[u8]) -> Result<(), Refusal>
        requires stage { self.old.stage ≡ Entries }
        ensures counted { OnOk result ((taken : ℕ) → Counted taken self.old → Counted taken self.new) }
        ensures ok { OnOk result (Takes self.old self.new (line_and text.now)) }
        ensures err { IfErr result (λ e. e ≢ OutOfMemory → RefusesLine self.old text.now e) }
        ensures held { OnErr result (IsHeld self.old self.new) }
    {
        let mut fields = Fields::of(self.line, text);
        if fields.takes(b"end") {
            return self.take_end(fields);
        }
        self.take_entry(alloc, fields)?;
        self.line = next_line(self.line);
        Ok(())
    }

    fn take_line(&mut self, alloc: Global, text: &[u8]) -> Result<(), Refusal>
        ensures counted { OnOk result ((taken : ℕ) → Counted taken self.old → Counted taken self.new) }
        ensures ok { OnOk result (Takes self.old self.new (line_and text.now)) }
        ensures err { IfErr result (λ e. e ≢ OutOfMemory → RefusesLine self.old text.now e) }
        ensures held { OnErr result (IsHeld self.old self.new) }
    {
        match self.stage {
            Stage::First => self.take_first(text),
            Stage::Entries => self.take_next(alloc, text),
            Stage::Over => Err(Refusal::BadLine(self.line)),
        }
    }

    /// Reads all whole lines, and counts their bytes.
    pub fn take_lines(&mut self, alloc: Global, bytes: &[u8]) -> Result<usize, Refusal>
        ensures counted { OnOk result ((taken : ℕ) → Counted taken self.old → Counted taken self.new) }
        ensures within { IfOk result (λ taken. taken ≤ length bytes.now) }
        ensures run { IfOk result (λ taken. IsRun (drop taken bytes.now)) }
        ensures ok { IfOk result (λ taken. Takes self.old self.new (lines_and (take taken bytes.now))) }
        ensures err { IfErr result (λ e. e ≢ OutOfMemory → Refuses self.old self.new bytes.now e) }
    {
        let mut taken = 0;
        'lines: loop {
            match memchr(b'\n', &bytes[taken..]) {
                None => return Ok(taken),
                Some(at) => {
                    self.take_line(alloc, &bytes[taken..taken + at])?;
                    taken += at + 1;
                }
            }
        }
    }

    fn take_left(&mut self, alloc: Global, left: &mut Vec<u8>) -> Result<(), Refusal>
        ensures counted { OnOk result ((taken : ℕ) → Counted taken self.old → Counted taken self.new) }
        ensures ok { OnOk result (TakesSome self.old self.new left.old.items left.new.items) }
        ensures err { IfErr result (λ e. e ≢ OutOfMemory → Refuses self.old self.new left.old.items e) }
    {
        let taken = self.take_lines(alloc, left.as_slice())?;
        *left = Vec::from_slice(alloc, &left.as_slice()[taken..])?;
        Ok(())
    }

    /// Reads the whole lines of `left` and the following `more`. A line of more than `MAX_INPUT` bytes is `TooLarge`.
    /// Keeps the entries before a fault.
    pub fn take_some(
        &mut self,
        alloc: Global,
        left: &mut Vec<u8>,
        more: &[u8],
    ) -> Result<(), Refusal>
        requires { IsRun left.old.items }
        ensures counted { OnOk result ((taken : ℕ) → Counted taken self.old → Counted taken self.new) }
        ensures ok { OnOk result (TakesSome self.old self.new (left.old.items ++ more.now) left.new.items) }
        ensures err { IfErr result (λ e. e ≢ OutOfMemory → Refuses self.old self.new (left.old.items ++ more.now) e) }
    {
        left.extend_from_slice(more)?;
        match memchr(b'\n', more) {
            Some(_) => self.take_left(alloc, left),
            None => {
                if left.len() > MAX_INPUT {
                    return Err(Refusal::TooLarge(self.line));
                }
                Ok(())
            }
        }
    }

    /// Fails with `BadLine` if the history is not over, or has more text.
    pub fn end(&self, left: &[u8]) -> Result<(), Refusal>
        requires { IsRun left.now }
        ensures { (ring : RingValue) (said : List SaidEntry) → map_ok (λ _. said) result
            ≡ resume_at ring self.now.stage said (record { line = self.now.line; lines = lines_of left.now }) }
    {
        match self.stage {
            Stage::Over => {
                if left.is_empty() {
                    Ok(())
                } else {
                    Err(Refusal::BadLine(self.line))
                }
            }
            Stage::First => Err(Refusal::BadLine(self.line)),
            Stage::Entries => Err(Refusal::BadLine(self.line)),
        }
    }
}
