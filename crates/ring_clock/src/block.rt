//! Blocks: the entries of 64 writers, shared by clocks.

ghost use Rattle.std.specs.Prelude.{◌≡◌, ◌↔◌, ◌*◌, ◌<◌, ◌≤◌, ◌∷◌, ◌++◌, [], ℕ, true, false, IsTrue, IfOk, OnOk, OnErr, max};
ghost use Rattle.ring_clock.specs.Clock.{IsClock, IsAtMost, counter};
ghost use Rattle.ring_clock.specs.Forms.{entries_in, looked_in};
ghost use Rattle.ring_clock.specs.Groups.{group, group_in, IsBlock, IsRaisedBlock};

use crate::entry::{Entry, GROUP, counter_of};
use crate::full::{Full, are_low, group_among};
use crate::merge::{is_at_most, merged};
use crate::part::Part;
use ring_names::WriterId;
use std::alloc::{AllocError, Global};
use std::marker::Model;
use std::slice;
use std::sync::Arc;

// 17 entries of 16 bytes take more than a full block's 260 bytes.
const MANY: usize = 17;

/// Returns the number of the writer's group of 64.
pub fn group_of(writer: WriterId) -> u32
    ensures { result ≡ group writer.0 }
{
    writer.0 / GROUP
}

/// A few entries, or all 64 counters. One entry, the clock of a put without a get, is inline.
#[derive(Drop)]
pub enum Form {
    One(Entry),
    Few(Vec<Entry>),
    Full(Box<Full>),
}

#[derive(Clone, Copy)]
pub enum Look<'a> {
    Few(&'a [Entry]),
    Full(&'a Full),
}

impl Form {
    #[inline(always)]
    fn look(&self) -> Look<'_>
        ensures { looked_in result ≡ entries_in self.now }
    {
        match self {
            Form::One(entry) => Look::Few(slice::from_ref(entry)),
            Form::Few(entries) => Look::Few(entries.as_slice()),
            Form::Full(full) => Look::Full(full),
        }
    }

    // Raises a full form in place. Returns false if it is not full, or a counter is 2^31 or more.
    fn raise(&mut self, other: &Form) -> bool
        requires first { IsBlock (entries_in self.old) }
        requires second { IsBlock (entries_in other.now) }
        requires group { group_in (entries_in self.old) ≡ group_in (entries_in other.now) }
        ensures raised { result ≡ true → IsRaisedBlock (entries_in self.old) (entries_in other.now) (entries_in self.new) }
        ensures same { result ≡ false → self.new ≡ self.old }
    {
        let Form::Full(mine) = self else {
            return false;
        };
        match other.look() {
            Look::Full(theirs) => mine.raise(theirs),
            Look::Few(theirs) if are_low(theirs) => mine.raise_to(theirs),
            Look::Few(_) => return false,
        }
        true
    }
}

/// One group's entries. Copies share them.
#[derive(Drop)]
pub struct Block {
    shared: Arc<Form>,
}

impl Model for Block {
    ghost use Rattle.std.specs.Prelude.{List};
    ghost use Rattle.std.specs.Arc.{arc_value};
    ghost use Rattle.ring_clock.specs.declared.entry.Entry.{Entry};
    ghost use Rattle.ring_clock.specs.Forms.{entries_in};

    ghost Value = { List Entry };

    ghost view = { λ a. entries_in (arc_value a.shared) };
}

impl Block {
    /// Makes a block of one entry.
    pub fn one(alloc: Global, entry: Entry) -> Result<Block, AllocError>
        ensures { IfOk result (λ b. b ≡ entry ∷ []) }
    {
        let shared = Arc::new(alloc, Form::One(entry))?;
        Ok(Block { shared })
    }

    fn full(alloc: Global, full: Full) -> Result<Block, AllocError>
        ensures { IfOk result (λ b. b ≡ full) }
    {
        let counters = Box::new(alloc, full)?;
        let shared = Arc::new(alloc, Form::Full(counters))?;
        Ok(Block { shared })
    }

    fn of(alloc: Global, entries: Vec<Entry>) -> Result<Block, AllocError>
        requires { IsBlock entries.items }
        ensures block { IfOk result IsBlock }
        ensures group { IfOk result (λ b. group_in b ≡ group_in entries.items) }
        ensures counters { IfOk result (λ b. (w : ℕ) → counter b w ≡ counter entries.items w) }
    {
        if let [entry] = entries.as_slice() {
            return Block::one(alloc, *entry);
        }
        if entries.len() < MANY || !are_low(entries.as_slice()) {
            let shared = Arc::new(alloc, Form::Few(entries))?;
            return Ok(Block { shared });
        }
        Block::full(alloc, Full::of(entries.as_slice()))
    }

    /// Copies the block without memory.
    pub fn try_copy(&self) -> Result<Block, AllocError>
        ensures { IfOk result (λ b. b ≡ self.now) }
    {
        let shared = Arc::try_clone(&self.shared)?;
        Ok(Block { shared })
    }

    /// Iterates over the entries.
    pub fn part(&self) -> Part<'_>
        ensures { result ≡ self.now }
    {
        match self.shared.look() {
            Look::Few(entries) => Part::few(entries),
            Look::Full(full) => full.part(),
        }
    }

    /// Appends the entries to a list.
    pub fn push_to(&self, out: &mut Vec<Entry>) -> Result<(), AllocError>
        ensures { OnOk result (out.new.items ≡ out.old.items ++ self.now) }
    {
        match self.shared.look() {
            Look::Few(entries) => out.extend_from_slice(entries),
            Look::Full(full) => full.push_to(out),
        }
    }

    /// Returns the writers' group.
    pub fn group(&self) -> u32
        ensures { result ≡ group_in self.now }
    {
        match self.shared.look() {
            Look::Few(entries) => group_among(entries),
            Look::Full(full) => full.group(),
        }
    }

    /// Returns the writer's counter, or 0.
    pub fn counter(&self, writer: WriterId) -> u64
        requires { IsClock self.now }
        ensures { result ≡ counter self.now writer.0 }
    {
        match self.shared.look() {
            Look::Few(entries) => counter_of(entries, writer),
            Look::Full(full) => full.counter(writer),
        }
    }

    /// Whether each counter is at most the other's.
    pub fn is_at_most(&self, other: &Block) -> bool
        requires first { IsBlock self.now }
        requires second { IsBlock other.now }
        requires group { group_in self.now ≡ group_in other.now }
        ensures { IsTrue result ↔ IsAtMost self.now other.now }
    {
        match (self.shared.look(), other.shared.look()) {
            (Look::Few(mine), Look::Few(theirs)) => is_at_most(mine, theirs),
            (Look::Few(mine), Look::Full(theirs)) => theirs.is_above(mine),
            (Look::Full(mine), Look::Few(theirs)) => mine.is_below(theirs),
            (Look::Full(mine), Look::Full(theirs)) => mine.is_at_most(theirs),
        }
    }

    /// Whether each counter is at most the other's. The groups may differ. Fast if both are full, as usual.
    pub fn passes(&self, other: &Block) -> bool
        requires first { IsBlock self.now }
        requires second { IsBlock other.now }
        ensures { IsTrue result ↔ IsAtMost self.now other.now }
    {
        if let (Form::Full(mine), Form::Full(theirs)) = (&*self.shared, &*other.shared)
            && mine.group() == theirs.group()
        {
            return mine.is_at_most(theirs);
        }
        self.group() == other.group() && self.is_at_most(other)
    }

    /// Joins the blocks: each writer's greater counter. Reads both; takes memory only if neither is at most the other.
    pub fn join(&self, alloc: Global, other: &Block) -> Result<Block, AllocError>
        requires first { IsBlock self.now }
        requires second { IsBlock other.now }
        requires group { group_in self.now ≡ group_in other.now }
        ensures block { IfOk result IsBlock }
        ensures group { IfOk result (λ b. group_in b ≡ group_in self.now) }
        ensures counters { IfOk result (λ b. (w : ℕ) → counter b w ≡ max (counter self.now w) (counter other.now w)) }
    {
        if other.is_at_most(self) {
            return self.try_copy();
        }
        if self.is_at_most(other) {
            return other.try_copy();
        }
        match (self.shared.look(), other.shared.look()) {
            (_, Look::Few(theirs)) => self.merge(alloc, theirs),
            (Look::Few(mine), Look::Full(_)) => other.merge(alloc, mine),
            (Look::Full(mine), Look::Full(theirs)) => Block::full(alloc, mine.join(theirs)),
        }
    }

    // Raises the block in place. Returns false if it is shared or not full, or a counter is 2^31 or more.
    fn raise_here(&mut self, other: &Block) -> bool
        requires first { IsBlock self.old }
        requires second { IsBlock other.now }
        requires group { group_in self.old ≡ group_in other.now }
        ensures raised { result ≡ true → IsRaisedBlock self.old other.now self.new }
        ensures same { result ≡ false → self.new ≡ self.old }
    {
        match Arc::get_mut(&mut self.shared) {
            Some(form) => form.raise(&other.shared),
            None => false,
        }
    }

    /// Raises the counters to the other's. Reads the entries of both.
    ///
    /// Takes memory as `join` does, but none if the block is full and unshared and each counter is below 2^31.
    pub fn raise(&mut self, alloc: Global, other: &Block) -> Result<(), AllocError>
        requires first { IsBlock self.old }
        requires second { IsBlock other.now }
        requires group { group_in self.old ≡ group_in other.now }
        ensures ok { OnOk result (IsRaisedBlock self.old other.now self.new) }
        ensures err { OnErr result (self.new ≡ self.old) }
    {
        if self.raise_here(other) {
            return Ok(());
        }
        *self = self.join(alloc, other)?;
        Ok(())
    }

    /// Merges entries into a new block. Reads the entries of both.
    ///
    /// Takes 260 bytes for a full block, otherwise 16 for each entry.
    pub fn merge(&self, alloc: Global, entries: &[Entry]) -> Result<Block, AllocError>
        requires first { IsBlock self.now }
        requires second { IsBlock entries.now }
        requires group { group_in self.now ≡ group_in entries.now }
        ensures block { IfOk result IsBlock }
        ensures group { IfOk result (λ b. group_in b ≡ group_in self.now) }
        ensures counters { IfOk result (λ b. (w : ℕ) → counter b w ≡ max (counter self.now w) (counter entries.now w)) }
    {
        match self.shared.look() {
            Look::Few(mine) => Block::of(alloc, merged(alloc, mine, entries)?),
            Look::Full(mine) if are_low(entries) => Block::full(alloc, mine.merge(entries)),
            Look::Full(mine) => {
                let mut own = Vec::with_capacity(alloc, GROUP as usize)?;
                mine.push_to(&mut own)?;
                Block::of(alloc, merged(alloc, own.as_slice(), entries)?)
            }
        }
    }
}
