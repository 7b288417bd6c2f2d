//! All counters of a group.

ghost use Rattle.std.specs.Prelude.{◌≡◌, ◌↔◌, ◌+◌, ◌*◌, ◌<◌, ◌≤◌, ◌++◌, ℕ, IsTrue, OnOk, slice_index, max};
ghost use Rattle.std.specs.List.{All};
ghost use Rattle.ring_clock.specs.Clock.{IsClock, IsAtMost, counter};
ghost use Rattle.ring_clock.specs.Groups.{group, group_in, IsBlock, IsRaisedBlock};
ghost use Rattle.ring_clock.specs.Places.{IsLow};

use crate::entry::{Entry, GROUP, counter_of};
use crate::part::Part;
use ring_names::WriterId;
use std::alloc::AllocError;
use std::marker::Model;

const PLACES: usize = GROUP as usize;

// Counters are below this, so that the top bit of a difference shows which is greater.
const LIMIT: u32 = 1 << 31;

/// All counters of a group, each below 2^31, 0 by default. Takes 260 bytes.
#[derive(Drop)]
pub struct Full {
    group: u32,
    counters: [u32; PLACES],
}

impl Model for Full {
    ghost use Rattle.std.specs.Prelude.{◌≡◌, ◌<◌, ◌*◌, ℕ, List};
    ghost use Rattle.ring_clock.specs.Clock.{counter};
    ghost use Rattle.ring_clock.specs.Groups.{group_in};
    ghost use Rattle.ring_clock.specs.Places.{entries_from};
    ghost use Rattle.ring_clock.specs.declared.entry.Entry.{Entry};

    ghost Value = { List Entry };

    ghost view = { λ a. entries_from (64 * a.group) a.counters };

    ghost invariant = { λ a. (a.group < 67108864)
        × (group_in (entries_from (64 * a.group) a.counters) ≡ a.group)
        × ((w : ℕ) → counter (entries_from (64 * a.group) a.counters) w < 2147483648) };
}

impl Full {
    /// Makes a full block of one group's entries.
    pub fn of(entries: &[Entry]) -> Full
        requires block { IsBlock entries.now }
        requires low { All IsLow entries.now }
        ensures block { IsBlock result }
        ensures group { group_in result ≡ group_in entries.now }
        ensures counters { (w : ℕ) → counter result w ≡ counter entries.now w }
    {
        let mut counters = [0; PLACES];
        raise_to_entries(&mut counters, entries);
        Full {
            group: group_among(entries),
            counters,
        }
    }

    fn copy(&self) -> Full
        ensures { result ≡ self.now }
    {
        Full {
            group: self.group,
            counters: self.counters,
        }
    }

    /// Returns the writers' group.
    pub fn group(&self) -> u32
        ensures { result ≡ group_in self.now }
    {
        self.group
    }

    /// Returns the writer's counter, or 0.
    pub fn counter(&self, writer: WriterId) -> u64
        ensures { result ≡ counter self.now writer.0 }
    {
        if writer.0 / GROUP == self.group {
            u64::from(self.counters[(writer.0 % GROUP) as usize])
        } else {
            0
        }
    }

    /// Iterates over the entries.
    pub fn part(&self) -> Part<'_>
        ensures { result ≡ self.now }
    {
        Part::full(
            u64::from(self.group) * u64::from(GROUP),
            self.counters.as_slice(),
        )
    }

    /// Appends the entries to a list.
    pub fn push_to(&self, out: &mut Vec<Entry>) -> Result<(), AllocError>
        ensures { OnOk result (out.new.items ≡ out.old.items ++ self.now) }
    {
        let first = self.group * GROUP;
        for place in 0..PLACES {
            let counter = u64::from(self.counters[place]);
            if counter > 0 {
                let writer = WriterId(first + place as u32);
                out.push(Entry { writer, counter })?;
            }
        }
        Ok(())
    }

    /// Whether each counter is at most the other's.
    #[inline(always)]
    pub fn is_at_most(&self, other: &Full) -> bool
        requires { group_in self.now ≡ group_in other.now }
        ensures { IsTrue result ↔ IsAtMost self.now other.now }
    {
        are_below(&self.counters, &other.counters)
    }

    /// Whether each entry is at most its writer's counter.
    pub fn is_above(&self, entries: &[Entry]) -> bool
        requires { IsClock entries.now }
        ensures { IsTrue result ↔ IsAtMost entries.now self.now }
    {
        for entry in entries {
            if self.counter(entry.writer) < entry.counter {
                return false;
            }
        }
        true
    }

    /// Whether each counter is at most its writer's among the entries. Searches once for each counter above 0.
    pub fn is_below(&self, entries: &[Entry]) -> bool
        requires { IsClock entries.now }
        ensures { IsTrue result ↔ IsAtMost self.now entries.now }
    {
        let first = self.group * GROUP;
        for place in 0..PLACES {
            let counter = u64::from(self.counters[place]);
            let writer = WriterId(first + place as u32);
            if counter > 0 && counter_of(entries, writer) < counter {
                return false;
            }
        }
        true
    }

    /// Returns the greater counters.
    pub fn join(&self, other: &Full) -> Full
        requires first { IsBlock self.now }
        requires second { IsBlock other.now }
        requires group { group_in self.now ≡ group_in other.now }
        ensures block { IsBlock result }
        ensures group { group_in result ≡ group_in self.now }
        ensures counters { (w : ℕ) → counter result w ≡ max (counter self.now w) (counter other.now w) }
    {
        let mut made = self.copy();
        made.raise(other);
        made
    }

    /// Raises the counters to the other's.
    pub fn raise(&mut self, other: &Full)
        requires first { IsBlock self.old }
        requires second { IsBlock other.now }
        requires group { group_in self.old ≡ group_in other.now }
        ensures { IsRaisedBlock self.old other.now self.new }
    {
        raise_to(&mut self.counters, &other.counters);
    }

    /// Raises the counters to the entries'.
    pub fn raise_to(&mut self, entries: &[Entry])
        requires first { IsBlock self.old }
        requires second { IsBlock entries.now }
        requires low { All IsLow entries.now }
        requires group { group_in self.old ≡ group_in entries.now }
        ensures { IsRaisedBlock self.old entries.now self.new }
    {
        raise_to_entries(&mut self.counters, entries);
    }

    /// Merges entries into a new block.
    pub fn merge(&self, entries: &[Entry]) -> Full
        requires first { IsBlock self.now }
        requires second { IsBlock entries.now }
        requires low { All IsLow entries.now }
        requires group { group_in self.now ≡ group_in entries.now }
        ensures block { IsBlock result }
        ensures group { group_in result ≡ group_in self.now }
        ensures counters { (w : ℕ) → counter result w ≡ max (counter self.now w) (counter entries.now w) }
    {
        let mut made = self.copy();
        made.raise_to(entries);
        made
    }
}

// Groups are numbers below 2^26.
fn group_in_range(writer: WriterId) -> u32
    ensures value { result ≡ group writer.0 }
    ensures few { result < 67108864 }
{
    writer.0 / GROUP
}

/// Returns the group of the first entry.
pub fn group_among(entries: &[Entry]) -> u32
    ensures value { result ≡ group_in entries.now }
    ensures few { result < 67108864 }
{
    match entries.first() {
        Some(entry) => group_in_range(entry.writer),
        None => 0,
    }
}

/// Whether each counter is below 2^31, as in a full block.
pub fn are_low(entries: &[Entry]) -> bool
    ensures { IsTrue result ↔ All IsLow entries.now }
{
    entries.iter().all(|entry| entry.counter < u64::from(LIMIT))
}

// Compares all places, several at once. Inlined, because a call costs a tenth of the work.
#[inline(always)]
fn are_below(first: &[u32; PLACES], second: &[u32; PLACES]) -> bool
    requires first { (k : ℕ) → slice_index first.now k < 2147483648 }
    requires second { (k : ℕ) → slice_index second.now k < 2147483648 }
    ensures { IsTrue result ↔ ((k : ℕ) → slice_index first.now k ≤ slice_index second.now k) }
{
    let mut lost = 0;
    for place in 0..PLACES {
        lost |= second[place].wrapping_sub(first[place]);
    }
    lost < LIMIT
}

fn raise_to(counters: &mut [u32; PLACES], others: &[u32; PLACES])
    ensures { (k : ℕ) → slice_index counters.new k ≡ max (slice_index counters.old k) (slice_index others.now k) }
{
    for place in 0..PLACES {
        counters[place] = counters[place].max(others[place]);
    }
}

fn raise_to_entries(counters: &mut [u32; PLACES], entries: &[Entry])
    requires block { IsBlock entries.now }
    requires low { All IsLow entries.now }
    ensures { (k : ℕ) → k < 64
        → slice_index counters.new k ≡ max (slice_index counters.old k) (counter entries.now (64 * group_in entries.now + k)) }
{
    let mut rest = entries;
    'entries: while let Some((entry, later)) = rest.split_first() {
        let place = (entry.writer.0 % GROUP) as usize;
        counters[place] = counters[place].max(entry.counter as u32);
        rest = later;
    }
}
