//! Merges two lists of entries.

ghost use Rattle.std.specs.Prelude.{◌≡◌, ◌↔◌, ◌+◌, ◌<◌, ◌≤◌, ◌∷◌, [], ℕ, IsTrue, IfOk, IfNone, IfSome, OnOk, drop, length, max};
ghost use Rattle.ring_clock.specs.Clock.{IsClock, IsAtMost, counter};
ghost use Rattle.ring_clock.specs.Merge.{EntriesStandFor};

use crate::entry::{Entry, GROUP};
use std::alloc::{AllocError, Global};

// Counts leading places with equal writers. None if the first's counter is greater at such a place.
fn aligned(first: &[Entry], second: &[Entry]) -> Option<usize>
    requires first { IsClock first.now }
    requires second { IsClock second.now }
    requires fits { length first.now ≤ length second.now }
    ensures greater { IfNone result (¬ (IsAtMost first.now second.now)) }
    ensures within { IfSome result (λ n. n ≤ length first.now) }
    ensures rest { IfSome result
        (λ n. IsAtMost (drop n first.now) (drop n second.now) ↔ IsAtMost first.now second.now) }
{
    for place in 0..first.len() {
        let entry = &first[place];
        let other = &second[place];
        if entry.writer.0 != other.writer.0 {
            return Some(place);
        }
        if entry.counter > other.counter {
            return None;
        }
    }
    Some(first.len())
}

fn unaligned(first: &[Entry], second: &[Entry]) -> bool
    requires first { IsClock first.now }
    requires second { IsClock second.now }
    ensures { IsTrue result ↔ IsAtMost first.now second.now }
{
    let mut rest = first;
    let mut others = second;
    'entries: while let Some((entry, later)) = rest.split_first() {
        let Some((other, later_others)) = others.split_first() else {
            return false;
        };
        if entry.writer.0 < other.writer.0 {
            return false;
        }
        if entry.writer.0 == other.writer.0 {
            if other.counter < entry.counter {
                return false;
            }
            rest = later;
        }
        others = later_others;
    }
    true
}

/// Whether each counter is at most the second's. Most writers have the same place in both lists.
pub fn is_at_most(first: &[Entry], second: &[Entry]) -> bool
    requires first { IsClock first.now }
    requires second { IsClock second.now }
    ensures { IsTrue result ↔ IsAtMost first.now second.now }
{
    if second.len() < first.len() {
        return false;
    }
    match aligned(first, second) {
        Some(passed) => unaligned(&first[passed..], &second[passed..]),
        None => false,
    }
}

// Takes the least writer's entry, with the greater counter if both lists have one.
fn take_least<'a>(first: &mut &'a [Entry], second: &mut &'a [Entry]) -> Option<Entry>
    requires first { IsClock first.old.now }
    requires second { IsClock second.old.now }
    ensures none { IfNone result ((first.old.now ≡ []) × (second.old.now ≡ [])) }
    ensures some { IfSome result
        (λ e. EntriesStandFor first.old.now second.old.now (e ∷ first.new.now) (e ∷ second.new.now)) }
    ensures shorter { IfSome result
        (λ e. length first.new.now + length second.new.now < length first.old.now + length second.old.now) }
{
    match (first.split_first(), second.split_first()) {
        (None, None) => None,
        (Some((entry, later)), None) => {
            *first = later;
            Some(*entry)
        }
        (None, Some((entry, later))) => {
            *second = later;
            Some(*entry)
        }
        (Some((entry, later)), Some((other, later_others))) => {
            if entry.writer.0 < other.writer.0 {
                *first = later;
                return Some(*entry);
            }
            *second = later_others;
            if other.writer.0 < entry.writer.0 {
                return Some(*other);
            }
            *first = later;
            if entry.counter < other.counter {
                return Some(*other);
            }
            Some(*entry)
        }
    }
}

fn merge_into(out: &mut Vec<Entry>, first: &[Entry], second: &[Entry]) -> Result<(), AllocError>
    requires empty { out.old.items ≡ [] }
    requires first { IsClock first.now }
    requires second { IsClock second.now }
    ensures clock { OnOk result (IsClock out.new.items) }
    ensures counters { OnOk result
        ((w : ℕ) → counter out.new.items w ≡ max (counter first.now w) (counter second.now w)) }
{
    let mut rest = first;
    let mut others = second;
    'entries: while let Some(entry) = take_least(&mut rest, &mut others) {
        out.push(entry)?;
    }
    Ok(())
}

/// Returns the greater counters. For one group, takes memory once, at most for its entries.
pub fn merged(alloc: Global, first: &[Entry], second: &[Entry]) -> Result<Vec<Entry>, AllocError>
    requires first { IsClock first.now }
    requires second { IsClock second.now }
    ensures clock { IfOk result (λ v. IsClock v.items) }
    ensures counters { IfOk result
        (λ v. (w : ℕ) → counter v.items w ≡ max (counter first.now w) (counter second.now w)) }
{
    let room = first.len().saturating_add(second.len());
    let mut out = Vec::with_capacity(alloc, room.min(GROUP as usize))?;
    merge_into(&mut out, first, second)?;
    Ok(out)
}
