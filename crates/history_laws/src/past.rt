//! Checks that one history matches another.

ghost use Rattle.std.specs.Prelude.{◌≡◌, ◌≤◌, ◌++◌, false, length, IsTrue, IfOk, IfSome, OnOk};
ghost use Rattle.std.specs.List.{list_all};
ghost use Rattle.ring_names.specs.declared.ids.Slot.{Slot as TheSlot};
ghost use Rattle.history_laws.specs.Past.{may_go, taken_after, IsSamePast, Tells};
ghost use Rattle.history_laws.specs.Slots.{is_in};

use crate::names::{allows, mirror_in, number_in};
use crate::same::keep_all;
use crate::slots::SlotSet;
use crate::telling::is_told;
use plan_runs::{Back, Entry, Event};
use plan_text::Plan;
use ring_names::Refusal;
use std::alloc::Global;

/// Two plans, and their steps' numbers in each other.
#[derive(Clone, Copy)]
pub struct SamePast<'a> {
    pub old: &'a Plan,
    pub new: &'a Plan,
    /// For each step of `old`, its number in `new`; none if its entries are left out.
    pub numbers: &'a [Option<u32>],
    /// For each step of `new`, its number in `old`.
    pub olds: &'a [u32],
    pub back: Back,
}

/// A history that matches an earlier one.
#[derive(Clone, Copy)]
pub struct Told<'a> {
    pub entries: &'a [Entry],
    /// How many entries here match each entry of the earlier history.
    pub counts: &'a [u32],
}

// Whether the event's entries may be left out, if its step has no number.
fn may_go(back: Back, old: &Plan, numbers: &[Option<u32>], event: &Event) -> bool
    ensures { result ≡ may_go back old.now numbers.now event.now }
{
    match event {
        Event::Do(step) => {
            number_in(numbers, *step).is_some() || (allows(back) && mirror_in(old, *step).is_some())
        }
        Event::CloseCopy(step) => number_in(numbers, *step).is_some(),
        _ => true,
    }
}

// Whether only entries of unfinished copies, and of mirrors if allowed, are left out.
fn may_all_go(back: Back, old: &Plan, numbers: &[Option<u32>], history: &[Entry]) -> bool
    ensures { result ≡ list_all (λ x. may_go back old.now numbers.now x.event) history.now }
{
    history
        .iter()
        .all(|entry| may_go(back, old, numbers, &entry.event))
}

// Adds the slot of the event's mirror, if undone.
fn take_back(
    taken: &mut SlotSet,
    old: &Plan,
    numbers: &[Option<u32>],
    event: &Event,
) -> Result<(), Refusal>
    ensures { OnOk result ((s : TheSlot) → is_in taken.new s ≡ taken_after old.now numbers.now (is_in taken.old) event.now s) }
{
    let Event::Do(step) = event else {
        return Ok(());
    };
    if number_in(numbers, *step).is_some() {
        return Ok(());
    }
    match mirror_in(old, *step) {
        Some((slot, _)) => taken.add(slot),
        None => Ok(()),
    }
}

fn cut(entries: &[Entry], count: u32) -> Option<(&[Entry], &[Entry])>
    ensures { IfSome result (λ parts. entries.now ≡ parts.0.now ++ parts.1.now) }
{
    if entries.len() < count as usize {
        return None;
    }
    Some(entries.split_at(count as usize))
}

// Whether the entries match the earlier ones in order, if no mirror was undone before.
fn are_told(
    taken: &mut SlotSet,
    old: &Plan,
    numbers: &[Option<u32>],
    earlier: &[Entry],
    told: &Told,
) -> Result<bool, Refusal>
    requires { (s : TheSlot) → is_in taken.old s ≡ false }
    ensures { IfOk result (λ b. IsTrue b → Tells old.now numbers.now (λ s. false) earlier.now told.now.entries.now) }
{
    let mut rest = earlier;
    let mut left = told.entries;
    let mut counts = told.counts;
    'entries: while let Some((first, later)) = rest.split_first() {
        let Some((count, other)) = counts.split_first() else {
            return Ok(false);
        };
        let Some((front, behind)) = cut(left, *count) else {
            return Ok(false);
        };
        if !is_told(numbers, taken, first, front)? {
            return Ok(false);
        }
        take_back(taken, old, numbers, &first.event)?;
        rest = later;
        left = behind;
        counts = other;
    }
    Ok(left.is_empty())
}

/// Whether the entries match the earlier history, by the second plan. Costs a pass over both.
///
/// False if a step differs between the plans, or if the counts do not fit.
///
/// False if an entry of a done step is left out, unless the step is an undone mirror.
pub fn is_same_past(
    alloc: Global,
    it: &SamePast,
    earlier: &[Entry],
    told: &Told,
) -> Result<bool, Refusal>
    ensures { IfOk result (λ b. IsTrue b → IsSamePast it.now.back it.now.old.now it.now.new.now earlier.now told.now.entries.now) }
{
    if !keep_all(it.old, it.new, it.numbers, it.olds)
        || !may_all_go(it.back, it.old, it.numbers, earlier)
    {
        return Ok(false);
    }
    let mut taken = SlotSet::new(alloc);
    are_told(&mut taken, it.old, it.numbers, earlier, told)
}
