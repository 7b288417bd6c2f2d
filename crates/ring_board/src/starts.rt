//! The receipts that start a line's put or get.

ghost use Rattle.std.specs.Str.{bytes_eq};
ghost use Rattle.std.specs.Prelude.{◌≡◌, ◌&&◌, ◌↔◌, ℕ, Some, None, false, slice_get, IfSome, IfNone, IsTrue};
ghost use Rattle.plan_runs.specs.declared.event.Event.TheVariants.{StartPut, StartGet};
ghost use Rattle.plan_runs.specs.declared.event.Reply.TheVariants.{Put, Get};
ghost use Rattle.ring_board.specs.Blocks.{number_at, numbers_of, are_ended};

use crate::asked::Asked;
use crate::receipt::Receipt;
use plan_runs::{Event, Key, Reply, Seen};
use ring_names::{Value, WriterId};

/// Whether each number is an earlier ended get of the script, with this key.
pub fn all_ended(asked: &[Asked], key: &Key, seen: &Seen) -> bool
    ensures { result ≡ are_ended asked.now key.now seen.now }
{
    seen.as_slice().iter().all(
        |n: &u32| -> bool
            ensures { result ≡ elim
                (slice_get asked.entry.now n.now) [ Some a ↦ bytes_eq a.key key.entry.now && a.ended | None ↦ false ] }
        {
            match asked.get(*n as usize) {
                Some(get) => get.key.as_slice() == key.as_slice() && get.ended,
                None => false,
            }
        },
    )
}

/// Returns the number, in the history, of the script's n-th get, or 0.
pub fn number_of(asked: &[Asked], n: u32) -> u32
    ensures { result ≡ number_at asked.now n }
{
    match asked.get(n as usize) {
        Some(get) => get.number,
        None => 0,
    }
}

fn are_numbers(asked: &[Asked], seen: &[u32], numbers: &[u32]) -> bool
    ensures { IsTrue result ↔ (numbers.now ≡ numbers_of asked.now seen.now) }
{
    let mut gets = seen;
    let mut rest = numbers;
    'gets: while let Some((get, gets_later)) = gets.split_first() {
        let Some((number, later)) = rest.split_first() else {
            return false;
        };
        if *number != number_of(asked, *get) {
            return false;
        }
        gets = gets_later;
        rest = later;
    }
    rest.is_empty()
}

/// A put's line: writer, key and value, and the script's gets that it has seen.
#[derive(Clone, Copy)]
pub(crate) struct PutLine<'l> {
    pub writer: WriterId,
    pub key: &'l Key,
    pub value: &'l Value,
    pub seen: &'l Seen,
}

fn is_start_of(asked: &[Asked], line: &PutLine, event: &Event) -> bool
    ensures { IsTrue result ↔ (event.now
        ≡ StartPut line.now.writer line.now.key.now line.now.value.now (numbers_of asked.now line.now.seen.now)) }
{
    match event {
        Event::StartPut(by, of, with, knowing) => {
            by.0 == line.writer.0
                && of.as_slice() == line.key.as_slice()
                && with.as_slice() == line.value.as_slice()
                && are_numbers(asked, line.seen.as_slice(), knowing.as_slice())
        }
        _ => false,
    }
}

pub(crate) fn put_started(asked: &[Asked], line: &PutLine, receipt: &Receipt) -> Option<u32>
    ensures some { IfSome result (λ v. (receipt.now.event
        ≡ StartPut line.now.writer line.now.key.now line.now.value.now (numbers_of asked.now line.now.seen.now))
        × (receipt.now.reply ≡ Put v)) }
    ensures none { IfNone result ((v : ℕ) → receipt.now.event
        ≡ StartPut line.now.writer line.now.key.now line.now.value.now (numbers_of asked.now line.now.seen.now)
        → receipt.now.reply ≡ Put v → ⊥) }
{
    match &receipt.reply {
        Reply::Put(put) => {
            if is_start_of(asked, line, &receipt.event) {
                Some(*put)
            } else {
                None
            }
        }
        _ => None,
    }
}

pub(crate) fn get_started(key: &Key, receipt: &Receipt) -> Option<u32>
    ensures some { IfSome result (λ g. (receipt.now.event ≡ StartGet key.now) × (receipt.now.reply ≡ Get g)) }
    ensures none { IfNone result ((g : ℕ) → receipt.now.event ≡ StartGet key.now → receipt.now.reply ≡ Get g → ⊥) }
{
    match (&receipt.event, &receipt.reply) {
        (Event::StartGet(of), Reply::Get(get)) => {
            if of.as_slice() == key.as_slice() {
                Some(*get)
            } else {
                None
            }
        }
        _ => None,
    }
}
