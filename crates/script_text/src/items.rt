//! The fields of an event's line.

ghost use Rattle.std.specs.Prelude.{◌≡◌, [], List, ℕ};
ghost use Rattle.texts.specs.Judging.{field_at, Does};
ghost use Rattle.script_text.specs.Reading.{count_at, pair_at, judge_writer, judge_key, judge_value, judge_seen, seen_at};
ghost use Rattle.script_text.specs.Reading.{put_at, hint_at, handoff_at};

use crate::said::{SaidPut, SaidWriter};
use crate::words::{KeyWord, SeenRow, ValueWord, Word};
use ring_names::{Names, NodeId, Refusal, WriterId};
use ring_table::{Ring, node_field};
use texts::{CAP, Fields, NumberRow, both, is_name};

/// Takes a number. Fails with `BadLine`, or with `TooLarge` if greater than a `u32`.
#[inline(always)]
pub fn count(fields: &mut Fields) -> Result<u32, Refusal>
    ensures { Does count_at fields.old result fields.new }
{
    fields.number(u32::MAX)
}

/// Takes two numbers, as `count`.
#[inline(always)]
#[tactic(auto, unfolding(crate::specs::Reading::pair_at))]
pub fn pair(fields: &mut Fields) -> Result<(u32, u32), Refusal>
    ensures { Does pair_at fields.old result fields.new }
{
    let first = count(fields);
    let second = count(fields);
    both(first, second)
}

// A seen writer, or a new one if there is room.
fn writer<'a>(names: &Names, fields: &mut Fields<'a>) -> Result<SaidWriter<'a>, Refusal>
    ensures { Does (λ k. field_at k (judge_writer names.now k)) fields.old result fields.new }
{
    let line = fields.line();
    let Some(name) = fields.next() else {
        return Err(Refusal::BadLine(line));
    };
    if !is_name(name) {
        return Err(Refusal::BadLine(line));
    }
    match names.number_of(name) {
        Some(number) => Ok(SaidWriter::Known(WriterId(number))),
        None if names.len() < 1024 => Ok(SaidWriter::New(Word { bytes: name })),
        None => Err(Refusal::TooLarge(line)),
    }
}

/// Takes a key, or fails with `BadLine`.
pub fn key<'a>(fields: &mut Fields<'a>) -> Result<KeyWord<'a>, Refusal>
    ensures { Does (λ k. field_at k (judge_key k)) fields.old result fields.new }
{
    let line = fields.line();
    let Some(field) = fields.next() else {
        return Err(Refusal::BadLine(line));
    };
    match KeyWord::of(field) {
        Some(key) => Ok(key),
        None => Err(Refusal::BadLine(line)),
    }
}

fn value<'a>(fields: &mut Fields<'a>) -> Result<ValueWord<'a>, Refusal>
    ensures { Does (λ k. field_at k (judge_value k)) fields.old result fields.new }
{
    let line = fields.line();
    let Some(field) = fields.next() else {
        return Err(Refusal::BadLine(line));
    };
    match ValueWord::of(field) {
        Some(value) => Ok(value),
        None => Err(Refusal::BadLine(line)),
    }
}

fn known<'a>(fields: &Fields, row: NumberRow<'a>) -> Result<SeenRow<'a>, Refusal>
    ensures { result ≡ judge_seen fields.now.number row.entry }
{
    let line = fields.line();
    if row.is_empty() {
        return Err(Refusal::BadLine(line));
    }
    if !row.are_ascending() {
        return Err(Refusal::BadLine(line));
    }
    if !row.is_at_most(16) {
        return Err(Refusal::TooLarge(line));
    }
    if !row.are_below(CAP) {
        return Err(Refusal::TooLarge(line));
    }
    Ok(SeenRow::of(row))
}

// Takes `seen` and the numbers after it, if any.
#[tactic(auto, unfolding(crate::specs::Reading::seen_at))]
fn seen<'a>(fields: &mut Fields<'a>) -> Result<SeenRow<'a>, Refusal>
    ensures { Does seen_at fields.old result fields.new }
{
    let Some(word) = fields.next() else {
        return Ok(SeenRow::of(NumberRow::none()));
    };
    if word == b"seen".as_slice() {
        let row = fields.numbers();
        return known(fields, row);
    }
    Err(Refusal::BadLine(fields.line()))
}

/// Takes a put's fields: writer, key, value, and the gets that the put knows.
#[tactic(auto, unfolding(crate::specs::Reading::put_at))]
pub fn put<'a>(names: &Names, fields: &mut Fields<'a>) -> Result<SaidPut<'a>, Refusal>
    ensures { Does (put_at names.now) fields.old result fields.new }
{
    let writer = writer(names, fields);
    let key = key(fields);
    let value = value(fields);
    let seen = seen(fields);
    let (((writer, key), value), seen) = both(both(both(writer, key), value), seen)?;
    Ok(SaidPut {
        writer,
        key,
        value,
        seen,
    })
}

/// Takes a put, a slot's index, and a declared node.
#[tactic(auto, unfolding(crate::specs::Reading::hint_at))]
pub fn hint(ring: &Ring, fields: &mut Fields) -> Result<((u32, u32), NodeId), Refusal>
    ensures { Does (hint_at ring.now) fields.old result fields.new }
{
    let place = pair(fields);
    let node = node_field(ring, None, fields);
    both(place, node)
}

/// Reads a declared node and a slot from the fields.
#[tactic(auto, unfolding(crate::specs::Reading::handoff_at))]
pub fn handoff(ring: &Ring, fields: &mut Fields) -> Result<(NodeId, (u32, u32)), Refusal>
    ensures { Does (handoff_at ring.now) fields.old result fields.new }
{
    let node = node_field(ring, None, fields);
    let slot = pair(fields);
    both(node, slot)
}
