//! Replies, by their fields.

ghost use Rattle.std.specs.Prelude.{◌≡◌};
ghost use Rattle.texts.specs.Judging.{Does, map_ok};
ghost use Rattle.history_text.specs.Said.{reply_of};
ghost use Rattle.history_text.specs.Reading.{judge_numbers, numbers_at, ticket_at, reply_at};

use crate::said::{SaidReply, SmallRow};
use ring_names::{Refusal, Slot};
use texts::{CAP, Fields, NumberRow, both};

#[tactic(auto, unfolding(crate::specs::Reading::ticket_at))]
fn ticket(fields: &mut Fields) -> Result<((u32, u32), u32), Refusal>
    ensures { Does ticket_at fields.old result fields.new }
{
    let partition = fields.number(u32::MAX);
    let index = fields.number(u32::MAX);
    let generation = fields.number(u32::MAX);
    both(both(partition, index), generation)
}

// The row's numbers, if they have 32 bits.
fn small<'a>(fields: &Fields, row: NumberRow<'a>) -> Result<SmallRow<'a>, Refusal>
    ensures { result ≡ judge_numbers fields.now.number row.entry }
{
    if !row.are_below(CAP) {
        return Err(Refusal::TooLarge(fields.line()));
    }
    Ok(SmallRow::of(row))
}

fn numbers<'a>(fields: &mut Fields<'a>) -> Result<SmallRow<'a>, Refusal>
    ensures { Does numbers_at fields.old result fields.new }
{
    let row = fields.numbers();
    small(fields, row)
}

/// Reads a reply's fields.
#[tactic(auto, unfolding(crate::specs::Reading::reply_at))]
pub fn said_reply<'a>(fields: &mut Fields<'a>) -> Result<SaidReply<'a>, Refusal>
    ensures { Does reply_at fields.old (map_ok reply_of result) fields.new }
{
    let Some(word) = fields.next() else {
        return Err(Refusal::BadLine(fields.line()));
    };
    if word == b"ok".as_slice() {
        Ok(SaidReply::Plain)
    } else if word == b"put".as_slice() {
        fields.number(u32::MAX).map(|number| SaidReply::Put(number))
    } else if word == b"ticket".as_slice() {
        ticket(fields).map(|((partition, index), generation)| {
            SaidReply::Ticket(Slot { partition, index }, generation)
        })
    } else if word == b"get".as_slice() {
        fields.number(u32::MAX).map(|number| SaidReply::Get(number))
    } else if word == b"found".as_slice() {
        numbers(fields).map(|puts| SaidReply::Found(puts))
    } else if word == b"reply".as_slice() {
        numbers(fields).map(|puts| SaidReply::Answer(puts))
    } else {
        Err(Refusal::BadLine(fields.line()))
    }
}
