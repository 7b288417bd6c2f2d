//! Compares entries with one earlier entry.

ghost use Rattle.std.specs.Prelude.{◌≡◌, ◌∷◌, [], IsTrue, IfOk};
ghost use Rattle.std.specs.List.{list_all};
ghost use Rattle.plan_runs.specs.declared.event.Reply.{Reply as TheReply};
ghost use Rattle.history_laws.specs.Past.{is_write, IsOtherTicket, IsToldBy, StandFor, TellsReply};
ghost use Rattle.history_laws.specs.Slots.{is_in};

use crate::renaming::renamed;
use crate::slots::SlotSet;
use plan_runs::{Entry, Event, Reply, is_same_event, is_same_reply};
use ring_names::Refusal;

// Whether both are tickets of one slot with an undone mirror.
fn is_other_ticket(taken: &SlotSet, reply: &Reply, other: &Reply) -> bool
    ensures { IsTrue result → IsOtherTicket (is_in taken.now) reply.now other.now }
{
    match (reply, other) {
        (Reply::Ticket(slot, _), Reply::Ticket(same, _)) => {
            slot.partition == same.partition && slot.index == same.index && taken.has(*slot)
        }
        _ => false,
    }
}

fn tells_reply(taken: &SlotSet, reply: &Reply, other: &Reply) -> bool
    ensures { IsTrue result → TellsReply (is_in taken.now) reply.now other.now }
{
    is_same_reply(reply, other) || is_other_ticket(taken, reply, other)
}

fn is_write(entry: &Entry) -> bool
    ensures { result ≡ is_write entry.now }
{
    matches!(&entry.event, Event::Write(_, _)) && matches!(&entry.reply, Reply::Ticket(_, _))
}

fn are_writes(told: &[Entry]) -> bool
    ensures { result ≡ list_all is_write told.now }
{
    told.iter().all(|entry| is_write(entry))
}

// Whether the entries may replace the left-out event.
fn stand_for(event: &Event, told: &[Entry]) -> bool
    ensures { IsTrue result → StandFor event.now told.now }
{
    match event {
        Event::ChunkCopy(_, _) => are_writes(told),
        _ => told.is_empty(),
    }
}

// Whether the entries are one entry of the event, with a matching reply.
fn is_one(taken: &SlotSet, event: &Event, reply: &Reply, told: &[Entry]) -> bool
    ensures { IsTrue result → (r : TheReply) × (told.now ≡ record { event = event.now; reply = r } ∷ []) × TellsReply (is_in taken.now) reply.now r }
{
    let Some((first, more)) = told.split_first() else {
        return false;
    };
    more.is_empty() && is_same_event(event, &first.event) && tells_reply(taken, reply, &first.reply)
}

/// Whether the entries `told` match `entry`.
pub(crate) fn is_told(
    numbers: &[Option<u32>],
    taken: &SlotSet,
    entry: &Entry,
    told: &[Entry],
) -> Result<bool, Refusal>
    ensures { IfOk result (λ b. IsTrue b → IsToldBy numbers.now (is_in taken.now) entry.now told.now) }
{
    match renamed(numbers, &entry.event)? {
        Some(event) => Ok(is_one(taken, &event, &entry.reply, told)),
        None => Ok(stand_for(&entry.event, told)),
    }
}
