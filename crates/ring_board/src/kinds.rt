//! The kinds of receipts.

ghost use Rattle.std.specs.Prelude.{◌≡◌};
ghost use Rattle.std.specs.List.{list_all};
ghost use Rattle.ring_board.specs.Kinds.{is_step, is_handoff, finished_by, sends, acknowledges, reads, ends};

use crate::receipt::Receipt;
use plan_runs::Event;

fn is_of_step(event: &Event) -> bool
    ensures { result ≡ is_step event.now }
{
    match event {
        Event::Do(_)
        | Event::OpenCopy(_)
        | Event::ChunkCopy(_, _)
        | Event::CloseCopy(_)
        | Event::AbortCopy(_) => true,
        _ => false,
    }
}

fn is_of_handoff(event: &Event) -> bool
    ensures { result ≡ is_handoff event.now }
{
    match event {
        Event::Handoff(_, _) => true,
        _ => false,
    }
}

pub(crate) fn are_of_steps(list: &[Receipt]) -> bool
    ensures { result ≡ list_all (λ r. is_step r.event) list.now }
{
    list.iter().all(|receipt| is_of_step(&receipt.event))
}

pub(crate) fn are_of_handoffs(list: &[Receipt]) -> bool
    ensures { result ≡ list_all (λ r. is_handoff r.event) list.now }
{
    list.iter().all(|receipt| is_of_handoff(&receipt.event))
}

pub(crate) fn finished(event: &Event) -> Option<u32>
    ensures { result ≡ finished_by event.now }
{
    match event {
        Event::Do(step) | Event::CloseCopy(step) => Some(*step),
        _ => None,
    }
}

pub(crate) fn is_sent(put: u32, event: &Event) -> bool
    ensures { result ≡ sends put event.now }
{
    match event {
        Event::Write(other, _) | Event::Hint(other, _, _) => put == *other,
        _ => false,
    }
}

pub(crate) fn is_acknowledged(put: u32, event: &Event) -> bool
    ensures { result ≡ acknowledges put event.now }
{
    match event {
        Event::Ack(other) => put == *other,
        _ => false,
    }
}

pub(crate) fn is_read(get: u32, event: &Event) -> bool
    ensures { result ≡ reads get event.now }
{
    match event {
        Event::Read(other, _) => get == *other,
        _ => false,
    }
}

pub(crate) fn is_end(get: u32, event: &Event) -> bool
    ensures { result ≡ ends get event.now }
{
    match event {
        Event::EndGet(other) => get == *other,
        _ => false,
    }
}
