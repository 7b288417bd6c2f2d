//! A store with its history.

ghost use Rattle.std.specs.Prelude.{◌≡◌, ◌<◌, ◌≤◌, length};

use crate::answer::{push_answer, push_changed};
use crate::mark::{mark, mixed};
use plan_check::Approved;
use plan_runs::{Entry, Event, Reply};
use ring_exec::{Ledgered, RunLedger, Share};
use ring_names::Refusal;
use std::alloc::Global;
use std::sync::ledger::Blank;

/// The history, and its store's mark.
#[derive(Drop)]
pub struct Played {
    pub entries: Vec<Entry>,
    pub mark: u64,
}

/// The answers of a store with its history, one line each.
pub fn ledgered_answers<L: RunLedger>(
    alloc: Global,
    blank: Blank,
    approved: &Approved,
    events: &[Event],
    out: &mut Vec<u8>,
) -> Result<Played, Refusal>
    requires name { blank.name ≡ L.name }
    requires parts { blank.parts ≡ L.parts }
    requires some { 0 < blank.parts }
    requires ring { approved.now.ring ≡ L.ring }
    requires plan { approved.now.plan ≡ L.plan }
    requires events { length events.now ≤ 1000000 }
{
    let (mut ledgered, mut share) = Ledgered::<L>::new(alloc, blank, approved)?;
    let pushed = push_answers(&mut ledgered, &mut share, events, out);
    let entries = ledgered.into_entries();
    let mark = pushed?;
    Ok(Played { entries, mark })
}

/// The mark of the history's restored store.
pub fn restored<L: RunLedger>(
    alloc: Global,
    blank: Blank,
    approved: &Approved,
    entries: &[Entry],
) -> Result<u64, Refusal>
    requires name { blank.name ≡ L.name }
    requires parts { blank.parts ≡ L.parts }
    requires some { 0 < blank.parts }
    requires ring { approved.now.ring ≡ L.ring }
    requires plan { approved.now.plan ≡ L.plan }
{
    let (ledgered, share) = Ledgered::<L>::restore(alloc, blank, approved, entries)?;
    mark_of(&ledgered, &share)
}

// The lines, and the last mark.
fn push_answers<'a, L: RunLedger>(
    ledgered: &mut Ledgered<'a, L>,
    share: &mut Share<L>,
    events: &[Event],
    out: &mut Vec<u8>,
) -> Result<u64, Refusal>
    requires { length events.now ≤ 1000000 }
{
    for (place, event) in events.iter().enumerate() {
        let answer = answer(ledgered, share, event, out)?;
        push_answer(out, place as u32, answer)?;
    }
    mark_of(ledgered, share)
}

fn answer<'a, L: RunLedger>(
    ledgered: &mut Ledgered<'a, L>,
    share: &mut Share<L>,
    event: &Event,
    out: &mut Vec<u8>,
) -> Result<Result<Reply, Refusal>, Refusal> {
    let before = mark_of(ledgered, share)?;
    match reply(ledgered, share, event) {
        Err(Refusal::OutOfMemory) => {
            push_changed(out, before, mark_of(ledgered, share)?)?;
            Ok(reply(ledgered, share, event))
        }
        answer => Ok(answer),
    }
}

fn reply<'a, L: RunLedger>(
    ledgered: &mut Ledgered<'a, L>,
    share: &mut Share<L>,
    event: &Event,
) -> Result<Reply, Refusal> {
    let receipt = ledgered.apply(event, share)?;
    Ok(receipt.reply)
}

// The store's mark, with the history's and the share's counts of events.
fn mark_of<'a, L: RunLedger>(ledgered: &Ledgered<'a, L>, share: &Share<L>) -> Result<u64, Refusal> {
    let counted = mixed(mark(ledgered.world())?, share.count());
    Ok(mixed(counted, ledgered.entries().len() as u64))
}
