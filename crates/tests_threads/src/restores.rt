//! Stores restored from histories.

ghost use Rattle.std.specs.Prelude.{◌≡◌, ◌<◌};

use crate::executors::{CHAINS, MOVE, RING, approved, finished};
use crate::receipts::{a_get, a_put};
use crate::same::same;
use plan_check::Approved;
use plan_runs::{Entry, Event, Reply};
use ring_exec::{Executor, Ledgered, RunLedger, Share};
use ring_names::{NodeId, Refusal, WriterId};
use std::alloc::{AllocError, Global};
use std::marker::Brand;
use std::process::Abort;
use std::sync::Wait;
use std::sync::ledger::Blank;
use std::test::Fail;

// A put that slots 0 and 2 take, and a get that reads them: each kind of reply.
fn put_and_get(alloc: Global) -> Result<Vec<Event>, Refusal> {
    let put = a_put(alloc, WriterId(0))?;
    let get = a_get(alloc)?;
    let events = [
        put,
        Event::Write(0, 0),
        Event::Write(0, 2),
        Event::Ack(0),
        get,
        Event::Read(0, 0),
        Event::Read(0, 2),
        Event::EndGet(0),
    ];
    Ok(Vec::from_array(alloc, events)?)
}

fn apply_all<'a, L: RunLedger>(
    ledgered: &mut Ledgered<'a, L>,
    share: &mut Share<L>,
    events: &[Event],
) -> Result<(), Refusal> {
    for event in events {
        ledgered.apply(event, share)?;
    }
    Ok(())
}

fn happened<L: RunLedger>(
    alloc: Global,
    blank: Blank,
    approved: &Approved,
    events: &[Event],
) -> Result<Vec<Entry>, Refusal>
    requires name { blank.name ≡ L.name }
    requires parts { blank.parts ≡ L.parts }
    requires some { 0 < blank.parts }
    requires ring { approved.now.ring ≡ L.ring }
    requires plan { approved.now.plan ≡ L.plan }
{
    let (mut ledgered, mut share) = Ledgered::<L>::new(alloc, blank, approved)?;
    let applied = apply_all(&mut ledgered, &mut share, events);
    let history = ledgered.into_entries();
    applied?;
    Ok(history)
}

fn recorded<L: RunLedger>(
    alloc: Global,
    blank: Blank,
    approved: &Approved,
) -> Result<Vec<Entry>, Refusal>
    requires name { blank.name ≡ L.name }
    requires parts { blank.parts ≡ L.parts }
    requires some { 0 < blank.parts }
    requires ring { approved.now.ring ≡ L.ring }
    requires plan { approved.now.plan ≡ L.plan }
{
    let events = put_and_get(alloc)?;
    happened::<L>(alloc, blank, approved, events.as_slice())
}

// ---- a store that goes on

fn next_event<'a, L: RunLedger, RT: AllocGlobal + Wait + Abort>(
    rt: &RT,
    executor: &Executor<'a, L>,
    mut share: Share<L>,
) -> Result<Vec<Share<L>>, Fail> {
    same!(rt; share.count(), 8);
    let receipt = executor.submit(rt, &Event::Do(0), &mut share)?;
    same!(rt; receipt.index, 8);
    same!(rt; share.count(), 9);
    same!(rt; executor.left(rt), 4);
    let mut shares = Vec::new(rt.alloc());
    shares.push(share)?;
    Ok(shares)
}

fn gone_on<L: RunLedger, RT: AllocGlobal + Wait + Abort>(
    rt: &RT,
    blank: Blank,
    approved: &Approved,
    history: &[Entry],
) -> Result<(), Fail>
    requires name { blank.name ≡ L.name }
    requires parts { blank.parts ≡ L.parts }
    requires some { 0 < blank.parts }
    requires ring { approved.now.ring ≡ L.ring }
    requires plan { approved.now.plan ≡ L.plan }
{
    let (executor, share) = Executor::<L>::restore(rt.alloc(), blank, approved, history)?;
    let done = next_event(rt, &executor, share);
    let entries = finished(executor, done)?.into_entries();
    same!(rt; entries.len(), 9);
    Ok(())
}

#[test]
fn a_store_goes_on_behind_a_history(rt: HostRuntime) -> Result<(), Fail> {
    let approved = approved(rt.alloc(), RING, MOVE, CHAINS)?;
    let history = recorded::<Brand>(rt.alloc(), Blank::new(128), &approved)?;
    gone_on::<Brand, _>(&rt, Blank::new(128), &approved, history.as_slice())
}

// ---- histories that are refused

#[derive(Clone, Copy)]
enum Change {
    OtherReply,
    LeftOut,
    Swapped,
    Behind,
}

fn make_change(history: &mut Vec<Entry>, how: Change) -> Result<(), AllocError> {
    if history.len() != 8 {
        return Ok(());
    }
    match how {
        Change::OtherReply => {
            history[4].reply = Reply::Get(7);
        }
        Change::LeftOut => {
            let _ = history.remove(1);
        }
        Change::Swapped => history.swap(0, 1),
        Change::Behind => history.push(Entry {
            event: Event::Ack(0),
            reply: Reply::Plain,
        })?,
    }
    Ok(())
}

fn refusal_of<L: RunLedger>(
    alloc: Global,
    blank: Blank,
    approved: &Approved,
    history: &[Entry],
) -> Option<Refusal>
    requires name { blank.name ≡ L.name }
    requires parts { blank.parts ≡ L.parts }
    requires some { 0 < blank.parts }
    requires ring { approved.now.ring ≡ L.ring }
    requires plan { approved.now.plan ≡ L.plan }
{
    match Executor::<L>::restore(alloc, blank, approved, history) {
        Ok((executor, _share)) => {
            executor.give_up();
            None
        }
        Err(refusal) => Some(refusal),
    }
}

fn refused(alloc: Global, approved: &Approved, how: Change) -> Result<Option<Refusal>, Refusal> {
    let mut history = recorded::<Brand>(alloc, Blank::new(128), approved)?;
    make_change(&mut history, how)?;
    Ok(refusal_of::<Brand>(alloc, Blank::new(128), approved, history.as_slice()))
}

// Each change is refused at its place.
fn all_refused<RT: AllocGlobal + Abort>(rt: &RT, approved: &Approved) -> Result<(), Fail> {
    let other = refused(rt.alloc(), approved, Change::OtherReply)?;
    same!(rt; other, Some(Refusal::Mismatch(4, 0)));
    let left_out = refused(rt.alloc(), approved, Change::LeftOut)?;
    same!(rt; left_out, Some(Refusal::Mismatch(2, 45)));
    let swapped = refused(rt.alloc(), approved, Change::Swapped)?;
    same!(rt; swapped, Some(Refusal::Mismatch(0, 47)));
    let behind = refused(rt.alloc(), approved, Change::Behind)?;
    same!(rt; behind, Some(Refusal::Mismatch(8, 41)));
    Ok(())
}

#[test]
fn changed_histories_are_refused(rt: HostRuntime) -> Result<(), Fail> {
    let approved = approved(rt.alloc(), RING, MOVE, CHAINS)?;
    all_refused(&rt, &approved)
}

// `count` entries. The second would be refused.
fn downs(alloc: Global, count: u32) -> Result<Vec<Entry>, AllocError> {
    let mut history = Vec::with_capacity(alloc, count as usize)?;
    for _ in 0..count {
        history.push(Entry {
            event: Event::Down(NodeId(0)),
            reply: Reply::Plain,
        })?;
    }
    Ok(history)
}

#[test]
fn a_history_may_be_too_long(rt: HostRuntime) -> Result<(), Fail> {
    let approved = approved(rt.alloc(), RING, MOVE, CHAINS)?;
    let history = downs(rt.alloc(), 1_000_001)?;
    let refusal = refusal_of::<Brand>(rt.alloc(), Blank::new(128), &approved, history.as_slice());
    same!(rt; refusal, Some(Refusal::HistoryFull));
    Ok(())
}
