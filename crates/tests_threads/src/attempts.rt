//! Single puts and gets.

ghost use Rattle.std.specs.Prelude.{◌≡◌, ◌<◌};

use crate::inputs::{MOVE, MOVE_CHAINS, RING, approved, ring};
use plan_check::Approved;
use plan_runs::{Event, Key, Seen};
use ring_exec::{Executor, RunLedger, Share};
use ring_names::{NodeId, Refusal, Value, WriterId};
use ring_work::{Attempt, get_all, put_all};
use std::alloc::Global;
use std::marker::Brand;
use std::sync::Wait;
use std::sync::ledger::Blank;

// How many receipts there are, whether the last reply is as expected, and the final refusal.
type Came = (usize, bool, Option<Refusal>);

fn came(alloc: Global, attempt: Attempt, last: &[u8]) -> Result<Came, Refusal> {
    let mut text = Vec::new(alloc);
    if let Some(receipt) = attempt.receipts.last() {
        receipt.reply.write_text(&mut text)?;
    }
    Ok((
        attempt.receipts.len(),
        text.as_slice() == last,
        attempt.refusal,
    ))
}

fn a_key(alloc: Global) -> Result<Key, Refusal> {
    match Key::of(alloc, Vec::from_slice(alloc, b"a")?)? {
        Some(key) => Ok(key),
        None => Err(Refusal::Disagree),
    }
}

fn put_and_get<'a, L: RunLedger, R: AllocGlobal + Wait>(
    rt: &R,
    executor: &Executor<'a, L>,
    share: &mut Share<L>,
) -> Result<(Came, Came), Refusal> {
    let alloc = rt.alloc();
    let Some(value) = Value::of(alloc, Vec::from_slice(alloc, b"1")?)? else {
        return Err(Refusal::Disagree);
    };
    let Some(seen) = Seen::of(alloc, Vec::new(alloc))? else {
        return Err(Refusal::Disagree);
    };
    let key = a_key(alloc)?;
    let put = put_all(rt, alloc, executor, share, WriterId(0), key, value, seen);
    let get = get_all(rt, alloc, executor, share, a_key(alloc)?);
    Ok((came(alloc, put, b"ok")?, came(alloc, get, b"reply 0")?))
}

fn put_and_get_without<'a, L: RunLedger, R: AllocGlobal + Wait>(
    rt: &R,
    executor: &Executor<'a, L>,
    share: &mut Share<L>,
    down: &[NodeId],
) -> Result<(Came, Came), Refusal> {
    for node in down {
        executor.submit(rt, &Event::Down(*node), share)?;
    }
    put_and_get(rt, executor, share)
}

// Puts and gets the key at a new store, while these nodes are down.
fn without<L: RunLedger, R: AllocGlobal + Wait>(
    rt: &R,
    blank: Blank,
    approved: &Approved,
    down: &[NodeId],
) -> Result<(Came, Came), Refusal>
    requires name { blank.name ≡ L.name }
    requires parts { blank.parts ≡ L.parts }
    requires some { 0 < blank.parts }
    requires ring { approved.now.ring ≡ L.ring }
    requires plan { approved.now.plan ≡ L.plan }
{
    let (executor, mut share) = Executor::<L>::new(rt.alloc(), blank, approved)?;
    put_and_get_without(rt, &executor, &mut share, down)
}

fn with_down<R: AllocGlobal + Wait>(rt: &R, down: &[NodeId]) -> Result<(Came, Came), Refusal> {
    let ring = ring(rt.alloc(), RING)?;
    let approved = approved(rt.alloc(), ring, MOVE, MOVE_CHAINS)?;
    without::<Brand, R>(rt, Blank::new(128), &approved, down)
}

#[test]
fn each_slot_answers(rt: HostRuntime) {
    // Start, three writes, acknowledgement; start, two reads, end.
    let came = with_down(&rt, &[]);
    assert_eq!(rt; came, Ok(((5, true, None), (4, true, None))));
}

#[test]
fn one_node_is_down(rt: HostRuntime) {
    let came = with_down(&rt, &[NodeId(1)]);
    assert_eq!(rt; came, Ok(((4, true, None), (4, true, None))));
}

#[test]
fn two_nodes_are_down(rt: HostRuntime) {
    // The start and a write in each of 64 rounds; the start and one read.
    let came = with_down(&rt, &[NodeId(1), NodeId(2)]);
    let put = (65, false, Some(Refusal::StaleTickets(1)));
    assert_eq!(rt; came, Ok((put, (2, false, Some(Refusal::TooFewSlots(1))))));
}
