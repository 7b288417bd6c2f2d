//! Two threads' receipts, against the history.

ghost use Rattle.std.specs.Prelude.{◌≡◌, ◌≤◌};

use crate::executors::{CHAINS, MOVE, RING, approved, finished, two};
use crate::same::{holds, same};
use plan_check::Approved;
use plan_runs::{Entry, Event, Key, Reply, Seen};
use ring_board::Receipt;
use ring_exec::{Executor, RunLedger, Share};
use ring_names::{NodeId, Refusal, Slot, Value, WriterId};
use std::alloc::{AllocError, Global};
use std::marker::Brand;
use std::process::Abort;
use std::sync::Wait;
use std::sync::ledger::Blank;
use std::test::Fail;
use std::thread;
use std::thread::Threads;

const B: NodeId = NodeId(1);

const D: NodeId = NodeId(3);

// Slot 1 of the key's partition, b's.
const SLOT: Slot = Slot {
    partition: 0,
    index: 1,
};

#[derive(Drop)]
struct Client<L: RunLedger> {
    share: Share<L>,
    receipts: Vec<Receipt>,
}

// Submits the event and keeps its receipt. Returns the number of its put or get.
fn submit<'a, L: RunLedger, R: Wait>(
    rt: &R,
    executor: &Executor<'a, L>,
    client: &mut Client<L>,
    event: Event,
) -> Result<u32, Refusal> {
    let receipt = executor.submit(rt, &event, &mut client.share)?;
    let number = match &receipt.reply {
        Reply::Put(number) => *number,
        Reply::Get(number) => *number,
        _ => 0,
    };
    client.receipts.push(receipt)?;
    Ok(number)
}

/// Starts a put of key `a` that names no get.
pub fn a_put(alloc: Global, writer: WriterId) -> Result<Event, Refusal> {
    let Some(seen) = Seen::of(alloc, Vec::new(alloc))? else {
        return Err(Refusal::Disagree);
    };
    let Some(value) = Value::of(alloc, Vec::from_slice(alloc, b"1")?)? else {
        return Err(Refusal::Disagree);
    };
    match Key::of(alloc, Vec::from_slice(alloc, b"a")?)? {
        Some(key) => Ok(Event::StartPut(writer, key, value, seen)),
        None => Err(Refusal::Disagree),
    }
}

pub fn a_get(alloc: Global) -> Result<Event, Refusal> {
    match Key::of(alloc, Vec::from_slice(alloc, b"a")?)? {
        Some(key) => Ok(Event::StartGet(key)),
        None => Err(Refusal::Disagree),
    }
}

fn start_put<'a, L: RunLedger, R: AllocGlobal + Wait>(
    rt: &R,
    executor: &Executor<'a, L>,
    client: &mut Client<L>,
    writer: WriterId,
) -> Result<u32, Refusal> {
    let start = a_put(rt.alloc(), writer)?;
    submit(rt, executor, client, start)
}

fn start_get<'a, L: RunLedger, R: AllocGlobal + Wait>(
    rt: &R,
    executor: &Executor<'a, L>,
    client: &mut Client<L>,
) -> Result<u32, Refusal> {
    let start = a_get(rt.alloc())?;
    submit(rt, executor, client, start)
}

// A put that slots 0 and 2 take, and a get that reads these slots.
fn put_and_get<'a, L: RunLedger, R: AllocGlobal + Wait>(
    rt: &R,
    executor: &Executor<'a, L>,
    client: &mut Client<L>,
) -> Result<(), Refusal> {
    let put = start_put(rt, executor, client, WriterId(0))?;
    submit(rt, executor, client, Event::Write(put, 0))?;
    submit(rt, executor, client, Event::Write(put, 2))?;
    submit(rt, executor, client, Event::Ack(put))?;
    let get = start_get(rt, executor, client)?;
    submit(rt, executor, client, Event::Read(get, 0))?;
    submit(rt, executor, client, Event::Read(get, 2))?;
    submit(rt, executor, client, Event::EndGet(get))?;
    Ok(())
}

// A put that b misses, whose hint d keeps and hands over.
fn hint_and_handoff<'a, L: RunLedger, R: AllocGlobal + Wait>(
    rt: &R,
    executor: &Executor<'a, L>,
    client: &mut Client<L>,
) -> Result<(), Refusal> {
    submit(rt, executor, client, Event::Down(B))?;
    let put = start_put(rt, executor, client, WriterId(1))?;
    submit(rt, executor, client, Event::Write(put, 0))?;
    submit(rt, executor, client, Event::Hint(put, 1, D))?;
    submit(rt, executor, client, Event::Ack(put))?;
    submit(rt, executor, client, Event::Up(B))?;
    submit(rt, executor, client, Event::Handoff(D, SLOT))?;
    Ok(())
}

fn writes<'a, L: RunLedger, R: AllocGlobal + Wait>(
    rt: &R,
    executor: &Executor<'a, L>,
    mut client: Client<L>,
    times: u32,
) -> (Client<L>, Result<(), Refusal>) {
    for _ in 0..times {
        if let Err(refusal) = put_and_get(rt, executor, &mut client) {
            return (client, Err(refusal));
        }
    }
    (client, Ok(()))
}

fn hints<'a, L: RunLedger, R: AllocGlobal + Wait>(
    rt: &R,
    executor: &Executor<'a, L>,
    mut client: Client<L>,
    times: u32,
) -> (Client<L>, Result<(), Refusal>) {
    for _ in 0..times {
        if let Err(refusal) = hint_and_handoff(rt, executor, &mut client) {
            return (client, Err(refusal));
        }
    }
    (client, Ok(()))
}

fn text(alloc: Global, event: &Event, reply: &Reply) -> Result<String, AllocError> {
    format!(in alloc; "{event:?}, {reply:?}")
}

fn is_of(alloc: Global, entry: &Entry, receipt: &Receipt) -> Result<bool, AllocError> {
    let noted = text(alloc, &entry.event, &entry.reply)?;
    let given = text(alloc, &receipt.event, &receipt.reply)?;
    Ok(noted.as_str() == given.as_str())
}

// Each receipt has its own entry, which is marked.
fn stands<RT: AllocGlobal + Abort>(
    rt: &RT,
    entries: &[Entry],
    receipt: &Receipt,
    marks: &mut [bool],
) -> Result<(), Fail> {
    let index = receipt.index as usize;
    let Some(entry) = entries.get(index) else {
        panic!(rt; "no entry {index}");
    };
    assert!(rt;
        is_of(rt.alloc(), entry, receipt)?,
        "entry {index} is another"
    );
    if let Some(mark) = marks.get_mut(index) {
        assert!(rt; !*mark, "entry {index} has two receipts");
        *mark = true;
    }
    Ok(())
}

fn each_stands<RT: AllocGlobal + Abort>(
    rt: &RT,
    entries: &[Entry],
    receipts: &[Receipt],
    marks: &mut [bool],
) -> Result<(), Fail> {
    for receipt in receipts {
        stands(rt, entries, receipt, marks)?;
    }
    Ok(())
}

fn all_marked<RT: Abort>(rt: &RT, marks: &[bool]) -> Result<(), Fail> {
    for mark in marks {
        holds!(rt; *mark);
    }
    Ok(())
}

fn all_stand<RT: AllocGlobal + Abort>(
    rt: &RT,
    entries: &[Entry],
    receipts: &[Receipt],
) -> Result<(), Fail> {
    same!(rt; entries.len(), 601);
    same!(rt; receipts.len(), entries.len());
    let mut marks = vec![in rt.alloc(); false; entries.len()]?;
    each_stands(rt, entries, receipts, &mut marks)?;
    all_marked(rt, marks.as_slice())
}

fn together<L: RunLedger>(
    alloc: Global,
    mut one: Client<L>,
    mut other: Client<L>,
    receipts: &mut Vec<Receipt>,
) -> Result<Vec<Share<L>>, AllocError> {
    receipts.append(&mut one.receipts)?;
    receipts.append(&mut other.receipts)?;
    two(alloc, one.share, other.share)
}

fn joined<'a, L: RunLedger, R: AllocGlobal + Wait>(
    rt: &R,
    executor: &Executor<'a, L>,
    client: &mut Client<L>,
) -> Result<(), Refusal>
    ensures { client.new.share.token.parts ≡ client.old.share.token.parts }
{
    client.receipts.reserve(1)?;
    let receipt = executor.submit(rt, &Event::Do(0), &mut client.share)?;
    client.receipts.push_reserved(receipt);
    Ok(())
}

fn run_both<'a, L: RunLedger + Send + Sync, RT: AllocGlobal + Threads + Wait + Sync + Abort>(
    rt: &RT,
    executor: &Executor<'a, L>,
    first: Client<L>,
    second: Client<L>,
    receipts: &mut Vec<Receipt>,
) -> Result<Vec<Share<L>>, Fail> {
    let (one, other) = thread::join(
        rt,
        || writes(rt, executor, first, 40),
        || hints(rt, executor, second, 40),
    );
    let (one, first_end) = one;
    let (other, second_end) = other;
    same!(rt; (first_end, second_end), (Ok(()), Ok(())));
    Ok(together(rt.alloc(), one, other, receipts)?)
}

fn by_clients<'a, L: RunLedger + Send + Sync, RT: AllocGlobal + Threads + Wait + Sync + Abort>(
    rt: &RT,
    executor: &Executor<'a, L>,
    share: Share<L>,
    receipts: &mut Vec<Receipt>,
) -> Result<Vec<Share<L>>, Fail>
    requires { 2 ≤ share.token.parts }
{
    let mut first = Client {
        share,
        receipts: Vec::new(rt.alloc()),
    };
    joined(rt, executor, &mut first)?;
    let second = Client {
        share: first.share.split(),
        receipts: Vec::new(rt.alloc()),
    };
    run_both(rt, executor, first, second, receipts)
}

fn compared<L: RunLedger + Send + Sync, RT: AllocGlobal + Threads + Wait + Sync + Abort>(
    rt: &RT,
    blank: Blank,
    approved: &Approved,
) -> Result<(), Fail>
    requires name { blank.name ≡ L.name }
    requires parts { blank.parts ≡ L.parts }
    requires some { 2 ≤ blank.parts }
    requires ring { approved.now.ring ≡ L.ring }
    requires plan { approved.now.plan ≡ L.plan }
{
    let (executor, share) = Executor::<L>::new(rt.alloc(), blank, approved)?;
    let mut receipts = Vec::new(rt.alloc());
    let done = by_clients(rt, &executor, share, &mut receipts);
    let history = finished(executor, done)?.into_entries();
    all_stand(rt, history.as_slice(), receipts.as_slice())
}

#[test]
fn receipts_stand_in_the_history(rt: HostRuntime) -> Result<(), Fail> {
    let approved = approved(rt.alloc(), RING, MOVE, CHAINS)?;
    compared::<Brand, _>(&rt, Blank::new(128), &approved)
}
