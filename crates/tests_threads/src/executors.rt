//! The lock around a store and its history.

ghost use Rattle.std.specs.Prelude.{◌≡◌, ◌≤◌};

use crate::same::{holds, same};
use plan_cert::read_cert;
use plan_check::{Approved, check};
use plan_runs::Event;
use plan_text::read_plan;
use ring_exec::{Executor, Ledgered, RunLedger, Share};
use ring_names::{NodeId, Refusal};
use ring_table::read_ring;
use std::alloc::{AllocError, Global};
use std::marker::Brand;
use std::process::Abort;
use std::sync::Wait;
use std::sync::ledger::Blank;
use std::test::Fail;
use std::thread;
use std::thread::Threads;

pub const RING: &[u8] =
    b"ring 1\nspace 4\nquorum 3 2 2\nnode a 4 in\nnode b 1 in\nnode c 4 in\nnode d 4 out\nslots 0 a b c\nslots 1 a b c\nslots 2 a b c\nslots 3 a b c\nend\n";

pub const MOVE: &[u8] =
    b"plan 1\njoin d\nmirror 0 1 d after 0\ncopy 0 1 owner after 1\nswitch 0 1 after 2\ndrop 0 1 b after 3\nend\n";

pub const CHAINS: &[u8] = b"cert 1\nchain b 2\nchain d 2\nend\n";

pub fn approved(alloc: Global, ring: &[u8], plan: &[u8], cert: &[u8]) -> Result<Approved, Refusal> {
    let ring = read_ring(alloc, ring)?;
    let plan = read_plan(alloc, &ring, plan)?;
    let cert = read_cert(alloc, &ring, cert)?;
    match check(alloc, ring, plan, &cert) {
        Ok(approved) => Ok(approved),
        Err(turned) => Err(turned.refusal),
    }
}

fn is_answered<'a, L: RunLedger, R: Wait>(
    rt: &R,
    executor: &Executor<'a, L>,
    event: Event,
    share: &mut Share<L>,
) -> bool {
    executor.submit(rt, &event, share).is_ok()
}

// Takes the node down and up `times` times. Returns the share, and how many events succeeded.
fn flap<'a, L: RunLedger, R: Wait>(
    rt: &R,
    executor: &Executor<'a, L>,
    mut share: Share<L>,
    node: NodeId,
    times: u32,
) -> (Share<L>, u32) {
    let mut answered = 0u32;
    for _ in 0..times {
        if is_answered(rt, executor, Event::Down(node), &mut share) {
            answered = answered.saturating_add(1);
        }
        if is_answered(rt, executor, Event::Up(node), &mut share) {
            answered = answered.saturating_add(1);
        }
    }
    (share, answered)
}

fn place_of<'a, L: RunLedger, R: Wait>(
    rt: &R,
    executor: &Executor<'a, L>,
    event: Event,
    share: &mut Share<L>,
) -> Result<u32, Refusal>
    ensures { share.new.token.parts ≡ share.old.token.parts }
{
    let receipt = executor.submit(rt, &event, share)?;
    Ok(receipt.index)
}

fn refusal_of<'a, L: RunLedger, R: Wait>(
    rt: &R,
    executor: &Executor<'a, L>,
    event: Event,
    share: &mut Share<L>,
) -> Option<Refusal>
    ensures { share.new.token.parts ≡ share.old.token.parts }
{
    match executor.submit(rt, &event, share) {
        Ok(_) => None,
        Err(refusal) => Some(refusal),
    }
}

fn can_begin<'a, L: RunLedger, RT: Wait + Abort>(
    rt: &RT,
    executor: &Executor<'a, L>,
    left: u32,
    step: u32,
) -> Result<(), Fail> {
    same!(rt; executor.left(rt), left);
    same!(rt; executor.ready(rt, 0), Some(step));
    Ok(())
}

fn first_step<'a, L: RunLedger, RT: Wait + Abort>(
    rt: &RT,
    executor: &Executor<'a, L>,
    share: &mut Share<L>,
) -> Result<(), Fail>
    ensures { share.new.token.parts ≡ share.old.token.parts }
{
    can_begin(rt, executor, 5, 0)?;
    let place = place_of(rt, executor, Event::Do(0), share)?;
    same!(rt; place, 0);
    can_begin(rt, executor, 4, 1)?;
    let waits = refusal_of(rt, executor, Event::Do(3), share);
    same!(rt; waits, Some(Refusal::NotReady));
    same!(rt; share.count(), 1);
    same!(rt; executor.entry_count(rt), 1);
    Ok(())
}

// Submits the row. Returns how many events succeeded, and the next one's refusal, if any.
fn row_of<'a, L: RunLedger, R: AllocGlobal + Wait>(
    rt: &R,
    executor: &Executor<'a, L>,
    row: &[Event],
    share: &mut Share<L>,
) -> (usize, Option<Refusal>)
    ensures { share.new.token.parts ≡ share.old.token.parts }
{
    let mut receipts = Vec::new(rt.alloc());
    match executor.submit_row(rt, row, share, &mut receipts) {
        Ok(()) => (receipts.len(), None),
        Err(refusal) => (receipts.len(), Some(refusal)),
    }
}

// A row ends at its first refused event. Another row goes on from there.
fn two_rows<'a, L: RunLedger, RT: AllocGlobal + Wait + Abort>(
    rt: &RT,
    executor: &Executor<'a, L>,
    share: &mut Share<L>,
) -> Result<(), Fail>
    ensures { share.new.token.parts ≡ share.old.token.parts }
{
    let node = NodeId(2);
    let ended = [Event::Down(node), Event::Down(node), Event::Up(node)];
    let whole = [Event::Up(node), Event::Down(node), Event::Up(node)];
    let first = row_of(rt, executor, &ended, share);
    same!(rt; first, (1, Some(Refusal::AlreadyDone)));
    let second = row_of(rt, executor, &whole, share);
    same!(rt; second, (3, None));
    same!(rt; share.count(), 5);
    Ok(())
}

pub fn two<L: RunLedger>(
    alloc: Global,
    first: Share<L>,
    second: Share<L>,
) -> Result<Vec<Share<L>>, AllocError> {
    let mut shares = Vec::new(alloc);
    shares.push(first)?;
    shares.push(second)?;
    Ok(shares)
}

fn flapped<'a, L: RunLedger + Send + Sync, RT: AllocGlobal + Threads + Wait + Sync + Abort>(
    rt: &RT,
    executor: &Executor<'a, L>,
    first: Share<L>,
    second: Share<L>,
) -> Result<Vec<Share<L>>, Fail> {
    let (one, other) = thread::join(
        rt,
        || flap(rt, executor, first, NodeId(0), 1000),
        || flap(rt, executor, second, NodeId(1), 1000),
    );
    let (first, first_answers) = one;
    let (second, second_answers) = other;
    same!(rt; (first_answers, second_answers), (2000, 2000));
    holds!(rt; executor.hint_at(rt, 0).is_none());
    Ok(two(rt.alloc(), first, second)?)
}

// Two threads' shares. The first did the first step and two rows.
fn run_two<'a, L: RunLedger + Send + Sync, RT: AllocGlobal + Threads + Wait + Sync + Abort>(
    rt: &RT,
    executor: &Executor<'a, L>,
    mut first: Share<L>,
) -> Result<Vec<Share<L>>, Fail>
    requires { 2 ≤ first.token.parts }
{
    first_step(rt, executor, &mut first)?;
    two_rows(rt, executor, &mut first)?;
    let second = first.split();
    flapped(rt, executor, first, second)
}

/// The store with its history, if all went well. Tests drop no store: they give it up, or take its history.
pub fn finished<'a, L: RunLedger>(
    executor: Executor<'a, L>,
    done: Result<Vec<Share<L>>, Fail>,
) -> Result<Ledgered<'a, L>, Fail> {
    match done {
        Ok(shares) => Ok(executor.finish(shares)?),
        Err(fail) => {
            executor.give_up();
            Err(fail)
        }
    }
}

fn by_two<L: RunLedger + Send + Sync, RT: AllocGlobal + Threads + Wait + Sync + Abort>(
    rt: &RT,
    blank: Blank,
    approved: &Approved,
) -> Result<(), Fail>
    requires name { blank.name ≡ L.name }
    requires parts { blank.parts ≡ L.parts }
    requires some { 2 ≤ blank.parts }
    requires ring { approved.now.ring ≡ L.ring }
    requires plan { approved.now.plan ≡ L.plan }
{
    let (executor, share) = Executor::<L>::new(rt.alloc(), blank, approved)?;
    let done = run_two(rt, &executor, share);
    let ledgered = finished(executor, done)?;
    // the first step, the rows' four turns, and each node's 2,000 turns
    same!(rt; ledgered.entries().len(), 4005);
    same!(rt; ledgered.world().left(), 4);
    let _history = ledgered.into_entries();
    Ok(())
}

fn filled<'a, L: RunLedger, RT: AllocGlobal + Wait + Abort>(
    rt: &RT,
    executor: &Executor<'a, L>,
    share: Share<L>,
) -> Result<(), Fail> {
    let (mut share, answered) = flap(rt, executor, share, NodeId(0), 500_000);
    same!(rt; answered, 1_000_000);
    let refused = refusal_of(rt, executor, Event::Up(NodeId(0)), &mut share);
    same!(rt; refused, Some(Refusal::HistoryFull));
    Ok(())
}

// Whether no shares at all are refused.
fn disagrees<'a, L: RunLedger>(alloc: Global, executor: Executor<'a, L>) -> bool {
    match executor.finish(Vec::new(alloc)) {
        Ok(ledgered) => {
            let _history = ledgered.into_entries();
            false
        }
        Err(refusal) => refusal == Refusal::Disagree,
    }
}

fn full<L: RunLedger, RT: AllocGlobal + Wait + Abort>(
    rt: &RT,
    blank: Blank,
    approved: &Approved,
) -> Result<(), Fail>
    requires name { blank.name ≡ L.name }
    requires parts { blank.parts ≡ L.parts }
    requires some { 2 ≤ blank.parts }
    requires ring { approved.now.ring ≡ L.ring }
    requires plan { approved.now.plan ≡ L.plan }
{
    let (executor, share) = Executor::<L>::new(rt.alloc(), blank, approved)?;
    match filled(rt, &executor, share) {
        Ok(()) => {
            assert!(rt; disagrees(rt.alloc(), executor), "no share is not all");
            Ok(())
        }
        Err(fail) => {
            executor.give_up();
            Err(fail)
        }
    }
}

#[test]
fn two_threads_fill_one_history(rt: HostRuntime) -> Result<(), Fail> {
    let approved = approved(rt.alloc(), RING, MOVE, CHAINS)?;
    by_two::<Brand, _>(&rt, Blank::new(128), &approved)
}

#[test]
fn a_history_may_be_full(rt: HostRuntime) -> Result<(), Fail> {
    let approved = approved(rt.alloc(), RING, MOVE, CHAINS)?;
    full::<Brand, _>(&rt, Blank::new(128), &approved)
}
