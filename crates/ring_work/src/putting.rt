//! Puts through the lock.

ghost use Rattle.std.specs.Prelude.{◌≡◌, ◌+◌, ◌∷◌, ◌++◌, [], true, false, vec_len, IfOk, IfErr, OnOk, OnErr, is_some};
ghost use Rattle.plan_runs.specs.declared.event.Event.TheVariants.{StartPut};
ghost use Rattle.plan_runs.specs.declared.event.Reply.TheVariants.{Put};
ghost use Rattle.ring_board.specs.declared.receipt.Receipt.{Receipt as TheReceipt};
ghost use Rattle.ring_board.specs.Kinds.{sends, acknowledges};
ghost use Rattle.ring_work.specs.Noted.{Grows, Completes, IsCounted};
ghost use Rattle.plan_runs.specs.Leaves.{starts_put};
ghost use Rattle.ring_work.specs.Attempts.{AddsPut, IsPutAttempt};

use crate::attempt::Attempt;
use crate::noting::{Idle, MAX_ROUNDS, go_on, note, put_number};
use crate::site::LockedStore;
use plan_runs::{Event, Key, Seen};
use ring_board::Receipt;
use ring_exec::{Executor, RunLedger, Share};
use ring_names::{Refusal, Value, WriterId};
use std::alloc::Global;
use std::sync::Wait;
use std::thread;

fn start_put<L: RunLedger, R: Wait>(
    store: &LockedStore<L, R>,
    share: &mut Share<L>,
    receipts: &mut Vec<Receipt>,
    start: &Event,
) -> Result<u32, Refusal>
    requires { starts_put start.now ≡ true }
    ensures ok { IfOk result (λ put. (r : TheReceipt) × (r.event ≡ start.now) × (r.reply ≡ Put put)
        × (receipts.new.items ≡ receipts.old.items ++ r ∷ [])) }
    ensures err { OnErr result (receipts.new.items ≡ receipts.old.items) }
    ensures count { IsCounted share.old.count share.new.count receipts.old.items receipts.new.items }
    ensures parts { share.new.token.parts ≡ share.old.token.parts }
{
    receipts.reserve(1)?;
    let receipt = store.executor.submit(store.rt, start, share)?;
    let put = put_number(&receipt.reply);
    receipts.push_reserved(receipt);
    Ok(put)
}

// Leaves a hint with the first node, by number, that accepts it.
fn leave_hint<L: RunLedger, R: Wait>(
    store: &LockedStore<L, R>,
    share: &mut Share<L>,
    receipts: &mut Vec<Receipt>,
    put: u32,
    index: u32,
) -> Result<(), Refusal>
    ensures grows { Grows (λ r. sends put r.event) receipts.old.items receipts.new.items }
    ensures count { IsCounted share.old.count share.new.count receipts.old.items receipts.new.items }
    ensures parts { share.new.token.parts ≡ share.old.token.parts }
{
    let nodes = store.executor.approved().ring().nodes().len();
    let mut from = 0u32;
    'keepers: for _ in 0..nodes {
        let Some(keeper) = store.executor.keeper_from(store.rt, put, index, from) else {
            break;
        };
        match note(store, share, receipts, Event::Hint(put, index, keeper)) {
            Ok(()) => break,
            Err(refusal) => go_on(refusal)?,
        }
        from = keeper.0.saturating_add(1);
    }
    Ok(())
}

// Writes to the slot. Leaves a hint if one of its nodes is down.
fn send<L: RunLedger, R: Wait>(
    store: &LockedStore<L, R>,
    share: &mut Share<L>,
    receipts: &mut Vec<Receipt>,
    put: u32,
    index: u32,
) -> Result<(), Refusal>
    ensures grows { Grows (λ r. sends put r.event) receipts.old.items receipts.new.items }
    ensures count { IsCounted share.old.count share.new.count receipts.old.items receipts.new.items }
    ensures parts { share.new.token.parts ≡ share.old.token.parts }
{
    match note(store, share, receipts, Event::Write(put, index)) {
        Ok(()) => Ok(()),
        Err(Refusal::NodeDown(_)) => leave_hint(store, share, receipts, put, index),
        Err(refusal) => go_on(refusal),
    }
}

fn send_round<L: RunLedger, R: Wait>(
    store: &LockedStore<L, R>,
    share: &mut Share<L>,
    receipts: &mut Vec<Receipt>,
    put: u32,
) -> Result<(), Refusal>
    ensures grows { Grows (λ r. sends put r.event) receipts.old.items receipts.new.items }
    ensures count { IsCounted share.old.count share.new.count receipts.old.items receipts.new.items }
    ensures parts { share.new.token.parts ≡ share.old.token.parts }
{
    for index in 0..store.executor.approved().ring().n() {
        send(store, share, receipts, put, index)?;
    }
    Ok(())
}

fn round<L: RunLedger, R: Wait>(
    store: &LockedStore<L, R>,
    share: &mut Share<L>,
    receipts: &mut Vec<Receipt>,
    put: u32,
) -> Result<(), Refusal>
    ensures grows { OnErr result (Grows (λ r. sends put r.event) receipts.old.items receipts.new.items) }
    ensures completes { OnOk result (Completes (λ r. sends put r.event)
        (λ r. acknowledges put r.event) receipts.old.items receipts.new.items false) }
    ensures count { IsCounted share.old.count share.new.count receipts.old.items receipts.new.items }
    ensures parts { share.new.token.parts ≡ share.old.token.parts }
{
    send_round(store, share, receipts, put)?;
    note(store, share, receipts, Event::Ack(put))?;
    Ok(())
}

// The current tickets after a round, and whether another can help.
#[derive(Drop)]
struct Last {
    current: u32,
    idle: Idle,
}

// Skips rounds that would be refused like the last.
fn another_round<L: RunLedger, R: Wait>(
    store: &LockedStore<L, R>,
    share: &mut Share<L>,
    receipts: &mut Vec<Receipt>,
    put: u32,
    last: &mut Last,
) -> Result<(), Refusal>
    ensures grows { OnErr result (Grows (λ r. sends put r.event) receipts.old.items receipts.new.items) }
    ensures completes { OnOk result (Completes (λ r. sends put r.event)
        (λ r. acknowledges put r.event) receipts.old.items receipts.new.items false) }
    ensures count { IsCounted share.old.count share.new.count receipts.old.items receipts.new.items }
    ensures parts { share.new.token.parts ≡ share.old.token.parts }
{
    let length = store.executor.entry_count(store.rt);
    if last.idle.is_at(length) {
        return Err(Refusal::StaleTickets(last.current));
    }
    let before = receipts.len();
    let came = round(store, share, receipts, put);
    last.idle.note(length, receipts.len() != before);
    came
}

fn send_rounds<L: RunLedger, R: Wait>(
    store: &LockedStore<L, R>,
    share: &mut Share<L>,
    receipts: &mut Vec<Receipt>,
    put: u32,
) -> Option<Refusal>
    ensures completes { Completes (λ r. sends put r.event)
        (λ r. acknowledges put r.event) receipts.old.items receipts.new.items (is_some result) }
    ensures count { IsCounted share.old.count share.new.count receipts.old.items receipts.new.items }
    ensures parts { share.new.token.parts ≡ share.old.token.parts }
{
    let mut last = Last {
        current: 0,
        idle: Idle::new(),
    };
    'rounds: for _ in 0..MAX_ROUNDS {
        match another_round(store, share, receipts, put, &mut last) {
            Ok(()) => return None,
            Err(Refusal::StaleTickets(now)) => last.current = now,
            Err(refusal) => return Some(refusal),
        }
        thread::yield_now();
    }
    Some(Refusal::StaleTickets(last.current))
}

/// Starts and sends the put in at most 64 rounds. Returns the last refusal if unacknowledged.
pub(crate) fn put_on<L: RunLedger, R: Wait>(
    store: &LockedStore<L, R>,
    share: &mut Share<L>,
    receipts: &mut Vec<Receipt>,
    start: &Event,
) -> Option<Refusal>
    requires { starts_put start.now ≡ true }
    ensures block { AddsPut start.now receipts.old.items receipts.new.items result }
    ensures count { IsCounted share.old.count share.new.count receipts.old.items receipts.new.items }
    ensures parts { share.new.token.parts ≡ share.old.token.parts }
{
    match start_put(store, share, receipts, start) {
        Ok(put) => send_rounds(store, share, receipts, put),
        Err(refusal) => Some(refusal),
    }
}

/// Puts the value, knowing the replies of the gets `seen`.
///
/// Runs at most 64 rounds. Each writes to the slots in order, then asks for acknowledgement.
///
/// For a slot with a node down, tries hints at the nodes by number.
///
/// Too few current tickets lead to another round; after a round without replies, only if the history grew.
///
/// A refused start, a full history or lack of memory ends the put at once.
pub fn put_all<'a, L: RunLedger, R: Wait>(
    rt: &R,
    alloc: Global,
    executor: &Executor<'a, L>,
    share: &mut Share<L>,
    writer: WriterId,
    key: Key,
    value: Value,
    seen: Seen,
) -> Attempt
    // The put is acknowledged exactly if nothing is refused; no receipts if its start is.
    ensures block { IsPutAttempt (StartPut writer key value seen) result.receipts.items result.refusal }
    ensures count { share.new.count ≡ share.old.count + vec_len result.receipts }
    ensures parts { share.new.token.parts ≡ share.old.token.parts }
{
    let start = Event::StartPut(writer, key, value, seen);
    let store = LockedStore { rt, executor };
    let mut receipts = Vec::new(alloc);
    let refusal = put_on(&store, share, &mut receipts, &start);
    Attempt { receipts, refusal }
}
