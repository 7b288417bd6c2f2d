//! Gets through the lock.

ghost use Rattle.std.specs.Prelude.{◌≡◌, ◌+◌, ◌<◌, ◌∷◌, ◌++◌, [], true, vec_len, IfOk, IfErr, OnErr, is_some};
ghost use Rattle.plan_runs.specs.declared.event.Event.TheVariants.{StartGet};
ghost use Rattle.plan_runs.specs.declared.event.Reply.TheVariants.{Get};
ghost use Rattle.ring_board.specs.declared.receipt.Receipt.{Receipt as TheReceipt};
ghost use Rattle.ring_board.specs.Kinds.{reads, ends};
ghost use Rattle.ring_work.specs.Noted.{Grows, Completes, IsCounted};
ghost use Rattle.plan_runs.specs.Leaves.{starts_get};
ghost use Rattle.ring_work.specs.Attempts.{AddsGet, IsGetAttempt};

use crate::attempt::Attempt;
use crate::noting::{Idle, MAX_ROUNDS, get_number, go_on, note};
use crate::site::LockedStore;
use plan_runs::{Event, Key};
use ring_board::Receipt;
use ring_exec::{Executor, RunLedger, Share};
use ring_names::Refusal;
use std::alloc::Global;
use std::sync::Wait;
use std::thread;

fn submit_get<L: RunLedger, R: Wait>(
    store: &LockedStore<L, R>,
    share: &mut Share<L>,
    receipts: &mut Vec<Receipt>,
    start: &Event,
) -> Result<u32, Refusal>
    requires { starts_get start.now ≡ true }
    ensures ok { IfOk result (λ get. (r : TheReceipt) × (r.event ≡ start.now) × (r.reply ≡ Get get)
        × (receipts.new.items ≡ receipts.old.items ++ r ∷ [])) }
    ensures err { OnErr result (receipts.new.items ≡ receipts.old.items) }
    ensures count { IsCounted share.old.count share.new.count receipts.old.items receipts.new.items }
    ensures parts { share.new.token.parts ≡ share.old.token.parts }
{
    receipts.reserve(1)?;
    let receipt = store.executor.submit(store.rt, start, share)?;
    let get = get_number(&receipt.reply);
    receipts.push_reserved(receipt);
    Ok(get)
}

pub(crate) fn start_get<L: RunLedger, R: Wait>(
    store: &LockedStore<L, R>,
    share: &mut Share<L>,
    receipts: &mut Vec<Receipt>,
    key: Key,
) -> Result<u32, Refusal>
    ensures ok { IfOk result (λ get. (r : TheReceipt) × (r.event ≡ StartGet key) × (r.reply ≡ Get get)
        × (receipts.new.items ≡ receipts.old.items ++ r ∷ [])) }
    ensures err { OnErr result (receipts.new.items ≡ receipts.old.items) }
    ensures count { IsCounted share.old.count share.new.count receipts.old.items receipts.new.items }
    ensures parts { share.new.token.parts ≡ share.old.token.parts }
{
    submit_get(store, share, receipts, &Event::StartGet(key))
}

// A bit for each read slot.
#[derive(Drop)]
struct Slots {
    mask: u32,
    count: u32,
}

impl Slots {
    fn has(&self, index: u32) -> bool
        requires { index < 32 }
    {
        self.mask & (1 << index) != 0
    }

    fn add(&mut self, index: u32)
        requires { index < 32 }
    {
        self.mask |= 1 << index;
        self.count = self.count.saturating_add(1);
    }
}

// Reads unread slots in order, until R are read.
fn read_round<L: RunLedger, R: Wait>(
    store: &LockedStore<L, R>,
    share: &mut Share<L>,
    receipts: &mut Vec<Receipt>,
    get: u32,
    slots: &mut Slots,
) -> Result<(), Refusal>
    ensures grows { Grows (λ r. reads get r.event) receipts.old.items receipts.new.items }
    ensures count { IsCounted share.old.count share.new.count receipts.old.items receipts.new.items }
    ensures parts { share.new.token.parts ≡ share.old.token.parts }
{
    let ring = store.executor.approved().ring();
    for index in 0..ring.n() {
        if slots.count < ring.r() && !slots.has(index) {
            match note(store, share, receipts, Event::Read(get, index)) {
                Ok(()) => slots.add(index),
                Err(refusal) => go_on(refusal)?,
            }
        }
    }
    Ok(())
}

// Runs another round, unless nothing has changed since one without replies.
fn another_read_round<L: RunLedger, R: Wait>(
    store: &LockedStore<L, R>,
    share: &mut Share<L>,
    receipts: &mut Vec<Receipt>,
    get: u32,
    slots: &mut Slots,
    idle: &mut Idle,
) -> Result<(), Refusal>
    ensures grows { Grows (λ r. reads get r.event) receipts.old.items receipts.new.items }
    ensures count { IsCounted share.old.count share.new.count receipts.old.items receipts.new.items }
    ensures parts { share.new.token.parts ≡ share.old.token.parts }
{
    let length = store.executor.entry_count(store.rt);
    if idle.is_at(length) {
        return Ok(());
    }
    let before = receipts.len();
    let came = read_round(store, share, receipts, get, slots);
    idle.note(length, receipts.len() != before);
    came
}

fn read_rounds<L: RunLedger, R: Wait>(
    store: &LockedStore<L, R>,
    share: &mut Share<L>,
    receipts: &mut Vec<Receipt>,
    get: u32,
) -> Result<(), Refusal>
    ensures grows { Grows (λ r. reads get r.event) receipts.old.items receipts.new.items }
    ensures count { IsCounted share.old.count share.new.count receipts.old.items receipts.new.items }
    ensures parts { share.new.token.parts ≡ share.old.token.parts }
{
    let enough = store.executor.approved().ring().r();
    let mut slots = Slots { mask: 0, count: 0 };
    let mut idle = Idle::new();
    'rounds: for _ in 0..MAX_ROUNDS {
        another_read_round(store, share, receipts, get, &mut slots, &mut idle)?;
        if slots.count >= enough {
            break;
        }
        thread::yield_now();
    }
    Ok(())
}

/// Reads slots for a started get, and ends the get. Returns the refusal if this fails.
pub(crate) fn finish_get<L: RunLedger, R: Wait>(
    store: &LockedStore<L, R>,
    share: &mut Share<L>,
    receipts: &mut Vec<Receipt>,
    get: u32,
) -> Option<Refusal>
    ensures completes { Completes (λ r. reads get r.event) (λ r. ends get r.event) receipts.old.items receipts.new.items
        (is_some result) }
    ensures count { IsCounted share.old.count share.new.count receipts.old.items receipts.new.items }
    ensures parts { share.new.token.parts ≡ share.old.token.parts }
{
    if let Err(refusal) = read_rounds(store, share, receipts, get) {
        return Some(refusal);
    }
    match note(store, share, receipts, Event::EndGet(get)) {
        Ok(()) => None,
        Err(refusal) => Some(refusal),
    }
}

fn get_on<L: RunLedger, R: Wait>(
    store: &LockedStore<L, R>,
    share: &mut Share<L>,
    receipts: &mut Vec<Receipt>,
    key: Key,
) -> Option<Refusal>
    ensures block { AddsGet key receipts.old.items receipts.new.items result }
    ensures count { IsCounted share.old.count share.new.count receipts.old.items receipts.new.items }
    ensures parts { share.new.token.parts ≡ share.old.token.parts }
{
    match start_get(store, share, receipts, key) {
        Ok(get) => finish_get(store, share, receipts, get),
        Err(refusal) => Some(refusal),
    }
}

/// Gets the key: starts, reads R slots in order, and ends.
///
/// Reads in at most 64 rounds. Repeats a round without replies only if the history grew.
///
/// A refused start, a full history or lack of memory ends the get at once.
pub fn get_all<'a, L: RunLedger, R: Wait>(
    rt: &R,
    alloc: Global,
    executor: &Executor<'a, L>,
    share: &mut Share<L>,
    key: Key,
) -> Attempt
    // The get ends exactly if nothing is refused; no receipts if its start is.
    ensures block { IsGetAttempt key result.receipts.items result.refusal }
    ensures count { share.new.count ≡ share.old.count + vec_len result.receipts }
    ensures parts { share.new.token.parts ≡ share.old.token.parts }
{
    let store = LockedStore { rt, executor };
    let mut receipts = Vec::new(alloc);
    let refusal = get_on(&store, share, &mut receipts, key);
    Attempt { receipts, refusal }
}
