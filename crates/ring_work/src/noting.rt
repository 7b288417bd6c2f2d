//! Submits events and keeps receipts.

ghost use Rattle.std.specs.Prelude.{◌≡◌, ◌≢◌, ◌+◌, ◌∷◌, ◌++◌, ◌⊎◌, ◌↔◌, [], true, vec_len, if◌then◌else◌, IfOk, IfErr, OnOk, OnErr, IsTrue};
ghost use Rattle.ring_names.specs.declared.refusal.Refusal.TheVariants.{HistoryFull, OutOfMemory, TurnsSpent};
ghost use Rattle.ring_exec.specs.Replies.{is_put, is_get};
ghost use Rattle.plan_runs.specs.declared.event.Reply.TheVariants.{Put, Get};
ghost use Rattle.ring_work.specs.Noted.{Adds, IsCounted};

use crate::site::LockedStore;
use plan_runs::{Event, Reply};
use ring_board::Receipt;
use ring_exec::{RunLedger, Share};
use ring_names::Refusal;
use std::sync::Wait;

/// The most rounds of a put or a get.
pub(crate) const MAX_ROUNDS: u32 = 64;

/// The history's length before a round without replies. Until the history grows, another round would be refused.
#[derive(Drop)]
pub(crate) struct Idle {
    length: Option<u32>,
}

impl Idle {
    pub fn new() -> Idle
        ensures { result.length ≡ None }
    {
        Idle { length: None }
    }

    /// Whether nothing has changed since a round without replies.
    pub fn is_at(&self, length: u32) -> bool
        ensures { IsTrue result ↔ (self.now.length ≡ Some length) }
    {
        self.length == Some(length)
    }

    pub fn note(&mut self, length: u32, answered: bool)
        ensures { self.new.length ≡ (if answered then None else Some length) }
    {
        self.length = if answered { None } else { Some(length) };
    }
}

/// Submits the event and keeps its receipt. Reserves room before locking.
pub(crate) fn submit<L: RunLedger, R: Wait>(
    store: &LockedStore<L, R>,
    share: &mut Share<L>,
    receipts: &mut Vec<Receipt>,
    event: &Event,
) -> Result<(), Refusal>
    ensures ok { OnOk result (Adds event.now receipts.old.items receipts.new.items) }
    ensures err { OnErr result (receipts.new.items ≡ receipts.old.items) }
    ensures count { IsCounted share.old.count share.new.count receipts.old.items receipts.new.items }
    ensures parts { share.new.token.parts ≡ share.old.token.parts }
{
    receipts.reserve(1)?;
    let receipt = store.executor.submit(store.rt, event, share)?;
    receipts.push_reserved(receipt);
    Ok(())
}

/// Submits and takes the event: callers need not drop it.
pub(crate) fn note<L: RunLedger, R: Wait>(
    store: &LockedStore<L, R>,
    share: &mut Share<L>,
    receipts: &mut Vec<Receipt>,
    event: Event,
) -> Result<(), Refusal>
    ensures ok { OnOk result (Adds event receipts.old.items receipts.new.items) }
    ensures err { OnErr result (receipts.new.items ≡ receipts.old.items) }
    ensures count { IsCounted share.old.count share.new.count receipts.old.items receipts.new.items }
    ensures parts { share.new.token.parts ≡ share.old.token.parts }
{
    submit(store, share, receipts, &event)
}

pub(crate) fn put_number(reply: &Reply) -> u32
    requires { is_put reply.now ≡ true }
    ensures { reply.now ≡ Put result }
{
    match reply {
        Reply::Put(put) => *put,
        Reply::Plain | Reply::Ticket(_, _) | Reply::Get(_) | Reply::Found(_) | Reply::Answer(_) =>
            unreachable!(),
    }
}

pub(crate) fn get_number(reply: &Reply) -> u32
    requires { is_get reply.now ≡ true }
    ensures { reply.now ≡ Get result }
{
    match reply {
        Reply::Get(get) => *get,
        Reply::Plain | Reply::Ticket(_, _) | Reply::Put(_) | Reply::Found(_) | Reply::Answer(_) =>
            unreachable!(),
    }
}

/// Fails only if all must end: full history, out of memory.
pub(crate) fn go_on(refusal: Refusal) -> Result<(), Refusal>
    ensures { IfErr result (λ e. (e ≡ HistoryFull) ⊎ (e ≡ OutOfMemory)) }
{
    match refusal {
        Refusal::HistoryFull => Err(Refusal::HistoryFull),
        Refusal::OutOfMemory => Err(Refusal::OutOfMemory),
        _ => Ok(()),
    }
}

/// Returns the refusal. Store and board never give `TurnsSpent`.
pub(crate) fn no_limit(refusal: Refusal) -> Refusal
    ensures { result ≢ TurnsSpent }
{
    match refusal {
        Refusal::TurnsSpent => Refusal::Disagree,
        other => other,
    }
}
