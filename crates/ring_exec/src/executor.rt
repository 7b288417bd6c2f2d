//! The lock around a running store and its history.

ghost use Rattle.std.specs.Prelude.{◌≡◌, ◌<◌, ◌≤◌, IfSome};

use crate::ledgered::Ledgered;
use crate::run_ledger::RunLedger;
use crate::share::Share;
use plan_check::Approved;
use plan_runs::{Entry, Event};
use ring_board::Receipt;
use ring_core::World;
use ring_names::{NodeId, Refusal, Slot};
use std::alloc::Global;
use std::sync::ledger::Blank;
use std::sync::{Mutex, Wait};

/// A running store with its history, shared by threads with `&`. Applies one event at a time.
#[derive(Drop)]
pub struct Executor<'a, L: RunLedger> {
    approved: &'a Approved,
    inside: Mutex<Ledgered<'a, L>>,
    ghost ring: { approved.now.ring ≡ L.ring },
    ghost plan: { approved.now.plan ≡ L.plan },
}

// Returns the first node in the range that may keep the hint.
fn first_keeper(world: &World, put: u32, index: u32, from: u32, end: u32) -> Option<NodeId>
    ensures { IfSome result (λ x. (from ≤ x.0) × (x.0 < end)) }
{
    for node in from..end {
        let keeper = NodeId(node);
        if world.allows(&Event::Hint(put, index, keeper)).is_ok() {
            return Some(keeper);
        }
    }
    None
}

impl<'a, L: RunLedger> Executor<'a, L> {
    ghost use Rattle.std.specs.Prelude.{◌≢◌, ◌<◌, ◌≤◌, ◌+◌, ◌↔◌, true, length, vec_len, IfOk, IfErr, IfSome, OnOk};
    ghost use Rattle.std.specs.Prelude.{OnErr};
    ghost use Rattle.std.specs.List.{sum_by};
    ghost use Rattle.ring_names.specs.declared.refusal.Refusal.TheVariants.{OutOfMemory, HistoryFull, Disagree};
    ghost use Rattle.plan_text.specs.Valid.{is_ring_slot};
    ghost use Rattle.plan_runs.specs.Runs.{IsRun};
    ghost use Rattle.plan_runs.specs.World.{World as TheWorld, opening_world};
    ghost use Rattle.ring_core.specs.Faults.{IsFirstFault};
    ghost use Rattle.ring_exec.specs.Replies.{fits_reply};
    ghost use Rattle.ring_exec.specs.Rows.{AddsRow};

    /// Makes a store before the first event, and its ledger's only share.
    pub fn new(
        alloc: Global,
        blank: Blank,
        approved: &'a Approved,
    ) -> Result<(Executor<'a, L>, Share<L>), Refusal>
        requires name { blank.name ≡ L.name }
        requires parts { blank.parts ≡ L.parts }
        requires some { 0 < blank.parts }
        requires ring { approved.now.ring ≡ L.ring }
        requires plan { approved.now.plan ≡ L.plan }
        ensures share { IfOk result (λ r. (r.1.count ≡ 0) × (r.1.token.parts ≡ L.parts)) }
        ensures memory { IfErr result (λ e. e ≡ OutOfMemory) }
    {
        let (ledgered, share) = Ledgered::new(alloc, blank, approved)?;
        let executor = Executor {
            approved,
            inside: Mutex::new(ledgered),
        };
        Ok((executor, share))
    }

    /// Restores the store as `Ledgered::restore` does, with the ledger's only share and the same refusals.
    pub fn restore(
        alloc: Global,
        blank: Blank,
        approved: &'a Approved,
        entries: &[Entry],
    ) -> Result<(Executor<'a, L>, Share<L>), Refusal>
        requires name { blank.name ≡ L.name }
        requires parts { blank.parts ≡ L.parts }
        requires some { 0 < blank.parts }
        requires ring { approved.now.ring ≡ L.ring }
        requires plan { approved.now.plan ≡ L.plan }
        ensures run { IfOk result (λ r. ∥ ((w : TheWorld) × IsRun L.ring L.plan entries.now w) ∥₁) }
        ensures share { IfOk result (λ r. (r.1.count ≡ length entries.now) × (r.1.token.parts ≡ L.parts)) }
        ensures full { IfErr result (λ e. (e ≡ HistoryFull) ↔ (1000000 < length entries.now)) }
        ensures err { IfErr result (λ e. e ≢ HistoryFull → e ≢ OutOfMemory
            → IsFirstFault L.ring L.plan (opening_world L.ring) 0 entries.now e) }
    {
        let (restored, share) = Ledgered::restore(alloc, blank, approved, entries)?;
        let executor = Executor {
            approved,
            inside: Mutex::new(restored),
        };
        Ok((executor, share))
    }

    /// Returns the plan and its ring.
    pub fn approved(&self) -> &'a Approved
        ensures ring { result.now.ring ≡ L.ring }
        ensures plan { result.now.plan ≡ L.plan }
    {
        self.approved
    }

    /// Applies the event under the lock, as `Ledgered::apply` does. A refusal leaves the share as it was.
    pub fn submit<R: Wait>(
        &self,
        rt: &R,
        event: &Event,
        share: &mut Share<L>,
    ) -> Result<Receipt, Refusal>
        ensures event { IfOk result (λ r. r.event ≡ event.now) }
        ensures reply { IfOk result (λ r. fits_reply event.now r.reply ≡ true) }
        ensures index { IfOk result (λ r. r.index < 1000000) }
        ensures count { OnOk result (share.new.count ≡ share.old.count + 1) }
        ensures same { OnErr result (share.new.count ≡ share.old.count) }
        ensures parts { share.new.token.parts ≡ share.old.token.parts }
    {
        self.inside.lock(rt).apply(event, share)
    }

    /// Applies the events in order under one lock, up to the first refusal, and keeps the receipts.
    ///
    /// Reserves memory before locking; without memory, applies nothing.
    pub fn submit_row<R: Wait>(
        &self,
        rt: &R,
        events: &[Event],
        share: &mut Share<L>,
        receipts: &mut Vec<Receipt>,
    ) -> Result<(), Refusal>
        ensures row { AddsRow events.now receipts.old.items receipts.new.items }
        ensures all { OnOk result (vec_len receipts.new ≡ vec_len receipts.old + length events.now) }
        ensures some { OnErr result (vec_len receipts.new < vec_len receipts.old + length events.now) }
        ensures count { share.new.count + vec_len receipts.old ≡ share.old.count + vec_len receipts.new }
        ensures parts { share.new.token.parts ≡ share.old.token.parts }
    {
        receipts.reserve(events.len())?;
        self.inside.lock(rt).apply_row(events, share, receipts)
    }

    /// Returns the least step, at or after `from`, that could begin when asked.
    pub fn ready<R: Wait>(&self, rt: &R, from: u32) -> Option<u32>
        ensures { IfSome result (λ n. (from ≤ n) × (n < length L.plan)) }
    {
        self.inside.lock(rt).world().ready(from)
    }

    /// Counts the steps that were not done when asked.
    pub fn left<R: Wait>(&self, rt: &R) -> u32
        ensures { result ≤ length L.plan }
    {
        self.inside.lock(rt).world().left()
    }

    /// Returns the n-th pair of a node and a slot whose hints the node kept when asked.
    pub fn hint_at<R: Wait>(&self, rt: &R, n: u32) -> Option<(NodeId, Slot)>
        ensures { IfSome result (λ pair. (pair.0.0 < length L.ring.nodes) × (is_ring_slot L.ring pair.1 ≡ true)) }
    {
        self.inside.lock(rt).world().hint_at(n)
    }

    /// Returns the first node, at or after `from`, that could keep the put as a hint when asked. Looks at each node up
    /// to it.
    pub fn keeper_from<R: Wait>(&self, rt: &R, put: u32, index: u32, from: u32) -> Option<NodeId>
        ensures { IfSome result (λ x. (from ≤ x.0) × (x.0 < length L.ring.nodes)) }
    {
        let nodes = self.approved.ring().nodes().len() as u32;
        first_keeper(self.inside.lock(rt).world(), put, index, from, nodes)
    }

    /// Counts the history's entries when asked.
    pub fn entry_count<R: Wait>(&self, rt: &R) -> u32
        ensures { result ≤ 1000000 }
    {
        self.inside.lock(rt).entries().len() as u32
    }

    /// Drops store and history, for example if threads could not start.
    pub fn give_up(self) {}

    /// Returns the store and its history, if the shares count all its events, as all shares together do. Otherwise
    /// fails with 70.
    pub fn finish(self, shares: Vec<Share<L>>) -> Result<Ledgered<'a, L>, Refusal>
        ensures ok { IfOk result (λ a. vec_len a.history ≡ sum_by (λ s. s.count) shares.items) }
        ensures err { IfErr result (λ e. e ≡ Disagree) }
        ensures whole { 0 < L.parts → sum_by (λ s. s.token.parts) shares.items ≡ L.parts → IfErr result (λ e. ⊥) }
    {
        let mut ledgered = self.inside.into_inner();
        if ledgered.is_counted_by(shares) {
            return Ok(ledgered);
        }
        Err(Refusal::Disagree)
    }
}
