//! A running store with its history and its book.

ghost use Rattle.std.specs.Prelude.{◌≡◌, ◌≤◌, vec_len};
ghost use Rattle.ring_core.specs.World.{ring_of, plan_of, put_count, get_count};
ghost use Rattle.ring_core.specs.Replays.{Replays};

use crate::restoring::retold;
use crate::run_ledger::RunLedger;
use crate::share::{Share, count_of};
use plan_check::Approved;
use plan_runs::{Entry, Event};
use ring_board::Receipt;
use ring_core::World;
use ring_names::Refusal;
use std::alloc::Global;
use std::sync::ledger::{Blank, Book};

/// The most entries of a history.
pub const MAX_ENTRIES: usize = 1_000_000;

/// A store that follows an approved plan, with its history: each accepted event and its reply.
///
/// The history is a run that leads to the store's world; the book counts its entries.
#[derive(Drop)]
pub struct Ledgered<'a, L: RunLedger> {
    world: World<'a>,
    history: Vec<Entry>,
    book: Book<L>,
    ghost ring: { ring_of world ≡ L.ring },
    ghost plan: { plan_of world ≡ L.plan },
    ghost replays: { Replays L.ring L.plan world history.items },
    ghost counted: { book.total ≡ vec_len history },
    ghost few: { vec_len history ≤ 1000000 },
    ghost puts: { put_count world ≤ vec_len history },
    ghost gets: { get_count world ≤ vec_len history },
}

impl<'a, L: RunLedger> Ledgered<'a, L> {
    ghost use Rattle.std.specs.Prelude.{◌≡◌, ◌≢◌, ◌<◌, ◌≤◌, ◌+◌, ◌++◌, ◌∷◌, ◌↔◌, [], true, length, vec_len, vec_capacity, IfOk};
    ghost use Rattle.std.specs.Prelude.{IfErr, OnOk, OnErr, IsTrue};
    ghost use Rattle.std.specs.List.{sum_by};
    ghost use Rattle.ring_names.specs.declared.refusal.Refusal.TheVariants.{OutOfMemory, HistoryFull};
    ghost use Rattle.plan_runs.specs.World.{World as TheWorld, opening_world};
    ghost use Rattle.ring_core.specs.World.{Meets, Passes, Answers, Refuses, Stays};
    ghost use Rattle.ring_core.specs.Tables.{AllDone};
    ghost use Rattle.ring_core.specs.Replays.{Replays};
    ghost use Rattle.ring_board.specs.Entries.{entry};
    ghost use Rattle.ring_core.specs.Faults.{IsFirstFault};
    ghost use Rattle.ring_exec.specs.Replies.{fits_reply};
    ghost use Rattle.ring_exec.specs.Rows.{AddsRow};

    /// Makes a store before the first event, and its ledger's only share.
    pub fn new(
        alloc: Global,
        blank: Blank,
        approved: &'a Approved,
    ) -> Result<(Ledgered<'a, L>, Share<L>), Refusal>
        requires name { blank.name ≡ L.name }
        requires parts { blank.parts ≡ L.parts }
        requires some { 0 < blank.parts }
        requires ring { approved.now.ring ≡ L.ring }
        requires plan { approved.now.plan ≡ L.plan }
        ensures history { IfOk result (λ r. r.0.history.items ≡ []) }
        ensures opening { IfOk result (λ r. Meets r.0.world (opening_world L.ring)) }
        ensures share { IfOk result (λ r. (r.1.count ≡ 0) × (r.1.token.parts ≡ L.parts)) }
        ensures memory { IfErr result (λ e. e ≡ OutOfMemory) }
    {
        let world = World::start(alloc, approved)?;
        let (book, token) = blank.open::<L>();
        let ledgered = Ledgered {
            world,
            history: Vec::new(alloc),
            book,
        };
        Ok((ledgered, Share { count: 0, token }))
    }

    /// Restores the store from a history, with its ledger's only share, which counts all entries.
    ///
    /// Over 1,000,000 entries are refused first. Each entry then costs a `follow` and a copy of the event.
    ///
    /// `Mismatch` has the place, from 0, of the first entry refused or with another reply, and that refusal's number or
    /// 0. Lack of memory comes last at each entry.
    pub fn restore(
        alloc: Global,
        blank: Blank,
        approved: &'a Approved,
        entries: &[Entry],
    ) -> Result<(Ledgered<'a, L>, Share<L>), Refusal>
        requires name { blank.name ≡ L.name }
        requires parts { blank.parts ≡ L.parts }
        requires some { 0 < blank.parts }
        requires ring { approved.now.ring ≡ L.ring }
        requires plan { approved.now.plan ≡ L.plan }
        ensures history { IfOk result (λ r. r.0.history.items ≡ entries.now) }
        ensures share { IfOk result (λ r. (r.1.count ≡ length entries.now) × (r.1.token.parts ≡ L.parts)) }
        ensures full { IfErr result (λ e. (e ≡ HistoryFull) ↔ (1000000 < length entries.now)) }
        ensures err { IfErr result (λ e. e ≢ HistoryFull → e ≢ OutOfMemory
            → IsFirstFault L.ring L.plan (opening_world L.ring) 0 entries.now e) }
    {
        if entries.len() > MAX_ENTRIES {
            return Err(Refusal::HistoryFull);
        }
        let (world, history) = retold(alloc, approved, entries)?;
        let count = history.len() as u64;
        let (mut book, mut token) = blank.open::<L>();
        book.add(&mut token, count);
        let restored = Ledgered {
            world,
            history,
            book,
        };
        Ok((restored, Share { count, token }))
    }

    /// Returns the store.
    pub fn world(&self) -> &World<'a>
        ensures { result.now ≡ self.now.world }
    {
        &self.world
    }

    /// Returns the history in order: a run of at most 1,000,000 entries that leads to the store's world.
    pub fn entries(&self) -> &[Entry]
        ensures items { result.now ≡ self.now.history.items }
        ensures run { Replays L.ring L.plan self.now.world result.now }
        ensures few { length result.now ≤ 1000000 }
    {
        self.history.as_slice()
    }

    /// Whether the plan's steps are all done.
    pub fn is_finished(&self) -> bool
        ensures { (w : TheWorld) → Meets self.now.world w → IsTrue result ↔ AllDone L.plan w }
    {
        self.world.left() == 0
    }

    /// Returns only the history, in order.
    pub fn into_entries(self) -> Vec<Entry>
        ensures items { result.items ≡ self.entry.history.items }
    {
        let Ledgered {
            world: _,
            history,
            book: _,
        } = self;
        history
    }

    /// Applies the event, counts it in the share, and appends event and reply to the history.
    ///
    /// A full history comes before other refusals, and lack of memory last.
    pub fn apply(&mut self, event: &Event, share: &mut Share<L>) -> Result<Receipt, Refusal>
        ensures entry { IfOk result
            (λ r. self.new.history.items ≡ self.old.history.items ++ entry event.now r.reply ∷ []) }
        ensures receipt { IfOk result (λ r. (r.event ≡ event.now) × (r.index ≡ vec_len self.old.history)) }
        ensures answer { IfOk result (λ r. Answers self.old.world event.now r.reply self.new.world) }
        ensures reply { IfOk result (λ r. fits_reply event.now r.reply ≡ true) }
        ensures count { OnOk result (share.new.count ≡ share.old.count + 1) }
        ensures room { OnOk result (vec_len self.old.history < 1000000) }
        ensures full { IfErr result (λ e. (e ≡ HistoryFull) ↔ (vec_len self.old.history ≡ 1000000)) }
        ensures err { IfErr result (λ e. e ≢ HistoryFull → e ≢ OutOfMemory → Refuses self.old.world event.now e) }
        ensures late { IfErr result (λ e. e ≡ OutOfMemory → Passes self.old.world event.now) }
        ensures same { OnErr result ((self.new.history.items ≡ self.old.history.items)
            × (share.new.count ≡ share.old.count) × Stays self.old.world self.new.world) }
        ensures unchanged { IfErr result (λ e. e ≢ OutOfMemory → self.new.world ≡ self.old.world) }
        ensures parts { share.new.token.parts ≡ share.old.token.parts }
    {
        if self.history.len() >= MAX_ENTRIES {
            return Err(Refusal::HistoryFull);
        }
        self.world.allows(event)?;
        let noted = event.try_copy()?;
        let given = event.try_copy()?;
        self.history.reserve(1)?;
        let (reply, copy) = self.world.apply_with_copy(event)?;
        let index = self.history.len() as u32;
        let entry = Entry {
            event: noted,
            reply: copy,
        };
        self.history.push_reserved(entry);
        self.book.audit(&mut share.token);
        self.book.add(&mut share.token, 1);
        share.count += 1;
        Ok(Receipt {
            index,
            event: given,
            reply,
        })
    }

    /// Applies the events in order, up to the first refusal. `receipts` must have room for all.
    pub(crate) fn apply_row(
        &mut self,
        events: &[Event],
        share: &mut Share<L>,
        receipts: &mut Vec<Receipt>,
    ) -> Result<(), Refusal>
        requires { vec_len receipts.old + length events.now ≤ vec_capacity receipts.old }
        ensures row { AddsRow events.now receipts.old.items receipts.new.items }
        ensures all { OnOk result (vec_len receipts.new ≡ vec_len receipts.old + length events.now) }
        ensures some { OnErr result (vec_len receipts.new < vec_len receipts.old + length events.now) }
        ensures count { share.new.count + vec_len receipts.old ≡ share.old.count + vec_len receipts.new }
        ensures parts { share.new.token.parts ≡ share.old.token.parts }
    {
        for event in events {
            let receipt = self.apply(event, share)?;
            receipts.push_reserved(receipt);
        }
        Ok(())
    }

    pub(crate) fn is_counted_by(&mut self, shares: Vec<Share<L>>) -> bool
        ensures count { IsTrue result → vec_len self.old.history ≡ sum_by (λ s. s.count) shares.items }
        ensures whole { 0 < L.parts → sum_by (λ s. s.token.parts) shares.items ≡ L.parts → IsTrue result }
        ensures same { (self.new.history.items ≡ self.old.history.items) × (self.new.world ≡ self.old.world) }
    {
        count_of(&mut self.book, shares) == self.history.len() as u64
    }
}
