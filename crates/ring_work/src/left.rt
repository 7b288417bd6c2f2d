//! What a drive's threads leave.

ghost use Rattle.std.specs.Prelude.{◌≡◌, ◌⊎◌, ◌≤◌, All, None, false, vec_len, IfOk, IfErr, IsTrue};
ghost use Rattle.ring_names.specs.declared.refusal.Refusal.TheVariants.{OutOfMemory};
ghost use Rattle.ring_work.specs.Driven.{IsSpent, gravity};

use crate::done::{Done, Sat};
use ring_board::{Board, Receipt, Seat};
use ring_exec::{RunLedger, Share};
use ring_names::{Listed, Refusal};
use std::alloc::Global;

/// The threads' results, as joined, and the worst refusal.
#[derive(Drop)]
pub(crate) struct Left<L: RunLedger> {
    pub seats: Vec<Seat>,
    pub shares: Vec<Share<L>>,
    pub receipts: Vec<Listed<Receipt>>,
    pub refusal: Option<Refusal>,
    pub complete: bool,
}

fn weight(refusal: &Option<Refusal>) -> u8
    ensures { result ≡ gravity refusal.now }
{
    match refusal {
        None => 0,
        Some(Refusal::OutOfMemory) => 1,
        Some(Refusal::TurnsSpent) => 3,
        Some(_) => 2,
    }
}

/// Returns the worse refusal.
///
/// The limit of turns is worst, then a full history or disagreeing records, then lack of memory.
pub(crate) fn worse(one: Option<Refusal>, other: Option<Refusal>) -> Option<Refusal>
    ensures one { (result ≡ one) ⊎ (result ≡ other) }
    ensures graver { (gravity one ≤ gravity result) × (gravity other ≤ gravity result) }
{
    if weight(&one) < weight(&other) {
        other
    } else {
        one
    }
}

impl<L: RunLedger> Left<L> {
    /// Reserves room for all results, the first seat and share, to lose none.
    pub fn with_room(alloc: Global, workers: usize, clients: usize) -> Result<Left<L>, Refusal>
        ensures none { IfOk result (λ l. (vec_len l.seats ≡ 0) × (l.refusal ≡ None)) }
        ensures memory { IfErr result (λ e. e ≡ OutOfMemory) }
    {
        let threads = workers.saturating_add(clients).saturating_add(2);
        let seats = Vec::with_capacity(alloc, workers.saturating_add(1))?;
        let shares = Vec::with_capacity(alloc, threads)?;
        let receipts = Vec::with_capacity(alloc, threads)?;
        Ok(Left {
            seats,
            shares,
            receipts,
            refusal: None,
            complete: true,
        })
    }

    pub fn note(&mut self, refusal: Option<Refusal>)
        ensures seats { self.new.seats ≡ self.old.seats }
        ensures spent { IsSpent self.new.refusal → IsSpent self.old.refusal ⊎ IsSpent refusal }
        ensures complete { IsTrue self.new.complete → IsTrue self.old.complete }
    {
        self.refusal = worse(self.refusal.take(), refusal);
    }

    pub fn note_start(&mut self, refused: bool)
        ensures seats { self.new.seats ≡ self.old.seats }
        ensures spent { IsSpent self.new.refusal → IsSpent self.old.refusal }
        ensures complete { IsTrue self.new.complete → refused ≡ false }
    {
        if refused {
            self.complete = false;
            self.note(Some(Refusal::OutOfMemory));
        }
    }

    pub fn share(&mut self, share: Share<L>)
        ensures seats { self.new.seats ≡ self.old.seats }
        ensures spent { IsSpent self.new.refusal → IsSpent self.old.refusal }
        ensures complete { IsTrue self.new.complete → IsTrue self.old.complete }
    {
        if self.shares.push(share).is_err() {
            self.note(Some(Refusal::OutOfMemory));
        }
    }

    pub fn take(&mut self, done: Done<L>)
        ensures seats { self.new.seats ≡ self.old.seats }
        ensures spent { IsSpent self.new.refusal → IsSpent self.old.refusal ⊎ IsSpent done.stopped }
        ensures complete { IsTrue self.new.complete → IsTrue self.old.complete × IsTrue done.complete }
    {
        let Done {
            receipts,
            share,
            stopped,
            complete,
        } = done;
        self.complete = self.complete && complete;
        if self.receipts.push(Listed::from_vec(receipts)).is_err() {
            self.note(Some(Refusal::OutOfMemory));
        }
        self.share(share);
        self.note(stopped);
    }

    pub fn take_seat(&mut self, board: &Board, sat: Sat<L>)
        requires old { All (λ s. s.board ≡ board.now.id) self.old.seats.items }
        requires one { sat.seat.board ≡ board.now.id }
        ensures seats { All (λ s. s.board ≡ board.now.id) self.new.seats.items }
        ensures spent { IsSpent self.new.refusal → IsSpent self.old.refusal ⊎ IsSpent sat.done.stopped }
        ensures complete { IsTrue self.new.complete → IsTrue self.old.complete }
    {
        let Sat {
            done,
            worker: _,
            seat,
        } = sat;
        if self.seats.push(seat).is_err() {
            self.note(Some(Refusal::OutOfMemory));
        }
        self.take(done);
    }
}
