//! The board, and its steps.

ghost use Rattle.std.specs.Prelude.{◌≡◌, ◌≢◌, ◌<◌, ◌≤◌, ◌+◌, ◌||◌, ℕ, ◌∷◌, true, false, Some, None, is_some, IfOk};
ghost use Rattle.std.specs.Prelude.{IfErr, if◌then◌else◌};
ghost use Rattle.ring_names.specs.declared.refusal.Refusal.TheVariants.{OutOfMemory};
ghost use Rattle.ring_names.specs.Lists.{has};
ghost use Rattle.ring_board.specs.Seats.{Fits, fresh, removed, sight};
ghost use Rattle.ring_board.specs.Words.{IsWord};

use crate::claim::Claim;
use crate::seat::Seat;
use crate::view::{Claiming, Finishing, GivingBack, Looking, Rule, Seating, Size, View};
use atomic_table::Table;
use ring_names::Refusal;
use std::alloc::Global;
use std::marker::Model;

/// The most workers of a board.
pub const MAX_WORKERS: u32 = 65;

// A step finished by worker w has this plus w as word.
const FINISHED: u64 = 128;

/// A plan's steps, each free, claimed or finished. Takes 8 bytes a step. Threads share it by `&`.
#[derive(Drop)]
pub struct Board {
    pub(crate) alloc: Global,
    pub(crate) table: Table<Option<()>, View, Size, Rule, Global>,
    pub(crate) size: Size,
}

impl Model for Board {
    ghost use Rattle.ring_board.specs.Seats.{BoardView};

    ghost Value = { BoardView };

    ghost use Rattle.ring_board.specs.Boarded.{board_of, IsBoard};

    ghost view = { board_of };

    ghost invariant = { IsBoard };
}

impl Board {
    /// Makes a board of free steps, and a first seat without a worker, from which workers' seats are split.
    pub fn new(alloc: Global, steps: u32, workers: u32) -> Result<(Board, Seat), Refusal>
        requires { workers ≤ 65 }
        ensures board { IfOk result (λ r. (r.0.steps ≡ steps) × (r.0.workers ≡ workers)) }
        ensures seat { IfOk result (λ r. r.1 ≡ fresh r.0.id None 0) }
        ensures memory { IfErr result (λ e. e ≡ OutOfMemory) }
    {
        let size = Size { steps, workers };
        let words = vec![in alloc; 0u64; steps as usize + 1]?;
        // One empty slot for each worker: the number proves that a seat's worker is the board's.
        let (table, seat) = Table::vacant(alloc, words.as_slice(), workers as usize, &size)?;
        let seat = Seat { seat, worker: None };
        Ok((Board { alloc, table, size }, seat))
    }

    /// Counts the steps.
    pub fn steps(&self) -> u32
        ensures { result ≡ self.now.steps }
    {
        self.size.steps
    }

    /// Counts the workers.
    pub fn workers(&self) -> u32
        ensures { result ≡ self.now.workers }
    {
        self.size.workers
    }

    /// Makes the worker's seat, with half of the other seat's share of the board. Takes no memory.
    pub fn seat(&self, seat: &mut Seat, worker: u32) -> Result<Seat, Refusal>
        requires board { seat.old.board ≡ self.now.id }
        requires worker { worker < self.now.workers }
        ensures new { IfOk result (λ s. s ≡ fresh self.now.id (Some worker) (seat.old.share + 1)) }
        ensures same { seat.new ≡ record seat.old { share = seat.old.share + 1 } }
        ensures never { IfErr result (λ e. ⊥) }
    {
        Ok(Seat {
            seat: self.table.shared.split_seat::<Seating>(&mut seat.seat),
            worker: Some(worker),
        })
    }

    /// Claims the step for the seat's worker, by one compare-exchange.
    pub fn claim(&self, seat: &mut Seat, step: u32) -> Claim
        requires board { seat.old.board ≡ self.now.id }
        requires worker { is_some seat.old.worker ≡ true }
        requires step { step < self.now.steps }
        ensures won { result ≡ Claim.Won
            → (seat.new ≡ record seat.old { held = step ∷ seat.old.held }) × Fits seat.old step 0 }
        ensures read { (word : ℕ) → result ≡ Claim.Taken word
            → seat.new ≡ record seat.old { seen = sight step word ∷ seat.old.seen } }
        ensures taken { (word : ℕ) → result ≡ Claim.Taken word
            → (word ≢ 0) × IsWord self.now.workers word × Fits seat.old step word }
        ensures same { (seat.new.board ≡ seat.old.board) × (seat.new.worker ≡ seat.old.worker) }
    {
        let Some(worker) = seat.worker else {
            unreachable!()
        };
        let word = u64::from(worker) + 1;
        let shared = &self.table.shared;
        let place = step as usize + 1;
        let found = shared.compare_exchange::<Claiming>(&mut seat.seat, place, 0, word);
        if found == 0 {
            Claim::Won
        } else {
            Claim::Taken(found)
        }
    }

    /// Frees a held step.
    pub fn give_back(&self, seat: &mut Seat, step: u32)
        requires board { seat.old.board ≡ self.now.id }
        requires step { step < self.now.steps }
        requires held { has step seat.old.held ≡ true }
        ensures { seat.new ≡ record seat.old { held = removed step seat.old.held } }
    {
        let place = step as usize + 1;
        self.table
            .shared
            .store::<GivingBack>(&mut seat.seat, place, 0);
    }

    /// Marks a held step as finished, for good.
    pub fn mark_done(&self, seat: &mut Seat, step: u32)
        requires board { seat.old.board ≡ self.now.id }
        requires step { step < self.now.steps }
        requires held { has step seat.old.held ≡ true }
        ensures { seat.new ≡ record seat.old { held = removed step seat.old.held; finished = step ∷ seat.old.finished } }
    {
        let Some(worker) = seat.worker else {
            unreachable!()
        };
        let word = FINISHED + u64::from(worker);
        let place = step as usize + 1;
        self.table
            .shared
            .store::<Finishing>(&mut seat.seat, place, word);
    }

    /// Whether the step is finished. A finished step stays so.
    pub fn is_done(&self, seat: &mut Seat, step: u32) -> bool
        requires board { seat.old.board ≡ self.now.id }
        requires step { step < self.now.steps }
        ensures known { seat.new ≡ (if result then record seat.old { known = step ∷ seat.old.known } else seat.old) }
        ensures for_good { (has step seat.old.finished || has step seat.old.known) ≡ true → result ≡ true }
        ensures held { has step seat.old.held ≡ true → result ≡ false }
    {
        let place = step as usize + 1;
        self.table.shared.load::<Looking>(&mut seat.seat, place) >= FINISHED
    }
}
