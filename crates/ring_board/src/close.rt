//! Closes a board.

ghost use Rattle.std.specs.Prelude.{◌≡◌, ◌+◌, ◌<◌, ◌≤◌, ℕ, All, [], length, slice_index, vec_len, IfOk, IfErr};
ghost use Rattle.std.specs.List.{AllByRecursion};
ghost use Rattle.std.specs.Slots.{slots_items, slots_len, IsFull};
ghost use Rattle.ring_names.specs.declared.refusal.Refusal.TheVariants.{OutOfMemory};
ghost use Rattle.ring_board.specs.Seats.{AreAll, Fits, IsTold, held_times, finished_times};
ghost use Rattle.ring_board.specs.Views.{IsSeat, joined};
ghost use Rattle.ring_board.specs.Words.{IsWord};

use crate::board::Board;
use crate::closed::ClosedBoard;
use crate::seat::Seat;
use crate::view::{Closing, Rule, Size, View};
use atomic_table::{Closed, Seat as TableSeat, Shared};
use ring_names::Refusal;
use std::alloc::Global;

// Joins the seats into one with all their knowledge.
fn join(
    shared: &Shared<Option<()>, View, Size, Rule>,
    mut seats: Vec<Seat>,
) -> TableSeat<Option<()>, View>
    requires some { 0 < vec_len seats }
    requires words { 0 < shared.now.table_id.words }
    requires boards { All (λ s. s.board ≡ shared.now.table_id) seats.items }
    ensures seat { (result.table_id ≡ shared.now.table_id) × (result.me ≡ (joined seats.items, [])) }
    ensures seats { AllByRecursion IsSeat seats.items }
{
    let Some(last) = seats.pop() else {
        unreachable!()
    };
    let Seat {
        mut seat,
        worker: _,
    } = last;
    while let Some(next) = seats.pop() {
        let Seat {
            seat: other,
            worker: _,
        } = next;
        shared.join_seat::<Closing>(&mut seat, other);
    }
    seat
}

fn step_words(
    alloc: Global,
    closed: &Closed<Option<()>, Global>,
    steps: usize,
) -> Result<Vec<u64>, Refusal>
    requires { IsFull closed.now.words × (slots_len closed.now.words ≡ steps + 1) }
    ensures len { IfOk result (λ v. vec_len v ≡ steps) }
    ensures words { IfOk result
        (λ v. (k : ℕ) → k < steps → slice_index v.items k ≡ slice_index (slots_items closed.now.words) (k + 1)) }
    ensures memory { IfErr result (λ e. e ≡ OutOfMemory) }
{
    let mut words = Vec::with_capacity(alloc, steps)?;
    for step in 0..steps {
        words.push(closed.word(step + 1))?;
    }
    Ok(words)
}

fn free(mut closed: Closed<Option<()>, Global>)
    requires { IsFull closed.slots }
{
    for slot in 0..closed.slot_count() {
        closed.take(slot);
    }
    closed.free();
}

impl Board {
    /// Returns the steps' words, in order.
    pub fn close(self, seats: Vec<Seat>) -> Result<Vec<u64>, Refusal>
        requires some { 0 < vec_len seats }
        requires boards { All (λ s. s.board ≡ self.id) seats.items }
        ensures words { IfOk result (λ v. (vec_len v ≡ self.steps) × All (IsWord self.workers) v.items) }
        ensures told { IfOk result
            (λ v. All (λ s. (k : ℕ) → k < self.steps → Fits s k (slice_index v.items k)) seats.items) }
        ensures known { IfOk result
            (λ v. AreAll seats.items → (k : ℕ) → k < self.steps → IsTold seats.items k (slice_index v.items k)) }
        ensures held_once { (k : ℕ) → held_times k seats.items ≤ 1 }
        ensures finished_once { (k : ℕ) → finished_times k seats.items ≤ 1 }
        ensures memory { IfErr result (λ e. e ≡ OutOfMemory) }
    {
        let Board { alloc, table, size } = self;
        let seat = join(&table.shared, seats);
        let closed = table.close_with(seat);
        let words = step_words(alloc, &closed, size.steps as usize);
        free(closed);
        words
    }

    /// Closes the board as `close` does. Only this call makes a `ClosedBoard`.
    pub fn end(self, seats: Vec<Seat>) -> Result<ClosedBoard, Refusal>
        requires some { 0 < vec_len seats }
        requires boards { All (λ s. s.board ≡ self.id) seats.items }
        ensures words { IfOk result (λ b. (length b ≡ self.steps) × All (IsWord self.workers) b) }
        ensures told { IfOk result
            (λ b. All (λ s. (k : ℕ) → k < self.steps → Fits s k (slice_index b k)) seats.items) }
        ensures known { IfOk result
            (λ b. AreAll seats.items → (k : ℕ) → k < self.steps → IsTold seats.items k (slice_index b k)) }
        ensures held_once { (k : ℕ) → held_times k seats.items ≤ 1 }
        ensures finished_once { (k : ℕ) → finished_times k seats.items ≤ 1 }
        ensures memory { IfErr result (λ e. e ≡ OutOfMemory) }
    {
        match self.close(seats) {
            Ok(words) => Ok(ClosedBoard { words }),
            Err(refusal) => Err(refusal),
        }
    }
}
