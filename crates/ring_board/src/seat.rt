//! The seats of a board.

ghost use Rattle.std.specs.Prelude.{◌≡◌};

use crate::view::View;
use atomic_table::Seat as TableSeat;
use std::marker::Model;

/// What a thread knows of a board's steps, and its right to change those held. A seat belongs to one thread at a time.
#[derive(Drop)]
pub struct Seat {
    pub(crate) seat: TableSeat<Option<()>, View>,
    pub(crate) worker: Option<u32>,
}

impl Model for Seat {
    ghost use Rattle.ring_board.specs.Seats.{SeatView};

    ghost Value = { SeatView };

    ghost use Rattle.ring_board.specs.Seated.{shown, IsSeated};

    ghost view = { shown };

    ghost invariant = { IsSeated };
}

impl Seat {
    /// Returns the seat's worker.
    pub fn worker(&self) -> Option<u32>
        ensures { result ≡ self.now.worker }
    {
        self.worker
    }
}
