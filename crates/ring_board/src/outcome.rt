//! A drive's outcome.

use crate::closed::ClosedBoard;
use crate::receipt::Receipt;
use plan_runs::Entry;
use ring_names::Listed;

/// A drive's history, each thread's receipts, each step's finisher, and the closed board.
///
/// The lists: earlier events, if any, then workers by number, clients by script, and handoffs.
#[derive(Debug, Drop)]
pub struct Outcome {
    pub history: Vec<Entry>,
    pub receipts: Vec<Listed<Receipt>>,
    pub finishers: Vec<u32>,
    pub board: ClosedBoard,
}
