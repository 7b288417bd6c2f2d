//! The lock-free board on which workers claim the steps of a plan. Each step has an atomic word: 0 if free, `w + 1` if
//! worker `w` has claimed it, `128 + w` if worker `w` has finished it. A worker's seat knows which steps the worker
//! holds, has finished, and saw finished.
//!
//! Receipts are judged by their history: replies, order, and who finished each step.
#![tactic(auto)]

mod agreeing;
mod asked;
mod blocks;
mod board;
mod claim;
mod clients;
mod close;
mod closed;
mod finishing;
mod interleaving;
mod kinds;
mod outcome;
mod receipt;
mod seat;
mod starts;
mod view;

pub use agreeing::agrees;
pub use asked::Asked;
pub use board::{Board, MAX_WORKERS};
pub use claim::Claim;
pub use closed::ClosedBoard;
pub use outcome::Outcome;
pub use receipt::Receipt;
pub use seat::Seat;
pub use starts::{all_ended, number_of};
