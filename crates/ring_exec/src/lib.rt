//! A running store with its history, and the lock by which threads share it. Threads count accepted events in shares of
//! one ledger.
#![tactic(auto)]

mod executor;
mod ledgered;
mod restoring;
mod run_ledger;
mod share;

pub use executor::Executor;
pub use ledgered::{Ledgered, MAX_ENTRIES};
pub use run_ledger::RunLedger;
pub use share::Share;
