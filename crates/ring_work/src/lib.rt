//! Runs an approved plan: puts and gets through the lock, and a drive's threads, with receipts. Reads the bundles of
//! drives, and writes reports in one line of JSON.
#![tactic(auto)]

mod attempt;
mod bundle;
mod client;
mod done;
mod driving;
mod earlier;
mod entries;
mod fault;
mod getting;
mod handing;
mod left;
mod noting;
mod putting;
mod reporting;
mod resuming;
mod scripts;
mod site;
mod threads;
mod words;
mod worker;

pub use attempt::Attempt;
pub use bundle::{DriveBundle, read_drive};
pub use driving::drive;
pub use fault::Fault;
pub use getting::get_all;
pub use putting::put_all;
pub use reporting::{report, write_report};
pub use resuming::resume;
pub use ring_exec::MAX_ENTRIES;
