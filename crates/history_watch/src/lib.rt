//! Judges a growing history: each entry is followed as soon as its line has come.
#![tactic(auto)]

mod bundle;
mod judge;
mod loops;
mod resting;
mod watch;

pub use bundle::{start_judge, watch_bundle};
pub use judge::Judge;
pub use loops::watch_history;
pub use resting::{Paused, State};
pub use watch::Watch;
