//! Vector clocks of versions (DeCandia et al. 2007, section 4.4). Their actors are writers.
//!
//! A function without a `Result` takes no memory.
#![tactic(auto)]

mod block;
mod blocks;
mod causes;
mod clock;
mod entry;
mod full;
mod laws;
mod merge;
mod part;
mod reach;
mod walk;

pub use block::group_of;
pub use causes::{Cause, clocks};
pub use clock::Clock;
pub use entry::Entry;
pub use laws::{clocks_are_in_order, clocks_grow};
pub use walk::Walk;
