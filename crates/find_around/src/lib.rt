//! Searches for another plan during a change: around dead nodes, with staying slots, or only to finish begun moves.
//! Done steps stay, as do open copies that need no dead node. The rest is planned again, in the old order if possible.
//! Nothing is proved: checker and replay judge the plan.
#![tactic(auto)]

mod apart;
mod around;
mod choosing;
mod crowding;
mod entries;
mod hints;
mod leaving;
mod linking;
mod moving;
mod needs;
mod owners;
mod passing;
mod resting;
mod retiring;
mod settling;
mod sources;
mod summing;
mod targets;
mod told;
mod writing;

pub use around::{Around, AroundTask, Reach, find_around};
pub use choosing::{Kept, find_kept};
pub use leaving::find_unmoved;
