//! What stand-ins keep for slots with unreachable nodes (hinted handoff: DeCandia et al. 2007, section 4.6).
//!
//! A function without a `Result` takes no memory.
#![tactic(auto)]

mod hints;
mod kept_for;
mod maps;
mod numbered;
mod pairs;
mod sets;
mod slot_holders;

pub use hints::Hints;
pub use kept_for::KeptFor;
pub use pairs::Pairs;
pub use sets::Sets;
