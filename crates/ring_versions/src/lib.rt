//! Versions of a key, none an ancestor of another (DeCandia et al. 2007, section 4.4). A version covers each clock that
//! is at most its own.
//!
//! A function without a `Result` takes no memory.
#![tactic(auto)]

mod chunk;
mod found;
mod fresh;
mod fresh_of;
mod group;
mod held;
mod joining;
mod left;
mod merge;
mod part;
mod puts;
mod version;
mod versions;
mod walk;
mod whole;

pub use found::Found;
pub use fresh::Fresh;
pub use version::Version;
pub use versions::Versions;
pub use walk::Walk;
