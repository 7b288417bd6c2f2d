//! A key's partition of the hash space, and chunk of the partition.
#![tactic(auto)]

mod found;
mod space;

pub use found::Place;
pub use space::place;
