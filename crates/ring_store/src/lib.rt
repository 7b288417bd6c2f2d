//! What nodes store: their slots' versions, in a map for each chunk that got something.
//!
//! A function without a `Result` takes no memory.
#![tactic(auto)]

mod given;
mod maps;
mod row;
mod seat;
mod slot_key;
mod stores;

pub use slot_key::SlotKey;
pub use stores::Stores;
