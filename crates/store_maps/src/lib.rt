//! Maps from key to versions, and a slot's sixteen maps, one for each chunk.
//!
//! A function without a `Result` takes no memory.
#![tactic(auto)]

mod entries;
mod fresh_keys;
mod holders;
mod key_id;
mod key_map;
mod key_tree;
mod lists;
mod merges;
mod slot_map;
mod walk;

pub use fresh_keys::FreshKeys;
pub use holders::Holders;
pub use key_id::KeyId;
pub use key_map::KeyMap;
pub use lists::{lengthen, place_of};
pub use slot_map::SlotMap;
