//! Events of steps, copies and nodes, and of versions that nodes get. Each has a test, which returns the first failing
//! guard's refusal, and an act, which leads to the next world.
//!
//! A function without a `Result` takes no memory. An act fails only if memory runs out, and then changes nothing.
#![tactic(auto)]

// Steps and nodes.
mod copies;
mod groups;
mod kinds;
mod nodes;
mod parties;
mod steps;

// Versions that come to nodes.
mod chunk_keepers;
mod chunks;
mod handing;
mod hinting;
mod served;
mod sources;
mod targets;
mod writing;

pub use chunks::{chunk_copy, chunk_refusal};
pub use copies::{abort_copy, abort_refusal, close_copy, close_refusal, open_copy, open_refusal};
pub use handing::{handoff, handoff_refusal};
pub use hinting::{hint, hint_refusal};
pub use kinds::is_ready;
pub use nodes::{down, down_refusal, lose, lose_refusal, up, up_refusal};
pub use steps::{do_refusal, do_step};
pub use writing::{write, write_refusal};
