//! Bundles, and what a script's play and a history's replay print.
#![tactic(auto)]

mod bundle;
mod playing;
mod replaying;

pub use bundle::{Bundle, Kind, read_bundle};
pub use playing::{play, play_whole};
pub use replaying::{replay_history, write_ending};
