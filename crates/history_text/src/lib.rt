//! The texts of histories: what happened to a store, and what the store answered. A bundle can be cut to the part that
//! some partitions see while it is read, so its history may have any number of entries.
#![tactic(auto)]

mod answers;
mod bundle;
mod cutter;
mod cutting;
mod front;
mod input;
mod known;
mod lines;
mod opening;
mod place;
mod plain;
mod reader;
mod reading;
mod room;
mod said;
mod writing;

pub use bundle::{ReplayBundle, read_replay, read_replay_section};
pub use cutting::{NoPart, Part, cut_stream};
pub use input::{CHUNK, MOST_ENTRIES, read_some};
pub use known::are_known;
pub use lines::{entry_line, keep_entry};
pub use reader::{Reader, Stage};
pub use reading::read_history;
pub use writing::{push_entry, push_history};
