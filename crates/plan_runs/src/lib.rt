//! A run's events and replies, the world that they change, and facts of each run, even of an unsound plan.
#![tactic(auto)]

mod back;
mod event;
mod laws;
mod same;
mod words;

pub use back::Back;
pub use event::{Entry, Event, Reply};
pub use laws::{
    holding_is_tested, runs_reach, runs_split, succession_is_of_causes, succession_is_tested,
};
pub use same::{is_same_event, is_same_reply};
pub use words::{Key, Seen};
