//! Scripts: lists of events, and their texts.
#![tactic(auto)]

mod client;
mod items;
mod kind;
mod plain;
mod reading;
mod said;
mod script;
mod speaker;
mod taken;
mod words;
mod writing;

pub use kind::said_event;
pub use plain::{plain_event, plain_pair};
pub use reading::{read_client_section, read_script, read_script_section};
pub use said::SaidEvent;
pub use script::Script;
pub use taken::keep_event;
pub use writing::{push_event, write_script};
