//! The command line, and texts of help.
#![tactic(auto)]

mod command;
mod counts;
mod files;
mod form;
mod guides;
mod help;
mod line;
mod manual;
mod naming;
mod parts;
mod reading;
mod shells;
mod slots;
mod tree;
mod word;

pub use command::{CommandLine, Request, parse};
pub use counts::MOST_PARTS;
pub use files::Files;
pub use form::Form;
pub use help::NO_WORDS;
pub use parts::PartWish;
pub use word::{Guide, Word};
