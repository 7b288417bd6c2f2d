//! The program over any input and output, from command line to exit status.
#![tactic(auto)]

mod advice;
mod driving;
mod files;
mod layouts;
mod parting;
mod program;
mod several;
mod watching;

pub use advice::run_advised;
pub use driving::drive_bundle;
pub use program::{end_without_memory, end_without_words, run, run_alone};
pub use ringplan_request::Screen;
