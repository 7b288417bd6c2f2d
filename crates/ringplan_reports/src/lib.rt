//! Answers for people: plans in words and pictures, why a bundle is refused, and the ring after a plan.
#![tactic(auto)]

mod after;
mod cert;
mod goal_words;
mod history_words;
mod keeping;
mod layout_words;
mod object;
mod painting;
mod racks;
mod reporting;
mod show;
mod stating;
mod steps;
mod study;
mod trail;
mod why;
mod windows;

pub use after::after_bundle;
pub use layout_words::layout_fault;
pub use reporting::{Report, report_bundle, report_unread};
pub use show::{draw_bundle, show_bundle};
pub use stating::state_bundle;
pub use steps::{moves_bundle, steps_bundle};
pub use why::why_bundle;
pub use windows::windows_bundle;
