//! Puts moves into rounds, and makes their plan and certificate. As many copies run at once as allowances permit. Each
//! copy follows the copy whose place it takes. Nothing is proved: the checker judges the results.
#![tactic(auto)]

mod both_texts;
mod colours;
mod groups;
mod handover;
mod later;
mod layout;
mod listed;
mod moving;
mod phases;
mod round_sets;
mod rounds;
mod steps;
mod task;
mod urgency;
mod writing;

pub use both_texts::write_texts;
pub use handover::Handover;
pub use steps::add;
pub use writing::Turnover;
