//! Explains why the checker refuses a plan, and what may mend it. No words are proved; the checker says whether a mend
//! works.
#![tactic(auto)]

mod case;
mod certificates;
mod ends;
mod holders;
mod roles;
mod sources;
mod stages;
mod telling;

pub use certificates::Remedy;
pub use telling::{Read, tell_plan};
