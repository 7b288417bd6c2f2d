//! A slot's stages, its steps' clauses, and a copy's nodes.
//!
//! Clauses say that steps act in order, and what mirrors, copies and retirements need.
#![tactic(auto)]

mod behind;
mod check;
mod clauses;
mod concerned;
mod drops;
mod few;
mod held;
mod holding;
mod joined;
mod leftovers;
mod missed;
mod party;
mod stage;
mod walk;

pub use check::{check_partition, stage_at};
pub use concerned::put_in_order;
pub use joined::{has_joined, has_joined_by};
pub use missed::{Missed, note_partition};
pub use party::{parties, sources};
pub use stage::Stage;
