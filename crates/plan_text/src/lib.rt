//! Plans: steps that change the ring, each after earlier ones.
#![tactic(auto)]

mod after;
mod fulfils;
mod index;
mod indexes;
mod kind;
mod place;
mod plain;
mod plan;
mod reading;
mod slot_steps;
mod step;
mod suits;
mod writing;

pub use indexes::Indexes;
pub use plan::Plan;
pub use reading::{read_plan, read_plan_section};
pub use ring_table::Ring;
pub use step::{Planned, Source, Step};
pub use writing::write_plan;
