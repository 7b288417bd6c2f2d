//! What a running store keeps besides versions: nodes, steps, slots, keys, and puts and gets in order of their start.
//! A function without a `Result` takes no memory. A refused call changes nothing.
//!
//! Laws relate these parts, before and after each event, to the world that `plan_runs` defines, which has no clocks.
#![tactic(auto)]

mod clocks;
mod found;
mod gets;
mod keys;
mod lasts;
mod marks;
mod nodes;
mod parts;
mod puts;
mod shows;
mod slots;
mod steps;
mod stored;

pub use clocks::{clocks_are_kept, clocks_tell_succession, own_counters_tell};
pub use found::{ended_gets_show_replies, found_clocks_join, gets_are_kept, reads_are_merged};
pub use gets::{GetNow, Gets};
pub use keys::Keys;
pub use lasts::Lasts;
pub use marks::Marks;
pub use nodes::{NodeNow, Nodes};
pub use parts::Parts;
pub use puts::{PutNow, Puts};
pub use shows::{shown_numbers_are_the_latest, shown_sets_merge, slot_is_held_where_covered};
pub use slots::{SlotNow, Slots};
pub use steps::{StepNow, Steps};
pub use stored::{puts_come_in_front, stored_sets_grow, stored_sets_last};
