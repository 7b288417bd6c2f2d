//! Plans that the checker accepts: for a change of members, or from a ring to any other, also around dead nodes. Finds
//! certificates, cuts plans into windows, and returns the ring after a plan. A law: plans that run in turn keep their
//! promises.
#![tactic(auto)]

mod aim;
mod alike;
mod alone;
mod cert;
mod cutting;
mod dead;
mod finding;
mod goal;
mod groups;
mod judging;
mod laws;
mod leading;
mod pieces;
mod proposal;
mod proposed;
mod racks;
mod reaching;
mod reading;
mod rings;
mod room;
mod sections;
mod sized;
mod sparing;
mod unread;
mod windows;

pub use aim::{Aim, Unfit, why_unfit};
pub use cert::{cert_bundle, found_bundle, push_excess};
pub use dead::Dead;
pub use goal::{dead_by, goal_bundle, goal_of, led_bundle, nodes_of, wish_bundle};
pub use laws::plans_in_turn_keep_promises;
pub use proposal::propose;
pub use proposed::{Proposed, write_front};
pub use racks::{
    Known, Racking, aliases_of, ask_layout, members_by, members_with, misfit, racks_of, unracked,
};
pub use reaching::reach;
pub use reading::{Goal, read_goal};
pub use rings::ring_after;
pub use room::MAX_WINDOWS;
pub use sections::{Kind, front, kind_of};
pub use sized::{has_sizes, is_flagged, row_at, sizes_of};
pub use sparing::{is_among, is_copy_spared, is_spared};
pub use windows::{cut_plan, is_same_ring};
