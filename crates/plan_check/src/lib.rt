//! The checker: an accepted plan may run on its ring, and keeps its promises.
#![tactic(auto)]

mod approval;
mod checker;
mod gate;
mod kept;
mod laws;
mod shares;

pub use approval::{Approved, Turned};
pub use checker::{check, check_parallel};
pub use gate::{Gate, OpenGate};
pub use kept::{Kept, promises_kept};
pub use laws::{
    accepted_plans_keep_promises, certified_is_sound, finished_steps_come_first,
    first_is_none_where_certified, groups_stay_apart, migration_changes_no_refusal, puts_stay_held,
    quorums_meet, servers_occupy, servers_stay_members, sound_plans_keep_promises, stages_are_good,
    transfers_stay_few,
};
