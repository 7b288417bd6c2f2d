//! The program's jobs as calls from C: a bundle's bytes in, the printed text and exit status out. Only a watch keeps
//! something: its judge.
#![tactic(auto)]

mod calls;
mod cell;
mod handle;
mod line;
mod loose;
mod room;
mod speaking;
mod watching;

pub use calls::{
    ringplan_check, ringplan_migrate, ringplan_plan, ringplan_play, ringplan_replay,
    ringplan_version,
};
pub use handle::Handle;
pub use speaking::ringplan_call;
pub use watching::{
    ringplan_watch_count, ringplan_watch_end, ringplan_watch_free, ringplan_watch_new,
    ringplan_watch_take,
};

#[cfg(test)]
mod tests;
