//! A store in one process that runs an approved plan, and the replay of a history, event by event, on a fresh store.
#![tactic(auto)]

mod events;
mod following;
mod mirrors;
mod queue;
mod reads;
mod replaying;
mod resting;
mod transfers;
mod world;

pub use following::follow;
pub use queue::Queue;
pub use replaying::{follow_queue, replay};
pub use resting::Rest;
pub use world::World;
