//! What a plan does to its ring: which slots move, how many copies run in turn, and the final owners. Writes steps and
//! moves as lines of JSON, for executors on other stores.
#![tactic(auto)]

mod depth;
mod kept;
mod move_lines;
mod movement;
mod objects;
mod own_steps;
mod owners;
mod parts;
mod progress;
mod steps;
mod waits;

pub use depth::rounds;
pub use move_lines::write_moves;
pub use movement::{Move, moves};
pub use owners::{last_owners, owned, present_after};
pub use progress::Progress;
pub use steps::write_steps;
