//! Chooses owners for a change by weight, with racks apart, and finds a plan with certificate. Moves as few slots as
//! racks and change need, balances them, and runs as many transfers at once as allowances permit. Nothing is proved:
//! the checker judges the results.
#![tactic(auto)]

mod candidates;
mod choice;
mod crowds;
mod filling;
mod giving;
mod maker;
mod pairs;
mod ranks;
mod sizing;
mod spreading;
mod swapping;
mod takers;
mod thinning;

pub use choice::wished;
pub use find_flow::WishedChange;
pub use maker::make;
