//! Jobs with a bundle, as the command line asks.
#![tactic(auto)]

mod job;
mod making;

pub use job::Job;
pub use making::{
    Color, Cut, Detour, Exit, Extent, Making, Picture, Screen, Shape, Statement, Wish,
};
