//! The order of steps: direct dependencies, and a certificate's paths of them.
#![tactic(auto)]

mod before;
mod context;
mod facts;
mod path;

pub use before::before_is_an_order;
pub use context::Context;
pub use facts::{Ends, Facts};
pub use path::verify_fact;
