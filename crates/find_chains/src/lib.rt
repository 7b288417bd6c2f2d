//! Makes certificates: chains within allowances, if a plan's order permits, and the needed paths. The checker judges
//! them. `Stays` lists each slot's nodes.
#![tactic(auto)]

mod excess;
mod finding;
mod links;
mod looks;
mod matching;
mod needs;
mod order;
mod paths;
mod runs;
mod sides;
mod stays;

pub use excess::{Excess, overload};
pub use finding::{FoundCert, certificate};
pub use order::Order;
pub use runs::slot_of;
pub use sides::{Sides, sides_of};
pub use stays::{Stay, Stays};
