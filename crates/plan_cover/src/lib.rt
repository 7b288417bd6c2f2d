//! Checks a node's clauses: its retirement, transfers and covering chains.
#![tactic(auto)]

mod by_place;
mod chains;
mod check;
mod copies;
mod cover;
mod covered;
mod linked;
mod marks;
mod present;

pub use check::{check_node, check_nodes};
pub use present::{Present, Serving};
