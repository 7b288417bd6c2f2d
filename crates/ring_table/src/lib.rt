//! The ring: its nodes, its quorum, and each slot's owner.
#![tactic(auto)]

mod allowance;
mod changed;
mod declared;
mod field;
mod head;
mod node;
mod reading;
mod ring;
mod row;
mod writing;

pub use allowance::{Allowance, NodeSide, Side};
pub use field::node_field;
pub use node::Node;
pub use reading::{read_ring, read_ring_section};
pub use ring::Ring;
pub use writing::{push_name, push_row, write_ring};
