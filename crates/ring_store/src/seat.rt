//! Seats: how a chunk's maps are ordered.

use ring_names::NodeId;

// A slot's index and a node.
#[derive(Clone, Copy, PartialEq, Eq, PartialOrd, Ord)]
pub(crate) struct Seat {
    pub(crate) index: u32,
    pub(crate) node: NodeId,
}
