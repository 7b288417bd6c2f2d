//! Changes as values.

use ring_names::{Listed, NodeId};

/// The nodes that join a ring, and those that leave, as written.
#[derive(Debug, Drop)]
pub struct Change {
    pub joins: Listed<NodeId>,
    pub leaves: Listed<NodeId>,
}
