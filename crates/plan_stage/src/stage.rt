//! A slot's state between steps.

use ring_names::{Listed, NodeId};

/// A slot's stage.
#[derive(Debug, Drop)]
pub struct Stage {
    /// The node that answers for the slot.
    pub owner: NodeId,
    /// The node that also takes the slot's writes.
    pub mirror: Option<NodeId>,
    /// Whether the mirror has the slot's data.
    pub copied: bool,
    /// Former owners that have not dropped the slot, by number.
    pub leftovers: Listed<NodeId>,
}
