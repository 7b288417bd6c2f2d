//! Keepers of hints, with their slots.

use ring_names::{NodeId, Slot};

/// A node, and a slot for which it keeps hints.
#[derive(Clone, Copy, Debug, PartialEq, Eq, PartialOrd, Ord)]
pub struct KeptFor {
    pub keeper: NodeId,
    pub slot: Slot,
}
