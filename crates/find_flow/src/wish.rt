//! Wished changes.

use ring_names::NodeId;

/// A wished change of a ring.
#[derive(Clone, Copy)]
pub struct WishedChange<'a> {
    /// Nodes that join, declared `out`.
    pub joins: &'a [NodeId],
    /// The members that leave.
    pub leaves: &'a [NodeId],
    /// By node, its weight from 1 to 1,000; 0 counts as 1, more as 1,000. Unlisted nodes have 1.
    pub weights: &'a [u32],
    /// By node, any number for its rack. Unlisted nodes have own racks.
    pub racks: &'a [u32],
    /// By partition, its size below 2^48, to even out sizes. Unlisted partitions have 1.
    pub sizes: Option<&'a [u64]>,
}

impl<'a> WishedChange<'a> {
    pub(crate) fn weight(&self, node: u32) -> u32 {
        match self.weights.get(node as usize) {
            Some(weight) => (*weight).max(1).min(1000),
            None => 1,
        }
    }
}
