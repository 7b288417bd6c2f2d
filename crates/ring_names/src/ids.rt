//! Typed numbers.

/// A node, by its place among the ring's node lines, from 0.
#[derive(Clone, Copy, Debug, PartialEq, Eq, PartialOrd, Ord, Hash)]
pub struct NodeId(pub u32);

/// A writer, by first mention in the bundle, from 0.
#[derive(Clone, Copy, Debug, PartialEq, Eq)]
pub struct WriterId(pub u32);

/// Slot `index` of `partition`, both from 0. A slot keeps the partition's keys.
#[derive(Clone, Copy, Debug, PartialEq, Eq, PartialOrd, Ord, Hash)]
pub struct Slot {
    pub partition: u32,
    pub index: u32,
}
