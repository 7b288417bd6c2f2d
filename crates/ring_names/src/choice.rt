//! A choice of partitions.

/// The partitions of a history's part.
#[derive(Clone, Copy, Debug, PartialEq, Eq)]
pub enum Choice {
    /// Partitions whose number modulo `of` is `part`. `of` is not 0.
    Share { of: u32, part: u32 },
    /// Partitions `first` to `last`, both included.
    Range { first: u32, last: u32 },
}
