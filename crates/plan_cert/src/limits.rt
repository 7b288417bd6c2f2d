//! How long a bundle may be.

/// The most bytes of a bundle, and of a history's line: 64 MiB.
pub const MAX_INPUT: usize = 67_108_864;
