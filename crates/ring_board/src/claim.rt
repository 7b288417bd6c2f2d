//! A claim's result.

/// A claim's result.
#[derive(Clone, Copy, Debug, PartialEq, Eq)]
pub enum Claim {
    /// The step was free, and is now held.
    Won,
    /// The step was claimed or finished before, and has this word.
    Taken(u64),
}
