//! Keys by number.

/// A key's chunk, and its number. The store numbers keys when it first sees them.
#[derive(Clone, Copy, Debug, PartialEq, Eq, PartialOrd, Ord)]
pub struct KeyId {
    pub chunk: u32,
    pub number: usize,
}
