//! The place of a key.

/// A key's partition, 0 to q-1, and its chunk of that partition, 0 to 15.
#[derive(Clone, Copy, Debug, PartialEq, Eq)]
pub struct Place {
    pub partition: u32,
    pub chunk: u32,
}
