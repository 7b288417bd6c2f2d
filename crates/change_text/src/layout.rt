//! Layouts as values.

ghost use Rattle.std.specs.Prelude.{◌≡◌, []};

use ring_names::Listed;
use std::alloc::Global;

/// A fact on a node or a partition. Nodes are given by name: a ring may lack them.
#[derive(Debug, Drop)]
pub enum Fact {
    /// A node's rack.
    Rack { node: Listed<u8>, rack: Listed<u8> },
    /// A node's weight, 1 to 1,000.
    Weight { node: Listed<u8>, parts: u32 },
    /// A node's name for people.
    Alias { node: Listed<u8>, alias: Listed<u8> },
    /// How much a partition below 4,096 stores: below 2^48, in any unit such as keys or bytes.
    Size { partition: u32, size: u64 },
    /// A node is dead for good.
    Dead { node: Listed<u8> },
}

/// A fact and its line's number.
#[derive(Debug, Drop)]
pub struct Entry {
    pub line: u32,
    pub fact: Fact,
}

/// A text's facts, in the order of lines.
#[derive(Debug, Drop)]
pub struct Layout {
    pub entries: Listed<Entry>,
}

impl Layout {
    /// Starts empty.
    pub fn new(alloc: Global) -> Layout
        ensures { result.entries ≡ [] }
    {
        Layout {
            entries: Listed::from_vec(Vec::new(alloc)),
        }
    }
}
