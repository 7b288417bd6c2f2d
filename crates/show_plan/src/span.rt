//! Fewest and most slots.

use texts::Words;

/// Nodes' fewest and most slots.
#[derive(Clone, Copy)]
pub struct SlotSpan {
    least: u32,
    most: u32,
}

impl SlotSpan {
    /// The span of no nodes.
    pub fn new() -> SlotSpan {
        SlotSpan {
            least: u32::MAX,
            most: 0,
        }
    }

    /// Counts a node.
    pub fn add(&mut self, count: u32) {
        self.least = self.least.min(count);
        self.most = self.most.max(count);
    }

    /// Writes `4 slots`, or `3 to 5 slots`.
    pub fn push(&self, out: &mut Words) {
        out.number(self.least.min(self.most));
        if self.least < self.most {
            out.text(b" to ");
            out.number(self.most);
        }
        out.text(if self.most == 1 && self.least >= 1 {
            b" slot"
        } else {
            b" slots"
        });
    }
}
