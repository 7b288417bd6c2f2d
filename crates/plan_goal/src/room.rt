//! A lower bound on the bytes of windows, before they are made.
//!
//! Each window begins with a ring's text. The rings differ only in owners and members (`ring_after`). So a window has
//! at least the first ring's bytes, with shortest names for owners, less a byte for each node (`in` for `out`).

use ring_names::{NodeId, Refusal};
use ring_table::{Node, Ring};

/// The most bytes of a plan's windows.
pub const MAX_WINDOWS: usize = 67_108_864;

/// The bytes so far, the windows left, and a window's fewest bytes.
#[derive(Clone, Copy, Debug)]
pub struct Room {
    made: usize,
    left: usize,
    fewest: usize,
}

impl Room {
    /// Starts without windows. `text` is the ring's.
    pub fn new(ring: &Ring, text: &[u8], windows: usize) -> Room {
        Room {
            made: 0,
            left: windows,
            fewest: fewest_bytes(ring, text),
        }
    }

    /// Counts a window.
    pub fn take(&mut self, window: &[u8]) {
        self.made = self.made.saturating_add(window.len());
        self.left = self.left.saturating_sub(1);
    }

    /// Fails with `TooLarge(0)` if all windows need more than `MAX_WINDOWS` bytes.
    pub fn ask(&self) -> Result<(), Refusal> {
        let left = self.left.saturating_mul(self.fewest);
        if self.made.saturating_add(left) > MAX_WINDOWS {
            return Err(Refusal::TooLarge(0));
        }
        Ok(())
    }
}

fn fewest_bytes(ring: &Ring, text: &[u8]) -> usize {
    let nodes = ring.nodes();
    let shortest = shortest_name(nodes);
    let slots = (ring.q() as usize).saturating_mul(ring.n() as usize);
    let spare = owners_bytes(ring).saturating_sub(slots.saturating_mul(shortest));
    text.len().saturating_sub(nodes.len()).saturating_sub(spare)
}

fn shortest_name(nodes: &[Node]) -> usize {
    let mut shortest = usize::MAX;
    for node in nodes {
        shortest = shortest.min(node.name.as_slice().len());
    }
    shortest
}

fn owners_bytes(ring: &Ring) -> usize {
    let mut bytes = 0usize;
    for row in ring.rows() {
        bytes = bytes.saturating_add(row_bytes(ring, row.as_slice()));
    }
    bytes
}

fn row_bytes(ring: &Ring, owners: &[NodeId]) -> usize {
    let mut bytes = 0usize;
    for owner in owners {
        bytes = bytes.saturating_add(ring.name(owner.0).len());
    }
    bytes
}
