//! Slots that share racks.

use ring_names::{Listed, NodeId};
use texts::Labels;

fn shares_rack(row: &[NodeId], racks: &Labels) -> bool {
    for first in 0..row.len() {
        for second in first + 1..row.len() {
            if racks.of(row[first].0) == racks.of(row[second].0) {
                return true;
            }
        }
    }
    false
}

/// Counts the partitions with two slots in one rack.
pub fn sharing(rows: &[Listed<NodeId>], racks: &Labels) -> u32 {
    let mut count = 0u32;
    for row in rows {
        if shares_rack(row.as_slice(), racks) {
            count = count.saturating_add(1);
        }
    }
    count
}
