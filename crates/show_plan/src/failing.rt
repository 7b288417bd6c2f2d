//! What answers after failures.

use crate::present::PresentRing;
use ring_names::{Listed, NodeId, Refusal};
use ring_table::Ring;
use std::alloc::Global;
use texts::{at, raise, small};

fn count_up(row: &[NodeId], present: &PresentRing) -> u32 {
    let mut count = 0u32;
    for node in row {
        if !present.is_silent(node.0) {
            count = count.saturating_add(1);
        }
    }
    count
}

/// Counts partitions that still answer reads and writes.
pub fn kept(ring: &Ring, rows: &[Listed<NodeId>], present: &PresentRing) -> u32 {
    let needed = ring.r().max(ring.w());
    let mut count = 0u32;
    for row in rows {
        if count_up(row.as_slice(), present) >= needed {
            count = count.saturating_add(1);
        }
    }
    count
}

/// Counts partitions that answer after another failure, at worst.
pub fn kept_by_one(
    alloc: Global,
    ring: &Ring,
    rows: &[Listed<NodeId>],
    present: &PresentRing,
) -> Result<u32, Refusal> {
    let needed = ring.r().max(ring.w());
    let mut lost = vec![in alloc; 0u32; ring.nodes().len()]?;
    for row in rows {
        if count_up(row.as_slice(), present) == needed {
            for node in row.as_slice() {
                raise(lost.as_mut_slice(), node.0 as usize);
            }
        }
    }
    let mut most = 0u32;
    for node in 0..small(lost.len()) {
        if !present.is_silent(node) {
            most = most.max(at(lost.as_slice(), node as usize));
        }
    }
    Ok(kept(ring, rows, present).saturating_sub(most))
}

/// How many partitions two answering nodes share.
#[derive(Clone, Copy)]
pub struct SharedCounts {
    /// The most partitions that a pair shares.
    pub most: u32,
    /// The sum over all pairs.
    pub sum: u32,
}

/// Counts partitions that pairs of answering nodes share.
pub fn count_shared(
    alloc: Global,
    ring: &Ring,
    rows: &[Listed<NodeId>],
    present: &PresentRing,
) -> Result<SharedCounts, Refusal> {
    let pairs = all_pairs(small(ring.nodes().len()));
    let mut counts = vec![in alloc; 0u32; pairs as usize]?;
    let mut shared = SharedCounts { most: 0, sum: 0 };
    for row in rows {
        let up = up_of(alloc, row.as_slice(), present)?;
        let most = count_pairs(counts.as_mut_slice(), up.as_slice());
        shared.most = shared.most.max(most);
        shared.sum = shared.sum.saturating_add(all_pairs(small(up.len())));
    }
    Ok(shared)
}

fn up_of(alloc: Global, row: &[NodeId], present: &PresentRing) -> Result<Vec<u32>, Refusal> {
    let mut up = Vec::new(alloc);
    for node in row {
        if !present.is_silent(node.0) {
            up.push(node.0)?;
        }
    }
    Ok(up)
}

fn count_pairs(counts: &mut [u32], row: &[u32]) -> u32 {
    let mut most = 0u32;
    for first in 0..row.len() {
        for second in first + 1..row.len() {
            let (one, other) = (row[first], row[second]);
            let place = all_pairs(one.max(other)).saturating_add(one.min(other)) as usize;
            raise(counts, place);
            most = most.max(at(counts, place));
        }
    }
    most
}

/// The number of pairs.
pub fn all_pairs(nodes: u32) -> u32 {
    let all = u64::from(nodes).saturating_mul(u64::from(nodes.saturating_sub(1))) / 2;
    u32::try_from(all).unwrap_or(u32::MAX)
}

fn count_marked(marks: &[u32], row: &[NodeId]) -> u32 {
    let mut count = 0u32;
    for node in row {
        count = count.saturating_add(at(marks, node.0 as usize));
    }
    count
}

/// Counts partitions with two or more slots on the nodes.
pub fn count_crowded(
    alloc: Global,
    ring: &Ring,
    rows: &[Listed<NodeId>],
    nodes: &[u32],
) -> Result<u32, Refusal> {
    let mut marks = vec![in alloc; 0u32; ring.nodes().len()]?;
    for node in nodes {
        raise(marks.as_mut_slice(), *node as usize);
    }
    let mut count = 0u32;
    for row in rows {
        if count_marked(marks.as_slice(), row.as_slice()) > 1 {
            count = count.saturating_add(1);
        }
    }
    Ok(count)
}
