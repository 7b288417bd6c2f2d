//! The drawing order of nodes.

use crate::sheet::Sheet;
use ring_names::Refusal;
use texts::small;

// By kind, then the busiest first.
#[derive(Clone, Copy, PartialEq, Eq, PartialOrd, Ord)]
struct Ranked {
    kind: u32,
    idleness: u32,
    node: u32,
}

/// The number of nodes' kinds.
pub const KINDS: usize = 4;

/// 0 for a silent node, 1 for a leaver, 2 for a joiner, 3 for others.
pub fn kind(sheet: &Sheet, node: u32) -> u32 {
    if sheet.is_silent(node) {
        0
    } else if sheet.leaves(node) {
        1
    } else if sheet.joins(node) {
        2
    } else {
        3
    }
}

/// Nodes with a row, by kind, then the busiest first.
pub fn in_order(sheet: &Sheet) -> Result<Vec<u32>, Refusal> {
    let mut ranked = Vec::new(sheet.alloc);
    for node in 0..small(sheet.ring.nodes().len()) {
        if sheet.scene.takes_part(node) || sheet.is_silent(node) {
            ranked.push(Ranked {
                kind: kind(sheet, node),
                idleness: u32::MAX - sheet.work(node),
                node,
            })?;
        }
    }
    ranked.sort_unstable();
    let mut nodes = Vec::new(sheet.alloc);
    for one in ranked.as_slice() {
        nodes.push(one.node)?;
    }
    Ok(nodes)
}

/// Moves with copies, in copies' order.
pub fn by_copy(sheet: &Sheet) -> Result<Vec<u32>, Refusal> {
    let mut order = Vec::new(sheet.alloc);
    let mut place = 0u32;
    for shown in sheet.scene.shown.moves.as_slice() {
        if let Some(copy) = shown.copy {
            order.push((copy, place))?;
        }
        place = place.saturating_add(1);
    }
    order.sort_unstable();
    let mut places = Vec::new(sheet.alloc);
    for (_, place) in order.as_slice() {
        places.push(*place)?;
    }
    Ok(places)
}
