//! Joiners, leavers and moves.

use crate::names::{NodeNames, push_many, push_names};
use crate::present::PresentRing;
use crate::scene::Scene;
use crate::writing::columns;
use ring_table::Ring;
use texts::{Words, small};

fn push_who(out: &mut Words, names: NodeNames, nodes: &[u32], one: &[u8], more: &[u8]) {
    let mut width = 0usize;
    for node in nodes {
        width = width.saturating_add(columns(names.name(*node)));
    }
    if nodes.len() <= 3 && width <= 40 {
        push_names(out, names, nodes, 3);
    } else {
        push_many(out, small(nodes.len()), b"node", b"nodes");
    }
    out.byte(b' ');
    out.text(if nodes.len() == 1 { one } else { more });
}

/// Writes which nodes join and leave.
pub fn push_change(out: &mut Words, names: NodeNames, scene: &Scene) {
    let (joins, leaves) = (scene.joins.as_slice(), scene.leaves.as_slice());
    if joins.is_empty() && leaves.is_empty() {
        out.text(b"No node joins or leaves");
    }
    if !joins.is_empty() {
        push_who(out, names, joins, b"joins", b"join");
    }
    if !joins.is_empty() && !leaves.is_empty() {
        out.text(b" and ");
    }
    if !leaves.is_empty() {
        push_who(out, names, leaves, b"leaves", b"leave");
    }
}

/// Writes how many slots move. If a slot moves twice: `1000 moves of 1 slot`.
pub fn push_moves(out: &mut Words, scene: &Scene, one: &[u8], more: &[u8]) {
    let moves = scene.move_count();
    if moves == scene.moved_slots {
        return push_many(out, moves, one, more);
    }
    push_many(out, moves, b"move of ", b"moves of ");
    push_many(out, scene.moved_slots, b"slot", b"slots")
}

/// The fewest slots that must move.
///
/// All slots of leavers and dead nodes must move, and as many more as give each joiner its share, rounded down.
pub fn fewest_moves(ring: &Ring, scene: &Scene, present: &PresentRing) -> u32 {
    let total = ring.q().saturating_mul(ring.n());
    let share = match total.checked_div(count_living(ring, scene, present)) {
        Some(share) => share,
        None => 0,
    };
    let joins = small(scene.joins.len());
    let (mut leaving, mut given) = (0u32, 0u32);
    for row in ring.rows() {
        let mut left = 0u32;
        for node in row.as_slice() {
            if present.is_dead(node.0) || scene.leaves.as_slice().contains(&node.0) {
                left = left.saturating_add(1);
            }
        }
        leaving = leaving.saturating_add(left);
        given = given.saturating_add(left.min(joins));
    }
    leaving.saturating_add(share.saturating_mul(joins).saturating_sub(given))
}

fn count_living(ring: &Ring, scene: &Scene, present: &PresentRing) -> u32 {
    let mut count = 0u32;
    for node in 0..small(ring.nodes().len()) {
        if scene.stays(ring, node) && !present.is_dead(node) {
            count = count.saturating_add(1);
        }
    }
    count
}

/// Counts final members that answer.
pub fn count_members(ring: &Ring, scene: &Scene, present: &PresentRing) -> u32 {
    let mut count = 0u32;
    for node in 0..small(ring.nodes().len()) {
        if scene.stays(ring, node) && !present.is_silent(node) {
            count = count.saturating_add(1);
        }
    }
    count
}
