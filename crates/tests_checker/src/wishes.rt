//! Wished changes: how many slots move and share a rack, and the balance.

use crate::ring_texts::{push_nodes, push_numbered, push_owners};
use crate::rings::ring_from;
use crate::same::{holds, same};
use find_plan::{WishedChange, wished};
use ring_names::{Listed, NodeId, Refusal};
use ring_table::Ring;
use std::alloc::{AllocError, Global};
use std::process::Abort;
use std::test::Fail;

// Nodes in three racks by turns.
const RACKS: [u32; 14] = [0, 1, 2, 0, 1, 2, 0, 1, 2, 0, 1, 2, 0, 1];

// Only racks: no changes, equal weights.
fn racked(racks: &[u32]) -> WishedChange<'_> {
    WishedChange {
        joins: &[],
        leaves: &[],
        weights: &[],
        racks,
        sizes: None,
    }
}

// ---- the ring

// Each partition has three consecutive owners, one in each rack.
fn push_rows(text: &mut Vec<u8>) -> Result<(), AllocError> {
    for partition in 0..64u32 {
        push_numbered(text, b"slots ", partition)?;
        push_owners(text, b" n", partition.saturating_mul(3), 3, 12)?;
        text.extend_from_slice(b"\n")?;
    }
    text.extend_from_slice(b"end\n")
}

// 64 partitions of three slots: twelve members with 16 each, and two other nodes.
fn twelve(alloc: Global) -> Result<Ring, Refusal> {
    let mut text = Vec::from_slice(alloc, b"ring 1\nspace 64\nquorum 3 2 2\n")?;
    push_nodes(&mut text, b"node n", 0, 12, &[b" 4 in\n"])?;
    push_nodes(&mut text, b"node n", 12, 14, &[b" 4 out\n"])?;
    push_rows(&mut text)?;
    ring_from(alloc, text.as_slice())
}

// ---- results

fn moved(ring: &Ring, rows: &[Listed<NodeId>]) -> u32 {
    let mut moved = 0u32;
    for (old, new) in ring.rows().iter().zip(rows.iter()) {
        for (before, after) in old.as_slice().iter().zip(new.as_slice().iter()) {
            if before != after {
                moved = moved.saturating_add(1);
            }
        }
    }
    moved
}

fn share(racks: &[u32], row: &[NodeId]) -> bool {
    for (place, one) in row.iter().enumerate() {
        for other in row.iter().skip(place.saturating_add(1)) {
            let rack = racks.get(one.0 as usize);
            if rack.is_some() && rack == racks.get(other.0 as usize) {
                return true;
            }
        }
    }
    false
}

fn shared(racks: &[u32], rows: &[Listed<NodeId>]) -> u32 {
    let mut shared = 0u32;
    for row in rows {
        if share(racks, row.as_slice()) {
            shared = shared.saturating_add(1);
        }
    }
    shared
}

fn load(rows: &[Listed<NodeId>], node: NodeId) -> u32 {
    let mut load = 0u32;
    for row in rows {
        if row.as_slice().contains(&node) {
            load = load.saturating_add(1);
        }
    }
    load
}

fn least_and_most(ring: &Ring, wish: &WishedChange, rows: &[Listed<NodeId>]) -> (u32, u32) {
    let (mut least, mut most) = (u32::MAX, 0u32);
    for number in 0..14u32 {
        let node = NodeId(number);
        let is_member = ring.is_member(node) || wish.joins.contains(&node);
        if is_member && !wish.leaves.contains(&node) {
            least = least.min(load(rows, node));
            most = most.max(load(rows, node));
        }
    }
    (least, most)
}

// Checks moves, partitions with two slots in one rack, and members' fewest and most slots.
fn comes_to<RT: AllocGlobal + Abort>(
    rt: &RT,
    wish: &WishedChange,
    moved_and_shared: (u32, u32),
    spread: (u32, u32),
) -> Result<(), Fail> {
    let ring = twelve(rt.alloc())?;
    let found = wished(rt.alloc(), &ring, wish)?;
    let rows = found.as_slice();
    same!(rt; (moved(&ring, rows), shared(wish.racks, rows)), moved_and_shared);
    same!(rt; least_and_most(&ring, wish, rows), spread);
    Ok(())
}

fn is_refused<RT: AllocGlobal + Abort>(rt: &RT, wish: &WishedChange) -> Result<(), Fail> {
    let ring = twelve(rt.alloc())?;
    holds!(rt; matches!(wished(rt.alloc(), &ring, wish), Err(Refusal::NoPlan)));
    Ok(())
}

// Both take their parts, 13 slots each; no partition gets two in one rack.
#[test]
fn two_join_apart(rt: HostRuntime) -> Result<(), Fail> {
    let wish = WishedChange {
        joins: &[NodeId(12), NodeId(13)],
        ..racked(&RACKS)
    };
    comes_to(&rt, &wish, (26, 0), (12, 16))
}

// A leaver's slots stay in its rack, as each partition has one in each of three.
#[test]
fn one_leaves_its_rack(rt: HostRuntime) -> Result<(), Fail> {
    let wish = WishedChange {
        leaves: &[NodeId(0)],
        ..racked(&RACKS)
    };
    comes_to(&rt, &wish, (16, 0), (16, 22))
}

// Joiners take leavers' slots, each joiner those in its rack.
#[test]
fn two_for_two(rt: HostRuntime) -> Result<(), Fail> {
    let wish = WishedChange {
        joins: &[NodeId(12), NodeId(13)],
        leaves: &[NodeId(0), NodeId(1)],
        ..racked(&RACKS)
    };
    comes_to(&rt, &wish, (32, 0), (16, 16))
}

// Half of the partitions have no keys. Of the others, joiners take six slots each: a share is 96 / 14. Only their racks
// give.
#[test]
fn two_join_by_size(rt: HostRuntime) -> Result<(), Fail> {
    let mut sizes = [0u64; 64];
    for partition in 0..32usize {
        sizes[partition] = 1;
    }
    let wish = WishedChange {
        joins: &[NodeId(12), NodeId(13)],
        sizes: Some(&sizes),
        ..racked(&RACKS)
    };
    comes_to(&rt, &wish, (12, 0), (6, 16))
}

// Each partition has two slots in one rack. A third slot there moves.
#[test]
fn two_racks_shared(rt: HostRuntime) -> Result<(), Fail> {
    let wish = racked(&[0, 0, 0, 0, 0, 0, 1, 1, 1, 1, 1, 1]);
    comes_to(&rt, &wish, (64, 64), (16, 16))
}

// Racks are shared before. Half of the partitions move two slots, the others one.
#[test]
fn racks_mended(rt: HostRuntime) -> Result<(), Fail> {
    let wish = racked(&[0, 0, 0, 0, 1, 1, 1, 1, 2, 2, 2, 2]);
    comes_to(&rt, &wish, (96, 0), (16, 16))
}

// Weight 3 takes three times as much as weight 1.
#[test]
fn weight_taken(rt: HostRuntime) -> Result<(), Fail> {
    let wish = WishedChange {
        joins: &[NodeId(12), NodeId(13)],
        weights: &[1, 1, 1, 1, 1, 1, 1, 1, 1, 1, 1, 1, 3],
        ..racked(&[])
    };
    comes_to(&rt, &wish, (48, 0), (12, 36))
}

#[test]
fn too_few_left(rt: HostRuntime) -> Result<(), Fail> {
    let mut leaves = Vec::new(rt.alloc());
    for node in 0..10u32 {
        leaves.push(NodeId(node))?;
    }
    let wish = WishedChange {
        leaves: leaves.as_slice(),
        ..racked(&RACKS)
    };
    is_refused(&rt, &wish)
}

// A member cannot join, and a non-member cannot leave.
#[test]
fn wrong_nodes_refused(rt: HostRuntime) -> Result<(), Fail> {
    let joins = WishedChange {
        joins: &[NodeId(0)],
        ..racked(&[])
    };
    is_refused(&rt, &joins)?;
    let leaves = WishedChange {
        leaves: &[NodeId(12)],
        ..racked(&[])
    };
    is_refused(&rt, &leaves)
}
