//! A few nodes with most slots leave, and give one copy at a time.

use crate::figures::{depth, moves, plan_of, reads_owners};
use crate::ring_texts::{push_nodes, push_numbered, push_owners};
use crate::rings::ring_from;
use crate::same::{holds, same};
use plan_text::Plan;
use ring_table::Ring;
use std::alloc::{AllocError, Global};
use std::process::Abort;
use std::test::Fail;

const LEAVERS: u32 = 5;

const STAYERS: u32 = 30;

const JOINERS: u32 = 100;

fn push_all_nodes(text: &mut Vec<u8>) -> Result<(), AllocError> {
    push_nodes(text, b"node l", 0, LEAVERS, &[b" 1 in\n"])?;
    push_nodes(text, b"node s", 0, STAYERS, &[b" 4 in\n"])?;
    push_nodes(text, b"node j", 0, JOINERS, &[b" 4 out\n"])
}

// Leavers own five slots, and staying nodes two, in turn.
fn push_row(text: &mut Vec<u8>, row: u32) -> Result<(), AllocError> {
    push_numbered(text, b"slots ", row)?;
    push_owners(text, b" l", row, LEAVERS, LEAVERS)?;
    push_owners(text, b" s", row.saturating_mul(2), 2, STAYERS)?;
    text.extend_from_slice(b"\n")
}

fn push_ring(text: &mut Vec<u8>, partitions: u32) -> Result<(), AllocError> {
    push_numbered(text, b"ring 1\nspace ", partitions)?;
    text.extend_from_slice(b"\nquorum 7 2 6\n")?;
    push_all_nodes(text)?;
    for row in 0..partitions {
        push_row(text, row)?;
    }
    text.extend_from_slice(b"end\n")
}

fn ring_text(alloc: Global, partitions: u32) -> Result<Vec<u8>, AllocError> {
    let mut text = Vec::new(alloc);
    push_ring(&mut text, partitions)?;
    Ok(text)
}

// Reading from the leavers would take four times as many rounds.
fn is_quick<RT: AllocGlobal + Abort>(rt: &RT, plan: &Plan) -> Result<(), Fail> {
    same!(rt; moves(plan), 22_000);
    holds!(rt; !reads_owners(plan));
    let depth = depth(rt.alloc(), plan)?;
    assert!(rt; depth <= 1_024, "{depth}");
    Ok(())
}

fn drained<RT: AllocGlobal + Abort>(rt: &RT, ring: &Ring) -> Result<(), Fail> {
    let first = LEAVERS.saturating_add(STAYERS);
    let (plan, _) = plan_of(rt.alloc(), ring, LEAVERS, first, JOINERS)?;
    is_quick(rt, &plan)
}

fn drain<RT: AllocGlobal + Abort>(rt: &RT, text: &[u8]) -> Result<(), Fail> {
    let ring = ring_from(rt.alloc(), text)?;
    drained(rt, &ring)
}

#[test]
fn the_longest_drain(rt: HostRuntime) -> Result<(), Fail> {
    let text = ring_text(rt.alloc(), 4096)?;
    drain(&rt, text.as_slice())
}
