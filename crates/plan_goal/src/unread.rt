//! Unread partitions.

ghost use Rattle.std.specs.Prelude.{◌≡◌, IfOk, length};
ghost use Rattle.plan_goal.specs.Rings.{flags};
ghost use Rattle.plan_goal.specs.GoalsReached.{wanted_by};
ghost use Rattle.plan_goal.specs.UnreadKept.{is_kept_member, kept_row, kept_rows, owns, without_unread};

use crate::aim::is_unread;
use crate::dead::Dead;
use crate::sized::row_at;
use crate::sparing::is_among;
use change_text::Unreadable;
use ring_names::{Listed, NodeId, Refusal};
use ring_table::Ring;
use std::alloc::Global;

fn kept_row<'a>(reads: u32, dead: &Dead, before: &'a [NodeId], after: &'a [NodeId]) -> &'a [NodeId]
    ensures { result.now ≡ kept_row reads dead.now.nodes.now before.now after.now }
{
    if is_unread(reads, dead, before, after) {
        before
    } else {
        after
    }
}

#[tactic(auto, using(crate::proofs::FirstNumbers::rows_none, crate::proofs::FirstNumbers::rows_more))]
fn kept_rows(
    alloc: Global,
    reads: u32,
    dead: &Dead,
    before: &[Listed<NodeId>],
    after: &[Listed<NodeId>],
) -> Result<Vec<Listed<NodeId>>, Refusal>
    ensures { IfOk result (λ rows. rows.items ≡ kept_rows reads dead.now.nodes.now before.now after.now (length after.now)) }
{
    let mut rows = Vec::new(alloc);
    'rows: for partition in 0..after.len() {
        let row = kept_row(
            reads,
            dead,
            row_at(before, partition),
            row_at(after, partition),
        );
        let row = Vec::from_slice(alloc, row)?;
        rows.push(Listed::from_vec(row))?;
    }
    Ok(rows)
}

fn owns(rows: &[Listed<NodeId>], node: NodeId) -> bool
    ensures { result ≡ owns rows.now node.0 }
{
    rows.iter().any(|row| is_among(row.as_slice(), node))
}

fn is_kept_member(ring: &Ring, wanted: &Ring, rows: &[Listed<NodeId>], node: NodeId) -> bool
    ensures { result ≡ is_kept_member ring.now wanted.now rows.now node.0 }
{
    wanted.is_member(node) || (ring.is_member(node) && owns(rows, node))
}

fn kept_members(
    alloc: Global,
    ring: &Ring,
    wanted: &Ring,
    rows: &[Listed<NodeId>],
) -> Result<Vec<bool>, Refusal>
    ensures { IfOk result (λ members. members.items
        ≡ flags (is_kept_member ring.now wanted.now rows.now) (length wanted.now.nodes)) }
{
    let mut members = Vec::new(alloc);
    // A ring has few nodes.
    let count = wanted.nodes().len() as u32;
    'nodes: for node in 0..count {
        members.push(is_kept_member(ring, wanted, rows, NodeId(node)))?;
    }
    Ok(members)
}

fn without_unread(
    alloc: Global,
    ring: &Ring,
    dead: &[NodeId],
    wanted: &Ring,
) -> Result<Ring, Refusal>
    ensures { IfOk result (λ v. v ≡ without_unread ring.now dead.now wanted.now) }
{
    let dead = Dead::of(dead);
    let rows = kept_rows(alloc, ring.r(), &dead, ring.rows(), wanted.rows())?;
    let members = kept_members(alloc, ring, wanted, rows.as_slice())?;
    wanted.with(alloc, rows.as_slice(), members.as_slice())
}

/// Returns the wanted ring. With `Left`, unread partitions keep their slots, and their owners stay members.
///
/// A partition is unread if a dead node's slot should move and fewer than R owners live.
pub fn wanted_by(
    alloc: Global,
    unreadable: Unreadable,
    ring: &Ring,
    dead: &[NodeId],
    wanted: Ring,
) -> Result<Ring, Refusal>
    ensures { IfOk result (λ v. v ≡ wanted_by unreadable ring.now dead.now wanted) }
{
    match unreadable {
        Unreadable::Refused => Ok(wanted),
        Unreadable::Left => without_unread(alloc, ring, dead, &wanted),
    }
}
