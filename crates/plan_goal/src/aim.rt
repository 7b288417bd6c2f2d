//! The goal of a plan.

ghost use Rattle.std.specs.Prelude.{◌≡◌, not, ◌&&◌};
ghost use Rattle.std.specs.List.{list_any};
ghost use Rattle.ring_names.specs.Lists.{has};
ghost use Rattle.plan_text.specs.Changes.{numbers};
ghost use Rattle.plan_goal.specs.Unread.{is_unread, live};

use crate::alike::{has_space, is_node};
use crate::dead::Dead;
use crate::sparing::is_among;
use ring_names::{NodeId, Refusal, Slot};
use ring_table::{Node, Ring};
use std::alloc::Global;
use texts::small;

/// A ring, the goal ring, and the dead nodes.
#[derive(Clone, Copy)]
pub struct Aim<'a> {
    pub alloc: Global,
    pub ring: &'a Ring,
    pub wanted: &'a Ring,
    pub dead: &'a [NodeId],
}

/// Why no plan can reach the goal.
#[derive(Clone, Copy, Debug, PartialEq, Eq)]
pub enum Unfit {
    /// The rings differ in partitions, slots, quorums or losses.
    Space,
    /// The node's name or allowance differs, or only one ring has the node.
    Node(u32),
    /// A dead node should join.
    DeadJoiner(u32),
    /// The slot should go to a dead node.
    DeadOwner(Slot),
    /// A dead node's slot in the partition should move, and fewer than R owners live.
    Unread(u32),
}

fn is_same(one: Option<&Node>, other: Option<&Node>) -> bool {
    match (one, other) {
        (Some(one), Some(other)) => is_node(one, other),
        _ => false,
    }
}

fn other_node(ring: &Ring, wanted: &Ring) -> Option<u32> {
    let (ours, theirs) = (ring.nodes(), wanted.nodes());
    for number in 0..ours.len().max(theirs.len()) {
        if !is_same(ours.get(number), theirs.get(number)) {
            return Some(small(number));
        }
    }
    None
}

// A partition's owners now and in the goal ring.
fn rows<'a>(aim: &Aim<'a>, partition: usize) -> (&'a [NodeId], &'a [NodeId]) {
    let ours = match aim.ring.rows().get(partition) {
        Some(row) => row.as_slice(),
        None => &[],
    };
    let theirs = match aim.wanted.rows().get(partition) {
        Some(row) => row.as_slice(),
        None => &[],
    };
    (ours, theirs)
}

fn is_joiner(aim: &Aim, node: NodeId) -> bool {
    !aim.ring.is_member(node) && aim.wanted.is_member(node)
}

fn dead_joiner(aim: &Aim, dead: &Dead) -> Option<u32> {
    for number in 0..small(aim.ring.nodes().len()) {
        let node = NodeId(number);
        if dead.has(node) && is_joiner(aim, node) {
            return Some(number);
        }
    }
    None
}

fn dead_owner(aim: &Aim, dead: &Dead, partition: usize) -> Option<Slot> {
    let (ours, theirs) = rows(aim, partition);
    for index in 0..theirs.len() {
        if let Some(node) = theirs.get(index) {
            if !is_among(ours, *node) && dead.has(*node) {
                return Some(Slot {
                    partition: small(partition),
                    index: small(index),
                });
            }
        }
    }
    None
}

fn live(dead: &Dead, row: &[NodeId]) -> usize
    ensures { result ≡ live dead.now.nodes.now row.now }
{
    row.iter().filter(|node| !dead.has(**node)).count()
}

fn is_left(dead: &Dead, before: &[NodeId], after: &[NodeId]) -> bool
    ensures { result ≡ list_any (λ x. has x.0 (numbers dead.now.nodes.now) && not (has x.0 (numbers after.now))) before.now }
{
    before
        .iter()
        .any(|node| dead.has(*node) && !is_among(after, *node))
}

/// Whether a dead node's slot moves and fewer than `reads` owners live.
pub fn is_unread(reads: u32, dead: &Dead, before: &[NodeId], after: &[NodeId]) -> bool
    ensures { result ≡ is_unread reads dead.now.nodes.now before.now after.now }
{
    live(dead, before) < reads as usize && is_left(dead, before, after)
}

/// Returns a known reason why no plan can reach the goal.
pub fn why_unfit(aim: &Aim) -> Option<Unfit> {
    if !has_space(aim.ring, aim.wanted) {
        return Some(Unfit::Space);
    }
    if let Some(node) = other_node(aim.ring, aim.wanted) {
        return Some(Unfit::Node(node));
    }
    let dead = Dead::of(aim.dead);
    if let Some(node) = dead_joiner(aim, &dead) {
        return Some(Unfit::DeadJoiner(node));
    }
    for partition in 0..aim.ring.rows().len() {
        if let Some(slot) = dead_owner(aim, &dead, partition) {
            return Some(Unfit::DeadOwner(slot));
        }
        let (before, after) = rows(aim, partition);
        if is_unread(aim.ring.r(), &dead, before, after) {
            return Some(Unfit::Unread(small(partition)));
        }
    }
    None
}

/// Returns the partitions for which `is_unread` holds, ascending.
pub fn unread_partitions(aim: &Aim) -> Result<Vec<u32>, Refusal> {
    let dead = Dead::of(aim.dead);
    let mut unread = Vec::new(aim.alloc);
    for partition in 0..aim.ring.rows().len() {
        let (before, after) = rows(aim, partition);
        if is_unread(aim.ring.r(), &dead, before, after) {
            unread.push(small(partition))?;
        }
    }
    Ok(unread)
}

/// Returns the nodes that join, by number.
pub fn joins(aim: &Aim) -> Result<Vec<u32>, Refusal> {
    let mut nodes = Vec::new(aim.alloc);
    for number in 0..small(aim.ring.nodes().len()) {
        if is_joiner(aim, NodeId(number)) {
            nodes.push(number)?;
        }
    }
    Ok(nodes)
}

/// Returns the live members that retire, by number.
pub fn retires(aim: &Aim) -> Result<Vec<u32>, Refusal> {
    let mut nodes = Vec::new(aim.alloc);
    for number in 0..small(aim.ring.nodes().len()) {
        let node = NodeId(number);
        let shall = aim.ring.is_member(node) && !aim.wanted.is_member(node);
        if shall && !is_among(aim.dead, node) {
            nodes.push(number)?;
        }
    }
    Ok(nodes)
}
