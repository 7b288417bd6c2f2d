//! A plan's moves, final slots, and copies in a row.

ghost use Rattle.std.specs.Prelude.{◌<◌};
ghost use Rattle.plan_text.specs.Valid.{Suits};

use find_plan::make;
use plan_cert::Cert;
use plan_stage::{parties, sources, stage_at};
use plan_text::{Plan, Source, Step};
use ring_names::{NodeId, Refusal, Slot};
use ring_table::{Allowance, Ring};
use std::alloc::{AllocError, Global};

fn at(numbers: &[u32], place: u32) -> u32 {
    match numbers.get(place as usize) {
        Some(number) => *number,
        None => 0,
    }
}

fn zeros(alloc: Global, count: usize) -> Result<Vec<u32>, AllocError> {
    let mut zeros = Vec::new(alloc);
    for _ in 0..count {
        zeros.push(0)?;
    }
    Ok(zeros)
}

fn count(counts: &mut [u32], node: NodeId) {
    match counts.get_mut(node.0 as usize) {
        Some(number) => *number = number.saturating_add(1),
        None => {}
    }
}

pub fn nodes_from(alloc: Global, first: u32, count: u32) -> Result<Vec<NodeId>, AllocError> {
    let mut nodes = Vec::new(alloc);
    for n in 0..count {
        nodes.push(NodeId(first.saturating_add(n)))?;
    }
    Ok(nodes)
}

/// Plans that nodes below `leavers` leave, and `joiners` nodes join from number `first` on.
pub fn plan_of(
    alloc: Global,
    ring: &Ring,
    leavers: u32,
    first: u32,
    joiners: u32,
) -> Result<(Plan, Cert), Refusal> {
    let joins = nodes_from(alloc, first, joiners)?;
    let leaves = nodes_from(alloc, 0, leavers)?;
    make(alloc, ring, joins.as_slice(), leaves.as_slice())
}

fn parts(number: u32, size: u32) -> u32 {
    match number
        .saturating_add(size.saturating_sub(1))
        .checked_div(size)
    {
        Some(parts) => parts,
        None => 0,
    }
}

pub fn moves(plan: &Plan) -> u32 {
    let mut moves = 0u32;
    for k in 0..plan.len() {
        if matches!(plan.step(k), Step::Mirror(_, _)) {
            moves = moves.saturating_add(1);
        }
    }
    moves
}

pub fn reads_owners(plan: &Plan) -> bool {
    for k in 0..plan.len() {
        if matches!(plan.step(k), Step::Copy(_, Source::Slots(_))) {
            return false;
        }
    }
    true
}

fn count_row(
    alloc: Global,
    ring: &Ring,
    plan: &Plan,
    partition: u32,
    owned: &mut [u32],
) -> Result<(), Refusal>
    requires { partition < ring.now.q }
{
    for index in 0..ring.n() {
        let slot = Slot { partition, index };
        let stage = stage_at(alloc, ring, plan, slot, plan.len())?;
        count(owned, stage.owner);
    }
    Ok(())
}

/// Counts each node's slots after the plan.
pub fn owned(alloc: Global, ring: &Ring, plan: &Plan) -> Result<Vec<u32>, Refusal> {
    let mut owned = zeros(alloc, ring.nodes().len())?;
    for partition in 0..ring.q() {
        count_row(alloc, ring, plan, partition, &mut owned)?;
    }
    Ok(owned)
}

#[derive(Drop)]
struct Copies {
    given: Vec<u32>,
    taken: Vec<u32>,
}

fn count_copy(
    alloc: Global,
    ring: &Ring,
    plan: &Plan,
    k: u32,
    copies: &mut Copies,
) -> Result<(), Refusal>
    requires { Suits ring.now plan.now }
{
    let givers = sources(alloc, ring, plan, k)?;
    let all = parties(alloc, ring, plan, k)?;
    for node in all.as_slice() {
        if givers.as_slice().contains(node) {
            count(&mut copies.given, *node);
        } else {
            count(&mut copies.taken, *node);
        }
    }
    Ok(())
}

fn count_copies(alloc: Global, ring: &Ring, plan: &Plan) -> Result<Copies, Refusal>
    requires { Suits ring.now plan.now }
{
    let count = ring.nodes().len();
    let given = zeros(alloc, count)?;
    let taken = zeros(alloc, count)?;
    let mut copies = Copies { given, taken };
    for k in 0..plan.len() {
        count_copy(alloc, ring, plan, k, &mut copies)?;
    }
    Ok(copies)
}

/// The fewest rounds for the busiest node's copies within its allowance.
pub fn rounds(alloc: Global, ring: &Ring, plan: &Plan) -> Result<u32, Refusal>
    requires { Suits ring.now plan.now }
{
    let copies = count_copies(alloc, ring, plan)?;
    let mut rounds = 0u32;
    let mut number = 0u32;
    for node in ring.nodes() {
        let given = at(&copies.given, number);
        let taken = at(&copies.taken, number);
        let needed = match node.allowance {
            Allowance::Joint(both) => parts(given.saturating_add(taken), both),
            Allowance::Split { take, give } => parts(taken, take).max(parts(given, give)),
        };
        rounds = rounds.max(needed);
        number = number.saturating_add(1);
    }
    Ok(rounds)
}

fn deepest(depths: &[u32], steps: &[u32]) -> u32 {
    let mut most = 0u32;
    for step in steps {
        most = most.max(at(depths, *step));
    }
    most
}

/// The most copies on a path of dependencies.
pub fn depth(alloc: Global, plan: &Plan) -> Result<u32, AllocError> {
    let mut depths = Vec::new(alloc);
    let mut most = 0u32;
    for k in 0..plan.len() {
        let mut depth = deepest(&depths, plan.deps(k));
        if matches!(plan.step(k), Step::Copy(_, _)) {
            depth = depth.saturating_add(1);
        }
        depths.push(depth)?;
        most = most.max(depth);
    }
    Ok(most)
}

fn owned_below(row: &[NodeId], leavers: u32) -> u32 {
    let mut owned = 0u32;
    for node in row {
        if node.0 < leavers {
            owned = owned.saturating_add(1);
        }
    }
    owned
}

/// The fewest moves by which nodes below `leavers` leave and each joiner gets `share` slots.
///
/// All leavers' slots move, and as many more as joiners then lack. A joiner gets at most one slot of a partition.
pub fn fewest_moves(ring: &Ring, leavers: u32, joiners: u32, share: u32) -> u32 {
    let mut left = 0u32;
    let mut kept = 0u32;
    for row in ring.rows() {
        let owned = owned_below(row.as_slice(), leavers);
        left = left.saturating_add(owned);
        kept = kept.saturating_add(owned.min(joiners));
    }
    left.saturating_add(share.saturating_mul(joiners).saturating_sub(kept))
}
