//! Checks the promises of a change with partition sizes.

ghost use Rattle.std.specs.Prelude.{◌≡◌, ◌*◌, ◌&&◌, nat_le, true, length, slice_index, replicate, IfOk, IfSome, OnOk, IsTrue};
ghost use Rattle.plan_goal.specs.Sized.{IsSized, all_stored, all_weights, has_sizes, is_flagged, is_size, is_taker, loads_below, may_go, may_row, may_rows, row_at, sizes_by, sum_below, takes, weight_in, weights_by, with_row, with_size, with_slot, with_weight};
ghost use Rattle.plan_goal.specs.Rings.{flags};
ghost use Rattle.ring_names.specs.Lists.{has};
ghost use Rattle.ring_table.specs.Value.{names_of};
ghost use Rattle.plan_text.specs.Changes.{numbers};

use crate::sparing::is_among;
use change_text::{Change, Entry, Fact, Layout};
use ring_names::{Listed, NodeId, Refusal};
use ring_table::Ring;
use std::alloc::Global;

fn number_at(numbers: &[u32], place: usize) -> u32
    ensures { result ≡ slice_index numbers.now place }
{
    match numbers.get(place) {
        Some(number) => *number,
        None => 0,
    }
}

fn load_at(loads: &[u64], place: usize) -> u64
    ensures { result ≡ slice_index loads.now place }
{
    match loads.get(place) {
        Some(load) => *load,
        None => 0,
    }
}

/// Whether the flag is set.
pub fn is_flagged(flags: &[bool], place: usize) -> bool
    ensures { result ≡ is_flagged flags.now place }
{
    match flags.get(place) {
        Some(flag) => *flag,
        None => false,
    }
}

/// The partition's owners, or none.
pub fn row_at(rows: &[Listed<NodeId>], partition: usize) -> &[NodeId]
    ensures { result.now ≡ row_at rows.now partition }
{
    match rows.get(partition) {
        Some(row) => row.as_slice(),
        None => &[],
    }
}

fn add_slot(loads: &mut Vec<u64>, size: u64, node: NodeId) -> Result<(), Refusal>
    ensures { OnOk result (loads.new.items ≡ with_slot size loads.old.items node) }
{
    let place = node.0 as usize;
    if place < loads.len() {
        match loads[place].checked_add(size) {
            Some(load) => loads[place] = load,
            None => return Err(Refusal::NoPlan),
        }
    }
    Ok(())
}

fn add_row(loads: &mut Vec<u64>, size: u64, row: &[NodeId]) -> Result<(), Refusal>
    ensures { OnOk result (loads.new.items ≡ with_row size loads.old.items row.now) }
{
    let Some((node, more)) = row.split_first() else {
        return Ok(());
    };
    add_slot(loads, size, *node)?;
    add_row(loads, size, more)
}

#[tactic(auto, using(crate::proofs::FirstNumbers::loads_none, crate::proofs::FirstNumbers::loads_more))]
fn loads_of(
    alloc: Global,
    sizes: &[u64],
    rows: &[Listed<NodeId>],
    nodes: usize,
) -> Result<Vec<u64>, Refusal>
    ensures { IfOk result (λ loads. loads.items ≡ loads_below sizes.now rows.now nodes (length rows.now)) }
{
    let mut loads = vec![in alloc; 0u64; nodes]?;
    'rows: for partition in 0..rows.len() {
        let size = load_at(sizes, partition);
        add_row(&mut loads, size, row_at(rows, partition))?;
    }
    Ok(loads)
}

#[tactic(auto, using(crate::proofs::FirstNumbers::sum_none, crate::proofs::FirstNumbers::sum_more))]
fn sum_of(numbers: &[u64], count: usize) -> Option<u64>
    ensures { IfSome result (λ sum. sum ≡ sum_below (slice_index numbers.now) count) }
{
    let mut sum = 0u64;
    'numbers: for place in 0..count {
        sum = sum.checked_add(load_at(numbers, place))?;
    }
    Some(sum)
}

fn weight_in(weights: &[u32], ring: &Ring, node: u32) -> u32
    ensures { result ≡ weight_in weights.now ring.now node }
{
    if ring.is_member(NodeId(node)) {
        number_at(weights, node as usize)
    } else {
        0
    }
}

#[tactic(auto, using(crate::proofs::FirstNumbers::sum_none, crate::proofs::FirstNumbers::sum_more))]
fn all_weights(weights: &[u32], ring: &Ring) -> Option<u64>
    ensures { IfSome result (λ sum. sum ≡ all_weights weights.now ring.now) }
{
    let mut sum = 0u64;
    // A ring has few nodes.
    let count = ring.nodes().len() as u32;
    'nodes: for node in 0..count {
        sum = sum.checked_add(u64::from(weight_in(weights, ring, node)))?;
    }
    Some(sum)
}

fn all_stored(sizes: &[u64], ring: &Ring) -> Option<u64>
    ensures { IfSome result (λ sum. sum ≡ all_stored sizes.now ring.now) }
{
    let one = sum_of(sizes, ring.q() as usize)?;
    u64::from(ring.n()).checked_mul(one)
}

fn is_at_most(one: u64, by: u64, other: u64, times: u32) -> Option<bool>
    ensures { IfSome result (λ is. is ≡ nat_le (one * by) (other * times)) }
{
    let first = u128::from(one).checked_mul(u128::from(by))?;
    let second = u128::from(other).checked_mul(u128::from(times))?;
    Some(first <= second)
}

// The joiners, each node's stored size and weight, and both sums.
#[derive(Clone, Copy)]
struct Shares<'a> {
    joins: &'a [NodeId],
    loads: &'a [u64],
    stored: u64,
    weights: &'a [u32],
    all: u64,
}

impl<'a> Shares<'a> {
    fn take(self, node: u32) -> Result<bool, Refusal>
        ensures { IfOk result (λ is. is ≡ takes self.entry.joins.now self.entry.loads.now self.entry.stored self.entry.weights.now self.entry.all node) }
    {
        let load = load_at(self.loads, node as usize);
        let weight = number_at(self.weights, node as usize);
        match is_at_most(load, self.all, self.stored, weight) {
            Some(is_fair) => Ok(is_among(self.joins, NodeId(node)) && is_fair),
            None => Err(Refusal::NoPlan),
        }
    }

    fn flags(self, alloc: Global, nodes: u32) -> Result<Vec<bool>, Refusal>
        ensures { IfOk result (λ v. v.items
            ≡ flags (takes self.entry.joins.now self.entry.loads.now self.entry.stored self.entry.weights.now self.entry.all) nodes) }
    {
        let mut takers = Vec::new(alloc);
        'nodes: for node in 0..nodes {
            let is_taker = self.take(node)?;
            takers.push(is_taker)?;
        }
        Ok(takers)
    }
}

fn takers_of(
    alloc: Global,
    joins: &[NodeId],
    sizes: &[u64],
    weights: &[u32],
    ring: &Ring,
) -> Result<Vec<bool>, Refusal>
    ensures { IfOk result (λ v. v.items ≡ flags (is_taker joins.now sizes.now weights.now ring.now) (length ring.now.nodes)) }
{
    let loads = loads_of(alloc, sizes, ring.rows(), ring.nodes().len())?;
    let (Some(stored), Some(all)) = (all_stored(sizes, ring), all_weights(weights, ring)) else {
        return Err(Refusal::NoPlan);
    };
    let shares = Shares {
        joins,
        loads: loads.as_slice(),
        stored,
        weights,
        all,
    };
    // A ring has few nodes.
    shares.flags(alloc, ring.nodes().len() as u32)
}

fn leavers_of(alloc: Global, leaves: &[NodeId], ring: &Ring) -> Result<Vec<bool>, Refusal>
    ensures { IfOk result (λ v. v.items ≡ flags (λ x. has x (numbers leaves.now)) (length ring.now.nodes)) }
{
    let mut leavers = Vec::new(alloc);
    let count = ring.nodes().len() as u32;
    'nodes: for node in 0..count {
        leavers.push(is_among(leaves, NodeId(node)))?;
    }
    Ok(leavers)
}

fn may_go(leavers: &[bool], takers: &[bool], size: u64, old: NodeId, new: NodeId) -> bool
    ensures { result ≡ may_go leavers.now takers.now size old new }
{
    old.0 == new.0
        || is_flagged(leavers, old.0 as usize)
        || (size > 0 && is_flagged(takers, new.0 as usize))
}

fn may_row(
    leavers: &[bool],
    takers: &[bool],
    size: u64,
    before: &[NodeId],
    after: &[NodeId],
) -> bool
    ensures { result ≡ may_row leavers.now takers.now size before.now after.now }
{
    let Some((old, others)) = before.split_first() else {
        return after.is_empty();
    };
    let Some((new, more)) = after.split_first() else {
        return false;
    };
    may_go(leavers, takers, size, *old, *new) && may_row(leavers, takers, size, others, more)
}

#[tactic(auto, using(crate::proofs::FirstNumbers::holds_none, crate::proofs::FirstNumbers::holds_more))]
fn may_rows(
    leavers: &[bool],
    takers: &[bool],
    sizes: &[u64],
    before: &[Listed<NodeId>],
    after: &[Listed<NodeId>],
) -> bool
    ensures { IsTrue result → may_rows leavers.now takers.now sizes.now before.now after.now ≡ true }
{
    'rows: for partition in 0..before.len() {
        let size = load_at(sizes, partition);
        let (old, new) = (row_at(before, partition), row_at(after, partition));
        if !may_row(leavers, takers, size, old, new) {
            return false;
        }
    }
    true
}

/// Sizes by partition, and weights by node.
#[derive(Drop)]
pub struct Measures {
    pub sizes: Vec<u64>,
    pub weights: Vec<u32>,
}

/// Whether the wanted ring keeps the promises for a change with sizes.
pub fn are_kept(
    alloc: Global,
    ring: &Ring,
    change: &Change,
    measures: &Measures,
    wanted: &Ring,
) -> Result<bool, Refusal>
    ensures { IfOk result (λ is. IsTrue is
        → IsSized ring.now change.now.joins change.now.leaves measures.now.sizes.items measures.now.weights.items wanted.now) }
{
    let (sizes, weights) = (measures.sizes.as_slice(), measures.weights.as_slice());
    let takers = takers_of(alloc, change.joins.as_slice(), sizes, weights, wanted)?;
    let leavers = leavers_of(alloc, change.leaves.as_slice(), ring)?;
    let (before, after) = (ring.rows(), wanted.rows());
    Ok(may_rows(leavers.as_slice(), takers.as_slice(), sizes, before, after))
}

// Fails with `TooLarge` and the fact's line for an unknown partition.
fn put_size(all: &mut Vec<u64>, entry: &Entry) -> Result<(), Refusal>
    ensures { OnOk result (all.new.items ≡ with_size all.old.items entry.now.fact) }
{
    let Fact::Size { partition, size } = &entry.fact else {
        return Ok(());
    };
    let place = *partition as usize;
    if place < all.len() {
        all[place] = *size;
        return Ok(());
    }
    Err(Refusal::TooLarge(entry.line))
}

fn put_sizes(all: &mut Vec<u64>, entries: &[Entry]) -> Result<(), Refusal>
    ensures { OnOk result (all.new.items ≡ sizes_by all.old.items entries.now) }
{
    let Some((entry, more)) = entries.split_first() else {
        return Ok(());
    };
    put_size(all, entry)?;
    put_sizes(all, more)
}

/// Each partition's size: 1 unless the layout has one.
///
/// Fails with `TooLarge` and the layout's line for an unknown partition.
pub fn sizes_of(alloc: Global, partitions: u32, layout: &Layout) -> Result<Vec<u64>, Refusal>
    ensures { IfOk result (λ all. all.items ≡ sizes_by (replicate partitions 1) layout.now.entries) }
{
    let mut all = vec![in alloc; 1u64; partitions as usize]?;
    put_sizes(&mut all, layout.entries.as_slice())?;
    Ok(all)
}

fn is_size(fact: &Fact) -> bool
    ensures { result ≡ is_size fact.now }
{
    matches!(fact, Fact::Size { .. })
}

/// Whether the layout has a size.
pub fn has_sizes(layout: &Layout) -> bool
    ensures { result ≡ has_sizes layout.now.entries }
{
    layout
        .entries
        .as_slice()
        .iter()
        .any(|entry| is_size(&entry.fact))
}

// Fails with `UnknownNode(0)` for an undeclared name.
fn put_weight(all: &mut Vec<u32>, ring: &Ring, fact: &Fact) -> Result<(), Refusal>
    ensures { OnOk result (all.new.items ≡ with_weight (names_of ring.now) all.old.items fact.now) }
{
    let Fact::Weight { node, parts } = fact else {
        return Ok(());
    };
    let Some(number) = ring.number_of(node.as_slice()) else {
        return Err(Refusal::UnknownNode(0));
    };
    let place = number.0 as usize;
    if place < all.len() {
        all[place] = *parts;
    }
    Ok(())
}

fn put_weights(all: &mut Vec<u32>, ring: &Ring, entries: &[Entry]) -> Result<(), Refusal>
    ensures { OnOk result (all.new.items ≡ weights_by (names_of ring.now) all.old.items entries.now) }
{
    let Some((entry, more)) = entries.split_first() else {
        return Ok(());
    };
    put_weight(all, ring, &entry.fact)?;
    put_weights(all, ring, more)
}

/// Each node's weight: 1 unless the layout has one.
pub fn weights_of(alloc: Global, ring: &Ring, layout: &Layout) -> Result<Vec<u32>, Refusal>
    ensures { IfOk result (λ all. all.items
        ≡ weights_by (names_of ring.now) (replicate (length ring.now.nodes) 1) layout.now.entries) }
{
    let mut all = vec![in alloc; 1u32; ring.nodes().len()]?;
    put_weights(&mut all, ring, layout.entries.as_slice())?;
    Ok(all)
}
