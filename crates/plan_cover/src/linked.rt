//! Whether a node's chains are in order.

ghost use Rattle.std.specs.Prelude.{◌≡◌, map, min};
ghost use Rattle.plan_order.specs.Order.{order};
ghost use Rattle.plan_stage.specs.Clauses.{Gives};
ghost use Rattle.plan_cover.specs.Clauses.{is_linked};
ghost use Rattle.plan_cover.specs.Looking.Guards.{leads_on, side_at, chain_guard};
ghost use Rattle.plan_cover.specs.Looking.Places.{is_marked};

use crate::marks::Marks;
use plan_cert::Chains;
use plan_order::Context;
use ring_names::{NodeId, Refusal};
use ring_table::{NodeSide, Side};

/// Tests the node's chains, given by number. Each must be on a side of the node.
///
/// Each step must be marked on that side, and come before the next.
pub fn check_chains(
    context: &Context,
    marks: &Marks,
    chains: &Chains,
    numbers: &[usize],
    node: NodeId,
) -> Result<(), Refusal>
    ensures { Gives result (map (chain_guard context.now.ring.now node (is_marked marks.now)
        (order context.now) chains.now) numbers.now) }
{
    let mut rest = numbers;
    'chains: while let Some((first, later)) = rest.split_first() {
        if !is_good_at(context, marks, chains, *first, node) {
            return Err(Refusal::ChainBroken(number_of(*first)));
        }
        rest = later;
    }
    Ok(())
}

// A chain's number for a refusal, at most the greatest `u32`.
fn number_of(place: usize) -> u32
    ensures { result ≡ min place 4294967295 }
{
    place.min(4294967295) as u32
}

// Returns the side of chain `number`.
pub fn side_at(chains: &Chains, number: usize) -> Side
    ensures { result ≡ side_at chains.now number }
{
    if number < chains.len() {
        chains.of(number).side
    } else {
        Side::Both
    }
}

fn is_good_at(
    context: &Context,
    marks: &Marks,
    chains: &Chains,
    number: usize,
    node: NodeId,
) -> bool
    ensures { result ≡ (chain_guard context.now.ring.now node (is_marked marks.now)
        (order context.now) chains.now number).0 }
{
    let side = side_at(chains, number);
    context.ring.allowance(NodeSide { node, side }).is_some()
        && (number >= chains.len() || is_linked(context, marks, side, chains.steps(number)))
}

fn is_linked(context: &Context, marks: &Marks, side: Side, steps: &[u32]) -> bool
    ensures { result ≡ is_linked (is_marked marks.now side) (order context.now) steps.now }
{
    let mut rest = steps;
    'links: while let Some((first, later)) = rest.split_first() {
        if !marks.has(side, *first) || !leads_on(context, *first, later) {
            return false;
        }
        rest = later;
    }
    true
}

fn leads_on(context: &Context, step: u32, later: &[u32]) -> bool
    ensures { result ≡ leads_on (order context.now) step later.now }
{
    match later.first() {
        Some(next) => context.ordered(step, *next),
        None => true,
    }
}
