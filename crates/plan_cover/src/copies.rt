//! Lists each node's copies by side.

ghost use Rattle.std.specs.Prelude.{◌≡◌, ◌&&◌, IfErr, OnOk};
ghost use Rattle.ring_names.specs.declared.refusal.Refusal.TheVariants.{OutOfMemory};
ghost use Rattle.ring_table.specs.declared.allowance.NodeSide.{NodeSide as TheSide};
ghost use Rattle.ring_table.specs.declared.allowance.Side.{Side as OneSide};
ghost use Rattle.ring_table.specs.Value.{is_side};
ghost use Rattle.plan_stage.specs.Occupancy.{is_node};
ghost use Rattle.plan_cover.specs.Clauses.{has_side};
ghost use Rattle.plan_cover.specs.Looking.Numbers.{copies_kept, is_last, with_last_if};
ghost use Rattle.plan_cover.specs.Looking.Serving.{counts, is_some_side, counts_at};

use crate::by_place::{ByPlace, place_at};
use ring_names::{NodeId, Refusal};
use ring_table::{NodeSide, Ring, Side};

/// Adds a copy to the node's side that counts `part`, unless just added.
#[inline(always)]
pub fn add_copy(
    copies: &mut ByPlace<u32>,
    ring: &Ring,
    node: NodeId,
    part: Side,
    number: u32,
) -> Result<(), Refusal>
    ensures ok { OnOk result ((y : TheSide) → copies_kept copies.new y
        ≡ with_last_if (counts_at ring.now part y && is_node y.node node) number (copies_kept copies.old y)) }
    ensures memory { IfErr result (λ e. e ≡ OutOfMemory) }
{
    match side_of(ring, node, part) {
        Some(side) => add_at(copies, NodeSide { node, side }, number),
        None => Ok(()),
    }
}

// The node's side that counts `part`, if any.
fn side_of(ring: &Ring, node: NodeId, part: Side) -> Option<Side>
    ensures { (s : OneSide) → (has_side ring.now node s && counts s part) ≡ is_some_side result s }
{
    let Some(declared) = ring.nodes().get(node.0 as usize) else {
        return None;
    };
    if declared.allowance.most(part).is_some() {
        return Some(part);
    }
    if declared.allowance.most(Side::Both).is_some() {
        return Some(Side::Both);
    }
    None
}

// Adds a copy to the node's side, unless it is the last already.
#[tactic(auto, using(crate::proofs::Placed::place_same))]
fn add_at(copies: &mut ByPlace<u32>, of: NodeSide, number: u32) -> Result<(), Refusal>
    ensures ok { OnOk result ((y : TheSide) → copies_kept copies.new y
        ≡ with_last_if (is_node y.node of.node && is_side y.side of.side) number (copies_kept copies.old y)) }
    ensures memory { IfErr result (λ e. e ≡ OutOfMemory) }
{
    let place = place_at(of.node.0, of.side);
    if is_last(copies.items(place), number) {
        return Ok(());
    }
    copies.add(place, number)
}

fn is_last(list: &[u32], number: u32) -> bool
    ensures { result ≡ is_last number list.now }
{
    match list.last() {
        Some(last) => *last == number,
        None => false,
    }
}
