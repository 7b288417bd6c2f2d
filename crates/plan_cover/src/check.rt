//! Checks each node.

ghost use Rattle.std.specs.Prelude.{◌≡◌, ◌<◌, ℕ, length};
ghost use Rattle.ring_names.specs.Lists.{has};
ghost use Rattle.ring_table.specs.declared.allowance.Side.{Side as TheSide};
ghost use Rattle.plan_text.specs.Steps.{retirement_of};
ghost use Rattle.plan_text.specs.Valid.{Suits};
ghost use Rattle.plan_order.specs.Facts.{is_ordered, AreFactsOf};
ghost use Rattle.plan_order.specs.Order.{order};
ghost use Rattle.plan_stage.specs.Clauses.{Gives, below};
ghost use Rattle.plan_cover.specs.Clauses.{each_side, node_clauses};
ghost use Rattle.plan_cover.specs.Looking.Places.{is_marked, place_count, HasPlaces};
ghost use Rattle.plan_cover.specs.Looking.Numbers.{sides_kept, AreWithin, IsCover};
ghost use Rattle.plan_cover.specs.Looking.Guards.{retirement_guards, chains_at, side_guards, count_guards};

use crate::by_place::{ByPlace, place_at};
use crate::cover::Cover;
use crate::covered::{check_copies, is_side};
use crate::linked::{check_chains, side_at};
use crate::marks::Marks;
use plan_cert::{Cert, Chains};
use plan_order::{Context, Facts};
use plan_stage::has_joined_by;
use plan_text::Plan;
use ring_names::{NodeId, Refusal};
use ring_table::{NodeSide, Ring, Side};
use std::alloc::Global;

/// Tests one node's clauses. Fails with the first refusal. Costs a pass over plan and chains.
pub fn check_node(
    alloc: Global,
    ring: &Ring,
    plan: &Plan,
    facts: &Facts,
    cert: &Cert,
    node: NodeId,
) -> Result<(), Refusal>
    requires node { node.0 < length ring.now.nodes }
    requires suits { Suits ring.now plan.now }
    requires facts { AreFactsOf plan.now facts.now }
    ensures { Gives result (node_clauses ring.now plan.now cert.now (is_ordered plan.now facts.now) node) }
{
    let cover = Cover::of(alloc, ring, plan, cert)?;
    let mut marks = Marks::new(alloc, plan.len())?;
    check_with(
        &mut marks,
        &cover,
        &Context { ring, plan, facts },
        cert,
        node,
    )
}

/// Tests each node's clauses, by number. Fails with the first refusal.
///
/// Costs a pass over plan and chains, and one over each node's copies and chains.
pub fn check_nodes(
    alloc: Global,
    ring: &Ring,
    plan: &Plan,
    facts: &Facts,
    cert: &Cert,
) -> Result<(), Refusal>
    requires suits { Suits ring.now plan.now }
    requires facts { AreFactsOf plan.now facts.now }
    ensures { Gives result (below (λ x. node_clauses ring.now plan.now cert.now (is_ordered plan.now facts.now)
        (record { 0 = x })) (length ring.now.nodes)) }
{
    let cover = Cover::of(alloc, ring, plan, cert)?;
    let mut marks = Marks::new(alloc, plan.len())?;
    let context = Context { ring, plan, facts };
    for x in 0..ring.nodes().len() as u32 {
        check_with(&mut marks, &cover, &context, cert, NodeId(x))?;
    }
    Ok(())
}

fn check_with(
    marks: &mut Marks,
    cover: &Cover,
    context: &Context,
    cert: &Cert,
    node: NodeId,
) -> Result<(), Refusal>
    requires node { node.0 < length context.now.ring.now.nodes }
    requires cover { IsCover context.now.ring.now context.now.plan.now cert.now cover.now }
    requires places { HasPlaces (length context.now.plan.now) marks.old }
    ensures first { Gives result (node_clauses context.now.ring.now context.now.plan.now cert.now (order context.now) node) }
    ensures places { HasPlaces (length context.now.plan.now) marks.new }
{
    let numbers = cover.chains.items(node.0 as usize);
    mark_copies(marks, &cover.copies, node);
    check_retirement(context, node)?;
    check_chains(context, marks, &cert.chains, numbers, node)?;
    check_covers(marks, &cover.copies, &cert.chains, numbers, node)?;
    check_counts(context.ring, &cert.chains, numbers, node)
}

fn mark_copies(marks: &mut Marks, copies: &ByPlace<u32>, node: NodeId)
    requires { AreWithin marks.old copies.now node }
    ensures marked { (s : TheSide) (n : ℕ) → is_marked marks.new s n ≡ has n (sides_kept copies.now node s) }
    ensures places { place_count marks.new ≡ place_count marks.old }
{
    marks.begin();
    let side = Side::Both;
    marks.mark_all(side, copies.items(place_at(node.0, side)));
    let side = Side::Take;
    marks.mark_all(side, copies.items(place_at(node.0, side)));
    let side = Side::Give;
    marks.mark_all(side, copies.items(place_at(node.0, side)));
}

fn check_covers(
    marks: &mut Marks,
    copies: &ByPlace<u32>,
    chains: &Chains,
    numbers: &[usize],
    node: NodeId,
) -> Result<(), Refusal>
    requires { AreWithin marks.old copies.now node }
    ensures first { Gives result (each_side (side_guards copies.now chains.now numbers.now node)) }
    ensures places { place_count marks.new ≡ place_count marks.old }
{
    let side = Side::Both;
    check_copies(marks, copies, chains, numbers, NodeSide { node, side })?;
    let side = Side::Take;
    check_copies(marks, copies, chains, numbers, NodeSide { node, side })?;
    let side = Side::Give;
    check_copies(marks, copies, chains, numbers, NodeSide { node, side })
}

fn count_of(chains: &Chains, side: Side, numbers: &[usize]) -> usize
    ensures { result ≡ length (chains_at chains.now side numbers.now) }
{
    numbers
        .iter()
        .filter(|number| is_side(side, side_at(chains, **number)))
        .count()
}

fn check_counts(
    ring: &Ring,
    chains: &Chains,
    numbers: &[usize],
    node: NodeId,
) -> Result<(), Refusal>
    ensures { Gives result (each_side (count_guards ring.now chains.now numbers.now node)) }
{
    check_count(ring, chains, numbers, node, Side::Both)?;
    check_count(ring, chains, numbers, node, Side::Take)?;
    check_count(ring, chains, numbers, node, Side::Give)
}

fn check_retirement(context: &Context, node: NodeId) -> Result<(), Refusal>
    ensures { Gives result (retirement_guards context.now.ring.now context.now.plan.now (order context.now) node
        (retirement_of context.now.plan.now node.0)) }
{
    if let Some(step) = context.plan.retirement_of(node) {
        if !has_joined_by(context, step, node) {
            return Err(Refusal::NotJoined(step));
        }
    }
    Ok(())
}

fn check_count(
    ring: &Ring,
    chains: &Chains,
    numbers: &[usize],
    node: NodeId,
    side: Side,
) -> Result<(), Refusal>
    ensures { Gives result (count_guards ring.now chains.now numbers.now node side) }
{
    if let Some(most) = ring.allowance(NodeSide { node, side }) {
        if count_of(chains, side, numbers) > most as usize {
            return Err(Refusal::TooManyChains(node.0));
        }
    }
    Ok(())
}
