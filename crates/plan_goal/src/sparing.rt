//! Checks that a plan spares dead nodes.

ghost use Rattle.std.specs.Prelude.{◌≡◌, ◌<◌, ◌==◌, true, map, nat_lt, IsTrue, IfOk, IfErr};
ghost use Rattle.std.specs.List.{list_all, list_any};
ghost use Rattle.ring_names.specs.Lists.{has};
ghost use Rattle.ring_names.specs.declared.refusal.Refusal.TheVariants.{OutOfMemory};
ghost use Rattle.plan_text.specs.Changes.{numbers};
ghost use Rattle.plan_text.specs.Valid.{Suits, source_suits, step_suits};
ghost use Rattle.plan_stage.specs.Parties.{source_slots};
ghost use Rattle.plan_cover.specs.Looking.Serving.{serving_at};
ghost use Rattle.plan_goal.specs.Reached.{is_spared, are_spared, touched, spares};

use crate::dead::Dead;
use plan_cover::Present;
use plan_text::{Plan, Source, Step};
use ring_names::{NodeId, Refusal, Slot};
use ring_table::Ring;
use std::alloc::Global;

fn is_number_of(nodes: &[NodeId], number: u32) -> bool
    ensures { result ≡ list_any (λ x. number == x.0) nodes.now }
{
    nodes.iter().any(|x| number == x.0)
}

/// Whether `nodes` has the node.
pub fn is_among(nodes: &[NodeId], node: NodeId) -> bool
    ensures { result ≡ has node.0 (numbers nodes.now) }
{
    is_number_of(nodes, node.0)
}

/// Whether the node is not dead.
pub fn is_spared(dead: &Dead, node: NodeId) -> bool
    ensures { result ≡ is_spared dead.now.nodes.now node }
{
    !dead.has(node)
}

fn are_owners_spared(
    dead: &Dead,
    ring: &Ring,
    present: &Present,
    partition: u32,
    from: &[u8],
) -> bool
    requires partition { partition < ring.now.q }
    requires indexes { list_all (λ i. nat_lt i ring.now.n) from.now ≡ true }
    ensures { result ≡ are_spared dead.now.nodes.now (map (λ s. (serving_at ring.now present.now s).owner)
        (map (λ i. record { partition = partition; index = i }) from.now)) }
{
    let Some((index, others)) = from.split_first() else {
        return true;
    };
    let slot = Slot {
        partition,
        index: u32::from(*index),
    };
    is_spared(dead, present.at(ring, slot).owner)
        && are_owners_spared(dead, ring, present, partition, others)
}

/// Whether a copy reads from no dead node.
pub fn is_copy_spared(
    dead: &Dead,
    ring: &Ring,
    present: &Present,
    slot: Slot,
    source: &Source,
) -> bool
    requires partition { slot.partition < ring.now.q }
    requires index { slot.index < ring.now.n }
    requires suits { source_suits ring.now source.now ≡ true }
    ensures { result ≡ are_spared dead.now.nodes.now (map (λ s. (serving_at ring.now present.now s).owner) (source_slots slot source.now)) }
{
    match source {
        Source::Owner => is_spared(dead, present.at(ring, slot).owner),
        Source::Slots(from) => {
            are_owners_spared(dead, ring, present, slot.partition, from.as_slice())
        }
    }
}

fn is_step_spared(dead: &Dead, ring: &Ring, present: &Present, step: &Step) -> bool
    requires { step_suits ring.now step.now ≡ true }
    ensures { result ≡ are_spared dead.now.nodes.now (touched (serving_at ring.now present.now) step.now) }
{
    match step {
        Step::Switch(_) => true,
        Step::Join(node) | Step::Mirror(_, node) | Step::Drop(_, node) | Step::Retire(node) =>
            is_spared(dead, *node),
        Step::Copy(slot, source) => is_copy_spared(dead, ring, present, *slot, source),
    }
}

/// Whether no step joins, retires, mirrors to, drops at or reads a dead node. Costs a pass over the plan.
pub fn spares(alloc: Global, ring: &Ring, plan: &Plan, dead: &[NodeId]) -> Result<bool, Refusal>
    requires { Suits ring.now plan.now }
    ensures ok { IfOk result (λ b. IsTrue b → spares ring.now plan.now dead.now ≡ true) }
    ensures memory { IfErr result (λ e. e ≡ OutOfMemory) }
{
    let flagged = Dead::of(dead);
    let mut present = Present::new(alloc, ring)?;
    for number in 0..plan.len() {
        let step = plan.step(number);
        if !is_step_spared(&flagged, ring, &present, step) {
            return Ok(false);
        }
        present.act(ring, step);
    }
    Ok(true)
}
