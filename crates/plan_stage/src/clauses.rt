//! A step's clauses.

ghost use Rattle.std.specs.Prelude.{◌≡◌, ◌<◌, ◌||◌, ◌&&◌, ◌==◌, not, true, length, slice_get, option_map, Some, nat_lt};
ghost use Rattle.std.specs.Prelude.{nat_le, EachIndex, slice_index, reverse};
ghost use Rattle.std.specs.List.{list_all, list_any};
ghost use Rattle.ring_names.specs.Lists.{all_different};
ghost use Rattle.plan_text.specs.declared.step.Step.TheVariants.{Copy};
ghost use Rattle.plan_order.specs.Order.{order};
ghost use Rattle.plan_stage.specs.Clauses.{Gives};
ghost use Rattle.plan_stage.specs.Partition.{ends_before, is_settled, has_left, has_dropped, mirror_clauses};
ghost use Rattle.plan_stage.specs.Partition.{copy_clauses, step_clauses};
ghost use Rattle.plan_stage.specs.Each.{each_step, each_below, is_switch_of, sibling};
ghost use Rattle.plan_stage.specs.Looking.Held.{AreHeld, held_among};
ghost use Rattle.plan_stage.specs.Looking.Looked.{clauses_at};
ghost use Rattle.plan_stage.specs.Looking.Asked.{switches, is_settling, begins_before, are_left, is_left_before};
ghost use Rattle.plan_stage.specs.Looking.Asked.{has_left_held, has_left_at, is_dropped_before, has_dropped_at};

use crate::held::{Found, Held};
use crate::holding::{Holding, Holdings};
use crate::joined::has_joined_by;
use plan_order::Context;
use plan_text::{Plan, Source, Step};
use ring_names::{NodeId, Refusal, Slot};

fn is_among(number: u8, numbers: &[u8]) -> bool
    ensures { result ≡ list_any (λ x. number == x) numbers.now }
{
    numbers.iter().any(|other| number == *other)
}

#[tactic(auto, using(crate::proofs::Slots::any_has))]
fn are_different(numbers: &[u8]) -> bool
    ensures { result ≡ all_different numbers.now }
{
    let Some((first, others)) = numbers.split_first() else {
        return true;
    };
    let new = !is_among(*first, others);
    let different = are_different(others);
    new && different
}

fn ends_before(context: &Context, end: Option<u32>, number: u32) -> bool
    ensures { result ≡ ends_before (order context.now) end number }
{
    match end {
        Some(end) => context.ordered(end, number),
        None => false,
    }
}

fn switches(plan: &Plan, number: u32) -> bool
    ensures { result ≡ switches plan.now number }
{
    number < plan.len() && matches!(plan.step(number), Step::Switch(_))
}

// Whether the two steps are ordered, or the other is not a switch.
fn settles(context: &Context, number: u32, other: u32) -> bool
    ensures { result ≡ is_settling context.now.plan.now (order context.now) number other }
{
    !switches(context.plan, other)
        || context.ordered(other, number)
        || context.ordered(number, other)
}

fn are_settled(context: &Context, number: u32, others: &[u32]) -> bool
    ensures { result ≡ list_all (is_settling context.now.plan.now (order context.now) number) others.now }
{
    others.iter().all(|other| settles(context, number, *other))
}

fn is_settled_slot(context: &Context, number: u32, slot: Slot) -> bool
    ensures { result ≡ each_step (λ m s. not (is_switch_of slot s) ||
        (order context.now m number || order context.now number m)) 0 context.now.plan.now }
{
    are_settled(context, number, context.plan.slot_steps(slot))
}

fn is_settled_at(context: &Context, number: u32, partition: u32, index: u8) -> bool
    ensures { result ≡ each_step (λ m s. not (is_switch_of (record { partition = partition; index = index }) s) ||
        (order context.now m number || order context.now number m)) 0 context.now.plan.now }
{
    let index = u32::from(index);
    is_settled_slot(context, number, Slot { partition, index })
}

fn is_settled(context: &Context, number: u32, slot: Slot, from: &[u8]) -> bool
    ensures { result ≡ is_settled context.now.plan.now (order context.now) number slot from.now }
{
    from.iter().all(|index| is_settled_at(context, number, slot.partition, *index))
}

fn begins_before(holding: &Holding, number: u32) -> bool
    ensures { result ≡ begins_before number holding.now }
{
    match holding.begin {
        Some(begin) => begin < number,
        None => true,
    }
}

// Whether the holdings that begin before the step have ended. Goes backward, up to the first that begins later.
fn are_left(context: &Context, number: u32, held: &[Holding]) -> bool
    ensures { result ≡ are_left (order context.now) number (reverse held.now) }
{
    held.iter()
        .rev()
        .take_while(|holding| begins_before(holding, number))
        .all(|holding| ends_before(context, holding.end, number))
}

fn are_first_left(context: &Context, number: u32, node: NodeId, found: &[Found]) -> bool
    ensures { result ≡ list_all (is_left_before (order context.now) number) (held_among found.now node) }
{
    found
        .iter()
        .filter(|one| one.node.0 == node.0)
        .map(|one| one.holding)
        .all(|holding| {
            !begins_before(&holding, number) || ends_before(context, holding.end, number)
        })
}

fn has_left_held(context: &Context, number: u32, node: NodeId, held: &Held) -> bool
    ensures { result ≡ has_left_held (order context.now) number node held.now }
{
    are_first_left(context, number, node, held.first())
        && are_left(context, number, held.others(node))
}

impl Holdings {
    // Whether a node that served the slot has left it.
    fn has_left_at(&self, context: &Context, number: u32, node: NodeId, index: u32) -> bool
        ensures { result ≡ has_left_at (order context.now) number self.now index node }
    {
        match self.slot(index) {
            Some(held) => has_left_held(context, number, node, held),
            None => true,
        }
    }
}

fn are_dropped(context: &Context, number: u32, held: &[Holding]) -> bool
    ensures { result ≡ list_all (is_dropped_before (order context.now) number) held.now }
{
    held.iter()
        .all(|holding| ends_before(context, holding.drop, number))
}

// Whether the node's holdings are dropped before the step.
fn are_first_dropped(context: &Context, number: u32, node: NodeId, found: &[Found]) -> bool
    ensures { result ≡ list_all (is_dropped_before (order context.now) number) (held_among found.now node) }
{
    found
        .iter()
        .filter(|one| one.node.0 == node.0)
        .map(|one| one.holding)
        .all(|holding| ends_before(context, holding.drop, number))
}

fn is_dropped_at(
    context: &Context,
    holdings: &Holdings,
    number: u32,
    node: NodeId,
    index: u32,
) -> bool
    ensures { result ≡ has_dropped_at (order context.now) number holdings.now index node }
{
    match holdings.slot(index) {
        Some(held) => {
            are_first_dropped(context, number, node, held.first())
                && are_dropped(context, number, held.others(node))
        }
        None => true,
    }
}

// Whether a node that served the partition's other slots has left them.
fn has_left(context: &Context, holdings: &Holdings, number: u32, slot: Slot, node: NodeId) -> bool
    requires { AreHeld context.now.ring.now context.now.plan.now slot.partition holdings.now }
    ensures { result ≡ has_left context.now.ring.now context.now.plan.now (order context.now) number slot node }
{
    for index in 0..context.ring.n() {
        if index != slot.index && !holdings.has_left_at(context, number, node, index) {
            return false;
        }
    }
    true
}

fn has_dropped(
    context: &Context,
    holdings: &Holdings,
    partition: u32,
    number: u32,
    node: NodeId,
) -> bool
    requires { AreHeld context.now.ring.now context.now.plan.now partition holdings.now }
    ensures { result ≡ has_dropped context.now.ring.now context.now.plan.now (order context.now) partition number node }
{
    for index in 0..context.ring.n() {
        if !is_dropped_at(context, holdings, number, node, index) {
            return false;
        }
    }
    true
}

fn check_mirror(
    context: &Context,
    holdings: &Holdings,
    number: u32,
    slot: Slot,
    node: NodeId,
) -> Result<(), Refusal>
    requires { AreHeld context.now.ring.now context.now.plan.now slot.partition holdings.now }
    ensures { Gives result
        (mirror_clauses context.now.ring.now context.now.plan.now (order context.now) number slot node) }
{
    if !has_left(context, holdings, number, slot, node) {
        return Err(Refusal::SharedInPlan(number));
    }
    if !has_joined_by(context, number, node) {
        return Err(Refusal::NotJoined(number));
    }
    Ok(())
}

fn check_listed(context: &Context, number: u32, slot: Slot, from: &[u8]) -> Result<(), Refusal>
    ensures { Gives result
        (copy_clauses context.now.ring.now context.now.plan.now (order context.now) number slot from.now) }
{
    if !are_different(from) || from.len() < context.ring.r() as usize {
        return Err(Refusal::BadSource(number));
    }
    if !is_settled(context, number, slot, from) {
        return Err(Refusal::MovingSource(number));
    }
    Ok(())
}

fn check_copy(context: &Context, number: u32, slot: Slot, source: &Source) -> Result<(), Refusal>
    ensures { Gives result (step_clauses context.now.ring.now context.now.plan.now
        (order context.now) slot.partition number (Copy slot source.now)) }
{
    match source {
        Source::Owner => Ok(()),
        Source::Slots(from) => check_listed(context, number, slot, from.as_slice()),
    }
}

/// Checks the step's clauses in the partition.
pub fn check_step(
    context: &Context,
    holdings: &Holdings,
    partition: u32,
    number: u32,
) -> Result<(), Refusal>
    requires number { number < length context.now.plan.now }
    requires held { AreHeld context.now.ring.now context.now.plan.now partition holdings.now }
    ensures { Gives result (clauses_at (step_clauses context.now.ring.now context.now.plan.now
        (order context.now) partition) context.now.plan.now number) }
{
    match context.plan.step(number) {
        Step::Mirror(slot, node) if slot.partition == partition => {
            check_mirror(context, holdings, number, *slot, *node)
        }
        Step::Copy(slot, source) if slot.partition == partition => {
            check_copy(context, number, *slot, source)
        }
        Step::Retire(node) => {
            if has_dropped(context, holdings, partition, number, *node) {
                Ok(())
            } else {
                Err(Refusal::RetiredInUse(number))
            }
        }
        _ => Ok(()),
    }
}
