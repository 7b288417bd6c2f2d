//! Checks a partition's clauses. Returns a slot's stage.

ghost use Rattle.std.specs.Prelude.{◌≡◌, ◌<◌, IfOk, IfErr, true, length, nat_lt, slice_index, EachIndex};
ghost use Rattle.std.specs.List.{list_all};
ghost use Rattle.ring_names.specs.declared.refusal.Refusal.TheVariants.{OutOfMemory};
ghost use Rattle.plan_text.specs.Valid.{Suits};
ghost use Rattle.plan_order.specs.Facts.{AreFactsOf, is_ordered};
ghost use Rattle.plan_order.specs.Order.{order};
ghost use Rattle.plan_stage.specs.Stage.{stage};
ghost use Rattle.plan_stage.specs.Clauses.{Gives, below, IsStagedIn};
ghost use Rattle.plan_stage.specs.Partition.{met_clauses, slot_clauses, step_clauses, steps_clauses, partition_clauses};
ghost use Rattle.plan_stage.specs.Looking.Looked.{clauses_of};
ghost use Rattle.plan_stage.specs.Looking.Held.{AreHeld};
ghost use Rattle.plan_stage.specs.Looking.Walk.{stage_of};

use crate::clauses::check_step;
use crate::concerned::concerned;
use crate::holding::Holdings;
use crate::stage::Stage;
use crate::walk::Walk;
use plan_order::{Context, Facts};
use plan_text::Plan;
use ring_names::{Refusal, Slot};
use ring_table::Ring;
use std::alloc::Global;

/// Checks a partition's clauses.
///
/// First checks slots by index, each slot's steps by number, then the plan's steps by number.
///
/// Reads only the partition's steps, and retirements of nodes that hold its slots.
pub fn check_partition(
    alloc: Global,
    ring: &Ring,
    plan: &Plan,
    facts: &Facts,
    partition: u32,
) -> Result<(), Refusal>
    requires partition { partition < ring.now.q }
    requires suits { Suits ring.now plan.now }
    requires facts { AreFactsOf plan.now facts.now }
    ensures { Gives result (partition_clauses ring.now plan.now (is_ordered plan.now facts.now) partition) }
{
    check_in(alloc, &Context { ring, plan, facts }, partition)
}

fn check_in(alloc: Global, context: &Context, partition: u32) -> Result<(), Refusal>
    requires { partition < context.now.ring.now.q }
    ensures { Gives result (partition_clauses context.now.ring.now context.now.plan.now (order context.now) partition) }
{
    check_slots(alloc, context, partition)?;
    check_steps(alloc, context, partition)
}

pub(crate) fn check_slots(alloc: Global, context: &Context, partition: u32) -> Result<(), Refusal>
    requires partition { partition < context.now.ring.now.q }
    ensures { Gives result (below (λ i. slot_clauses context.now.ring.now context.now.plan.now (order context.now)
        (record { partition = partition; index = i })) context.now.ring.now.n) }
{
    for index in 0..context.ring.n() {
        check_slot(alloc, context, Slot { partition, index })?;
    }
    Ok(())
}

fn check_slot(alloc: Global, context: &Context, slot: Slot) -> Result<(), Refusal>
    requires partition { slot.partition < context.now.ring.now.q }
    requires index { slot.index < context.now.ring.now.n }
    ensures { Gives result (slot_clauses context.now.ring.now context.now.plan.now (order context.now) slot) }
{
    let mut walk = Walk::new(alloc, context.ring, slot);
    let numbers = context.plan.slot_steps(slot);
    for k in 0..numbers.len() {
        check_place(&walk, context, numbers, k)?;
        walk.act(context.plan.step(numbers[k]))?;
    }
    Ok(())
}

// Checks the slot's k-th step before it acts.
fn check_place(walk: &Walk, context: &Context, numbers: &[u32], k: usize) -> Result<(), Refusal>
    requires k { k < length numbers.now }
    requires within { EachIndex numbers.now (λ i. slice_index numbers.now i < length context.now.plan.now) }
    ensures { Gives result (met_clauses context.now.plan.now (order context.now) (stage_of walk.now) numbers.now k) }
{
    let number = numbers[k];
    if !walk.fits(context.plan.step(number)) {
        return Err(Refusal::WrongStage(number));
    }
    if k > 0 && !context.ordered(numbers[k - 1], number) {
        return Err(Refusal::UnorderedSlot(number));
    }
    Ok(())
}

fn check_steps(alloc: Global, context: &Context, partition: u32) -> Result<(), Refusal>
    requires partition { partition < context.now.ring.now.q }
    requires staged { IsStagedIn context.now.ring.now context.now.plan.now partition }
    ensures { Gives result (steps_clauses
        (step_clauses context.now.ring.now context.now.plan.now (order context.now) partition) 0 context.now.plan.now) }
{
    let holdings = Holdings::of(alloc, context.ring, context.plan, partition)?;
    let numbers = concerned(alloc, context.ring, context.plan, partition)?;
    check_numbers(context, &holdings, partition, numbers.as_slice())
}

fn check_numbers(
    context: &Context,
    holdings: &Holdings,
    partition: u32,
    numbers: &[u32],
) -> Result<(), Refusal>
    requires within { list_all (λ n. nat_lt n (length context.now.plan.now)) numbers.now ≡ true }
    requires held { AreHeld context.now.ring.now context.now.plan.now partition holdings.now }
    ensures { Gives result (clauses_of (step_clauses context.now.ring.now context.now.plan.now
        (order context.now) partition) context.now.plan.now numbers.now) }
{
    let mut rest = numbers;
    'numbers: while let Some((number, later)) = rest.split_first() {
        check_step(context, holdings, partition, *number)?;
        rest = later;
    }
    Ok(())
}

/// Returns a slot's stage after its first `k` steps, or all if fewer.
pub fn stage_at(
    alloc: Global,
    ring: &Ring,
    plan: &Plan,
    slot: Slot,
    k: u32,
) -> Result<Stage, Refusal>
    requires partition { slot.partition < ring.now.q }
    requires index { slot.index < ring.now.n }
    ensures ok { IfOk result (λ a. a ≡ stage ring.now plan.now slot k) }
    ensures memory { IfErr result (λ e. e ≡ OutOfMemory) }
{
    let mut walk = Walk::new(alloc, ring, slot);
    let numbers = plan.slot_steps(slot);
    let end = (k as usize).min(numbers.len());
    for i in 0..end {
        walk.act(plan.step(numbers[i]))?;
    }
    walk.into_stage(alloc)
}
