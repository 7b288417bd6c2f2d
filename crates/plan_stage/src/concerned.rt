//! Finds a partition's steps.

ghost use Rattle.std.specs.Prelude.{◌≡◌, ℕ, ◌<◌, IfOk, IfErr, OnOk, length, true};
ghost use Rattle.ring_names.specs.Lists.{has};
ghost use Rattle.ring_names.specs.declared.refusal.Refusal.TheVariants.{OutOfMemory};
ghost use Rattle.plan_text.specs.Valid.{Suits};
ghost use Rattle.texts.specs.Numbers.{ascending};
ghost use Rattle.plan_stage.specs.Looking.Concerned.{AreConcerned};
ghost use Rattle.plan_stage.specs.Looking.Gathered.{Grows, HasRetirement, HasStep, HasSlot, IsGathered};

use plan_text::{Plan, Step};
use ring_names::{NodeId, Refusal, Slot};
use ring_table::Ring;
use std::alloc::Global;

/// Returns the steps to check for a partition, ascending. Costs a sort.
pub fn concerned(
    alloc: Global,
    ring: &Ring,
    plan: &Plan,
    partition: u32,
) -> Result<Vec<u32>, Refusal>
    requires partition { partition < ring.now.q }
    requires suits { Suits ring.now plan.now }
    ensures ok { IfOk result (λ list. AreConcerned ring.now plan.now partition list.items) }
    ensures memory { IfErr result (λ e. e ≡ OutOfMemory) }
{
    let mut numbers = gather(alloc, ring, plan, partition)?;
    put_in_order(&mut numbers);
    Ok(numbers)
}

/// Sorts the numbers, without duplicates.
pub fn put_in_order(numbers: &mut Vec<u32>)
    ensures ascending { ascending numbers.new.items ≡ true }
    ensures same { (n : ℕ) → has n numbers.new.items ≡ has n numbers.old.items }
{
    numbers.sort_unstable();
    numbers.dedup();
}

fn gather(alloc: Global, ring: &Ring, plan: &Plan, partition: u32) -> Result<Vec<u32>, Refusal>
    requires { partition < ring.now.q }
    ensures ok { IfOk result (λ numbers. IsGathered ring.now plan.now partition numbers.items) }
    ensures memory { IfErr result (λ e. e ≡ OutOfMemory) }
{
    let mut numbers = Vec::new(alloc);
    'slots: for index in 0..ring.n() {
        add_slot(&mut numbers, ring, plan, Slot { partition, index })?;
    }
    Ok(numbers)
}

// Adds the slot's mirrors and copies, and retirements of its first owner and mirrored nodes.
fn add_slot(numbers: &mut Vec<u32>, ring: &Ring, plan: &Plan, slot: Slot) -> Result<(), Refusal>
    requires partition { slot.partition < ring.now.q }
    requires index { slot.index < ring.now.n }
    ensures grows { OnOk result (Grows plan.now numbers.old.items numbers.new.items) }
    ensures slot { OnOk result (HasSlot ring.now plan.now slot numbers.new.items) }
    ensures memory { IfErr result (λ e. e ≡ OutOfMemory) }
{
    add_retirement(numbers, plan, ring.owner(slot))?;
    let mut rest = plan.slot_steps(slot);
    'steps: while let Some((number, later)) = rest.split_first() {
        add_step(numbers, plan, *number)?;
        rest = later;
    }
    Ok(())
}

// Adds a mirror or a copy, and a mirrored node's retirement.
fn add_step(numbers: &mut Vec<u32>, plan: &Plan, number: u32) -> Result<(), Refusal>
    requires { number < length plan.now }
    ensures grows { OnOk result (Grows plan.now numbers.old.items numbers.new.items) }
    ensures step { OnOk result (HasStep plan.now number numbers.new.items) }
    ensures memory { IfErr result (λ e. e ≡ OutOfMemory) }
{
    match plan.step(number) {
        Step::Mirror(_, node) => {
            add_number(numbers, plan, number)?;
            add_retirement(numbers, plan, *node)
        }
        Step::Copy(_, _) => add_number(numbers, plan, number),
        Step::Join(_) | Step::Switch(_) | Step::Drop(_, _) | Step::Retire(_) => Ok(()),
    }
}

fn add_retirement(numbers: &mut Vec<u32>, plan: &Plan, node: NodeId) -> Result<(), Refusal>
    ensures grows { OnOk result (Grows plan.now numbers.old.items numbers.new.items) }
    ensures retirement { OnOk result (HasRetirement plan.now node numbers.new.items) }
    ensures memory { IfErr result (λ e. e ≡ OutOfMemory) }
{
    match plan.retirement_of(node) {
        Some(number) => add_number(numbers, plan, number),
        None => Ok(()),
    }
}

fn add_number(numbers: &mut Vec<u32>, plan: &Plan, number: u32) -> Result<(), Refusal>
    requires { number < length plan.now }
    ensures grows { OnOk result (Grows plan.now numbers.old.items numbers.new.items) }
    ensures added { OnOk result (has number numbers.new.items ≡ true) }
    ensures memory { IfErr result (λ e. e ≡ OutOfMemory) }
{
    numbers.push(number)?;
    Ok(())
}
