//! Finds clauses that may fail: a walk that continues after failures.

ghost use Rattle.std.specs.Prelude.{◌≡◌, ℕ, ◌<◌, IfOk, IfErr, OnOk, Some, None, true, false, length, nat_lt};
ghost use Rattle.std.specs.List.{list_all};
ghost use Rattle.ring_names.specs.Lists.{has};
ghost use Rattle.ring_names.specs.declared.refusal.Refusal.{Refusal as TheRefusal};
ghost use Rattle.ring_names.specs.declared.refusal.Refusal.TheVariants.{OutOfMemory};
ghost use Rattle.plan_order.specs.Order.{order};
ghost use Rattle.plan_text.specs.declared.step.Step.{Step as TheStep};
ghost use Rattle.plan_stage.specs.Clauses.{IsStagedIn, first_failing};
ghost use Rattle.plan_stage.specs.Each.{step_at};
ghost use Rattle.plan_stage.specs.Missed.{misses, IsNoted, StaysNoted, HoldBut, HoldsBut};
ghost use Rattle.plan_stage.specs.Partition.{partition_clauses, step_clauses, steps_clauses};
ghost use Rattle.plan_stage.specs.Looking.Held.{AreHeld};
ghost use Rattle.plan_stage.specs.Looking.Looked.{clauses_at, clauses_of};

use crate::check::check_slots;
use crate::clauses::check_step;
use crate::concerned::concerned;
use crate::holding::Holdings;
use plan_order::Context;
use ring_names::Refusal;
use std::alloc::Global;

/// The kinds of clauses that may fail.
#[derive(Clone, Copy, Debug)]
pub struct Missed {
    /// A copy reads too few slots, or one twice.
    pub sources: bool,
    /// A source moves while it is read.
    pub settled: bool,
    /// A mirrored node still serves another slot of the partition.
    pub left: bool,
    /// A mirrored node has not joined.
    pub joined: bool,
    /// A node retires before it drops what it held.
    pub dropped: bool,
}

impl Missed {
    /// Starts without failures.
    pub fn none() -> Missed
        ensures { (r : TheRefusal) → misses result r ≡ false }
    {
        Missed {
            sources: false,
            settled: false,
            left: false,
            joined: false,
            dropped: false,
        }
    }

    // Notes a refusal, and the clause after it, which was not checked.
    fn note(&mut self, refusal: &Refusal)
        ensures noted { IsNoted self.new refusal.now }
        ensures stays { StaysNoted self.old self.new }
    {
        match refusal {
            Refusal::MovingSource(_) => self.settled = true,
            Refusal::NotJoined(_) => self.joined = true,
            Refusal::RetiredInUse(_) => self.dropped = true,
            Refusal::BadSource(_) => {
                self.sources = true;
                self.settled = true;
            }
            Refusal::SharedInPlan(_) => {
                self.left = true;
                self.joined = true;
            }
            _ => {}
        }
    }
}

fn note_step(
    context: &Context,
    holdings: &Holdings,
    partition: u32,
    number: u32,
    missed: &mut Missed,
) -> Result<(), Refusal>
    requires number { number < length context.now.plan.now }
    requires held { AreHeld context.now.ring.now context.now.plan.now partition holdings.now }
    ensures holds { OnOk result (HoldBut missed.new (clauses_at (step_clauses context.now.ring.now
        context.now.plan.now (order context.now) partition) context.now.plan.now number)) }
    ensures clean { OnOk result (first_failing (clauses_at (step_clauses context.now.ring.now context.now.plan.now
        (order context.now) partition) context.now.plan.now number) ≡ None → missed.new ≡ missed.old) }
    ensures stays { StaysNoted missed.old missed.new }
    ensures memory { IfErr result (λ e. e ≡ OutOfMemory) }
{
    match check_step(context, holdings, partition, number) {
        Ok(()) => Ok(()),
        Err(refusal) => match refusal {
            Refusal::OutOfMemory => Err(refusal),
            _ => {
                missed.note(&refusal);
                Ok(())
            }
        },
    }
}

fn note_numbers(
    context: &Context,
    holdings: &Holdings,
    partition: u32,
    numbers: &[u32],
    missed: &mut Missed,
) -> Result<(), Refusal>
    requires within { list_all (λ n. nat_lt n (length context.now.plan.now)) numbers.now ≡ true }
    requires held { AreHeld context.now.ring.now context.now.plan.now partition holdings.now }
    ensures holds { OnOk result ((n : ℕ) → has n numbers.now ≡ true → HoldBut missed.new (clauses_at
        (step_clauses context.now.ring.now context.now.plan.now (order context.now) partition) context.now.plan.now n)) }
    ensures clean { OnOk result (first_failing (clauses_of (step_clauses context.now.ring.now context.now.plan.now
        (order context.now) partition) context.now.plan.now numbers.now) ≡ None → missed.new ≡ missed.old) }
    ensures stays { StaysNoted missed.old missed.new }
    ensures memory { IfErr result (λ e. e ≡ OutOfMemory) }
{
    let mut rest = numbers;
    'numbers: while let Some((number, later)) = rest.split_first() {
        note_step(context, holdings, partition, *number, missed)?;
        rest = later;
    }
    Ok(())
}

fn note_steps(
    alloc: Global,
    context: &Context,
    partition: u32,
    missed: &mut Missed,
) -> Result<(), Refusal>
    requires partition { partition < context.now.ring.now.q }
    requires staged { IsStagedIn context.now.ring.now context.now.plan.now partition }
    ensures holds { OnOk result ((n : ℕ) (s : TheStep) → step_at context.now.plan.now n ≡ Some s → HoldBut missed.new
        (step_clauses context.now.ring.now context.now.plan.now (order context.now) partition n s)) }
    ensures clean { OnOk result (first_failing (steps_clauses (step_clauses context.now.ring.now context.now.plan.now
        (order context.now) partition) 0 context.now.plan.now) ≡ None → missed.new ≡ missed.old) }
    ensures stays { StaysNoted missed.old missed.new }
    ensures memory { IfErr result (λ e. e ≡ OutOfMemory) }
{
    let holdings = Holdings::of(alloc, context.ring, context.plan, partition)?;
    let numbers = concerned(alloc, context.ring, context.plan, partition)?;
    note_numbers(context, &holdings, partition, numbers.as_slice(), missed)
}

/// Notes the partition's clauses that may fail. Costs as much as an accepting `check_partition`.
///
/// Returns whether each slot's steps act in order: if not, notes nothing.
pub fn note_partition(
    alloc: Global,
    context: &Context,
    partition: u32,
    missed: &mut Missed,
) -> Result<bool, Refusal>
    requires { partition < context.now.ring.now.q }
    ensures holds { IfOk result (λ b. b ≡ true →
        HoldsBut missed.new context.now.ring.now context.now.plan.now (order context.now) partition) }
    ensures clean { IfOk result (λ b. first_failing (partition_clauses context.now.ring.now context.now.plan.now
        (order context.now) partition) ≡ None → (b ≡ true) × (missed.new ≡ missed.old)) }
    ensures stays { StaysNoted missed.old missed.new }
    ensures memory { IfErr result (λ e. e ≡ OutOfMemory) }
{
    match check_slots(alloc, context, partition) {
        Ok(()) => {
            note_steps(alloc, context, partition, missed)?;
            Ok(true)
        }
        Err(refusal) => match refusal {
            Refusal::OutOfMemory => Err(refusal),
            _ => Ok(false),
        },
    }
}
