//! Adds steps within limits.

ghost use Rattle.std.specs.Prelude.{◌≡◌, ◌≤◌, ◌<◌, ◌+◌, true, length, nat_lt};
ghost use Rattle.std.specs.List.{list_all};
ghost use Rattle.texts.specs.Numbers.{ascending};
ghost use Rattle.plan_text.specs.Steps.{dependencies};
ghost use Rattle.plan_text.specs.Valid.{HasSources, IsPlanned};

use plan_text::{Plan, Source, Step};
use ring_names::Refusal;

// A plan's most steps, dependencies of a step, and dependencies in all.
const STEPS: u32 = 131_072;

const AFTER: usize = 4_096;

const DEPENDENCIES: usize = 524_288;

fn is_ascending(numbers: &[u32]) -> bool
    ensures { result ≡ ascending numbers.now }
{
    let Some((first, others)) = numbers.split_first() else {
        return true;
    };
    match others.first() {
        Some(next) => first < next && is_ascending(others),
        None => true,
    }
}

fn are_below(numbers: &[u32], limit: u32) -> bool
    ensures { result ≡ list_all (λ x. nat_lt x limit) numbers.now }
{
    numbers.iter().all(|x| *x < limit)
}

fn has_sources(step: &Step) -> bool
    ensures { result ≡ true → HasSources step.now }
{
    match step {
        Step::Copy(_, Source::Slots(from)) => {
            let count = from.as_slice().len();
            1 <= count && count <= 7
        }
        Step::Copy(_, Source::Owner)
        | Step::Join(_)
        | Step::Mirror(..)
        | Step::Switch(_)
        | Step::Drop(..)
        | Step::Retire(_) => true,
    }
}

fn has_place(plan: &Plan, step: &Step, after: &[u32]) -> bool
    ensures { result ≡ true → IsPlanned (length plan.now) (record { step = step.now; after = after.now }) }
{
    is_ascending(after) && after.len() <= AFTER && are_below(after, plan.len()) && has_sources(step)
}

fn has_room(plan: &Plan, more: usize) -> bool
    ensures steps { result ≡ true → length plan.now < 131072 }
    ensures dependencies { result ≡ true → dependencies plan.now + more ≤ 524288 }
{
    plan.len() < STEPS && more <= AFTER && plan.dependencies() as usize + more <= DEPENDENCIES
}

/// Adds a step and returns its number. Fails with `NoPlan` if the plan cannot have it.
pub fn add(plan: &mut Plan, step: Step, after: &[u32]) -> Result<u32, Refusal> {
    let number = plan.len();
    if !has_room(plan, after.len()) {
        return Err(Refusal::NoPlan);
    }
    if !has_place(plan, &step, after) {
        return Err(Refusal::NoPlan);
    }
    plan.push(step, after)?;
    Ok(number)
}
