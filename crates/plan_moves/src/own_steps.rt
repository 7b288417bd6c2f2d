//! A move's steps.

ghost use Rattle.std.specs.Prelude.{◌≡◌, ◌<◌, true, nat_lt, length, IfOk};
ghost use Rattle.std.specs.List.{filter};
ghost use Rattle.texts.specs.Numbers.{ascending};
ghost use Rattle.plan_moves.specs.MoveLines.{sets_mirror, move_steps};

use crate::movement::Move;
use plan_text::{Plan, Step};
use std::alloc::{AllocError, Global};

fn sets_mirror(plan: &Plan, number: u32) -> bool
    requires { number < length plan.now }
    ensures { result ≡ sets_mirror plan.now number }
{
    matches!(plan.step(number), Step::Mirror(_, _))
}

fn later(steps: &[u32], number: u32) -> &[u32]
    requires { ascending steps.now ≡ true }
    ensures { result.now ≡ filter (λ s. nat_lt number s) steps.now }
{
    match steps.binary_search(&number) {
        Ok(place) => &steps[place + 1..],
        Err(place) => &steps[place..],
    }
}

/// Returns the move's steps, ascending: its mirror, and the slot's later steps up to the next mirror.
///
/// Costs a binary search in the slot's steps, and a look at each own step.
pub(crate) fn move_steps(
    alloc: Global,
    plan: &Plan,
    movement: &Move,
) -> Result<Vec<u32>, AllocError>
    ensures { IfOk result (λ v. v.items ≡ move_steps plan.now movement.now) }
{
    let mut steps = Vec::new(alloc);
    steps.push(movement.mirror)?;
    for step in later(plan.slot_steps(movement.slot), movement.mirror) {
        if sets_mirror(plan, *step) {
            return Ok(steps);
        }
        steps.push(*step)?;
    }
    Ok(steps)
}
