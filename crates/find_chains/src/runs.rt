//! Runs of steps.

ghost use Rattle.std.specs.Prelude.{◌<◌, length};

use plan_text::{Plan, Step};
use ring_names::{Refusal, Slot};
use std::alloc::Global;
use texts::{at, set};

/// By step, the first step of its run. Costs two binary searches a step.
///
/// In a run, each step depends directly on the slot's previous step.
pub(crate) fn runs_of(alloc: Global, plan: &Plan) -> Result<Vec<u32>, Refusal> {
    let mut runs = vec![in alloc; 0u32; plan.len() as usize]?;
    for number in 0..plan.len() {
        let run = match awaited_of_slot(plan, number) {
            Some(before) => at(runs.as_slice(), before as usize),
            None => number,
        };
        set(runs.as_mut_slice(), number as usize, run);
    }
    Ok(runs)
}

fn awaited_of_slot(plan: &Plan, number: u32) -> Option<u32>
    requires { number < length plan.now }
{
    let slot = slot_of(plan.step(number))?;
    let before = step_before(plan.slot_steps(slot), number)?;
    if plan.depends(before, number) {
        Some(before)
    } else {
        None
    }
}

/// The step's slot, if any.
pub fn slot_of(step: &Step) -> Option<Slot> {
    match step {
        Step::Mirror(slot, _) | Step::Copy(slot, _) | Step::Switch(slot) | Step::Drop(slot, _) =>
            Some(*slot),
        Step::Join(_) | Step::Retire(_) => None,
    }
}

fn step_before(numbers: &[u32], number: u32) -> Option<u32> {
    let place = match numbers.binary_search(&number) {
        Ok(place) | Err(place) => place,
    };
    numbers.get(place.checked_sub(1)?).copied()
}
