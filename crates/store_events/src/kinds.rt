//! A step's kind, and whether the step is ready.

ghost use Rattle.std.specs.Prelude.{◌≡◌, ◌<◌, length, is_some};
ghost use Rattle.std.specs.List.{list_all};
ghost use Rattle.plan_text.specs.Steps.{copy_of};
ghost use Rattle.plan_runs.specs.Guards.{has_copy, has_other};
ghost use Rattle.store_parts.specs.Steps.{is_done_at};
ghost use Rattle.store_parts.specs.GuardsKept.{is_ready_kept};
ghost use Rattle.store_parts.specs.Parts.{plan_of};

use plan_text::Step;
use store_parts::{Parts, Steps};

fn is_copy(step: &Step) -> bool
    ensures { result ≡ is_some (copy_of step.now) }
{
    match step {
        Step::Copy(_, _) => true,
        Step::Join(_) | Step::Mirror(_, _) | Step::Switch(_) | Step::Drop(_, _) | Step::Retire(_) =>
            false,
    }
}

pub(crate) fn has_copy(parts: &Parts, step: u32) -> bool
    ensures { result ≡ has_copy (plan_of parts.now) step }
{
    let plan = parts.approved.plan();
    step < plan.len() && is_copy(plan.step(step))
}

pub(crate) fn has_other(parts: &Parts, step: u32) -> bool
    ensures { result ≡ has_other (plan_of parts.now) step }
{
    let plan = parts.approved.plan();
    step < plan.len() && !is_copy(plan.step(step))
}

fn are_done(steps: &Steps, numbers: &[u32]) -> bool
    ensures { result ≡ list_all (is_done_at steps.now) numbers.now }
{
    numbers.iter().all(|number| steps.is_done(*number))
}

/// Whether all dependencies are finished.
pub fn is_ready(parts: &Parts, step: u32) -> bool
    requires { step < length (plan_of parts.now) }
    ensures { result ≡ is_ready_kept (plan_of parts.now) parts.now.steps step }
{
    are_done(&parts.steps, parts.approved.plan().deps(step))
}
