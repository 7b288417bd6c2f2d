//! The numbers of a plan's steps in another plan.

ghost use Rattle.std.specs.Prelude.{◌≡◌};
ghost use Rattle.history_laws.specs.Past.{number_in, allows, mirror_in};

use plan_runs::Back;
use plan_text::{Plan, Step};
use ring_names::{NodeId, Slot};

pub(crate) fn allows(back: Back) -> bool
    ensures { result ≡ allows back }
{
    match back {
        Back::Never => false,
        Back::Allowed => true,
    }
}

pub(crate) fn number_in(numbers: &[Option<u32>], step: u32) -> Option<u32>
    ensures { result ≡ number_in numbers.now step }
{
    match numbers.get(step as usize) {
        Some(number) => *number,
        None => None,
    }
}

pub(crate) fn mirror_in(plan: &Plan, step: u32) -> Option<(Slot, NodeId)>
    ensures { result ≡ mirror_in plan.now step }
{
    if step >= plan.len() {
        return None;
    }
    match plan.step(step) {
        Step::Mirror(slot, node) => Some((*slot, *node)),
        Step::Join(_) | Step::Copy(_, _) | Step::Switch(_) | Step::Drop(_, _) | Step::Retire(_) => {
            None
        }
    }
}
