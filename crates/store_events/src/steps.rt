//! Steps that are not copies.

ghost use Rattle.std.specs.Prelude.{◌≡◌, false, is_some};
ghost use Rattle.plan_text.specs.Steps.{copy_of};
ghost use Rattle.plan_stage.specs.Clauses.{first_failing};
ghost use Rattle.plan_runs.specs.declared.event.Event.TheVariants.{Do};
ghost use Rattle.plan_runs.specs.Guards.{step_guards};
ghost use Rattle.plan_runs.specs.World.{World};
ghost use Rattle.store_parts.specs.Parts.{Meets, IsSized, IsSound, Tests, Passes, Answers, Follows, ring_of, kept_of};
ghost use Rattle.store_events.specs.Acts.{Acts};

use crate::kinds::{has_other, is_ready};
use plan_runs::Reply;
use plan_text::Step;
use ring_names::Refusal;
use store_parts::Parts;

/// Returns why the step cannot be done now: `UnknownNumber` if there is no such step or it is a copy, or `AlreadyDone`.
///
/// Then `NotReady` if a dependency is not finished, and `NodeDown` if a node that is to mirror or drop is down.
///
/// Then `HintsLeft` if a new mirror keeps a hint for another slot of the partition, or a retiring node keeps any.
pub fn do_refusal(parts: &Parts, step: u32) -> Option<Refusal>
    requires { IsSound parts.now }
    ensures { Tests parts.now (Do step) result }
{
    if !has_other(parts, step) {
        return Some(Refusal::UnknownNumber);
    }
    if parts.steps.is_done(step) {
        return Some(Refusal::AlreadyDone);
    }
    if !is_ready(parts, step) {
        return Some(Refusal::NotReady);
    }
    kind_refusal(parts, parts.approved.plan().step(step))
}

fn kind_refusal(parts: &Parts, step: &Step) -> Option<Refusal>
    requires { IsSized parts.now }
    ensures { (w : World) → Meets parts.now w → result ≡ first_failing (step_guards (ring_of parts.now) w step.now) }
{
    match step {
        Step::Mirror(slot, node) => {
            if !parts.nodes.is_up(*node) {
                return Some(Refusal::NodeDown(node.0));
            }
            if parts.hints.keeps_other(*node, *slot) {
                return Some(Refusal::HintsLeft);
            }
            None
        }
        Step::Drop(_, node) => {
            if !parts.nodes.is_up(*node) {
                return Some(Refusal::NodeDown(node.0));
            }
            None
        }
        Step::Retire(node) => {
            if parts.hints.keeps_any(*node) {
                return Some(Refusal::HintsLeft);
            }
            None
        }
        Step::Join(_) | Step::Copy(_, _) | Step::Switch(_) => None,
    }
}

/// Does the step. A joining node is up, and a mirrored slot gets the next generation.
///
/// A drop walks the slot's data at the node.
pub fn do_step(parts: &mut Parts, step: u32) -> Reply
    requires sound { IsSound parts.old }
    requires passes { Passes parts.old (Do step) }
    ensures next { Answers parts.old (Do step) result parts.new }
    ensures follows { Follows parts.old parts.new }
{
    let planned = parts.approved.plan().step(step);
    act(parts, planned);
    parts.steps.finish(step);
    Reply::Plain
}

// Makes the step's changes, but does not finish it.
fn act(parts: &mut Parts, step: &Step)
    requires sound { IsSound parts.old }
    requires other { is_some (copy_of step.now) ≡ false }
    ensures acts { Acts (kept_of parts.old) (kept_of parts.new) step.now }
    ensures follows { Follows parts.old parts.new }
{
    match step {
        Step::Join(node) => parts.nodes.join(*node),
        Step::Mirror(slot, node) => {
            parts.slots.set_mirror(*slot, *node);
            parts.slots.raise(*slot);
        }
        Step::Copy(_, _) => unreachable!(),
        Step::Switch(slot) => parts.slots.switch(*slot),
        Step::Drop(slot, node) => parts.stores.drop_slot(*node, *slot),
        Step::Retire(node) => parts.nodes.retire(*node),
    }
}
