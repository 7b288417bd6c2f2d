//! Checks that steps need no dead nodes.

ghost use Rattle.std.specs.Prelude.{◌≡◌, ◌||◌, true, IsTrue, IfOk, IfErr};
ghost use Rattle.ring_names.specs.declared.refusal.Refusal.TheVariants.{OutOfMemory};
ghost use Rattle.plan_text.specs.Valid.{Suits, step_suits};
ghost use Rattle.plan_runs.specs.World.{World as TheWorld};
ghost use Rattle.plan_cover.specs.Looking.Serving.{serving_at};
ghost use Rattle.plan_goal.specs.Reached.{are_spared};
ghost use Rattle.ring_core.specs.World.{Meets};
ghost use Rattle.plan_around.specs.Apart.{asked, mirrors, is_whole, AreApart};

use crate::over::is_over;
use plan_cover::Present;
use plan_goal::{Dead, is_copy_spared, is_spared};
use plan_text::{Plan, Step};
use ring_core::World;
use ring_names::{NodeId, Refusal};
use ring_table::Ring;
use std::alloc::Global;

fn is_mirror_spared(dead: &Dead, mirror: Option<NodeId>) -> bool
    ensures { result ≡ are_spared dead.now.nodes.now (mirrors mirror) }
{
    match mirror {
        Some(node) => is_spared(dead, node),
        None => true,
    }
}

fn is_unasked(dead: &Dead, ring: &Ring, present: &Present, step: &Step) -> bool
    requires { step_suits ring.now step.now ≡ true }
    ensures { result ≡ are_spared dead.now.nodes.now (asked (serving_at ring.now present.now) step.now) }
{
    match step {
        Step::Switch(_) => true,
        Step::Join(node) | Step::Mirror(_, node) | Step::Drop(_, node) | Step::Retire(node) => {
            is_spared(dead, *node)
        }
        Step::Copy(slot, source) => {
            is_mirror_spared(dead, present.at(ring, *slot).mirror)
                && is_copy_spared(dead, ring, present, *slot, source)
        }
    }
}

// Whether the step is over, or spares the dead nodes.
fn is_apart(store: &World, step: &Step, number: u32, spares: bool) -> bool
    ensures { IsTrue result → (w : TheWorld) → Meets store.now w
        → (w.done number || is_whole w number || spares) ≡ true }
{
    spares || is_over(store, step, number)
}

/// Whether no remaining step involves a dead node. Costs a pass over the plan.
pub(crate) fn are_apart(
    alloc: Global,
    store: &World,
    ring: &Ring,
    plan: &Plan,
    dead: &[NodeId],
) -> Result<bool, Refusal>
    requires { Suits ring.now plan.now }
    ensures apart { IfOk result (λ b. IsTrue b → (w : TheWorld) → Meets store.now w → AreApart ring.now plan.now dead.now w) }
    ensures memory { IfErr result (λ e. e ≡ OutOfMemory) }
{
    let flagged = Dead::of(dead);
    let mut present = Present::new(alloc, ring)?;
    for number in 0..plan.len() {
        let step = plan.step(number);
        let spares = is_unasked(&flagged, ring, &present, step);
        if !is_apart(store, step, number, spares) {
            return Ok(false);
        }
        present.act(ring, step);
    }
    Ok(true)
}
