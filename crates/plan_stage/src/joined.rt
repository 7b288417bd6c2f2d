//! Whether a node is a member before a step.

ghost use Rattle.std.specs.Prelude.{◌≡◌, ◌&&◌};
ghost use Rattle.plan_text.specs.Steps.{is_join_of};
ghost use Rattle.plan_text.specs.Valid.{Suits};
ghost use Rattle.plan_order.specs.Facts.{is_ordered, AreFactsOf};
ghost use Rattle.plan_order.specs.Order.{order};
ghost use Rattle.plan_stage.specs.Each.{some_step};
ghost use Rattle.plan_stage.specs.Partition.{has_joined};

use plan_order::{Context, Facts};
use plan_text::Plan;
use ring_names::NodeId;
use ring_table::Ring;

/// Whether the node is an initial member, or joins before the step.
pub fn has_joined(ring: &Ring, plan: &Plan, facts: &Facts, step: u32, node: NodeId) -> bool
    requires suits { Suits ring.now plan.now }
    requires facts { AreFactsOf plan.now facts.now }
    ensures { result ≡ has_joined ring.now plan.now (is_ordered plan.now facts.now) step node }
{
    let context = Context { ring, plan, facts };
    has_joined_by(&context, step, node)
}

/// Answers as `has_joined`, by a context.
pub fn has_joined_by(context: &Context, step: u32, node: NodeId) -> bool
    ensures { result ≡ has_joined context.now.ring.now context.now.plan.now (order context.now) step node }
{
    context.ring.is_member(node) || joins_before(context, step, node)
}

fn joins_before(context: &Context, step: u32, node: NodeId) -> bool
    ensures { result ≡ some_step (λ j s. is_join_of node.0 s && order context.now j step) 0 context.now.plan.now }
{
    match context.plan.join_of(node) {
        Some(join) => context.ordered(join, step),
        None => false,
    }
}
