//! Whether a plan makes a change.

ghost use Rattle.std.specs.Prelude.{◌≡◌, ◌==◌};
ghost use Rattle.std.specs.List.{list_all, list_any};
ghost use Rattle.ring_names.specs.Lists.{has};
ghost use Rattle.plan_text.specs.Changes.{numbers, step_names};

use crate::step::Step;
use ring_names::NodeId;

fn is_number_of(nodes: &[NodeId], number: u32) -> bool
    ensures { result ≡ list_any (λ x. number == x.0) nodes.now }
{
    nodes.iter().any(|x| number == x.0)
}

fn is_among(nodes: &[NodeId], node: NodeId) -> bool
    ensures { result ≡ has node.0 (numbers nodes.now) }
{
    is_number_of(nodes, node.0)
}

// Whether the step joins only nodes of `joins`, and retires only nodes of `leaves`.
fn names_only(joins: &[NodeId], leaves: &[NodeId], step: &Step) -> bool
    ensures { result ≡ step_names joins.now leaves.now step.now }
{
    match step {
        Step::Join(node) => is_among(joins, *node),
        Step::Retire(node) => is_among(leaves, *node),
        Step::Mirror(..) | Step::Copy(..) | Step::Switch(..) | Step::Drop(..) => true,
    }
}

/// Whether the steps join and retire only these nodes.
pub fn all_name_only(joins: &[NodeId], leaves: &[NodeId], steps: &[Step]) -> bool
    ensures { result ≡ list_all (step_names joins.now leaves.now) steps.now }
{
    steps.iter().all(|x| names_only(joins, leaves, x))
}
