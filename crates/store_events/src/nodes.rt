//! Nodes that go down, come up, or lose their data.

ghost use Rattle.plan_runs.specs.declared.event.Event.TheVariants.{Down, Up, Lose};
ghost use Rattle.store_parts.specs.Parts.{IsSound, Tests, Passes, Answers, Follows};

use crate::groups::raise_groups;
use plan_runs::Reply;
use ring_names::{NodeId, Refusal};
use store_parts::Parts;

/// Returns why the node cannot go down now: `NotMember`, or `AlreadyDone` if down.
pub fn down_refusal(parts: &Parts, node: NodeId) -> Option<Refusal>
    requires { IsSound parts.now }
    ensures { Tests parts.now (Down node) result }
{
    if !parts.nodes.is_member(node) {
        return Some(Refusal::NotMember(node.0));
    }
    if !parts.nodes.is_up(node) {
        return Some(Refusal::AlreadyDone);
    }
    None
}

/// Marks the node as down. Its data stays.
pub fn down(parts: &mut Parts, node: NodeId) -> Reply
    requires sound { IsSound parts.old }
    requires passes { Passes parts.old (Down node) }
    ensures next { Answers parts.old (Down node) result parts.new }
    ensures follows { Follows parts.old parts.new }
{
    parts.nodes.lower(node);
    Reply::Plain
}

/// Returns why the node cannot come up now: `NotMember`, or `AlreadyDone` if up.
pub fn up_refusal(parts: &Parts, node: NodeId) -> Option<Refusal>
    requires { IsSound parts.now }
    ensures { Tests parts.now (Up node) result }
{
    if !parts.nodes.is_member(node) {
        return Some(Refusal::NotMember(node.0));
    }
    if parts.nodes.is_up(node) {
        return Some(Refusal::AlreadyDone);
    }
    None
}

/// Marks the node as up, with its data.
pub fn up(parts: &mut Parts, node: NodeId) -> Reply
    requires sound { IsSound parts.old }
    requires passes { Passes parts.old (Up node) }
    ensures next { Answers parts.old (Up node) result parts.new }
    ensures follows { Follows parts.old parts.new }
{
    parts.nodes.raise(node);
    Reply::Plain
}

/// Returns why the node cannot lose its data now: `NotMember`, or `LossesSpent` if the ring allows no more losses.
pub fn lose_refusal(parts: &Parts, node: NodeId) -> Option<Refusal>
    requires { IsSound parts.now }
    ensures { Tests parts.now (Lose node) result }
{
    if !parts.nodes.is_member(node) {
        return Some(Refusal::NotMember(node.0));
    }
    if parts.losses >= parts.approved.ring().loss() {
        return Some(Refusal::LossesSpent);
    }
    None
}

/// Removes the node's data and hints. The node stays up or down. Walks all slots of the ring and the node's data.
///
/// Each slot that the node serves, or keeps hints for, gets the next generation.
pub fn lose(parts: &mut Parts, node: NodeId) -> Reply
    requires sound { IsSound parts.old }
    requires passes { Passes parts.old (Lose node) }
    ensures next { Answers parts.old (Lose node) result parts.new }
    ensures follows { Follows parts.old parts.new }
{
    let ring = parts.approved.ring();
    raise_groups(&mut parts.slots, &parts.hints, ring, node);
    parts.stores.clear(node);
    parts.hints.drop_keeper(node);
    parts.losses += 1;
    Reply::Plain
}
