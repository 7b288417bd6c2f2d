//! Handoffs.

ghost use Rattle.std.specs.Prelude.{◌≡◌, IfOk, IfErr, OnErr};
ghost use Rattle.ring_names.specs.declared.refusal.Refusal.TheVariants.{OutOfMemory};
ghost use Rattle.plan_runs.specs.declared.event.Event.TheVariants.{Handoff};
ghost use Rattle.store_parts.specs.Parts.{IsSound, Follows, Tests, Passes, Answers, Stays};

use crate::served::served_refusal;
use plan_runs::Reply;
use ring_hints::KeptFor;
use ring_names::{NodeId, Refusal, Slot};
use store_parts::Parts;

/// Returns why a handoff is refused now: the slot is unknown, the node keeps nothing for it, or node, owner or mirror
/// is down.
pub fn handoff_refusal(parts: &Parts, node: NodeId, slot: Slot) -> Option<Refusal>
    requires { IsSound parts.now }
    ensures { Tests parts.now (Handoff node slot) result }
{
    if parts.slots.at(slot).is_none() {
        return Some(Refusal::UnknownNumber);
    }
    if !parts.hints.keeps(node, slot) {
        return Some(Refusal::AlreadyDone);
    }
    if !parts.nodes.is_up(node) {
        return Some(Refusal::NodeDown(node.0));
    }
    served_refusal(parts, slot)
}

/// Hands all that the node keeps for the slot to the owner and mirror. Costs a look-up and a merge for each key, at
/// both.
pub fn handoff(parts: &mut Parts, node: NodeId, slot: Slot) -> Result<Reply, Refusal>
    requires sound { IsSound parts.old }
    requires passes { Passes parts.old (Handoff node slot) }
    ensures ok { IfOk result (λ r. Answers parts.old (Handoff node slot) r parts.new) }
    ensures same { OnErr result (Stays parts.old parts.new) }
    ensures memory { IfErr result (λ e. e ≡ OutOfMemory) }
    ensures follows { Follows parts.old parts.new }
{
    let Some(served) = parts.slots.at(slot) else {
        unreachable!()
    };
    let pair = KeptFor { keeper: node, slot };
    let Some(kept) = parts.hints.map(pair) else {
        unreachable!()
    };
    parts
        .stores
        .give_slot(slot, served.owner, served.mirror, kept)?;
    parts.hints.take(node, slot);
    Ok(Reply::Plain)
}
