//! Hints.

ghost use Rattle.std.specs.Prelude.{◌≡◌, IfOk, IfErr, OnErr};
ghost use Rattle.ring_names.specs.declared.refusal.Refusal.TheVariants.{OutOfMemory};
ghost use Rattle.plan_runs.specs.declared.event.Event.TheVariants.{Hint};
ghost use Rattle.store_parts.specs.GuardsKept.{serves_in_kept};
ghost use Rattle.store_parts.specs.Parts.{ring_of, IsSound, Follows, Tests, Passes, Answers, Stays};

use crate::served::is_served;
use crate::targets::put_slot;
use plan_runs::Reply;
use ring_hints::KeptFor;
use ring_names::{NodeId, Refusal, Slot};
use store_parts::Parts;

fn serves_in(parts: &Parts, partition: u32, node: NodeId) -> bool
    ensures { result ≡ serves_in_kept (ring_of parts.now) parts.now.slots partition node.0 }
{
    'indexes: for index in 0..parts.approved.ring().n() {
        if is_served(&parts.slots, Slot { partition, index }, node) {
            return true;
        }
    }
    false
}

/// Returns why a hint is refused now: put or slot is unknown, or the node is not a member or is down.
///
/// Or the node serves a slot of the partition, or keeps hints for another slot.
pub fn hint_refusal(parts: &Parts, put: u32, index: u32, node: NodeId) -> Option<Refusal>
    requires { IsSound parts.now }
    ensures { Tests parts.now (Hint put index node) result }
{
    let Some(slot) = put_slot(parts, put, index) else {
        return Some(Refusal::UnknownNumber);
    };
    if !parts.nodes.is_member(node) {
        return Some(Refusal::NotMember(node.0));
    }
    if !parts.nodes.is_up(node) {
        return Some(Refusal::NodeDown(node.0));
    }
    if serves_in(parts, slot.partition, node) {
        return Some(Refusal::KeeperInPartition);
    }
    if parts.hints.keeps_other(node, slot) {
        return Some(Refusal::KeeperTaken);
    }
    None
}

/// Keeps a put at the node as the slot's hint. The reply is a ticket of the slot's generation. Costs one look-up.
pub fn hint(parts: &mut Parts, put: u32, index: u32, node: NodeId) -> Result<Reply, Refusal>
    requires sound { IsSound parts.old }
    requires passes { Passes parts.old (Hint put index node) }
    ensures ok { IfOk result (λ r. Answers parts.old (Hint put index node) r parts.new) }
    ensures same { OnErr result (Stays parts.old parts.new) }
    ensures memory { IfErr result (λ e. e ≡ OutOfMemory) }
    ensures follows { Follows parts.old parts.new }
{
    let Some(now) = parts.puts.get(put) else {
        unreachable!()
    };
    let place = parts.keys.place(now.key);
    let slot = Slot {
        partition: place.partition,
        index,
    };
    let Some(served) = parts.slots.at(slot) else {
        unreachable!()
    };
    let key = parts.keys.id(now.key);
    let pair = KeptFor { keeper: node, slot };
    parts.hints.add_set(pair, key, &now.version)?;
    parts.puts.set_ticket(put, index, served.generation);
    Ok(Reply::Ticket(slot, served.generation))
}
