//! The nodes that serve a slot.

ghost use Rattle.std.specs.Prelude.{◌≡◌};
ghost use Rattle.plan_stage.specs.Clauses.{first_failing};
ghost use Rattle.store_parts.specs.GuardsKept.{is_served_kept, served_up_kept};

use ring_names::{NodeId, Refusal, Slot};
use store_parts::{Parts, Slots};

pub(crate) fn is_served(slots: &Slots, slot: Slot, node: NodeId) -> bool
    ensures { result ≡ is_served_kept slots.now slot node.0 }
{
    match slots.at(slot) {
        Some(now) => match now.mirror {
            Some(mirror) => node.0 == now.owner.0 || node.0 == mirror.0,
            None => node.0 == now.owner.0,
        },
        None => false,
    }
}

/// Returns the refusal if the slot's owner is down, then if its mirror is.
pub(crate) fn served_refusal(parts: &Parts, slot: Slot) -> Option<Refusal>
    ensures { result ≡ first_failing (served_up_kept parts.now.nodes parts.now.slots slot) }
{
    let Some(now) = parts.slots.at(slot) else {
        return None;
    };
    if !parts.nodes.is_up(now.owner) {
        return Some(Refusal::NodeDown(now.owner.0));
    }
    match now.mirror {
        Some(mirror) if !parts.nodes.is_up(mirror) => Some(Refusal::NodeDown(mirror.0)),
        _ => None,
    }
}
