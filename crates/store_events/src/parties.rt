//! A copy's nodes, and the down ones.

ghost use Rattle.std.specs.Prelude.{◌≡◌, true, false, map};
ghost use Rattle.plan_stage.specs.Clauses.{first_failing};
ghost use Rattle.plan_runs.specs.Guards.{has_copy, parties_up};
ghost use Rattle.plan_runs.specs.Reached.{Ready};
ghost use Rattle.plan_runs.specs.World.{World, slot_at};
ghost use Rattle.store_parts.specs.Nodes.{is_up_at};
ghost use Rattle.store_parts.specs.Parts.{Meets, IsSound, ring_of, plan_of};
ghost use Rattle.store_events.specs.Parties.{owner_kept, party_kept, with_down, least_down};

use plan_text::{Source, Step};
use ring_names::{NodeId, Refusal, Slot};
use store_parts::Parts;

/// Returns `NodeDown` with the least down node among the slot's mirror and the owners of the slots read.
pub(crate) fn party_refusal(parts: &Parts, step: u32) -> Option<Refusal>
    requires sound { IsSound parts.now }
    requires ready { (w : World) → Meets parts.now w
        → (has_copy (plan_of parts.now) step ≡ true) × Ready (plan_of parts.now) w.done step × (w.done step ≡ false) }
    ensures { (w : World) → Meets parts.now w
        → result ≡ first_failing (parties_up (ring_of parts.now) (plan_of parts.now) w step) }
{
    let Step::Copy(slot, source) = parts.approved.plan().step(step) else {
        unreachable!();
    };
    match least_party(parts, *slot, source) {
        Some(node) => Some(Refusal::NodeDown(node.0)),
        None => None,
    }
}

fn least_party(parts: &Parts, slot: Slot, source: &Source) -> Option<NodeId>
    ensures { result ≡ least_down (is_up_at parts.now.nodes) (party_kept parts.now.slots slot source.now) }
{
    let owner = match source {
        Source::Owner => with_down(parts, parts.slots.owner(slot), None),
        Source::Slots(from) => least_owner(parts, slot.partition, from.as_slice()),
    };
    match parts.slots.at(slot) {
        Some(now) => with_down(parts, now.mirror, owner),
        None => owner,
    }
}

fn least_owner(parts: &Parts, partition: u32, from: &[u8]) -> Option<NodeId>
    ensures { result ≡ least_down (is_up_at parts.now.nodes)
        (map (owner_kept parts.now.slots) (map (slot_at partition) from.now)) }
{
    let mut least = None;
    for k in (0..from.len()).rev() {
        let slot = Slot {
            partition,
            index: u32::from(from[k]),
        };
        least = with_down(parts, parts.slots.owner(slot), least);
    }
    least
}

fn with_down(parts: &Parts, node: Option<NodeId>, least: Option<NodeId>) -> Option<NodeId>
    ensures { result ≡ with_down (is_up_at parts.now.nodes) node least }
{
    let Some(other) = node else {
        return least;
    };
    if parts.nodes.is_up(other) {
        return least;
    }
    match least {
        Some(first) if first.0 < other.0 => least,
        _ => node,
    }
}
