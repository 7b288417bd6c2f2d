//! Asks a store.

ghost use Rattle.std.specs.Prelude.{◌≡◌, true, IfOk, IsTrue, Some};
ghost use Rattle.plan_text.specs.Valid.{is_ring_slot};
ghost use Rattle.plan_runs.specs.World.{World as TheWorld, stage_now};
ghost use Rattle.ring_core.specs.World.{ring_of, plan_of, Answers, Meets};

use plan_runs::{Event, Reply};
use ring_core::World;
use ring_names::{NodeId, Refusal, Slot};

/// A mirrored slot, at some moment.
#[derive(Clone, Copy, Debug)]
pub(crate) struct Mirrored {
    pub(crate) slot: Slot,
    pub(crate) owner: NodeId,
    pub(crate) mirror: NodeId,
}

pub(crate) fn mirrored_slot(store: &World, slot: Slot) -> Option<Mirrored> {
    match store.nodes_of(slot) {
        Some((owner, Some(mirror))) => Some(Mirrored {
            slot,
            owner,
            mirror,
        }),
        _ => None,
    }
}

pub(crate) fn mirror_of(store: &World, slot: Slot) -> Option<NodeId>
    ensures { (w : TheWorld) → Meets store.now w → is_ring_slot (ring_of store.now) slot ≡ true
        → result ≡ (stage_now (ring_of store.now) (plan_of store.now) w slot).mirror }
{
    match store.nodes_of(slot) {
        Some((_, mirror)) => mirror,
        None => None,
    }
}

pub(crate) fn is_node(mirror: Option<NodeId>, node: NodeId) -> bool
    ensures { IsTrue result → mirror ≡ Some node }
{
    match mirror {
        Some(found) => found.0 == node.0,
        None => false,
    }
}

pub(crate) fn owner_of(store: &World, slot: Slot) -> Option<NodeId> {
    match store.nodes_of(slot) {
        Some((owner, _)) => Some(owner),
        None => None,
    }
}

/// Applies the event. Fails with `NoPlan` after 4,294,967,295 puts or gets.
pub(crate) fn happen(store: &mut World, event: &Event) -> Result<Reply, Refusal>
    ensures answers { IfOk result (λ r. Answers store.old event.now r store.new) }
    ensures ring { ring_of store.new ≡ ring_of store.old }
    ensures plan { plan_of store.new ≡ plan_of store.old }
{
    if store.puts() < u32::MAX && store.gets() < u32::MAX {
        return store.apply(event);
    }
    Err(Refusal::NoPlan)
}

/// Whether the node stores the put, or a successor, for this slot.
pub(crate) fn has_put(store: &World, node: NodeId, put: u32, index: u32) -> bool {
    put < store.puts() && store.is_stored(node, put, index)
}

impl Mirrored {
    pub(crate) fn sibling(&self, index: u32) -> Slot {
        let partition = self.slot.partition;
        Slot { partition, index }
    }

    /// Whether a write of the put changes at most the mirror.
    ///
    /// Then the owner has the put or a successor, and both nodes are up.
    pub(crate) fn can_write(&self, store: &World, put: u32) -> bool {
        let index = self.slot.index;
        has_put(store, self.owner, put, index) && store.allows(&Event::Write(put, index)).is_ok()
    }
}
