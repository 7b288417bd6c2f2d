//! What nodes store for slots, and the slots' mirrors.

use crate::world::World;
use ring_clock::Clock;
use ring_names::{NodeId, Slot};
use ring_store::SlotKey;

impl<'a> World<'a> {
    ghost use Rattle.std.specs.Prelude.{◌≡◌, ◌<◌, ◌↔◌, IsTrue, Some, length, true};
    ghost use Rattle.plan_text.specs.Valid.{is_ring_slot};
    ghost use Rattle.plan_runs.specs.Versions.{put_slot};
    ghost use Rattle.plan_runs.specs.World.{World as TheWorld};
    ghost use Rattle.ring_store.specs.Stores.{held_at};
    ghost use Rattle.ring_versions.specs.Versions.{Covers};
    ghost use Rattle.ring_core.specs.Mirrors.{nodes_now, is_stored};
    ghost use Rattle.ring_core.specs.World.{ring_of, plan_of, Meets};

    /// Returns the slot's owner and mirror now; none if the ring lacks the slot.
    pub fn nodes_of(&self, slot: Slot) -> Option<(NodeId, Option<NodeId>)>
        ensures { (w : TheWorld) → Meets self.now w → is_ring_slot (ring_of self.now) slot ≡ true
            → result ≡ Some (nodes_now (ring_of self.now) (plan_of self.now) w slot) }
    {
        match self.parts.slots.at(slot) {
            Some(now) => Some((now.owner, now.mirror)),
            None => None,
        }
    }

    fn node_covers(&self, node: NodeId, at: &SlotKey, clock: &Clock) -> bool
        ensures { IsTrue result
            ↔ Covers (held_at self.now.parts.stores node.0 at.now.slot at.now.key) clock.now }
    {
        match self.parts.stores.key_versions_in(node, at) {
            Some(versions) => versions.covers(clock),
            None => false,
        }
    }

    /// Returns slot `index` of the put's partition.
    pub fn put_slot(&self, put: u32, index: u32) -> Slot
        requires { put < length self.now.parts.puts }
        ensures slot { (w : TheWorld) → Meets self.now w → result ≡ put_slot (ring_of self.now) w put index }
        ensures partition { result.partition < (ring_of self.now).q }
        ensures index { result.index ≡ index }
    {
        let Some(now) = self.parts.puts.get(put) else {
            unreachable!()
        };
        let place = self.parts.keys.place(now.key);
        Slot {
            partition: place.partition,
            index,
        }
    }

    /// Whether the node stores the put or a successor for slot `index` of the put's partition. Hints do not count.
    /// Costs a look-up.
    pub fn is_stored(&self, node: NodeId, put: u32, index: u32) -> bool
        requires { put < length self.now.parts.puts }
        ensures { (w : TheWorld) → Meets self.now w
            → result ≡ is_stored w node.0 (put_slot (ring_of self.now) w put index) put }
    {
        let Some(now) = self.parts.puts.get(put) else {
            unreachable!()
        };
        let Some(version) = now.version.first() else {
            unreachable!()
        };
        let place = self.parts.keys.place(now.key);
        let slot = Slot {
            partition: place.partition,
            index,
        };
        let key = self.parts.keys.id(now.key);
        self.node_covers(node, &SlotKey { slot, key }, &version.clock)
    }
}
