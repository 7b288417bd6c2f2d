//! The slot of a put.

ghost use Rattle.plan_runs.specs.World.{World};
ghost use Rattle.store_events.specs.Targets.{IsPutSlot};
ghost use Rattle.store_parts.specs.Parts.{ring_of, Meets, IsSound};

use ring_names::Slot;
use store_parts::Parts;

/// Returns slot `index` of the put's partition, if both exist.
pub(crate) fn put_slot(parts: &Parts, put: u32, index: u32) -> Option<Slot>
    requires { IsSound parts.now }
    ensures { (w : World) → Meets parts.now w → IsPutSlot (ring_of parts.now) w put index result }
{
    if index >= parts.approved.ring().n() {
        return None;
    }
    let Some(now) = parts.puts.get(put) else {
        return None;
    };
    let place = parts.keys.place(now.key);
    Some(Slot {
        partition: place.partition,
        index,
    })
}
