//! What a read of a slot finds.

ghost use Rattle.std.specs.Prelude.{◌≡◌, [], true, IfOk, IfErr};
ghost use Rattle.ring_names.specs.declared.refusal.Refusal.TheVariants.{OutOfMemory};
ghost use Rattle.ring_versions.specs.Versions.{IsMerge};
ghost use Rattle.ring_store.specs.Stores.{held_at};
ghost use Rattle.ring_hints.specs.Hints.{hinted_at};
ghost use Rattle.plan_runs.specs.World.{World};
ghost use Rattle.plan_runs.specs.declared.event.Event.TheVariants.{Read};
ghost use Rattle.store_parts.specs.Parts.{IsSound, Meets, Passes, kept_of, plan_of, ring_of};
ghost use Rattle.store_clients.specs.Keepers.{JoinsTell, MergesOthers};
ghost use Rattle.store_clients.specs.Looks.{FindsAt, owned_at};

use crate::keepers::merge_hints;
use ring_names::{Listed, Refusal, Slot};
use ring_store::SlotKey;
use ring_versions::{Found, Versions};
use store_parts::Parts;

fn owner_versions(parts: &Parts, at: &SlotKey) -> Result<Versions, Refusal>
    ensures ok { IfOk result (IsMerge [] (owned_at parts.now.slots (held_at parts.now.stores) at.now.slot at.now.key)) }
    ensures memory { IfErr result (λ e. e ≡ OutOfMemory) }
{
    let mut all = Versions::new(parts.alloc);
    if let Some(owner) = parts.slots.owner(at.slot) {
        if let Some(held) = parts.stores.key_versions_in(owner, at) {
            all.merge(held)?;
        }
    }
    Ok(all)
}

// Merges the owner's and the hints' versions of the slot's key into a new set.
fn slot_versions(parts: &Parts, at: &SlotKey) -> Result<Versions, Refusal>
    requires { JoinsTell (owned_at parts.now.slots (held_at parts.now.stores) at.now.slot at.now.key)
        (λ x. hinted_at parts.now.hints x at.now.slot at.now.key) }
    ensures ok { IfOk result
        (MergesOthers (owned_at parts.now.slots (held_at parts.now.stores) at.now.slot at.now.key) (λ x. true)
        (λ x. hinted_at parts.now.hints x at.now.slot at.now.key)) }
    ensures memory { IfErr result (λ e. e ≡ OutOfMemory) }
{
    let mut all = owner_versions(parts, at)?;
    if let Some(keepers) = parts.hints.key_keepers(at.slot, at.key) {
        merge_hints(&mut all, &parts.hints, keepers, at)?;
    }
    Ok(all)
}

/// Returns what the get has found after reading the slot, and the puts found there.
pub fn look(parts: &Parts, get: u32, index: u32) -> Result<(Found, Listed<u32>), Refusal>
    requires sound { IsSound parts.now }
    requires passes { Passes parts.now (Read get index) }
    ensures ok { IfOk result (λ found. (w : World) → Meets parts.now w
        → FindsAt (ring_of parts.now) (plan_of parts.now) (kept_of parts.now) w get index found.0 found.1) }
    ensures memory { IfErr result (λ e. e ≡ OutOfMemory) }
{
    let Some(now) = parts.gets.get(get) else {
        unreachable!();
    };
    let place = parts.keys.place(now.key);
    let partition = place.partition;
    let slot = Slot { partition, index };
    let key = parts.keys.id(now.key);
    let at_slot = slot_versions(parts, &SlotKey { slot, key })?;
    let puts = at_slot.puts()?;
    let found = now.found.with(&at_slot)?;
    Ok((found, puts))
}
