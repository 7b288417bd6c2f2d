//! Writes.

ghost use Rattle.std.specs.Prelude.{◌≡◌, IfOk, IfErr, OnErr};
ghost use Rattle.ring_names.specs.declared.refusal.Refusal.TheVariants.{OutOfMemory};
ghost use Rattle.plan_runs.specs.declared.event.Event.TheVariants.{Write};
ghost use Rattle.store_parts.specs.Parts.{IsSound, Follows, Tests, Passes, Answers, Stays};

use crate::served::served_refusal;
use crate::targets::put_slot;
use plan_runs::Reply;
use ring_names::{Refusal, Slot};
use ring_store::SlotKey;
use store_parts::Parts;

/// Returns why a write is refused now: put or slot is unknown, or the owner or mirror is down.
pub fn write_refusal(parts: &Parts, put: u32, index: u32) -> Option<Refusal>
    requires { IsSound parts.now }
    ensures { Tests parts.now (Write put index) result }
{
    match put_slot(parts, put, index) {
        Some(slot) => served_refusal(parts, slot),
        None => Some(Refusal::UnknownNumber),
    }
}

/// Writes a put to the slot's owner and mirror. The reply is a ticket of the slot's generation. Costs a look-up of the
/// key at each.
pub fn write(parts: &mut Parts, put: u32, index: u32) -> Result<Reply, Refusal>
    requires sound { IsSound parts.old }
    requires passes { Passes parts.old (Write put index) }
    ensures ok { IfOk result (λ r. Answers parts.old (Write put index) r parts.new) }
    ensures same { OnErr result (Stays parts.old parts.new) }
    ensures memory { IfErr result (λ e. e ≡ OutOfMemory) }
    ensures follows { Follows parts.old parts.new }
{
    let Some(now) = parts.puts.get(put) else {
        unreachable!()
    };
    let place = parts.keys.place(now.key);
    let slot = Slot {
        partition: place.partition,
        index,
    };
    let Some(served) = parts.slots.at(slot) else {
        unreachable!()
    };
    let key = parts.keys.id(now.key);
    let at = SlotKey { slot, key };
    parts
        .stores
        .give(&at, served.owner, served.mirror, &now.version)?;
    parts.puts.set_ticket(put, index, served.generation);
    Ok(Reply::Ticket(slot, served.generation))
}
