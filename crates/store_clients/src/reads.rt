//! Reads of slots for gets.

ghost use Rattle.std.specs.Prelude.{◌≡◌, IfOk, IfErr, OnErr};
ghost use Rattle.ring_names.specs.declared.refusal.Refusal.TheVariants.{OutOfMemory};
ghost use Rattle.ring_hints.specs.Hints.{hinted_at};
ghost use Rattle.plan_runs.specs.declared.event.Event.TheVariants.{Read};
ghost use Rattle.store_parts.specs.Nodes.{is_up_at};
ghost use Rattle.store_parts.specs.Parts.{IsSound, Follows, Tests, Passes, Answers, Stays};
ghost use Rattle.store_clients.specs.Reads.{StopsRead};

use crate::keepers::keeper_refusal;
use crate::looks::look;
use plan_runs::Reply;
use ring_names::{Listed, Refusal, Slot};
use ring_store::SlotKey;
use store_parts::Parts;

fn down_refusal(parts: &Parts, at: &SlotKey) -> Option<Refusal>
    ensures { StopsRead parts.now.slots (is_up_at parts.now.nodes)
        (λ x. hinted_at parts.now.hints x at.now.slot at.now.key) at.now.slot result }
{
    if let Some(owner) = parts.slots.owner(at.slot) {
        if !parts.nodes.is_up(owner) {
            return Some(Refusal::NodeDown(owner.0));
        }
    }
    keeper_refusal(&parts.nodes, &parts.hints, at)
}

/// Returns why a get cannot read a slot now. Costs a look-up for each keeper of the key.
///
/// Get or slot is unknown, the get has ended or read the slot, or the owner or a keeper of the key is down.
pub fn read_refusal(parts: &Parts, get: u32, index: u32) -> Option<Refusal>
    requires { IsSound parts.now }
    ensures { Tests parts.now (Read get index) result }
{
    let Some(now) = parts.gets.get(get) else {
        return Some(Refusal::UnknownNumber);
    };
    if parts.approved.ring().n() <= index {
        return Some(Refusal::UnknownNumber);
    }
    if now.reply.is_some() {
        return Some(Refusal::AlreadyDone);
    }
    if now.read.has(index) {
        return Some(Refusal::AlreadyDone);
    }
    let place = parts.keys.place(now.key);
    let partition = place.partition;
    let slot = Slot { partition, index };
    let key = parts.keys.id(now.key);
    down_refusal(parts, &SlotKey { slot, key })
}

/// Reads the slot for the get. The reply has the numbers of the puts found there.
///
/// Costs a merge of the slot's versions with those found before, and a sort. Each keeper of the key costs a look-up and
/// a merge.
///
/// Such a merge is one comparison of clocks if nothing is new, and both sets have one version or at least eight.
pub fn read(parts: &mut Parts, get: u32, index: u32) -> Result<Reply, Refusal>
    requires sound { IsSound parts.old }
    requires passes { Passes parts.old (Read get index) }
    ensures ok { IfOk result (λ r. Answers parts.old (Read get index) r parts.new) }
    ensures same { OnErr result (Stays parts.old parts.new) }
    ensures memory { IfErr result (λ e. e ≡ OutOfMemory) }
    ensures follows { Follows parts.old parts.new }
{
    let (found, puts) = look(parts, get, index)?;
    parts.gets.set_found(get, index, found);
    Ok(Reply::Found(puts))
}

/// Reads the slot as `read` does, and returns the reply twice.
pub fn read_with_copy(parts: &mut Parts, get: u32, index: u32) -> Result<(Reply, Reply), Refusal>
    requires sound { IsSound parts.old }
    requires passes { Passes parts.old (Read get index) }
    ensures ok { IfOk result (λ r. Answers parts.old (Read get index) r.0 parts.new) }
    ensures copy { IfOk result (λ r. r.1 ≡ r.0) }
    ensures same { OnErr result (Stays parts.old parts.new) }
    ensures memory { IfErr result (λ e. e ≡ OutOfMemory) }
    ensures follows { Follows parts.old parts.new }
{
    let (found, puts) = look(parts, get, index)?;
    let copy = Vec::from_slice(parts.alloc, puts.as_slice())?;
    parts.gets.set_found(get, index, found);
    Ok((Reply::Found(puts), Reply::Found(Listed::from_vec(copy))))
}
