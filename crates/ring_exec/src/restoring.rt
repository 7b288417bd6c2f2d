//! Restores a store and its history.

ghost use Rattle.std.specs.Prelude.{◌≡◌, ◌≢◌, ◌≤◌, ◌++◌, length, IfOk, IfErr, OnOk};
ghost use Rattle.ring_names.specs.declared.refusal.Refusal.TheVariants.{OutOfMemory, HistoryFull};
ghost use Rattle.plan_runs.specs.World.{World as TheWorld, opening_world};
ghost use Rattle.ring_core.specs.World.{ring_of, plan_of, Meets, Answers, IsOneMore, HasNumber, put_count, get_count};
ghost use Rattle.ring_core.specs.Replays.{Replays, Follows};
ghost use Rattle.ring_core.specs.Faults.{FailsAt, IsFirstFault};

use plan_check::Approved;
use plan_runs::Entry;
use ring_core::{World, follow};
use ring_names::Refusal;
use std::alloc::Global;

// Applies the entry again, and copies it, if the store gives the same reply. Lack of memory comes last.
fn retell(world: &mut World, place: u32, entry: &Entry) -> Result<Entry, Refusal>
    requires { HasNumber world.old entry.now.event }
    ensures entry { IfOk result (λ x. x ≡ entry.now) }
    ensures ok { IfOk result (λ x. Answers world.old entry.now.event entry.now.reply world.new) }
    ensures err { IfErr result (λ e. e ≢ OutOfMemory → (w : TheWorld) → Meets world.old w
        → FailsAt (ring_of world.old) (plan_of world.old) w place entry.now e) }
    ensures counts { IsOneMore world.old world.new }
    ensures ring { ring_of world.new ≡ ring_of world.old }
    ensures plan { plan_of world.new ≡ plan_of world.old }
{
    let reply = follow(world, place, entry)?;
    let event = entry.event.try_copy()?;
    Ok(Entry { event, reply })
}

fn retell_all(world: &mut World, history: &mut Vec<Entry>, entries: &[Entry]) -> Result<(), Refusal>
    requires few { length entries.now ≤ 1000000 }
    requires puts { put_count world.old ≡ 0 }
    requires gets { get_count world.old ≡ 0 }
    ensures items { OnOk result (history.new.items ≡ history.old.items ++ entries.now) }
    ensures ok { OnOk result (Follows world.old entries.now world.new) }
    ensures err { IfErr result (λ e. e ≢ OutOfMemory → (w : TheWorld) → Meets world.old w
        → IsFirstFault (ring_of world.old) (plan_of world.old) w 0 entries.now e) }
{
    history.reserve(entries.len())?;
    for (place, entry) in entries.iter().enumerate() {
        let told = retell(world, place as u32, entry)?;
        history.push_reserved(told);
    }
    Ok(())
}

pub(crate) fn retold<'a>(
    alloc: Global,
    approved: &'a Approved,
    entries: &[Entry],
) -> Result<(World<'a>, Vec<Entry>), Refusal>
    requires few { length entries.now ≤ 1000000 }
    ensures items { IfOk result (λ r. r.1.items ≡ entries.now) }
    ensures run { IfOk result (λ r. Replays approved.now.ring approved.now.plan r.0 entries.now) }
    ensures ring { IfOk result (λ r. ring_of r.0 ≡ approved.now.ring) }
    ensures plan { IfOk result (λ r. plan_of r.0 ≡ approved.now.plan) }
    ensures puts { IfOk result (λ r. put_count r.0 ≤ length entries.now) }
    ensures gets { IfOk result (λ r. get_count r.0 ≤ length entries.now) }
    ensures room { IfErr result (λ e. e ≢ HistoryFull) }
    ensures err { IfErr result (λ e. e ≢ OutOfMemory
        → IsFirstFault approved.now.ring approved.now.plan (opening_world approved.now.ring) 0 entries.now e) }
{
    let mut world = World::start(alloc, approved)?;
    let mut history = Vec::new(alloc);
    match retell_all(&mut world, &mut history, entries) {
        Ok(()) => Ok((world, history)),
        Err(refusal) => Err(refusal),
    }
}
