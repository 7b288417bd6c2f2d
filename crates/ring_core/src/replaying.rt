//! A whole history.

ghost use Rattle.std.specs.Prelude.{◌≡◌, ◌≢◌, ◌≤◌, length, IfOk, IfErr, OnOk};
ghost use Rattle.ring_names.specs.declared.refusal.Refusal.TheVariants.{OutOfMemory};
ghost use Rattle.plan_runs.specs.Runs.{IsRun};
ghost use Rattle.plan_runs.specs.World.{World as TheWorld, opening_world};
ghost use Rattle.ring_core.specs.World.{ring_of, plan_of, Meets, Answers, IsOneMore, HasNumber, put_count, get_count};
ghost use Rattle.ring_core.specs.Replays.{Replays, Follows};
ghost use Rattle.ring_core.specs.Faults.{FailsAt, IsFirstFault};

use crate::following::follow;
use crate::queue::Queue;
use crate::world::World;
use plan_check::Approved;
use plan_runs::Entry;
use ring_names::Refusal;
use std::alloc::Global;

fn follow_all(world: &mut World, history: &[Entry]) -> Result<(), Refusal>
    requires few { length history.now ≤ 1000000 }
    requires puts { put_count world.old ≡ 0 }
    requires gets { get_count world.old ≡ 0 }
    ensures ok { OnOk result (Follows world.old history.now world.new) }
    ensures err { IfErr result (λ e. e ≢ OutOfMemory → (w : TheWorld) → Meets world.old w
        → IsFirstFault (ring_of world.old) (plan_of world.old) w 0 history.now e) }
{
    for (place, entry) in history.iter().enumerate() {
        follow(world, place as u32, entry)?;
    }
    Ok(())
}

fn follow_given(world: &mut World, place: u32, entry: Entry) -> Result<(), Refusal>
    requires { HasNumber world.old entry.event }
    ensures ok { OnOk result (Answers world.old entry.event entry.reply world.new) }
    ensures err { IfErr result (λ e. e ≢ OutOfMemory → (w : TheWorld) → Meets world.old w
        → FailsAt (ring_of world.old) (plan_of world.old) w place entry e) }
    ensures counts { IsOneMore world.old world.new }
    ensures ring { ring_of world.new ≡ ring_of world.old }
    ensures plan { plan_of world.new ≡ plan_of world.old }
{
    match follow(world, place, &entry) {
        Ok(_) => Ok(()),
        Err(refusal) => Err(refusal),
    }
}

/// Follows all entries in order, and frees each. If it fails, as `replay` does, earlier entries have changed the store.
pub fn follow_queue(world: &mut World, entries: &mut Queue<Entry>) -> Result<(), Refusal>
    requires few { length entries.old ≤ 1000000 }
    requires puts { put_count world.old ≡ 0 }
    requires gets { get_count world.old ≡ 0 }
    ensures ok { OnOk result (Follows world.old entries.old world.new) }
    ensures err { IfErr result (λ e. e ≢ OutOfMemory → (w : TheWorld) → Meets world.old w
        → IsFirstFault (ring_of world.old) (plan_of world.old) w 0 entries.old e) }
{
    let mut place = 0;
    'entries: while let Some(entry) = entries.next() {
        follow_given(world, place, entry)?;
        place += 1;
    }
    Ok(())
}

/// Returns the store after the history, if this is a run of the plan.
///
/// Otherwise fails with `Mismatch`: the place, from 0, of the first entry refused or with another reply, and the
/// refusal's number or 0. Each entry costs a `World::apply`. Out of memory comes last at each entry.
pub fn replay<'a>(
    alloc: Global,
    approved: &'a Approved,
    history: &[Entry],
) -> Result<World<'a>, Refusal>
    requires few { length history.now ≤ 1000000 }
    ensures ok { IfOk result (λ a. Replays approved.now.ring approved.now.plan a history.now) }
    ensures ring { IfOk result (λ a. ring_of a ≡ approved.now.ring) }
    ensures plan { IfOk result (λ a. plan_of a ≡ approved.now.plan) }
    ensures err { IfErr result (λ e. e ≢ OutOfMemory
        → IsFirstFault approved.now.ring approved.now.plan (opening_world approved.now.ring) 0 history.now e) }
    ensures only { IfErr result
        (λ e. e ≢ OutOfMemory → (w : TheWorld) → IsRun approved.now.ring approved.now.plan history.now w → ⊥) }
{
    let mut world = World::start(alloc, approved)?;
    let found = follow_all(&mut world, history);
    match found {
        Ok(()) => Ok(world),
        Err(refusal) => Err(refusal),
    }
}
