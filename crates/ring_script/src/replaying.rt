//! Replays a history.

ghost use Rattle.std.specs.Prelude.{◌≡◌, ◌≢◌, ◌≤◌, length, IfOk, IfErr};
ghost use Rattle.ring_names.specs.declared.refusal.Refusal.TheVariants.{OutOfMemory};
ghost use Rattle.plan_runs.specs.World.{World as TheWorld, opening_world};
ghost use Rattle.ring_core.specs.World.{ring_of, plan_of, Meets, put_count, get_count};
ghost use Rattle.ring_core.specs.Faults.{IsFirstFault};
ghost use Rattle.ring_script.specs.Replay.{ending_text, rows_text, IsReplayed};

use crate::playing::push_table;
use plan_check::Approved;
use plan_runs::Entry;
use ring_core::{Queue, World, follow_queue};
use ring_names::{Listed, NodeId, Refusal};
use ring_table::Ring;
use std::alloc::Global;
use std::mem::forget;

fn write_owners(alloc: Global, ring: &Ring, rows: &[Listed<NodeId>]) -> Result<Vec<u8>, Refusal>
    requires { length rows.now ≡ ring.now.q }
    ensures text { IfOk result (λ v. v.items ≡ rows_text ring.now rows.now) }
    ensures memory { IfErr result (λ e. e ≡ OutOfMemory) }
{
    let mut out = Vec::from_slice(alloc, b"yes\n")?;
    push_table(&mut out, ring, rows)?;
    Ok(out)
}

/// Returns a finished replay's output: `yes`, each partition's line of owners, and `end`.
pub fn write_ending(alloc: Global, ring: &Ring, world: &World) -> Result<Vec<u8>, Refusal>
    requires { ring_of world.now ≡ ring.now }
    ensures text { IfOk result
        (λ v. (w : TheWorld) → Meets world.now w → v.items ≡ ending_text ring.now (plan_of world.now) w) }
    ensures memory { IfErr result (λ e. e ≡ OutOfMemory) }
{
    let rows = world.table()?;
    write_owners(alloc, ring, rows.as_slice())
}

fn replayed(
    alloc: Global,
    approved: &Approved,
    world: &mut World,
    history: &mut Queue<Entry>,
) -> Result<Vec<u8>, Refusal>
    requires ring { ring_of world.old ≡ approved.now.ring }
    requires plan { plan_of world.old ≡ approved.now.plan }
    requires opening { Meets world.old (opening_world approved.now.ring) }
    requires few { length history.old ≤ 1000000 }
    requires puts { put_count world.old ≡ 0 }
    requires gets { get_count world.old ≡ 0 }
    ensures text { IfOk result (λ v. IsReplayed approved.now.ring approved.now.plan history.old v.items) }
    ensures err { IfErr result (λ e. e ≢ OutOfMemory
        → IsFirstFault approved.now.ring approved.now.plan (opening_world approved.now.ring) 0 history.old e) }
{
    follow_queue(world, history)?;
    write_ending(alloc, approved.ring(), world)
}

/// Replays the history. Returns `yes`, each partition's line of owners after the last entry, and `end`.
///
/// Fails with `Mismatch` at the first entry, by place from 0, that is refused or has another reply. The second number
/// is that refusal's, or 0.
///
/// Memory may run out at any entry. Each entry's memory is freed after the entry. If the program `ends` afterwards,
/// leaves the store's memory to the system.
pub fn replay_history(
    alloc: Global,
    approved: &Approved,
    history: Vec<Entry>,
    ends: bool,
) -> Result<Vec<u8>, Refusal>
    requires few { length history.items ≤ 1000000 }
    ensures text { IfOk result (λ v. IsReplayed approved.now.ring approved.now.plan history.items v.items) }
    ensures err { IfErr result (λ e. e ≢ OutOfMemory
        → IsFirstFault approved.now.ring approved.now.plan (opening_world approved.now.ring) 0 history.items e) }
{
    let mut entries = Queue::of(history);
    let mut world = World::start(alloc, approved)?;
    let text = replayed(alloc, approved, &mut world, &mut entries);
    if ends {
        forget(world);
    }
    text
}
