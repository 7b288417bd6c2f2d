//! Plays a script.

ghost use Rattle.std.specs.Prelude.{◌≡◌, ◌≤◌, ◌++◌, ◌∷◌, [], codes, length, map, IfOk, IfErr, OnOk};
ghost use Rattle.ring_names.specs.declared.refusal.Refusal.TheVariants.{OutOfMemory};
ghost use Rattle.texts.specs.Parts.{text_of};
ghost use Rattle.ring_table.specs.Spelling.{rows_lines};
ghost use Rattle.plan_runs.specs.World.{World as TheWorld, opening_world};
ghost use Rattle.ring_core.specs.World.{ring_of, plan_of, Meets, put_count, get_count, HasNumber};
ghost use Rattle.ring_script.specs.Play.{owners_text, play_text, table_text};
ghost use Rattle.ring_script.specs.Steps.{Happens, Plays};

use plan_check::Approved;
use plan_runs::Event;
use ring_core::{Queue, World};
use ring_names::{Listed, NodeId, Refusal, push_decimal};
use ring_table::{Node, Ring, push_row};
use script_text::Script;
use std::alloc::{AllocError, Global};
use std::mem::forget;

fn play_event(
    world: &mut World,
    out: &mut Vec<u8>,
    place: u32,
    event: &Event,
) -> Result<(), Refusal>
    requires { HasNumber world.old event.now }
    ensures ok { OnOk result (Happens world.old event.now world.new out.old.items place out.new.items) }
    ensures memory { IfErr result (λ e. e ≡ OutOfMemory) }
{
    push_decimal(out, place)?;
    out.push(b' ')?;
    match world.apply(event) {
        Ok(reply) => {
            reply.write_text(out)?;
            out.push(b'\n')?;
            Ok(())
        }
        Err(Refusal::OutOfMemory) => Err(Refusal::OutOfMemory),
        Err(refusal) => {
            refusal.write_line(out)?;
            Ok(())
        }
    }
}

fn play_events(world: &mut World, out: &mut Vec<u8>, events: &[Event]) -> Result<(), Refusal>
    requires few { length events.now ≤ 1000000 }
    requires puts { put_count world.old ≡ 0 }
    requires gets { get_count world.old ≡ 0 }
    ensures ok { OnOk result (Plays world.old events.now world.new out.old.items out.new.items) }
    ensures memory { IfErr result (λ e. e ≡ OutOfMemory) }
{
    for (place, event) in events.iter().enumerate() {
        play_event(world, out, place as u32, event)?;
    }
    Ok(())
}

fn play_given(world: &mut World, out: &mut Vec<u8>, place: u32, event: Event) -> Result<(), Refusal>
    requires { HasNumber world.old event }
    ensures ok { OnOk result (Happens world.old event world.new out.old.items place out.new.items) }
    ensures memory { IfErr result (λ e. e ≡ OutOfMemory) }
{
    play_event(world, out, place, &event)
}

fn play_queue(
    world: &mut World,
    out: &mut Vec<u8>,
    events: &mut Queue<Event>,
) -> Result<(), Refusal>
    requires few { length events.old ≤ 1000000 }
    requires puts { put_count world.old ≡ 0 }
    requires gets { get_count world.old ≡ 0 }
    ensures ok { OnOk result (Plays world.old events.old world.new out.old.items out.new.items) }
    ensures memory { IfErr result (λ e. e ≡ OutOfMemory) }
{
    let mut place = 0;
    'events: while let Some(event) = events.next() {
        play_given(world, out, place, event)?;
        place += 1;
    }
    Ok(())
}

fn push_owners(out: &mut Vec<u8>, nodes: &[Node], rows: &[Listed<NodeId>]) -> Result<(), AllocError>
    requires { length rows.now ≤ 4096 }
    ensures { OnOk result
        (out.new.items ≡ out.old.items ++ text_of (rows_lines (map (λ x. x.name) nodes.now) 0 rows.now)) }
{
    for (partition, row) in rows.iter().enumerate() {
        push_row(out, nodes, partition as u32, row.as_slice())?;
    }
    Ok(())
}

/// Appends each partition's line of owners, and `end`.
pub(crate) fn push_table(
    out: &mut Vec<u8>,
    ring: &Ring,
    rows: &[Listed<NodeId>],
) -> Result<(), AllocError>
    requires { length rows.now ≡ ring.now.q }
    ensures { OnOk result (out.new.items ≡ out.old.items ++ table_text ring.now rows.now) }
{
    push_owners(out, ring.nodes(), rows)?;
    out.extend_from_slice(b"end\n")?;
    Ok(())
}

fn push_ending(world: &World, ring: &Ring, out: &mut Vec<u8>) -> Result<(), Refusal>
    requires { ring_of world.now ≡ ring.now }
    ensures ok { OnOk result ((w : TheWorld) → Meets world.now w
        → out.new.items ≡ out.old.items ++ owners_text ring.now (plan_of world.now) w) }
    ensures memory { IfErr result (λ e. e ≡ OutOfMemory) }
{
    let rows = world.table()?;
    push_table(out, ring, rows.as_slice())?;
    Ok(())
}

fn played(
    alloc: Global,
    ring: &Ring,
    world: &mut World,
    events: &[Event],
) -> Result<Vec<u8>, Refusal>
    requires ring { ring_of world.old ≡ ring.now }
    requires opening { Meets world.old (opening_world ring.now) }
    requires few { length events.now ≤ 1000000 }
    requires puts { put_count world.old ≡ 0 }
    requires gets { get_count world.old ≡ 0 }
    ensures text { IfOk result (λ v. v.items ≡ play_text ring.now (plan_of world.old) events.now) }
    ensures memory { IfErr result (λ e. e ≡ OutOfMemory) }
{
    let mut out = Vec::from_slice(alloc, b"yes\n")?;
    play_events(world, &mut out, events)?;
    push_ending(world, ring, &mut out)?;
    Ok(out)
}

// The first line, with room for the usual output. A text that grows is moved, and leaves a gap in memory.
fn first_line(alloc: Global, events: usize) -> Result<Vec<u8>, Refusal>
    ensures items { IfOk result (λ v. v.items ≡ codes "yes" ++ 10 ∷ []) }
    ensures memory { IfErr result (λ e. e ≡ OutOfMemory) }
{
    let mut out = Vec::with_capacity(alloc, events.saturating_mul(24))?;
    out.extend_from_slice(b"yes\n")?;
    Ok(out)
}

fn played_queue(
    alloc: Global,
    ring: &Ring,
    world: &mut World,
    events: &mut Queue<Event>,
) -> Result<Vec<u8>, Refusal>
    requires ring { ring_of world.old ≡ ring.now }
    requires opening { Meets world.old (opening_world ring.now) }
    requires few { length events.old ≤ 1000000 }
    requires puts { put_count world.old ≡ 0 }
    requires gets { get_count world.old ≡ 0 }
    ensures text { IfOk result (λ v. v.items ≡ play_text ring.now (plan_of world.old) events.old) }
    ensures memory { IfErr result (λ e. e ≡ OutOfMemory) }
{
    let mut out = first_line(alloc, events.len())?;
    play_queue(world, &mut out, events)?;
    push_ending(world, ring, &mut out)?;
    Ok(out)
}

/// Plays the script: returns `yes`, a line for each event, each partition's line of owners after the last event, and
/// `end`.
///
/// An event's line has the place, from 0, and the reply or the refusal's line. A refused event changes nothing, and the
/// next follows.
pub fn play(alloc: Global, approved: &Approved, script: &Script) -> Result<Vec<u8>, Refusal>
    ensures text { IfOk result (λ v. v.items ≡ play_text approved.now.ring approved.now.plan script.now) }
    ensures memory { IfErr result (λ e. e ≡ OutOfMemory) }
{
    let mut world = World::start(alloc, approved)?;
    played(alloc, approved.ring(), &mut world, script.events())
}

/// Plays an owned script: frees each event's memory after the event, for the store.
///
/// If the program `ends` afterwards, leaves the store's memory to the system. Freeing what a million events left takes
/// a fifth of the play's time.
pub fn play_whole(
    alloc: Global,
    approved: &Approved,
    script: Script,
    ends: bool,
) -> Result<Vec<u8>, Refusal>
    ensures text { IfOk result (λ v. v.items ≡ play_text approved.now.ring approved.now.plan script) }
    ensures memory { IfErr result (λ e. e ≡ OutOfMemory) }
{
    let mut events = Queue::of(script.into_vec());
    let mut world = World::start(alloc, approved)?;
    let text = played_queue(alloc, approved.ring(), &mut world, &mut events);
    if ends {
        forget(world);
    }
    text
}
