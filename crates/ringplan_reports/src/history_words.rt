//! Why a history is wrong.

ghost use Rattle.std.specs.Prelude.{◌≢◌, OnOk};
ghost use Rattle.ring_names.specs.declared.refusal.Refusal.TheVariants.{OutOfMemory};

use crate::trail::Trail;
use history_text::read_replay;
use plan_check::{Approved, check};
use plan_goal::front;
use plan_runs::{Entry, Event, Reply};
use ring_core::{World, replay};
use ring_names::Refusal;
use show_why::{Page, Said};
use std::alloc::Global;

fn reason(code: u32) -> &'static [u8] {
    match code {
        0 => b"its reply would be another",
        12 => b"the node is not a member",
        40 => b"a step or a get that it waits for is not done",
        41 => b"it is so already",
        42 => b"a node that must be up is down",
        43 => b"the stand-in keeps a hint for another slot of the partition",
        44 => b"the stand-in serves a slot of the partition",
        45 => b"fewer slots than a write asks for have a current ticket",
        46 => b"fewer slots were read than a read asks for",
        47 => b"there is no such step, put, get, partition, slot or chunk",
        48 => b"hints must be handed off first",
        49 => b"the copy is not open",
        50 => b"chunks of the copy are left",
        52 => b"as many stores were lost as the ring allows",
        _ => b"it would be refused",
    }
}

/// Says why a history is not its plan's run.
pub(crate) fn tell_history(
    alloc: Global,
    said: &mut Said,
    bytes: &[u8],
    entry: u32,
    code: u32,
) -> Result<(), Refusal> {
    said.title_with(
        b"the history is not a run of the plan: entry # cannot have happened so",
        &[],
        &[entry],
    );
    let line = line_behind(bytes, 3)
        .saturating_add(1)
        .saturating_add(entry);
    said.fault(line, reason(code));
    if entry > 0 {
        said.beside(line.saturating_sub(1), b"up to here it is a run");
    }
    match replayed(alloc, bytes)? {
        Some(found) => tell_entry(alloc, said, bytes, &found, entry),
        None => Ok(()),
    }
}

#[derive(Drop)]
struct Recorded {
    approved: Approved,
    history: Vec<Entry>,
}

// None for a refused text or plan.
fn replayed(alloc: Global, bytes: &[u8]) -> Result<Option<Recorded>, Refusal> {
    let bundle = match read_replay(alloc, bytes) {
        Ok(bundle) => bundle,
        Err(Refusal::OutOfMemory) => return Err(Refusal::OutOfMemory),
        Err(_) => return Ok(None),
    };
    match check(alloc, bundle.ring, bundle.plan, &bundle.cert) {
        Ok(approved) => Ok(Some(Recorded {
            approved,
            history: bundle.history,
        })),
        Err(turned) => {
            let refusal = turned.refusal;
            if refusal == Refusal::OutOfMemory {
                return Err(refusal);
            }
            Ok(None)
        }
    }
}

fn line_behind(bytes: &[u8], parts: u32) -> u32 {
    let page = Page {
        bytes: &bytes[..front(bytes, parts)],
    };
    page.count().saturating_add(1)
}

fn step_of(event: &Event) -> Option<u32> {
    match event {
        Event::Do(step)
        | Event::OpenCopy(step)
        | Event::ChunkCopy(step, _)
        | Event::CloseCopy(step)
        | Event::AbortCopy(step) => Some(*step),
        _ => None,
    }
}

// Says the event's step, and the due reply.
fn tell_entry(
    alloc: Global,
    said: &mut Said,
    bytes: &[u8],
    found: &Recorded,
    entry: u32,
) -> Result<(), Refusal> {
    let history = found.history.as_slice();
    let Some(wrong) = history.get(entry as usize) else {
        return Ok(());
    };
    if let Some(step) = step_of(&wrong.event) {
        let line = line_behind(bytes, 1).saturating_add(1).saturating_add(step);
        said.beside_with(line, b"step #", &[], &[step]);
    }
    let Some((before, _)) = history.split_at_checked(entry as usize) else {
        return Ok(());
    };
    let trail = Trail {
        ring: found.approved.ring(),
        plan: found.approved.plan(),
        history: before,
        line: line_behind(bytes, 3).saturating_add(1),
    };
    match due(alloc, &found.approved, before, &wrong.event)? {
        Some(reply) => tell_reply(alloc, said, &trail, wrong, &reply),
        None => Ok(()),
    }
}

// Says the due reply, and how differing puts came.
fn tell_reply(
    alloc: Global,
    said: &mut Said,
    trail: &Trail,
    wrong: &Entry,
    reply: &Reply,
) -> Result<(), Refusal> {
    let mut text = Vec::new(alloc);
    reply.write_text(&mut text)?;
    said.note_with(b"The reply that was due: `@`.", &[text.as_slice()], &[]);
    trail.tell(alloc, said, wrong, reply)
}

// Returns the event's reply after `before`. None if refused.
fn due(
    alloc: Global,
    approved: &Approved,
    before: &[Entry],
    event: &Event,
) -> Result<Option<Reply>, Refusal> {
    if before.len() > 1_000_000 {
        return Ok(None);
    }
    match replay(alloc, approved, before) {
        Ok(mut world) => reply_of(&mut world, event),
        Err(refusal) => none_unless_memory(refusal),
    }
}

fn reply_of(world: &mut World, event: &Event) -> Result<Option<Reply>, Refusal> {
    if world.puts() == u32::MAX || world.gets() == u32::MAX {
        return Ok(None);
    }
    match world.apply(event) {
        Ok(reply) => Ok(Some(reply)),
        Err(refusal) => none_unless_memory(refusal),
    }
}

/// Ignores any refusal but `OutOfMemory`.
pub(crate) fn unless_memory(refusal: Refusal) -> Result<(), Refusal>
    ensures { OnOk result (refusal ≢ OutOfMemory) }
{
    if refusal == Refusal::OutOfMemory {
        return Err(refusal);
    }
    Ok(())
}

fn none_unless_memory(refusal: Refusal) -> Result<Option<Reply>, Refusal> {
    unless_memory(refusal)?;
    Ok(None)
}
