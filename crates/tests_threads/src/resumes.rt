//! Drives resumed from a history.

ghost use Rattle.std.specs.Prelude.{◌≡◌, true};
ghost use Rattle.std.specs.List.{list_all};
ghost use Rattle.script_text.specs.Client.{is_client_event};

use crate::came::{Came, told, well};
use crate::inputs::{MOVE, MOVE_CHAINS, RING, SILENCE, approved, ring, script};
use crate::turnstile::Shut;
use plan_check::{Approved, Gate, OpenGate};
use plan_runs::{Entry, Event, Reply};
use ring_names::Refusal;
use ring_work::{Fault, drive, resume};
use script_text::Script;
use std::alloc::{AllocError, Global};
use std::slice;
use std::sync::Wait;
use std::test::Fail;
use std::thread::Threads;

// A resume's result, and `finished_before`; or the refusal and the history's length.
type Ended = Result<(Came, Option<usize>), (Refusal, usize)>;

fn done(alloc: Global, events: &[Event]) -> Result<Vec<Entry>, AllocError> {
    let mut entries = Vec::new(alloc);
    for event in events {
        entries.push(Entry {
            event: event.try_copy()?,
            reply: Reply::Plain,
        })?;
    }
    Ok(entries)
}

// A history that breaks off after the copy's first chunk.
fn broken(alloc: Global) -> Result<Vec<Entry>, AllocError> {
    let events = [
        Event::Do(0),
        Event::Do(1),
        Event::OpenCopy(2),
        Event::ChunkCopy(2, 0),
    ];
    done(alloc, events.as_slice())
}

// A history that breaks off after the copy.
fn copied(alloc: Global) -> Result<Vec<Entry>, AllocError> {
    let events = [Event::Do(0), Event::Do(1), Event::OpenCopy(2)];
    let mut entries = done(alloc, events.as_slice())?;
    for chunk in 0..16 {
        entries.push(Entry {
            event: Event::ChunkCopy(2, chunk),
            reply: Reply::Plain,
        })?;
    }
    entries.push(Entry {
        event: Event::CloseCopy(2),
        reply: Reply::Plain,
    })?;
    Ok(entries)
}

// How many steps were finished before one worker resumed, if these are the first steps and the worker finished the
// others.
fn finished_before(finishers: &[u32]) -> Option<usize> {
    let mut before = 0usize;
    for (step, finisher) in finishers.iter().enumerate() {
        match *finisher {
            0 => {}
            1 if before == step => before = step + 1,
            _ => return None,
        }
    }
    Some(before)
}

fn resumed<RT: AllocGlobal + Threads + Wait + Sync, G: Gate + Sync>(
    rt: &RT,
    approved: &Approved,
    script: &Script,
    entries: &[Entry],
    gate: &G,
) -> Result<Ended, Refusal>
    requires { list_all is_client_event script.now ≡ true }
{
    let scripts = slice::from_ref(script);
    match resume(rt, rt.alloc(), approved, entries, scripts, 1, gate) {
        Ok(outcome) => {
            let came = told(rt.alloc(), approved, scripts, 1, &outcome)?;
            Ok(Ok((came, finished_before(outcome.finishers.as_slice()))))
        }
        Err(fault) => Ok(Err((fault.refusal, fault.history.len()))),
    }
}

fn resumed_from<RT: AllocGlobal + Threads + Wait + Sync, G: Gate + Sync>(
    rt: &RT,
    entries: &[Entry],
    gate: &G,
) -> Result<Ended, Refusal> {
    let ring = ring(rt.alloc(), RING)?;
    let script = script(rt.alloc(), &ring, SILENCE)?;
    let approved = approved(rt.alloc(), ring, MOVE, MOVE_CHAINS)?;
    resumed(rt, &approved, &script, entries, gate)
}

fn stopped<RT: AllocGlobal + Threads + Wait + Sync>(
    rt: &RT,
    approved: &Approved,
    script: &Script,
) -> Option<Fault>
    requires { list_all is_client_event script.now ≡ true }
{
    match drive(rt, rt.alloc(), approved, slice::from_ref(script), 1, &Shut) {
        Ok(_) => None,
        Err(fault) => Some(fault),
    }
}

fn stopped_and_resumed<RT: AllocGlobal + Threads + Wait + Sync>(
    rt: &RT,
) -> Result<(Refusal, Ended), Refusal> {
    let ring = ring(rt.alloc(), RING)?;
    let script = script(rt.alloc(), &ring, SILENCE)?;
    let approved = approved(rt.alloc(), ring, MOVE, MOVE_CHAINS)?;
    let Some(fault) = stopped(rt, &approved, &script) else {
        return Err(Refusal::Disagree);
    };
    let ended = resumed(rt, &approved, &script, fault.history.as_slice(), &OpenGate)?;
    Ok((fault.refusal, ended))
}

#[test]
fn a_copy_that_broke_off_is_done_again(rt: HostRuntime) -> Result<(), Fail> {
    // Four entries, the abort, the copy with its fifteen other chunks, and the last two steps.
    let entries = broken(rt.alloc())?;
    let ended = resumed_from(&rt, entries.as_slice(), &OpenGate);
    assert_eq!(rt; ended, Ok(Ok((well(24, 4), Some(2)))));
    Ok(())
}

#[test]
fn a_copy_that_was_closed_stays_done(rt: HostRuntime) -> Result<(), Fail> {
    // Twenty entries and the last two steps; the copy is not aborted.
    let entries = copied(rt.alloc())?;
    let ended = resumed_from(&rt, entries.as_slice(), &OpenGate);
    assert_eq!(rt; ended, Ok(Ok((well(22, 4), Some(3)))));
    Ok(())
}

#[test]
fn a_resume_that_breaks_off(rt: HostRuntime) -> Result<(), Fail> {
    // Four entries, the abort, and the copy opened again, where the gate is shut.
    let entries = broken(rt.alloc())?;
    let ended = resumed_from(&rt, entries.as_slice(), &Shut);
    assert_eq!(rt; ended, Ok(Err((Refusal::TurnsSpent, 6))));
    Ok(())
}

#[test]
fn a_drive_that_stopped_goes_on(rt: HostRuntime) {
    let ended = stopped_and_resumed(&rt);
    assert_eq!(rt;
        ended,
        Ok((Refusal::TurnsSpent, Ok((well(24, 4), Some(2)))))
    );
}

#[test]
fn entries_that_are_no_run(rt: HostRuntime) -> Result<(), Fail> {
    let mut entries = Vec::new(rt.alloc());
    entries.push(Entry {
        event: Event::Do(0),
        reply: Reply::Put(0),
    })?;
    let ended = resumed_from(&rt, entries.as_slice(), &OpenGate);
    assert_eq!(rt; ended, Ok(Err((Refusal::Mismatch(0, 0), 0))));
    Ok(())
}
