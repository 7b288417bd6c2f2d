//! Results of drives.

ghost use Rattle.std.specs.Prelude.{◌≡◌, ◌<◌, ◌≤◌, true};
ghost use Rattle.std.specs.List.{list_all};
ghost use Rattle.script_text.specs.Client.{is_client_event};
ghost use Rattle.ring_work.specs.Drives.{AreOfClients};

use plan_check::{Approved, Gate};
use plan_runs::Entry;
use ring_board::{Outcome, agrees};
use ring_core::World;
use ring_names::Refusal;
use ring_work::drive;
use script_text::Script;
use std::alloc::Global;
use std::slice;
use std::sync::Wait;
use std::thread::Threads;

// The most puts and gets to replay.
const MOST: u32 = 1000;

/// The history's length, the receipt lists, whether the judge accepts them, and whether a store replies the same.
#[derive(Clone, Copy, Debug, PartialEq, Eq)]
pub struct Came {
    pub entries: usize,
    pub lists: usize,
    pub agrees: bool,
    pub replays: bool,
}

/// A successful drive's result.
pub const fn well(entries: usize, lists: usize) -> Came {
    Came {
        entries,
        lists,
        agrees: true,
        replays: true,
    }
}

#[tactic(auto, using(ring_core::proofs::SoundAfterEvent::has_number))]
fn is_answered(alloc: Global, world: &mut World, entry: &Entry) -> Result<bool, Refusal> {
    if world.puts() >= MOST || world.gets() >= MOST {
        return Err(Refusal::HistoryFull);
    }
    let reply = world.apply(&entry.event)?;
    let mut given = Vec::new(alloc);
    let mut noted = Vec::new(alloc);
    reply.write_text(&mut given)?;
    entry.reply.write_text(&mut noted)?;
    Ok(given.as_slice() == noted.as_slice())
}

fn are_answered(alloc: Global, world: &mut World, history: &[Entry]) -> Result<bool, Refusal> {
    for entry in history {
        if !is_answered(alloc, world, entry)? {
            return Ok(false);
        }
    }
    Ok(true)
}

fn replays(alloc: Global, approved: &Approved, history: &[Entry]) -> Result<bool, Refusal> {
    let mut world = World::start(alloc, approved)?;
    are_answered(alloc, &mut world, history)
}

pub fn told(
    alloc: Global,
    approved: &Approved,
    scripts: &[Script],
    workers: u32,
    outcome: &Outcome,
) -> Result<Came, Refusal> {
    let agrees = agrees(alloc, approved, scripts, workers, outcome)?;
    let replays = replays(alloc, approved, outcome.history.as_slice())?;
    Ok(Came {
        entries: outcome.history.len(),
        lists: outcome.receipts.len(),
        agrees,
        replays,
    })
}

/// Drives the plan with a client for each script.
pub fn drive_all<RT: AllocGlobal + Threads + Wait + Sync, G: Gate + Sync>(
    rt: &RT,
    approved: &Approved,
    scripts: &[Script],
    workers: u32,
    gate: &G,
) -> Result<Came, Refusal>
    requires workers { (0 < workers) × (workers ≤ 64) }
    requires scripts { AreOfClients scripts.now }
{
    match drive(rt, rt.alloc(), approved, scripts, workers, gate) {
        Ok(outcome) => told(rt.alloc(), approved, scripts, workers, &outcome),
        Err(fault) => Err(fault.refusal),
    }
}

/// Drives the plan with one client.
pub fn drive_one<RT: AllocGlobal + Threads + Wait + Sync, G: Gate + Sync>(
    rt: &RT,
    approved: &Approved,
    script: &Script,
    workers: u32,
    gate: &G,
) -> Result<Came, Refusal>
    requires workers { (0 < workers) × (workers ≤ 64) }
    requires client { list_all is_client_event script.now ≡ true }
{
    drive_all(rt, approved, slice::from_ref(script), workers, gate)
}

/// A broken drive's history length and refusal.
pub fn broken_one<RT: AllocGlobal + Threads + Wait + Sync, G: Gate + Sync>(
    rt: &RT,
    approved: &Approved,
    script: &Script,
    workers: u32,
    gate: &G,
) -> Option<(usize, Refusal)>
    requires workers { (0 < workers) × (workers ≤ 64) }
    requires client { list_all is_client_event script.now ≡ true }
{
    match drive(
        rt,
        rt.alloc(),
        approved,
        slice::from_ref(script),
        workers,
        gate,
    ) {
        Ok(_) => None,
        Err(fault) => Some((fault.history.len(), fault.refusal)),
    }
}
