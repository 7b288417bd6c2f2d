//! Drives of one script.

ghost use Rattle.std.specs.Prelude.{◌≡◌, ◌<◌, ◌≤◌, true, IfOk};
ghost use Rattle.std.specs.List.{list_all};
ghost use Rattle.script_text.specs.Client.{is_client_event};

use crate::came::{Came, broken_one, drive_one, well};
use crate::inputs::{
    FIVE, FOUR, JOIN, NO_CHAINS, NOTHING, RING, SILENCE, TWO_CHAINS, TWO_COPIES, approved, ring,
    script,
};
use crate::turnstile::{ShutAt, Turnstile};
use plan_check::{Gate, OpenGate};
use plan_runs::Event;
use ring_names::{NodeId, Refusal};
use script_text::Script;
use std::alloc::Global;
use std::sync::Wait;
use std::test::Fail;
use std::thread::Threads;

#[derive(Clone, Copy)]
struct Texts<'t> {
    ring: &'t [u8],
    plan: &'t [u8],
    cert: &'t [u8],
    script: &'t [u8],
}

fn drive_texts<RT: AllocGlobal + Threads + Wait + Sync, G: Gate + Sync>(
    rt: &RT,
    texts: Texts,
    workers: u32,
    gate: &G,
) -> Result<Came, Refusal>
    requires { (0 < workers) × (workers ≤ 64) }
{
    let ring = ring(rt.alloc(), texts.ring)?;
    let script = script(rt.alloc(), &ring, texts.script)?;
    let approved = approved(rt.alloc(), ring, texts.plan, texts.cert)?;
    drive_one(rt, &approved, &script, workers, gate)
}

fn broken_texts<RT: AllocGlobal + Threads + Wait + Sync, G: Gate + Sync>(
    rt: &RT,
    texts: Texts,
    workers: u32,
    gate: &G,
) -> Result<Option<(usize, Refusal)>, Refusal>
    requires { (0 < workers) × (workers ≤ 64) }
{
    let ring = ring(rt.alloc(), texts.ring)?;
    let script = script(rt.alloc(), &ring, texts.script)?;
    let approved = approved(rt.alloc(), ring, texts.plan, texts.cert)?;
    Ok(broken_one(rt, &approved, &script, workers, gate))
}

const fn copies(script: &[u8]) -> Texts {
    Texts {
        ring: RING,
        plan: TWO_COPIES,
        cert: TWO_CHAINS,
        script,
    }
}

const fn still<'t>(ring: &'t [u8], script: &'t [u8]) -> Texts<'t> {
    Texts {
        ring,
        plan: NOTHING,
        cert: NO_CHAINS,
        script,
    }
}

#[test]
fn two_workers_overlap(rt: HostRuntime) {
    let came = drive_texts(&rt, copies(SILENCE), 2, &Turnstile::new(2));
    assert_eq!(rt; came, Ok(well(41, 4)));
}

#[test]
fn a_client_overlaps_the_plan(rt: HostRuntime) {
    let script = b"script 1\nget a\nend\n";
    let came = drive_texts(&rt, copies(script), 1, &Turnstile::new(2));
    assert_eq!(rt; came, Ok(well(45, 3)));
}

#[test]
fn one_worker_waits_in_vain(rt: HostRuntime) {
    let came = broken_texts(&rt, copies(SILENCE), 1, &Turnstile::new(2));
    assert_eq!(rt; came, Ok(Some((3, Refusal::TurnsSpent))));
}

#[test]
fn one_step_and_no_line(rt: HostRuntime) {
    let texts = Texts {
        ring: RING,
        plan: JOIN,
        cert: NO_CHAINS,
        script: SILENCE,
    };
    assert_eq!(rt; drive_texts(&rt, texts, 1, &OpenGate), Ok(well(1, 3)));
    assert_eq!(rt; drive_texts(&rt, texts, 64, &OpenGate), Ok(well(1, 66)));
}

#[test]
fn a_put_and_a_get(rt: HostRuntime) {
    let script = b"script 1\nput w1 a x31\nget a\nput w1 a x32 seen 0\nend\n";
    let came = drive_texts(&rt, still(RING, script), 1, &OpenGate);
    assert_eq!(rt; came, Ok(well(14, 3)));
}

#[test]
fn a_put_that_a_stand_in_keeps(rt: HostRuntime) {
    let script = b"script 1\ndown b\nput w1 a x31\nup b\nend\n";
    let came = drive_texts(&rt, still(FOUR, script), 1, &OpenGate);
    assert_eq!(rt; came, Ok(well(8, 3)));
}

#[test]
fn nodes_that_stay_down(rt: HostRuntime) {
    // In 64 rounds each writes to the only slot whose node is up. The put that names the unfinished get is left out.
    let script = b"script 1\ndown b\ndown c\nput w1 a x31\nget a\nput w1 a x32 seen 0\nend\n";
    let came = drive_texts(&rt, still(RING, script), 1, &OpenGate);
    assert_eq!(rt; came, Ok(well(69, 3)));
}

#[test]
fn nodes_that_are_all_down(rt: HostRuntime) {
    // Put and get start, without further replies.
    let script = b"script 1\ndown a\ndown b\ndown c\nput w1 a x31\nget a\nend\n";
    let came = drive_texts(&rt, still(RING, script), 1, &OpenGate);
    assert_eq!(rt; came, Ok(well(5, 3)));
}

#[test]
fn a_stand_in_that_is_down(rt: HostRuntime) {
    // The hint stays with e, since b is down.
    let script = b"script 1\ndown b\ndown d\nput w1 a x31\nend\n";
    let came = drive_texts(&rt, still(FIVE, script), 1, &OpenGate);
    assert_eq!(rt; came, Ok(well(7, 3)));
}

#[test]
fn a_gate_that_shuts_before_a_line(rt: HostRuntime) {
    // Line 0's put is the whole history.
    let script = b"script 1\nput w1 a x31\ndown b\nget a\nend\n";
    let gate = ShutAt {
        worker: 64,
        mark: 1,
    };
    let came = broken_texts(&rt, still(RING, script), 1, &gate);
    assert_eq!(rt; came, Ok(Some((5, Refusal::TurnsSpent))));
}

#[test]
fn a_gate_that_shuts_at_a_copy(rt: HostRuntime) {
    // The worker shows the last opened copy.
    for (mark, entries) in [(2, 3), (5, 23)] {
        let gate = ShutAt { worker: 0, mark };
        let came = broken_texts(&rt, copies(SILENCE), 1, &gate);
        assert_eq!(rt; came, Ok(Some((entries, Refusal::TurnsSpent))));
    }
}

#[test]
fn a_gate_that_shuts_at_other_steps(rt: HostRuntime) {
    for mark in [0, 1, 3, 4, 6] {
        let gate = ShutAt { worker: 0, mark };
        let came = drive_texts(&rt, copies(SILENCE), 1, &gate);
        assert_eq!(rt; came, Ok(well(41, 3)));
    }
}

// A node goes down and up as often as a script allows.
fn flaps(alloc: Global) -> Result<Script, Refusal>
    ensures { IfOk result (λ s. list_all is_client_event s ≡ true) }
{
    let mut script = Script::new(alloc);
    for number in 0..1_000_000u32 {
        let event = if number % 2 == 0 {
            Event::Down(NodeId(1))
        } else {
            Event::Up(NodeId(1))
        };
        if script.len() < 1_000_000 {
            script.push(event)?;
        }
    }
    if script.is_client() {
        return Ok(script);
    }
    Err(Refusal::Disagree)
}

fn flapped<RT: AllocGlobal + Threads + Wait + Sync>(
    rt: &RT,
) -> Result<Option<(usize, Refusal)>, Refusal> {
    let ring = ring(rt.alloc(), RING)?;
    let approved = approved(rt.alloc(), ring, JOIN, NO_CHAINS)?;
    let script = flaps(rt.alloc())?;
    Ok(broken_one(rt, &approved, &script, 1, &OpenGate))
}

#[test]
fn a_history_that_fills_up(rt: HostRuntime) -> Result<(), Fail> {
    assert_eq!(rt; flapped(&rt), Ok(Some((1_000_000, Refusal::Disagree))));
    Ok(())
}
