//! Rings and plans of tests, and a store's replies to a script's events.
//!
//! Dropping a store or plan at each exit of its owner is costly to prove. So each function here owns one and lends it.

ghost use Rattle.plan_text.specs.Valid.{Suits};

use plan_cert::read_cert;
use plan_check::{Approved, Turned, check};
use plan_runs::{Event, Reply};
use plan_text::{Plan, read_plan};
use ring_core::World;
use ring_names::{Names, Refusal};
use ring_table::{Ring, read_ring};
use script_text::{Script, read_script};
use std::alloc::Global;
use std::process::Abort;
use std::test::Fail;

pub const RING: &[u8] =
    b"ring 1\nspace 4\nquorum 3 2 2\nnode a 4 in\nnode b 1 in\nnode c 4 in\nnode d 4 out\nslots 0 a b c\nslots 1 a b c\nslots 2 a b c\nslots 3 a b c\nend\n";

// One node may lose its data.
const LOSSY: &[u8] =
    b"ring 3\nspace 4\nquorum 3 2 3 1\nnode a 4 in\nnode b 1 in\nnode c 4 in\nnode d 4 out\nslots 0 a b c\nslots 1 a b c\nslots 2 a b c\nslots 3 a b c\nend\n";

// Node d is a member, and owns nothing.
const SPARE: &[u8] =
    b"ring 1\nspace 4\nquorum 3 2 2\nnode a 4 in\nnode b 1 in\nnode c 4 in\nnode d 4 in\nslots 0 a b c\nslots 1 a b c\nslots 2 a b c\nslots 3 a b c\nend\n";

// Node b has two allowances.
const SPLIT: &[u8] =
    b"ring 2\nspace 4\nquorum 3 2 2\nnode a 4 in\nnode b 1 2 in\nnode c 4 in\nnode d 4 out\nslots 0 a b c\nslots 1 a b c\nslots 2 a b c\nslots 3 a b c\nend\n";

pub const MOVE_STEPS: &[u8] =
    b"plan 1\njoin d\nmirror 0 1 d after 0\ncopy 0 1 owner after 1\nswitch 0 1 after 2\ndrop 0 1 b after 3\nend\n";

pub const CHAINS: &[u8] = b"cert 1\nchain b 2\nchain d 2\nend\n";

const SPLIT_CHAINS: &[u8] = b"cert 2\ngive b 2\nchain d 2\nend\n";

const NO_STEPS: &[u8] = b"plan 1\nend\n";

pub struct Texts {
    pub ring: &'static [u8],
    pub plan: &'static [u8],
    pub cert: &'static [u8],
}

pub const LOSS: Texts = Texts {
    ring: LOSSY,
    plan: NO_STEPS,
    cert: b"cert 2\nend\n",
};

pub const STAND_IN: Texts = Texts {
    ring: SPARE,
    plan: NO_STEPS,
    cert: b"cert 1\nend\n",
};

pub const MOVE: Texts = Texts {
    ring: RING,
    plan: MOVE_STEPS,
    cert: CHAINS,
};

pub const SPLIT_MOVE: Texts = Texts {
    ring: SPLIT,
    plan: MOVE_STEPS,
    cert: SPLIT_CHAINS,
};

pub fn approved_of(found: Result<Approved, Turned>) -> Result<Approved, Refusal> {
    match found {
        Ok(approved) => Ok(approved),
        Err(turned) => Err(turned.refusal),
    }
}

fn certified(alloc: Global, ring: Ring, plan: Plan, cert: &[u8]) -> Result<Approved, Refusal>
    requires { Suits ring plan }
{
    let cert = read_cert(alloc, &ring, cert)?;
    approved_of(check(alloc, ring, plan, &cert))
}

fn planned(alloc: Global, ring: Ring, plan: &[u8], cert: &[u8]) -> Result<Approved, Refusal> {
    let plan = read_plan(alloc, &ring, plan)?;
    certified(alloc, ring, plan, cert)
}

/// Reads and checks the plan.
pub fn approved(alloc: Global, texts: &Texts) -> Result<Approved, Refusal> {
    let ring = read_ring(alloc, texts.ring)?;
    planned(alloc, ring, texts.plan, texts.cert)
}

fn reply_added<RT: Abort>(
    rt: &RT,
    reply: &Reply,
    allowed: bool,
    out: &mut Vec<u8>,
) -> Result<(), Fail> {
    assert!(rt; allowed);
    reply.write_text(out)?;
    out.push(b'\n')?;
    Ok(())
}

fn refusal_added<RT: Abort>(
    rt: &RT,
    refusal: Refusal,
    allowed: Result<(), Refusal>,
    out: &mut Vec<u8>,
) -> Result<(), Fail> {
    refusal.write_line(out)?;
    assert_eq!(rt; allowed, Err(refusal));
    Ok(())
}

// Adds the event's reply, which must be the foretold one.
#[tactic(auto, using(ring_core::proofs::SoundAfterEvent::has_number))]
fn answer<RT: Abort>(
    rt: &RT,
    world: &mut World,
    event: &Event,
    out: &mut Vec<u8>,
) -> Result<(), Fail> {
    assert!(rt; world.puts() < 1000 && world.gets() < 1000);
    let allowed = world.allows(event);
    match world.apply(event) {
        Ok(reply) => reply_added(rt, &reply, allowed.is_ok(), out),
        Err(refusal) => refusal_added(rt, refusal, allowed, out),
    }
}

fn are_lines<RT: Abort>(rt: &RT, out: &[u8], lines: &[u8]) {
    assert_eq!(rt; out, lines);
}

fn events_answered<RT: AllocGlobal + Abort>(
    rt: &RT,
    world: &mut World,
    events: &[Event],
    lines: &str,
) -> Result<(), Fail> {
    let mut out = Vec::new(rt.alloc());
    for event in events {
        answer(rt, world, event, &mut out)?;
    }
    are_lines(rt, out.as_slice(), lines.as_bytes());
    Ok(())
}

pub fn script_of(alloc: Global, ring: &Ring, text: &[u8]) -> Result<Script, Refusal> {
    let mut names = Names::new(alloc);
    read_script(alloc, ring, &mut names, text)
}

fn script_answered<RT: AllocGlobal + Abort>(
    rt: &RT,
    ring: &Ring,
    world: &mut World,
    text: &[u8],
    lines: &str,
) -> Result<(), Fail> {
    let script = script_of(rt.alloc(), ring, text)?;
    events_answered(rt, world, script.events(), lines)
}

/// A script's events get these replies.
pub fn answered<RT: AllocGlobal + Abort>(
    rt: &RT,
    approved: &Approved,
    world: &mut World,
    events: &str,
    lines: &str,
) -> Result<(), Fail> {
    let text = format!(in rt.alloc(); "script 1\n{events}end\n")?;
    script_answered(rt, approved.ring(), world, text.as_bytes(), lines)
}
