//! Plays a bundle's script, on standard input, by a store, a store with its history, and a locked store. Restores a
//! store from that history. Prints the replies.
//!
//! Retries what fails with `OutOfMemory`. A line says if the failure changed anything. So the output is the same,
//! whichever allocation fails.
#![tactic(auto)]

ghost use Rattle.std.specs.Prelude.{◌≡◌, ◌<◌, ◌≤◌, length};

mod answer;
mod behind_a_lock;
mod ledgered;
mod mark;
mod store;

use answer::push_same;
use behind_a_lock::submitted_answers;
use ledgered::{Played, ledgered_answers, restored};
use plan_check::{Approved, Turned, check};
use plan_runs::{Entry, Event};
use ring_names::Refusal;
use ring_script::{Kind, read_bundle};
use std::alloc::{AllocGlobal, Global};
use std::io;
use std::io::{ErrorKind, Read, Write};
use std::marker::Brand;
use std::sync::Wait;
use std::sync::ledger::Blank;
use store::answers;

fn main(rt: HostRuntime) -> io::Result<()> {
    let mut bundle = Vec::new(rt.alloc());
    rt.stdin().read_to_end(&mut bundle)?;
    match played(&rt, bundle.as_slice()) {
        Ok(text) => rt.stdout().write_all(text.as_slice()),
        Err(_) => Err(io::Error::from(ErrorKind::OutOfMemory)),
    }
}

fn played<R: AllocGlobal + Wait>(rt: &R, bytes: &[u8]) -> Result<Vec<u8>, Refusal> {
    let alloc = rt.alloc();
    let bundle = read_bundle(alloc, Kind::Play, bytes)?;
    match check(alloc, bundle.ring, bundle.plan, &bundle.cert) {
        Ok(approved) => by_each(rt, &approved, bundle.script.events()),
        Err(Turned { refusal, .. }) => Err(refusal),
    }
}

fn by_each<R: AllocGlobal + Wait>(
    rt: &R,
    approved: &Approved,
    events: &[Event],
) -> Result<Vec<u8>, Refusal>
    requires { length events.now ≤ 1000000 }
{
    let mut out = Vec::new(rt.alloc());
    answers(rt.alloc(), approved, events, &mut out)?;
    let played = ledgered_answers::<Brand>(rt.alloc(), Blank::new(1), approved, events, &mut out)?;
    submitted_answers::<Brand, R>(rt, Blank::new(1), approved, events, &mut out)?;
    push_restored(rt.alloc(), approved, &played, &mut out)?;
    Ok(out)
}

fn push_restored(
    alloc: Global,
    approved: &Approved,
    played: &Played,
    out: &mut Vec<u8>,
) -> Result<(), Refusal> {
    let entries = played.entries.as_slice();
    let marked = match restored_mark(alloc, approved, entries) {
        Err(Refusal::OutOfMemory) => restored_mark(alloc, approved, entries)?,
        marked => marked?,
    };
    push_same(out, played.mark, marked)
}

fn restored_mark(alloc: Global, approved: &Approved, entries: &[Entry]) -> Result<u64, Refusal> {
    restored::<Brand>(alloc, Blank::new(1), approved, entries)
}
