//! Runs of each subcommand whose input or output fails at some call, or takes no more.

use crate::memory::{MemoryReader, MemoryWriter};
use ringplan_run::{Screen, run};
use std::process::Abort;
use std::rt::Files;
use std::sync::Wait;
use std::test::Fail;
use std::thread::Threads;

const PLAN: &[u8] =
    b"ring 1\nspace 1\nquorum 1 1 1\nnode a 1 in\nnode b 1 out\nslots 0 a\nend\nchange 1\njoin b\nleave a\nend\n";

const CHECK: &[u8] =
    b"ring 1\nspace 1\nquorum 1 1 1\nnode a 1 in\nslots 0 a\nend\nplan 1\nend\ncert 1\nend\n";

const PLAY: &[u8] =
    b"ring 1\nspace 1\nquorum 1 1 1\nnode a 1 in\nslots 0 a\nend\nplan 1\nend\ncert 1\nend\nscript 1\nput w k x\nwrite 0 0\nack 0\nend\n";

const REPLAY: &[u8] =
    b"ring 1\nspace 1\nquorum 1 1 1\nnode a 1 in\nslots 0 a\nend\nplan 1\nend\ncert 1\nend\nhistory 1\nput w k x = put 0\nend\n";

const DRIVE: &[u8] =
    b"ring 1\nspace 1\nquorum 1 1 1\nnode a 1 in\nslots 0 a\nend\nplan 1\nend\ncert 1\nend\nscript 1\nput w k x\nget k\nend\n";

// More calls than any of these runs makes.
const MANY: usize = 4096;

// How many reads a run makes, of 16 bytes each.
fn reads_of<RT: AllocGlobal + Files + Eprint + Threads + Wait + Sync + Abort>(
    rt: &RT,
    word: &str,
    bundle: &[u8],
) -> usize {
    let mut input = MemoryReader {
        rest: bundle,
        step: 16,
        calls: MANY,
    };
    let mut output = MemoryWriter::new(rt.alloc(), MANY, MANY);
    let ended = run(
        rt,
        Screen::Plain,
        &["ringplan", word],
        &mut input,
        &mut output,
    );
    assert_eq!(rt; ended, 0);
    MANY.saturating_sub(input.calls)
}

fn failed<RT: Abort>(rt: &RT, ended: u8, shown: &[u8], text: &[u8]) {
    assert_eq!(rt; ended, 3);
    assert_eq!(rt; shown, text);
}

fn reads_fail<RT: AllocGlobal + Files + Eprint + Threads + Wait + Sync + Abort>(
    rt: &RT,
    word: &str,
    bundle: &[u8],
) {
    let reads = reads_of(rt, word, bundle);
    assert!(rt; reads > bundle.len() / 16);
    for calls in 0..reads {
        let mut input = MemoryReader {
            rest: bundle,
            step: 16,
            calls,
        };
        let mut output = MemoryWriter::new(rt.alloc(), MANY, MANY);
        let ended = run(
            rt,
            Screen::Plain,
            &["ringplan", word],
            &mut input,
            &mut output,
        );
        failed(rt, ended, output.bytes.as_slice(), b"no 61\n");
    }
}

#[test]
fn each_read_fails(rt: HostRuntime) {
    reads_fail(&rt, "plan", PLAN);
    reads_fail(&rt, "check", CHECK);
    reads_fail(&rt, "play", PLAY);
    reads_fail(&rt, "replay", REPLAY);
    reads_fail(&rt, "drive", DRIVE);
    reads_fail(&rt, "migrate", CHECK);
}

fn written<RT: AllocGlobal + Files + Eprint + Threads + Wait + Sync + Abort>(
    rt: &RT,
    word: &str,
    bundle: &[u8],
    output: &mut MemoryWriter,
) -> u8 {
    let mut input = MemoryReader {
        rest: bundle,
        step: MANY,
        calls: MANY,
    };
    run(rt, Screen::Plain, &["ringplan", word], &mut input, output)
}

// The whole output if each write takes one byte. The last call flushes.
fn output_of<RT: AllocGlobal + Files + Eprint + Threads + Wait + Sync + Abort>(
    rt: &RT,
    word: &str,
    bundle: &[u8],
) -> Vec<u8> {
    let mut output = MemoryWriter::new(rt.alloc(), 1, MANY);
    let ended = written(rt, word, bundle, &mut output);
    assert_eq!(rt; ended, 0);
    assert!(rt; output.bytes.len() >= 4);
    output.bytes
}

fn broke_off<RT: Abort>(rt: &RT, ended: u8, shown: &[u8], text: &[u8], count: usize) {
    assert_eq!(rt; ended, 3);
    assert_eq!(rt; shown.len(), count);
    assert!(rt; text.starts_with(shown));
}

// The call after so many one-byte writes fails, a write or the final flush.
fn call_fails<RT: AllocGlobal + Files + Eprint + Threads + Wait + Sync + Abort>(
    rt: &RT,
    word: &str,
    bundle: &[u8],
    text: &[u8],
    calls: usize,
) {
    let mut output = MemoryWriter::new(rt.alloc(), 1, calls);
    let ended = written(rt, word, bundle, &mut output);
    broke_off(rt, ended, output.bytes.as_slice(), text, calls);
}

// Lets each write and the final flush fail in turn.
fn writes_fail<RT: AllocGlobal + Files + Eprint + Threads + Wait + Sync + Abort>(
    rt: &RT,
    word: &str,
    bundle: &[u8],
    text: &[u8],
) {
    for calls in 0..text.len() {
        call_fails(rt, word, bundle, text, calls);
    }
    call_fails(rt, word, bundle, text, text.len());
}

// For each length, lets the output take so many bytes, then none. No call follows.
fn writes_take_nothing<RT: AllocGlobal + Files + Eprint + Threads + Wait + Sync + Abort>(
    rt: &RT,
    word: &str,
    bundle: &[u8],
    text: &[u8],
) {
    for room in 0..text.len() {
        let mut output = MemoryWriter::with_room(rt.alloc(), 1, room, MANY);
        let ended = written(rt, word, bundle, &mut output);
        broke_off(rt, ended, output.bytes.as_slice(), text, room);
        assert_eq!(rt; MANY.saturating_sub(output.calls), room.saturating_add(1));
    }
}

fn ends_fail<RT: AllocGlobal + Files + Eprint + Threads + Wait + Sync + Abort>(
    rt: &RT,
    word: &str,
    bundle: &[u8],
) {
    let text = output_of(rt, word, bundle);
    writes_fail(rt, word, bundle, text.as_slice());
    writes_take_nothing(rt, word, bundle, text.as_slice());
}

#[test]
fn each_write_fails(rt: HostRuntime) {
    ends_fail(&rt, "plan", PLAN);
    ends_fail(&rt, "check", CHECK);
    ends_fail(&rt, "play", PLAY);
    ends_fail(&rt, "replay", REPLAY);
    ends_fail(&rt, "drive", DRIVE);
    ends_fail(&rt, "migrate", CHECK);
}

const REST: &[u8] = b"ring 1\nspace 1\nquorum 1 1 1\nnode a 1 in\nslots 0 a\nend\nchange 1\nend\n";

// A goal's exit status tells whether its plan has steps.
fn goal_ends<RT: AllocGlobal + Files + Eprint + Threads + Wait + Sync + Abort>(
    rt: &RT,
    bundle: &[u8],
    status: u8,
) {
    let mut input = MemoryReader {
        rest: bundle,
        step: MANY,
        calls: MANY,
    };
    let mut output = MemoryWriter::new(rt.alloc(), MANY, MANY);
    let words = ["ringplan", "goal", "--exit-code"];
    let ended = run(rt, Screen::Plain, &words, &mut input, &mut output);
    assert_eq!(rt; ended, status);
}

#[test]
fn steps_told_by_the_status(rt: HostRuntime) {
    goal_ends(&rt, PLAN, 4);
    goal_ends(&rt, REST, 0);
}
