//! Runs with faulty command lines, inputs or outputs.

ghost use Rattle.std.specs.Prelude.{◌<◌};

use crate::memory::{Endless, InterruptedReader, InterruptedWriter, MemoryReader, MemoryWriter};
use ringplan_run::{Screen, end_without_words, run};
use std::process::Abort;
use std::rt::Files;
use std::str;
use std::sync::Wait;
use std::test::Fail;
use std::thread::Threads;

const CHECK: [&str; 2] = ["ringplan", "check"];

const BUNDLE: &[u8] =
    b"ring 1\nspace 1\nquorum 1 1 1\nnode a 1 in\nslots 0 a\nend\nplan 1\nend\ncert 1\nend\n";

// Borrows the output: dropping it at each exit is costly to prove.
fn shows<RT: Abort>(rt: &RT, shown: &[u8], text: &str) -> Result<(), Fail> {
    let shown = str::from_utf8(shown)?;
    assert!(rt; shown.contains(text), "{shown}");
    Ok(())
}

fn ends<RT: Abort>(rt: &RT, ended: u8, status: u8) {
    assert_eq!(rt; ended, status);
}

fn ends_with<RT: Abort>(rt: &RT, ended: u8, status: u8, shown: &[u8], text: &[u8]) {
    assert_eq!(rt; shown, text);
    assert_eq!(rt; ended, status);
}

// Runs the program with two arguments: it ends with `status`, and prints `text`.
fn told<RT: AllocGlobal + Files + Eprint + Threads + Wait + Sync + Abort>(
    rt: &RT,
    first: &str,
    second: &str,
    status: u8,
    text: &str,
) -> Result<(), Fail> {
    let mut output = MemoryWriter::new(rt.alloc(), 4096, 2);
    let words = ["ringplan", first, second];
    ends(
        rt,
        run(
            rt,
            Screen::Plain,
            words.as_slice(),
            &mut Endless,
            &mut output,
        ),
        status,
    );
    shows(rt, output.bytes.as_slice(), text)
}

#[test]
fn helps_printed(rt: HostRuntime) -> Result<(), Fail> {
    told(&rt, "--help", "-h", 0, "migrate")?;
    told(&rt, "migrate", "-h", 0, "checks nothing")?;
    told(&rt, "check", "--help", 0, "Exit status")?;
    told(&rt, "check", "-h", 0, "--workers <K>")?;
    told(&rt, "drive", "-h", 0, "--workers <K>")?;
    told(&rt, "drive", "--help", 0, "--format json")?;
    told(&rt, "play", "--help", 0, "for each event")?;
    told(&rt, "plan", "--help", 0, "change 1")?;
    told(&rt, "play", "--help", 0, "Example: ringplan play examples/")?;
    told(&rt, "play", "-h", 0, "With --help: the formats")?;
    told(&rt, "goal", "--help", 0, "goal ring")?;
    told(&rt, "--version", "-h", 0, "ringplan 1.0.0")?;
    told(&rt, "completions", "-h", 0, "bash, zsh or fish")?;
    told(&rt, "help", "check", 0, "Exit status")
}

fn silent<RT: AllocGlobal + Files + Eprint + Threads + Wait + Sync + Abort>(
    rt: &RT,
    words: &[&str],
    status: u8,
) {
    let mut output = MemoryWriter::new(rt.alloc(), 4096, 2);
    let ended = run(rt, Screen::Plain, words, &mut Endless, &mut output);
    ends_with(rt, ended, status, output.bytes.as_slice(), b"");
}

#[test]
fn mistakes_told_on_standard_error(rt: HostRuntime) {
    silent(&rt, &["ringplan", "verify"], 2);
    silent(&rt, &["ringplan", "check", "--fast"], 2);
    silent(&rt, &["ringplan", "judge"], 2);
    silent(&rt, &["ringplan", "bundle"], 2);
    silent(&rt, &["ringplan", "goal", "--even"], 2);
    silent(&rt, &["ringplan", "drive", "--json"], 2);
    silent(&rt, &["ringplan", "drive", "--format", "lines"], 2);
    silent(&rt, &["ringplan", "check", "--workers"], 2);
    silent(&rt, &["ringplan", "check", "--workers", "0"], 2);
    silent(&rt, &["ringplan", "check", "--workers=65"], 2);
    silent(&rt, &["ringplan", "check", "--workers", "two"], 2);
    silent(&rt, &["ringplan", "play", "--workers", "2"], 2);
    silent(&rt, &["ringplan", "drive", "--workers=0"], 2);
    silent(&rt, &["ringplan", "drive", "--workers=65"], 2);
    silent(&rt, &["ringplan", "goal", "--fast"], 2);
    silent(&rt, &["ringplan", "goal", "--racks-behind", "ab"], 2);
    silent(&rt, &["ringplan", "windows", "--rounds", "0"], 2);
    silent(&rt, &["ringplan", "show"], 2);
    silent(&rt, &["ringplan", "completions", "tcsh"], 2);
    silent(&rt, &["ringplan", "man", "page"], 2);
    silent(&rt, &["ringplan", "show", "--exit-code"], 2);
}

#[test]
fn files_that_are_not_there(rt: HostRuntime) {
    silent(&rt, &["ringplan", "check", "none.bundle"], 3);
    silent(&rt, &["ringplan", "show", "none.bundle"], 3);
    silent(&rt, &["ringplan", "check", "one", "other"], 3);
}

fn begins<RT: Abort>(rt: &RT, shown: &[u8], text: &str) -> Result<(), Fail> {
    let shown = str::from_utf8(shown)?;
    assert!(rt; shown.starts_with(text), "{shown}");
    Ok(())
}

#[test]
fn words_that_are_no_text(rt: HostRuntime) -> Result<(), Fail> {
    let mut output = MemoryWriter::new(rt.alloc(), 4096, 2);
    ends(&rt, end_without_words(&mut output), 2);
    begins(&rt, output.bytes.as_slice(), "error: invalid UTF-8")
}

// The answer to the least bundle, at most `step` bytes a read or write.
fn answered<RT: AllocGlobal + Files + Eprint + Threads + Wait + Sync + Abort>(rt: &RT, step: usize)
    requires { 0 < step }
{
    let mut input = MemoryReader {
        rest: BUNDLE,
        step,
        calls: 4096,
    };
    let mut output = MemoryWriter::new(rt.alloc(), step, 64);
    let ended = run(rt, Screen::Plain, CHECK.as_slice(), &mut input, &mut output);
    ends_with(rt, ended, 0, output.bytes.as_slice(), b"yes\n");
}

#[test]
fn short_reads_and_writes(rt: HostRuntime) {
    answered(&rt, 1);
    answered(&rt, 4096);
}

#[test]
fn interrupted_reads_and_writes(rt: HostRuntime) {
    let mut input = InterruptedReader {
        inner: MemoryReader {
            rest: BUNDLE,
            step: 7,
            calls: 4096,
        },
        was_told: false,
    };
    let mut output = InterruptedWriter {
        inner: MemoryWriter::new(rt.alloc(), 1, 64),
        was_told: false,
    };
    let ended = run(
        &rt,
        Screen::Plain,
        CHECK.as_slice(),
        &mut input,
        &mut output,
    );
    ends_with(&rt, ended, 0, output.inner.bytes.as_slice(), b"yes\n");
}

fn is_called_once<RT: Abort>(rt: &RT, calls: usize) {
    assert_eq!(rt; calls, 8);
}

#[test]
fn a_write_that_takes_nothing(rt: HostRuntime) {
    let mut output = MemoryWriter::new(rt.alloc(), 0, 9);
    let words = ["ringplan", "--version"];
    let ended = run(
        &rt,
        Screen::Plain,
        words.as_slice(),
        &mut Endless,
        &mut output,
    );
    ends_with(&rt, ended, 3, output.bytes.as_slice(), b"");
    is_called_once(&rt, output.calls);
}

#[test]
fn an_input_without_end(rt: HostRuntime) {
    let mut output = MemoryWriter::new(rt.alloc(), 9, 9);
    let ended = run(
        &rt,
        Screen::Plain,
        CHECK.as_slice(),
        &mut Endless,
        &mut output,
    );
    ends_with(&rt, ended, 2, output.bytes.as_slice(), b"no 2 0\n");
}
