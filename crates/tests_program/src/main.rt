//! Runs the program on the bundles that its arguments name. Prints each name, answer and exit status. Arguments `check`
//! (the default), `migrate`, `play`, `plan`, `drive` and `replay` set the subcommand for what follows. `report` is a
//! drive whose report is printed. `race` is a drive by three workers: only its first line is printed, since the others
//! vary.
//!
//! Counts what goes wrong, and prints each count that is not 0:
//! - Accepted first parts of an accepted bundle.
//! - Checks by 1, 3 and 64 workers that differ.
//! - Replays of a play's history, also with a fault at each place, that differ from the play.
//! - Replays that refuse a drive's printed history.
//!
//! Words of `people.rt` ask for output for people.
#![tactic(auto)]

#[cfg(test)]
mod ends;
mod histories;
#[cfg(test)]
mod memory;
mod people;
#[cfg(test)]
mod program;

use crate::histories::{is_replayed, others};
use crate::people::{show_report, words_of};
use ringplan_answers::{check_bundle, plan_bundle, play_bundle, replay_bundle};
use ringplan_run::{Screen, run};
use std::alloc::Global;
use std::fs::File;
use std::rt::Runtime;
use std::sync::Wait;
use std::thread::Threads;
use std::{env, fs, io, str};

#[derive(Clone, Copy)]
enum Asked {
    Check,
    Migrate,
    Play,
    Plan,
    Drive,
    Report,
    Race,
    Replay,
}

// What to do with the next bundles: a job, or a report for people by these words.
#[derive(Clone, Copy)]
enum Wanted {
    Job(Asked),
    Report(&'static [&'static str]),
}

fn main(rt: HostRuntime) -> io::Result<()> {
    let mut wanted = Wanted::Job(Asked::Check);
    for word in env::args(&rt)?.skip(1) {
        match wanted_of(word.as_str()) {
            Some(next) => wanted = next,
            None => show_wanted(&rt, wanted, word.as_str())?,
        }
    }
    Ok(())
}

fn wanted_of(word: &str) -> Option<Wanted> {
    let asked = match word {
        "check" => Asked::Check,
        "migrate" => Asked::Migrate,
        "play" => Asked::Play,
        "plan" => Asked::Plan,
        "drive" => Asked::Drive,
        "report" => Asked::Report,
        "race" => Asked::Race,
        "replay" => Asked::Replay,
        _ => return words_of(word).map(Wanted::Report),
    };
    Some(Wanted::Job(asked))
}

fn show_wanted<RT: Runtime + AllocGlobal + Threads + Wait + Sync>(
    rt: &RT,
    wanted: Wanted,
    name: &str,
) -> io::Result<()> {
    match wanted {
        Wanted::Job(asked) => show(rt, asked, name),
        Wanted::Report(words) => show_report(rt, words, name),
    }
}

#[derive(PartialEq, Eq, Drop)]
struct Answer {
    bytes: Vec<u8>,
    status: u8,
}

fn said<RT: Runtime + AllocGlobal + Threads + Wait + Sync>(
    rt: &RT,
    words: &[&str],
    path: &str,
) -> io::Result<Answer> {
    let mut bundle = File::open(rt, path)?;
    let mut bytes = Vec::new(rt.alloc());
    let status = run(rt, Screen::Plain, words, &mut bundle, &mut bytes);
    Ok(Answer { bytes, status })
}

fn told<RT: Runtime + AllocGlobal + Threads + Wait + Sync>(
    rt: &RT,
    asked: Asked,
    path: &str,
) -> io::Result<Answer> {
    match asked {
        Asked::Report => said(rt, &["ringplan", "drive", "--format", "json"], path),
        Asked::Race => said(rt, &["ringplan", "drive", "--workers", "3"], path),
        _ => said(rt, &["ringplan", subcommand(asked)], path),
    }
}

fn show<RT: Runtime + AllocGlobal + Threads + Wait + Sync>(
    rt: &RT,
    asked: Asked,
    name: &str,
) -> io::Result<()> {
    let path = format!(in rt.alloc(); "{name}.bundle")?;
    let said = told(rt, asked, path.as_str())?;
    let text = str::from_utf8(said.bytes.as_slice()).unwrap_or("no text\n");
    let status = said.status;
    let shown = match asked {
        Asked::Race => text.get(..4).unwrap_or(text),
        _ => text,
    };
    print!(rt; "{name}\n{shown}{status}\n")?;
    if status == 0 {
        check_fronts(rt, asked, path.as_str())?;
    }
    match asked {
        Asked::Check => check_workers(rt, path.as_str(), &said),
        Asked::Play if status == 0 => check_histories(rt, path.as_str(), text),
        Asked::Drive | Asked::Race if status == 0 => check_drive(rt, path.as_str(), text),
        _ => Ok(()),
    }
}

fn subcommand(asked: Asked) -> &'static str {
    match asked {
        Asked::Check => "check",
        Asked::Migrate => "migrate",
        Asked::Play => "play",
        Asked::Plan => "plan",
        Asked::Drive | Asked::Report | Asked::Race => "drive",
        Asked::Replay => "replay",
    }
}

// Whether a bundle's first part is accepted. False for a migration, which needs no accepted plan, and for a drive,
// which may lack scripts.
fn accepts(alloc: Global, asked: Asked, front: &[u8]) -> bool {
    match asked {
        Asked::Check => check_bundle(alloc, front).is_ok(),
        Asked::Migrate | Asked::Drive | Asked::Report | Asked::Race => false,
        Asked::Play => play_bundle(alloc, front).is_ok(),
        Asked::Plan => plan_bundle(alloc, front).is_ok(),
        Asked::Replay => replay_bundle(alloc, front).is_ok(),
    }
}

fn check_fronts<RT: Runtime + AllocGlobal>(rt: &RT, asked: Asked, path: &str) -> io::Result<()> {
    let bundle = fs::read(rt, path)?;
    let mut accepted = 0u64;
    for end in 0..bundle.len() {
        if accepts(rt.alloc(), asked, &bundle[..end]) {
            accepted = accepted.saturating_add(1);
        }
    }
    if accepted > 0 {
        println!(rt; "{accepted} first parts are accepted")?;
    }
    Ok(())
}

fn check_workers<RT: Runtime + AllocGlobal + Threads + Wait + Sync>(
    rt: &RT,
    path: &str,
    alone: &Answer,
) -> io::Result<()> {
    let mut others = 0u32;
    for workers in ["1", "3", "64"] {
        if said(rt, &["ringplan", "check", "--workers", workers], path)? != *alone {
            others = others.saturating_add(1);
        }
    }
    if others > 0 {
        println!(rt; "{others} numbers of workers say otherwise")?;
    }
    Ok(())
}

fn check_histories<RT: Runtime + AllocGlobal>(rt: &RT, path: &str, output: &str) -> io::Result<()> {
    let bundle = fs::read(rt, path)?;
    let text = str::from_utf8(bundle.as_slice()).unwrap_or("");
    let others = others(rt.alloc(), text, output)?;
    if others > 0 {
        println!(rt; "{others} histories are judged otherwise")?;
    }
    Ok(())
}

fn check_drive<RT: Runtime + AllocGlobal>(rt: &RT, path: &str, output: &str) -> io::Result<()> {
    let bundle = fs::read(rt, path)?;
    let text = str::from_utf8(bundle.as_slice()).unwrap_or("");
    if !is_replayed(rt.alloc(), text, output)? {
        println!(rt; "a replay says no to the history")?;
    }
    Ok(())
}
