//! Advises a terminal after a one-line refusal.

ghost use Rattle.std.specs.Prelude.{map};
ghost use Rattle.ringplan_command.specs.Command.{asked};
ghost use Rattle.ringplan_command.specs.Files.{files_of};
ghost use Rattle.ringplan_run.specs.Watch.{RunsLine};

use crate::files::say;
use crate::program::run;
use ringplan_command::{Request, parse};
use ringplan_request::{Job, Screen};
use std::convert::AsStr;
use std::io::{Read, Write};
use std::rt::Files;
use std::sync::Wait;
use std::thread::Threads;

const WHY: &[u8; 39] = b"ringplan: `ringplan why FILE` says why\n";

const WHY_REPLAY: &[u8; 70] =
    b"ringplan: `ringplan why FILE` says why; `replay` also wants a history\n";

// Returns advice if `why` can explain the refusal.
fn advice_of(request: &Request) -> Option<&'static [u8]> {
    match request {
        Request::Do(Job::Check | Job::Plan | Job::Migrate) | Request::CheckBy(_) => Some(WHY),
        Request::Do(Job::Replay) => Some(WHY_REPLAY),
        _ => None,
    }
}

/// Runs a command line as `run` does. After a one-line refusal, a terminal also shows which command explains it.
pub fn run_advised<
    RT: AllocGlobal + Files + Eprint + Threads + Wait + Sync,
    S: AsStr,
    R: Read + Drop,
    W: Write,
>(rt: &RT, screen: Screen, words: &[S], input: &mut R, output: &mut W) -> u8
    ensures line { RunsLine (asked (map S.text words.now)) (files_of (map S.text words.now)) (R.remaining input.old) (R.remaining input.new)
        (W.contents output.old) (W.contents output.new) result }
{
    let status = run(rt, screen, words, input, output);
    let is_refused = status == 1 || status == 2;
    if is_refused && screen != Screen::Plain {
        if let Some(advice) = advice_of(&parse(rt.alloc(), words).request) {
            say(rt, advice);
        }
    }
    status
}
