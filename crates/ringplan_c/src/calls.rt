//! The calls. `c/ringplan.h` shows them as C sees them, and what a caller must do. A refused job prints the refusal's
//! line.

ghost use Rattle.std.specs.Prelude.{◌≡◌};
ghost use Rattle.ringplan_c.specs.Calls.{Comes, Replies};
ghost use Rattle.ringplan_answers.specs.Answers.{texts_of};
ghost use Rattle.ringplan_request.specs.declared.job.Job.TheVariants.{Check, Migrate, Plan, Play, Replay};

use crate::room::fill;
use ring_names::Refusal;
use ringplan_answers::{Job, MAX_INPUT, answer_of, make};
use std::alloc::Global;

/// The refusal's line if memory runs out. It needs no memory.
pub(crate) const NO_MEMORY: &[u8; 6] = b"no 60\n";

/// The status if memory failed.
pub(crate) const FAILED: u8 = 3;

// Does a job. Refuses an input that is too large, as the program does.
fn outcome(alloc: Global, job: Job, input: &[u8]) -> Result<Vec<u8>, Refusal>
    ensures { Comes job input.now (texts_of result) }
{
    if input.len() > MAX_INPUT {
        return Err(Refusal::TooLarge(0));
    }
    make(alloc, job, input)
}

fn reply(alloc: Global, job: Job, input: &[u8], output: &mut [u8], length: &mut usize) -> u8
    ensures { Replies job input.now output.old output.new length.new result }
{
    match answer_of(alloc, outcome(alloc, job, input)) {
        Ok(answer) => fill(answer.output.as_slice(), answer.status, output, length),
        Err(_) => fill(NO_MEMORY, FAILED, output, length),
    }
}

/// Returns the version of the calls. It changes if a call or its parameters change meaning.
#[unsafe(no_mangle)]
pub extern "C" fn ringplan_version() -> u32
    ensures { result ≡ 2 }
{
    2
}

/// `ringplan check`: `yes`, or the first refusal's line. Prints at most 28 bytes.
#[unsafe(no_mangle)]
pub extern "C" fn ringplan_check(
    alloc: Global,
    input: &[u8],
    output: &mut [u8],
    length: &mut usize,
) -> u8
    ensures { Replies Check input.now output.old output.new length.new result }
{
    reply(alloc, Job::Check, input, output, length)
}

/// `ringplan plan`: a change's plan and certificate.
#[unsafe(no_mangle)]
pub extern "C" fn ringplan_plan(
    alloc: Global,
    input: &[u8],
    output: &mut [u8],
    length: &mut usize,
) -> u8
    ensures { Replies Plan input.now output.old output.new length.new result }
{
    reply(alloc, Job::Plan, input, output, length)
}

/// `ringplan play`: the answers to a script's events.
#[unsafe(no_mangle)]
pub extern "C" fn ringplan_play(
    alloc: Global,
    input: &[u8],
    output: &mut [u8],
    length: &mut usize,
) -> u8
    ensures { Replies Play input.now output.old output.new length.new result }
{
    reply(alloc, Job::Play, input, output, length)
}

/// `ringplan migrate`: the texts with the ring in its next format.
#[unsafe(no_mangle)]
pub extern "C" fn ringplan_migrate(
    alloc: Global,
    input: &[u8],
    output: &mut [u8],
    length: &mut usize,
) -> u8
    ensures { Replies Migrate input.now output.old output.new length.new result }
{
    reply(alloc, Job::Migrate, input, output, length)
}

/// `ringplan replay`: `yes` and the owners after a history that is a run.
#[unsafe(no_mangle)]
pub extern "C" fn ringplan_replay(
    alloc: Global,
    input: &[u8],
    output: &mut [u8],
    length: &mut usize,
) -> u8
    ensures { Replies Replay input.now output.old output.new length.new result }
{
    reply(alloc, Job::Replay, input, output, length)
}
