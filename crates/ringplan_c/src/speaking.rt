//! The call for people's commands, which returns standard output followed by standard error.

ghost use Rattle.std.specs.Prelude.{◌≡◌, ◌++◌, List, ℕ, IfOk};
ghost use Rattle.ringplan_c.specs.Speaking.{IsSaid, IsTurnedAway, Reports, Says, Speaks};
ghost use Rattle.ringplan_command.specs.Files.{files_in};

use crate::calls::{FAILED, NO_MEMORY};
use crate::line::read_line;
use crate::room::fill;
use change_text::Options;
use ring_names::Refusal;
use ringplan_answers::MAX_INPUT;
use ringplan_command::{CommandLine, Files, NO_WORDS, Request};
use ringplan_reports::{Report, report_bundle, report_unread};
use ringplan_request::Making;
use std::alloc::{AllocError, Global};

// For options that name a file.
const NO_FILES: &[u8; 77] =
    b"error: a call reads and writes no files\n\nFor more information, try '--help'.\n";

// For a command that is not for people.
const OTHER_CALLS: &[u8; 159] =
    b"error: ringplan_call is for the commands for people; ringplan_check, ringplan_plan, ringplan_play, ringplan_migrate and ringplan_replay are calls of their own\n";

const REFUSED: u8 = 2;

// Refuses options in these words.
fn turned_away(alloc: Global, words: &[u8]) -> Result<Report, Refusal>
    ensures { IfOk result (λ r. IsTurnedAway r.output.items r.status) }
{
    let errors = Vec::from_slice(alloc, words)?;
    Ok(Report {
        output: Vec::new(alloc),
        errors,
        status: REFUSED,
    })
}

// Reports what is made of the input. Refuses named files, and an input that is too large, as the program does.
fn report_making(
    alloc: Global,
    making: Making,
    options: &Options,
    files: &Files,
    input: &[u8],
) -> Result<Report, Refusal>
    ensures { IfOk result (λ r. Reports (files_in files.now) making options.now input.now r.output.items r.status) }
{
    if !files.inputs.is_empty() || files.output.is_some() || options.layout_file.is_some() {
        return turned_away(alloc, NO_FILES);
    }
    if input.len() > MAX_INPUT {
        return report_unread(alloc, Refusal::TooLarge(0));
    }
    report_bundle(alloc, making, options, input)
}

fn report_help(alloc: Global, text: Vec<u8>) -> Report
    ensures { result.status ≡ 0 }
{
    Report {
        output: text,
        errors: Vec::new(alloc),
        status: 0,
    }
}

fn report_line(alloc: Global, command: &str, options: &str, input: &[u8]) -> Result<Report, Refusal>
    ensures { IfOk result (λ r. Says command.now options.now input.now r.output.items r.status) }
{
    let CommandLine { request, files } = read_line(alloc, command, options)?;
    match request {
        Request::Make(making, known) => report_making(alloc, making, &known, &files, input),
        Request::Help(text) => Ok(report_help(alloc, text)),
        Request::Mistaken(text) => turned_away(alloc, text.as_slice()),
        Request::OutOfMemory => Err(Refusal::OutOfMemory),
        _ => turned_away(alloc, OTHER_CALLS),
    }
}

fn report_call(
    alloc: Global,
    command: &[u8],
    options: &[u8],
    input: &[u8],
) -> Result<Report, Refusal>
    ensures { IfOk result (λ r. Says command.now options.now input.now r.output.items r.status) }
{
    match (str::from_utf8(command), str::from_utf8(options)) {
        (Ok(command), Ok(options)) => report_line(alloc, command, options, input),
        _ => turned_away(alloc, NO_WORDS),
    }
}

// Adds the bytes that are text: the program prints no others on standard error.
fn push_text(out: &mut Vec<u8>, bytes: &[u8]) -> Result<(), AllocError>
    ensures { IfOk result (λ x. (more : List ℕ) × (out.new.items ≡ out.old.items ++ more)) }
{
    for chunk in bytes.utf8_chunks() {
        out.extend_from_slice(chunk.valid().as_bytes())?;
    }
    Ok(())
}

// A call's texts as one, and the second's length.
#[derive(Drop)]
struct Said {
    both: Vec<u8>,
    errors: usize,
    status: u8,
}

// Returns a call's texts. Fails if memory runs out.
fn answer(alloc: Global, command: &[u8], options: &[u8], input: &[u8]) -> Result<Said, Refusal>
    ensures { IfOk result (λ s. IsSaid command.now options.now input.now s.both.items s.errors s.status) }
{
    let Report {
        output,
        errors,
        status,
    } = report_call(alloc, command, options, input)?;
    let mut both = output;
    let length = both.len();
    push_text(&mut both, errors.as_slice())?;
    let errors = both.len() - length;
    Ok(Said {
        both,
        errors,
        status,
    })
}

/// Does a command for people as `ringplan COMMAND OPTION..` does. A byte 0 follows each option; the last may lack it.
#[unsafe(no_mangle)]
pub extern "C" fn ringplan_call(
    alloc: Global,
    command: &[u8],
    options: &[u8],
    input: &[u8],
    output: &mut [u8],
    length: &mut usize,
    errors: &mut usize,
) -> u8
    ensures { Speaks command.now options.now input.now output.old output.new length.new errors.new result }
{
    match answer(alloc, command, options, input) {
        Ok(said) => {
            *errors = said.errors;
            fill(said.both.as_slice(), said.status, output, length)
        }
        Err(_) => {
            *errors = 0;
            fill(NO_MEMORY, FAILED, output, length)
        }
    }
}
