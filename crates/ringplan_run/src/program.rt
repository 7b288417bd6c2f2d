//! Runs the program.

ghost use Rattle.std.specs.Prelude.{◌≡◌, ◌≢◌, ◌<◌, ◌≤◌, ◌∷◌, true, false, Err, ℕ, List, [], IfOk, drop, map, option_map, string_bytes};
ghost use Rattle.ring_names.specs.Refusals.{line_of};
ghost use Rattle.ringplan_answers.specs.Answers.{texts_of};
ghost use Rattle.ringplan_command.specs.Command.{Answers, Asked, AsksMaking, asked, only};
ghost use Rattle.ringplan_command.specs.Files.{files_of, no_files};
ghost use Rattle.ringplan_command.specs.Tree.{word_of};
ghost use Rattle.ringplan_answers.specs.Io.{Prints, Tells};
ghost use Rattle.ringplan_answers.specs.Outcomes.{Finds};
ghost use Rattle.ringplan_run.specs.Run.{FindsDrive, HasLayout, IsWritten, PrintsFound, PrintsStated, Reports, Runs, RunsTo, Shows, ShowsReport, unlaid};
ghost use Rattle.ringplan_run.specs.Watch.{RunsLine};
ghost use Rattle.ringplan_command.specs.declared.command.Request.{Request};
ghost use Rattle.change_text.specs.declared.options.Options.{Options as OptionsValue};
ghost use Rattle.ringplan_request.specs.declared.job.Job.{Job};
ghost use Rattle.ringplan_request.specs.declared.making.Making.{Making};
ghost use Rattle.ringplan_request.specs.declared.job.Job.TheVariants.{Check};

use crate::driving::drive_bundle;
use crate::files::{Limit, save, say};
use crate::layouts::with_layout;
use crate::parting::print_part;
use crate::several::open_all;
use crate::watching::print_watch;
use change_text::Options;
use ring_names::Refusal;
use ringplan_answers::{
    Job, answer_bytes, answer_check, answer_of, read_all, stated_of, write_all,
};
use ringplan_command::{CommandLine, Files as Named, Form, NO_WORDS, Request, parse};
use ringplan_reports::{Report, report_bundle, report_unread};
use ringplan_request::{Making, Screen};
use std::alloc::Global;
use std::convert::AsStr;
use std::io::{Read, Write};
use std::rt::Files;
use std::sync::Wait;
use std::thread::Threads;

// The line if memory runs out. It needs no memory.
pub(crate) const NO_MEMORY: &[u8; 6] = b"no 60\n";

pub(crate) const FAILED: u8 = 3;

pub(crate) const REFUSED: u8 = 2;

const STEPS: u8 = 4;

/// Runs a command line, from the program's name on. Returns the exit status:
///
/// - 0 for what was printed, yes and help.
/// - 1 for a refused or missing plan, a drive that broke off, and a history that is not a run.
/// - 2 for a refused text or command line.
/// - 3 if memory, an input or an output failed.
/// - 4 for a plan with steps, if `goal --exit-code` asks.
///
/// Refusals of a bundle go to the output for `plan`, `check`, `play`, `drive`, `replay`, `watch`, `migrate`, `why` and
/// `--format json`, otherwise to standard error.
///
/// Faults of a command line go to standard error.
///
/// Texts for people have colours if screen or command line says so. Named files are read in order instead of the input;
/// `-` names the input.
///
/// With `-o`, output with status 0 or 4 goes to the file.
///
/// Waits for the threads of `drive` and `check --workers`; `run_alone` does other jobs.
pub fn run<
    RT: AllocGlobal + Files + Eprint + Threads + Wait + Sync,
    S: AsStr,
    R: Read + Drop,
    W: Write,
>(rt: &RT, screen: Screen, words: &[S], input: &mut R, output: &mut W) -> u8
    ensures line { RunsLine (asked (map S.text words.now)) (files_of (map S.text words.now)) (R.remaining input.old) (R.remaining input.new)
        (W.contents output.old) (W.contents output.new) result }
    ensures job { (job : Job) → drop 1 (map S.text words.now) ≡ word_of job ∷ []
        → (bytes : List ℕ) × Tells (R.remaining input.old) bytes
        × Runs (only job) no_files bytes (W.contents output.old) (W.contents output.new) result }
{
    let CommandLine { request, files } = parse(rt.alloc(), words);
    let Named {
        inputs,
        output: target,
    } = files;
    let request = request.on(seen_on(screen, &target));
    if let Request::Watch(every) = request {
        return print_watch(rt, inputs.as_slice(), every, input, output);
    }
    if inputs.is_empty() {
        return run_to(rt, request, target, input, output);
    }
    match open_all(rt, inputs.as_slice(), limit_of(&request), input) {
        Ok(mut files) => run_to(rt, request, target, &mut files, output),
        Err(status) => status,
    }
}

fn limit_of(request: &Request) -> Limit {
    match request {
        Request::Part(_) => Limit::Endless,
        _ => Limit::Whole,
    }
}

fn seen_on(screen: Screen, target: &Option<String>) -> Screen {
    match target {
        None => screen,
        Some(_) => Screen::Plain,
    }
}

fn run_to<RT: AllocGlobal + Files + Eprint + Threads + Wait + Sync, R: Read + Drop, W: Write>(
    rt: &RT,
    request: Request,
    target: Option<String>,
    input: &mut R,
    output: &mut W,
) -> u8
    requires asks { (asked : Asked) × Answers asked request }
    requires not_watch { (every : ℕ) → request ≡ Request.Watch every → ⊥ }
    ensures { (asked : Asked) → Answers asked request → (bytes : List ℕ) × Tells (R.remaining input.old) bytes
        × RunsTo asked (option_map string_bytes target) bytes (W.contents output.old) (W.contents output.new) result }
{
    let Some(name) = target else {
        return run_request(rt, request, input, output);
    };
    let mut text = Vec::new(rt.alloc());
    let status = run_request(rt, request, input, &mut text);
    if is_written(status) {
        save(rt, name.as_str(), text.as_slice(), status)
    } else {
        finish(output, text.as_slice(), status)
    }
}

fn is_written(status: u8) -> bool
    ensures { result ≡ true → IsWritten status }
{
    status == 0 || status == STEPS
}

fn run_request<RT: AllocGlobal + Files + Eprint + Threads + Wait + Sync, R: Read + Drop, W: Write>(
    rt: &RT,
    request: Request,
    input: &mut R,
    output: &mut W,
) -> u8
    requires asks { (asked : Asked) × Answers asked request }
    requires not_watch { (every : ℕ) → request ≡ Request.Watch every → ⊥ }
    ensures { (asked : Asked) → Answers asked request → (bytes : List ℕ) × Tells (R.remaining input.old) bytes
        × Shows asked bytes (W.contents output.old) (W.contents output.new) result }
{
    let alloc = rt.alloc();
    match request {
        Request::Do(job) => run_alone(alloc, job, input, output),
        Request::CheckBy(workers) => {
            let found = answer_input_by(rt, alloc, workers, input);
            tell(alloc, found, output)
        }
        Request::State(job) => {
            let found = answer_input(alloc, job, input);
            state(alloc, found, output)
        }
        Request::StateBy(workers) => {
            let found = answer_input_by(rt, alloc, workers, input);
            state(alloc, found, output)
        }
        Request::Part(wish) => print_part(rt, wish, input, output),
        Request::Watch(_) => unreachable!(),
        Request::Drive(workers, form) => {
            let found = drive_of(rt, alloc, workers, form, input);
            tell(alloc, found, output)
        }
        Request::Make(making, options) => run_making(rt, making, options, input, output),
        Request::Describe(text) => finish(output, text.as_slice(), 0),
        Request::Help(text) => finish(output, text.as_slice(), 0),
        Request::Mistaken(text) => {
            say(rt, text.as_slice());
            REFUSED
        }
        Request::OutOfMemory => end_without_memory(output),
    }
}

fn run_making<RT: AllocGlobal + Files + Eprint, R: Read + Drop, W: Write>(
    rt: &RT,
    making: Making,
    options: Options,
    input: &mut R,
    output: &mut W,
) -> u8
    ensures { (bytes : List ℕ) × Tells (R.remaining input.old) bytes
        × ShowsReport making options bytes (W.contents output.old) (W.contents output.new) result }
{
    match with_layout(rt, options) {
        Ok(made) => print_report(rt, making, &made, input, output),
        Err(status) => status,
    }
}

// Prints the report, or on standard error why there is none.
fn print_report<RT: AllocGlobal + Eprint, R: Read + Drop, W: Write>(
    rt: &RT,
    making: Making,
    options: &Options,
    input: &mut R,
    output: &mut W,
) -> u8
    requires { HasLayout options.now }
    ensures { (asked : OptionsValue) → unlaid options.now ≡ unlaid asked → (bytes : List ℕ) × Tells (R.remaining input.old) bytes
        × ShowsReport making asked bytes (W.contents output.old) (W.contents output.new) result }
{
    match report_of(rt.alloc(), making, options, input) {
        Ok(report) => {
            say(rt, report.errors.as_slice());
            finish(output, report.output.as_slice(), report.status)
        }
        Err(_) => {
            say(rt, NO_MEMORY);
            FAILED
        }
    }
}

fn report_of<R: Read + Drop>(
    alloc: Global,
    making: Making,
    options: &Options,
    input: &mut R,
) -> Result<Report, Refusal>
    requires { HasLayout options.now }
    ensures { IfOk result (λ r. (asked : OptionsValue) → unlaid options.now ≡ unlaid asked → (bytes : List ℕ) × Tells (R.remaining input.old) bytes
        × Reports making asked bytes r.output.items r.status) }
{
    match read_all(alloc, input) {
        Ok(bytes) => report_bundle(alloc, making, options, bytes.as_slice()),
        Err(refusal) => report_unread(alloc, refusal),
    }
}

/// Does a job as `run` does, without waiting for threads.
pub fn run_alone<R: Read + Drop, W: Write>(
    alloc: Global,
    job: Job,
    input: &mut R,
    output: &mut W,
) -> u8
    ensures { (bytes : List ℕ) × Tells (R.remaining input.old) bytes
        × Shows (only job) bytes (W.contents output.old) (W.contents output.new) result }
{
    let found = answer_input(alloc, job, input);
    tell(alloc, found, output)
}

/// Says that memory ran out.
pub fn end_without_memory<W: Write>(output: &mut W) -> u8
    ensures { Prints (W.contents output.old) (W.contents output.new) (line_of Refusal.OutOfMemory) 3 result }
{
    finish(output, NO_MEMORY, FAILED)
}

/// Says that a command line is not text.
pub fn end_without_words<W: Write>(output: &mut W) -> u8
    ensures { Prints (W.contents output.old) (W.contents output.new) NO_WORDS.now 2 result }
{
    finish(output, NO_WORDS, REFUSED)
}

pub(crate) fn tell<W: Write>(alloc: Global, found: Result<Vec<u8>, Refusal>, output: &mut W) -> u8
    ensures { PrintsFound (W.contents output.old) (W.contents output.new) (texts_of found) result }
{
    match answer_of(alloc, found) {
        Ok(answer) => finish(output, answer.output.as_slice(), answer.status),
        Err(_) => end_without_memory(output),
    }
}

fn lacks_memory(found: &Result<Vec<u8>, Refusal>) -> bool
    ensures { result ≡ false → texts_of found.now ≢ Err Refusal.OutOfMemory }
{
    match found {
        Ok(_) => false,
        Err(refusal) => *refusal == Refusal::OutOfMemory,
    }
}

fn state<W: Write>(alloc: Global, found: Result<Vec<u8>, Refusal>, output: &mut W) -> u8
    ensures { PrintsStated (W.contents output.old) (W.contents output.new) (texts_of found) result }
{
    if lacks_memory(&found) {
        return end_without_memory(output);
    }
    match stated_of(alloc, &found) {
        Ok(answer) => finish(output, answer.output.as_slice(), answer.status),
        Err(_) => end_without_memory(output),
    }
}

fn answer_input<R: Read + Drop>(alloc: Global, job: Job, input: &mut R) -> Result<Vec<u8>, Refusal>
    ensures { (bytes : List ℕ) × Tells (R.remaining input.old) bytes × Finds job bytes (texts_of result) }
{
    let bytes = read_all(alloc, input)?;
    answer_bytes(alloc, job, bytes)
}

fn answer_input_by<RT: Threads + Wait + Sync, R: Read + Drop>(
    rt: &RT,
    alloc: Global,
    workers: u32,
    input: &mut R,
) -> Result<Vec<u8>, Refusal>
    ensures { (bytes : List ℕ) × Tells (R.remaining input.old) bytes × Finds Check bytes (texts_of result) }
{
    let bytes = read_all(alloc, input)?;
    answer_check(rt, alloc, workers, bytes.as_slice())
}

fn drive_of<RT: Threads + Wait + Sync, R: Read + Drop>(
    rt: &RT,
    alloc: Global,
    workers: u32,
    form: Form,
    input: &mut R,
) -> Result<Vec<u8>, Refusal>
    requires { (0 < workers) × (workers ≤ 64) }
    ensures { (bytes : List ℕ) × Tells (R.remaining input.old) bytes × FindsDrive workers form bytes (texts_of result) }
{
    let bytes = read_all(alloc, input)?;
    drive_bundle(rt, alloc, workers, form, bytes.as_slice())
}

// Prints the text. Returns the status, or 3 if the output fails.
pub(crate) fn finish<W: Write>(output: &mut W, text: &[u8], status: u8) -> u8
    ensures { Prints (W.contents output.old) (W.contents output.new) text.now status result }
{
    match write_all(output, text) {
        Ok(()) => status,
        Err(_) => FAILED,
    }
}
