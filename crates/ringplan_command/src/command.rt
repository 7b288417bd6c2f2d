//! Reads the command line.

ghost use Rattle.std.specs.Prelude.{◌≡◌, List, ◌⊎◌, ◌↔◌, ◌∷◌, [], IfOk, IsTrue, codes, drop, map};
ghost use Rattle.clap.specs.Words.{Row, first_of, found_of, rows_of, subcommand_rows_of};
ghost use Rattle.ringplan_command.specs.Command.{Answers, Asked, word_of_making, IsInFormat, asked, asked_by, job_named, task_named};
ghost use Rattle.ringplan_command.specs.Makings.{MeansMaking, but_text};
ghost use Rattle.ringplan_command.specs.Command.{IsTurnedAway, MeansFormat, option_named, part_texts, rows_named, to_describe, to_do, to_drive, to_make, to_part, to_watch};
ghost use Rattle.ringplan_command.specs.Tree.{word_of};
ghost use Rattle.ringplan_command.specs.Files.{IsJob, files_in, files_named, files_of, no_files};
ghost use Rattle.ringplan_request.specs.declared.job.Job.{Job};
ghost use Rattle.change_text.specs.declared.options.Options.{Options as OptionsValue};

use crate::counts::{Count, MOST_WORKERS, count_of};
use crate::files::Files;
use crate::form::Form;
use crate::guides::write_guide;
use crate::help::{NO_EVERY, NO_FORMAT, NO_PART, NO_WORKERS, SUCCESSORS};
use crate::line::{make_line, mistaken};
use crate::parts::{PartWish, part_of};
use crate::reading::{number_of, text_of};
use crate::tree::command;
use crate::word::{Guide, Word, guide_of, people_word};
use change_text::Options;
use clap::error::ErrorKind;
use clap::{ArgMatches, Error};
use ringplan_request::{Job, Making, Screen};
use std::alloc::{AllocError, Global};
use std::convert::AsStr;

/// A request and its files.
#[derive(Debug, Drop)]
pub struct CommandLine {
    pub request: Request,
    pub files: Files,
}

/// A command line's request.
#[derive(Debug, Drop)]
pub enum Request {
    /// Does a job.
    Do(Job),
    /// Checks with 1 to 64 workers.
    CheckBy(u32),
    /// Does a job, and answers in JSON.
    State(Job),
    /// Checks with 1 to 64 workers, and answers in JSON.
    StateBy(u32),
    /// Cuts a history of any length to a part.
    Part(PartWish),
    /// Judges a history by the named bundle while reading it. Prints progress after every so many entries; never for 0.
    Watch(u32),
    /// Runs a plan with 1 to 64 workers and the scripts' clients.
    Drive(u32, Form),
    /// Makes something for people, given options on nodes and partitions.
    Make(Making, Options),
    /// Prints this text about the program.
    Describe(Vec<u8>),
    /// Prints this help, or the version.
    Help(Vec<u8>),
    /// Prints this fault on standard error.
    Mistaken(Vec<u8>),
    /// Unknown: memory ran out.
    OutOfMemory,
}

fn painted(making: Making, screen: Screen) -> Making
    ensures word { word_of_making result ≡ word_of_making making }
    ensures means { (rows : List Row) (options : OptionsValue) → MeansMaking rows making options → MeansMaking rows result options }
{
    match making {
        Making::Why(color) => Making::Why(color.on(screen)),
        Making::Show(wish) => Making::Show(wish.on(screen)),
        other => other,
    }
}

impl Request {
    /// Decides whether words have colours on this screen.
    pub fn on(self, screen: Screen) -> Request
        ensures { (asked : Asked) → Answers asked self → Answers asked result }
    {
        match self {
            Request::Make(making, options) => Request::Make(painted(making, screen), options),
            other => other,
        }
    }

    fn is_job(&self) -> bool
        ensures { IsTrue result ↔ IsJob self.now }
    {
        match self {
            Request::Do(_) | Request::CheckBy(_) | Request::Drive(_, _) => true,
            Request::State(_) | Request::StateBy(_) => true,
            Request::Part(_) | Request::Watch(_) => true,
            Request::Make(_, _) | Request::Describe(_) => true,
            Request::Help(_) | Request::Mistaken(_) | Request::OutOfMemory => false,
        }
    }
}

/// Reads a command line, from the program's name on.
pub fn parse<S: AsStr>(alloc: Global, words: &[S]) -> CommandLine
    ensures kinds { Answers (asked (map S.text words.now)) result.request }
    ensures job { (job : Job) → drop 1 (map S.text words.now) ≡ word_of job ∷ []
        → (result.request ≡ Request.Do job) ⊎ (result.request ≡ Request.OutOfMemory) }
    // A line without a job names no files.
    ensures files { (files_in result.files ≡ files_of (map S.text words.now))
        ⊎ ((files_in result.files ≡ no_files) × (IsJob result.request → ⊥)) }
{
    match try_parse(alloc, words) {
        Ok(line) => line,
        Err(_) => alone(alloc, Request::OutOfMemory),
    }
}

fn alone(alloc: Global, request: Request) -> CommandLine
    ensures request { result.request ≡ request }
    ensures files { files_in result.files ≡ no_files }
{
    CommandLine {
        request,
        files: Files::none(alloc),
    }
}

fn try_parse<S: AsStr>(alloc: Global, words: &[S]) -> Result<CommandLine, AllocError>
    ensures kinds { IfOk result (λ line. Answers (asked (map S.text words.now)) line.request) }
    ensures files { IfOk result (λ line. (files_in line.files ≡ files_of (map S.text words.now))
        ⊎ ((files_in line.files ≡ no_files) × (IsJob line.request → ⊥))) }
{
    match command(alloc)?.try_get_matches_from(words) {
        Ok(matches) => line_of(alloc, &matches),
        Err(error) => {
            let text = with_successor(format!(in alloc; "{error}")?)?;
            match error.kind() {
                ErrorKind::OutOfMemory => Ok(alone(alloc, Request::OutOfMemory)),
                ErrorKind::DisplayHelp | ErrorKind::DisplayVersion => Ok(alone(
                    alloc,
                    Request::Help(text),
                )),
                _ => Ok(alone(alloc, Request::Mistaken(text))),
            }
        }
    }
}

fn with_successor(text: String) -> Result<Vec<u8>, AllocError> {
    let mut text = text;
    for (fault, usage, words) in SUCCESSORS.iter() {
        if text.starts_with(fault) && text.contains(usage) {
            text.push_str(words)?;
        }
    }
    Ok(text.into_bytes())
}

fn line_of(alloc: Global, matches: &ArgMatches) -> Result<CommandLine, AllocError>
    ensures kinds { IfOk result (λ line. Answers (asked_by [] (subcommand_rows_of matches.now)) line.request) }
    ensures files { IfOk result (λ line. (files_in line.files ≡ files_named (subcommand_rows_of matches.now))
        ⊎ ((files_in line.files ≡ no_files) × (IsJob line.request → ⊥))) }
{
    let request = request_of(alloc, matches)?;
    if !request.is_job() {
        return Ok(alone(alloc, request));
    }
    let files = Files::of(alloc, matches)?;
    Ok(CommandLine { request, files })
}

fn request_of(alloc: Global, matches: &ArgMatches) -> Result<Request, AllocError>
    ensures { IfOk result (Answers (asked_by [] (subcommand_rows_of matches.now))) }
{
    if matches.subcommand_matches("drive").is_some() {
        return drive_line(alloc, matches);
    }
    if matches.subcommand_matches("part").is_some() {
        return part_line(alloc, matches);
    }
    if matches.subcommand_matches("watch").is_some() {
        return watch_line(alloc, matches);
    }
    if let Some(guide) = guide_of(matches) {
        return guide_line(alloc, matches, guide);
    }
    if let Some(word) = people_word(matches) {
        return making_line(alloc, matches, word);
    }
    match job_of(matches) {
        Job::Check => check_line(alloc, matches),
        Job::Replay => replay_line(alloc, matches),
        job => Ok(Request::Do(job)),
    }
}

fn check_line(alloc: Global, matches: &ArgMatches) -> Result<Request, AllocError>
    requires { task_named (subcommand_rows_of matches.now) ≡ to_do Job.Check }
    ensures { IfOk result (Answers (asked_by [] (subcommand_rows_of matches.now))) }
{
    let Some((_, options)) = matches.subcommand() else {
        return Ok(Request::Do(Job::Check));
    };
    let format = format_of(options);
    match count_of(options, "workers", 1, MOST_WORKERS) {
        Count::Unnamed => in_format(
            alloc,
            format,
            Request::Do(Job::Check),
            Request::State(Job::Check),
        ),
        Count::Many(workers) => in_format(
            alloc,
            format,
            Request::CheckBy(workers),
            Request::StateBy(workers),
        ),
        Count::NoNumber => mistaken(alloc, NO_WORKERS),
    }
}

fn replay_line(alloc: Global, matches: &ArgMatches) -> Result<Request, AllocError>
    requires { task_named (subcommand_rows_of matches.now) ≡ to_do Job.Replay }
    ensures { IfOk result (Answers (asked_by [] (subcommand_rows_of matches.now))) }
{
    let Some((_, options)) = matches.subcommand() else {
        unreachable!()
    };
    let format = format_of(options);
    in_format(
        alloc,
        format,
        Request::Do(Job::Replay),
        Request::State(Job::Replay),
    )
}

fn part_line(alloc: Global, matches: &ArgMatches) -> Result<Request, AllocError>
    requires { task_named (subcommand_rows_of matches.now) ≡ to_part (part_texts (subcommand_rows_of matches.now)) }
    ensures { IfOk result (Answers (asked_by [] (subcommand_rows_of matches.now))) }
{
    let Some((_, options)) = matches.subcommand() else {
        unreachable!()
    };
    match part_of(options) {
        Some(wish) => Ok(Request::Part(wish)),
        None => mistaken(alloc, NO_PART),
    }
}

fn watch_line(alloc: Global, matches: &ArgMatches) -> Result<Request, AllocError>
    requires { task_named (subcommand_rows_of matches.now) ≡ to_watch (option_named (codes "every") (subcommand_rows_of matches.now)) }
    ensures { IfOk result (Answers (asked_by [] (subcommand_rows_of matches.now))) }
{
    let Some((_, options)) = matches.subcommand() else {
        unreachable!()
    };
    match number_of(options, "every", u32::MAX) {
        Count::Unnamed => Ok(Request::Watch(0)),
        Count::Many(every) => Ok(Request::Watch(every)),
        Count::NoNumber => mistaken(alloc, NO_EVERY),
    }
}

fn drive_line(alloc: Global, matches: &ArgMatches) -> Result<Request, AllocError>
    requires { task_named (subcommand_rows_of matches.now) ≡ to_drive }
    ensures { IfOk result (Answers (asked_by [] (subcommand_rows_of matches.now))) }
{
    let Some((_, options)) = matches.subcommand() else {
        unreachable!()
    };
    let format = format_of(options);
    match count_of(options, "workers", 1, MOST_WORKERS) {
        Count::Unnamed => drive_by(alloc, format, 1),
        Count::Many(workers) => drive_by(alloc, format, workers),
        Count::NoNumber => mistaken(alloc, NO_WORKERS),
    }
}

fn drive_by(alloc: Global, format: Format, workers: u32) -> Result<Request, AllocError>
    ensures { IfOk result (IsInFormat format (Request.Drive workers Form.History) (Request.Drive workers Form.Report)) }
{
    in_format(
        alloc,
        format,
        Request::Drive(workers, Form::History),
        Request::Drive(workers, Form::Report),
    )
}

fn making_line(alloc: Global, matches: &ArgMatches, word: Word) -> Result<Request, AllocError>
    requires { task_named (subcommand_rows_of matches.now) ≡ to_make word (rows_named (subcommand_rows_of matches.now)) }
    ensures { IfOk result (Answers (asked_by [] (subcommand_rows_of matches.now))) }
{
    let Some((_, options)) = matches.subcommand() else {
        unreachable!()
    };
    make_line(alloc, options, word)
}

fn guide_line(alloc: Global, matches: &ArgMatches, guide: Guide) -> Result<Request, AllocError>
    requires { task_named (subcommand_rows_of matches.now) ≡ to_describe guide }
    ensures { IfOk result (Answers (asked_by [] (subcommand_rows_of matches.now))) }
{
    let Some((_, options)) = matches.subcommand() else {
        unreachable!()
    };
    write_guide(alloc, options, guide)
}

/// How an answer is written, text by default.
#[derive(Clone, Copy)]
pub(crate) enum Format {
    Text,
    Json,
    Unknown,
}

pub(crate) fn format_of(options: &ArgMatches) -> Format
    ensures { MeansFormat (but_text (first_of (codes "format") (rows_of (found_of options.now)))) result }
{
    match text_of(options, "format") {
        None => Format::Text,
        Some(text) => {
            if text == "text" {
                return Format::Text;
            }
            if text == "json" {
                return Format::Json;
            }
            Format::Unknown
        }
    }
}

// Refuses an unknown format.
fn in_format(
    alloc: Global,
    format: Format,
    plain: Request,
    stated: Request,
) -> Result<Request, AllocError>
    ensures { IfOk result (IsInFormat format plain stated) }
{
    match format {
        Format::Text => Ok(plain),
        Format::Json => Ok(stated),
        Format::Unknown => mistaken(alloc, NO_FORMAT),
    }
}

fn job_of(matches: &ArgMatches) -> Job
    ensures { result ≡ job_named (subcommand_rows_of matches.now) }
{
    if matches.subcommand_matches("play").is_some() {
        return Job::Play;
    }
    if matches.subcommand_matches("plan").is_some() {
        return Job::Plan;
    }
    if matches.subcommand_matches("migrate").is_some() {
        return Job::Migrate;
    }
    match matches.subcommand_matches("replay") {
        Some(_) => Job::Replay,
        None => Job::Check,
    }
}
