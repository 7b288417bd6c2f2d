//! Results and refusals.

ghost use Rattle.std.specs.Prelude.{◌≡◌, ◌≤◌, ◌⊎◌, IfOk};
ghost use Rattle.plan_goal.specs.GoalsReached.{IsLedText};
ghost use Rattle.ringplan_reports.specs.Made.{IsMade, IsMadeWith, IsRefusal, IsReport, IsStated, IsTold};
ghost use Rattle.ringplan_reports.specs.Why.{IsWhy};

use crate::after::{after_bundle, push_open};
use crate::cert::{cert_of, push_why_none};
use crate::goal_words::{push_dead_leavers, push_goal_words, push_left};
use crate::racks::{is_of_options, push_misfits, push_racks};
use crate::show::{draw_bundle, show_bundle};
use crate::stating::state_bundle;
use crate::steps::{moves_bundle, steps_bundle};
use crate::why::{push_words_of, why_bundle};
use crate::windows::{push_windows_words, windows_bundle};
use change_text::Options;
use plan_around::around_bundle;
use plan_goal::{Kind, front, kind_of, led_bundle};
use ring_names::Refusal;
use ringplan_answers::{Answer, answer_of};
use ringplan_request::{Color, Exit, Making, Statement};
use show_why::Page;
use std::alloc::Global;
use texts::Words;

/// Standard output, standard error and the exit status.
#[derive(Debug, Drop)]
pub struct Report {
    pub output: Vec<u8>,
    pub errors: Vec<u8>,
    pub status: u8,
}

/// A bundle, and the options given with it.
#[derive(Clone, Copy)]
pub(crate) struct GivenBundle<'a> {
    pub bytes: &'a [u8],
    pub options: &'a Options,
}

// Standard error, and whether a goal's plan has steps.
#[derive(Drop)]
struct Notes {
    words: Words,
    has_steps: bool,
}

fn make_goal(
    alloc: Global,
    bytes: &[u8],
    options: &Options,
    notes: &mut Notes,
) -> Result<Vec<u8>, Refusal>
    ensures { IfOk result (λ text. IsLedText bytes.now options.now text.items) }
{
    let found = led_bundle(alloc, bytes, options)?;
    push_racks(alloc, &mut notes.words, bytes, &found.approved, options)?;
    push_dead_leavers(alloc, &mut notes.words, bytes, options)?;
    push_left(alloc, &mut notes.words, bytes, options)?;
    notes.has_steps = found.approved.plan().len() > 0;
    if !notes.has_steps {
        notes.words.text(b"ringplan: the plan has no steps: the ring is as wanted already\n");
    }
    found.bundle(alloc)
}

fn make_of(
    alloc: Global,
    making: Making,
    options: &Options,
    bytes: &[u8],
    notes: &mut Notes,
) -> Result<Vec<u8>, Refusal>
    requires { IsTold making }
    ensures { IfOk result (λ text. IsMade making options.now bytes.now text.items) }
{
    match making {
        Making::Why(_) | Making::State(_) => unreachable!(),
        Making::Cert => cert_of(alloc, bytes),
        Making::After => after_bundle(alloc, bytes),
        Making::Show(wish) => show_bundle(alloc, bytes, wish, options, &mut notes.words),
        Making::Draw(shown) => draw_bundle(alloc, bytes, shown, options, &mut notes.words),
        Making::Steps => steps_bundle(alloc, bytes, options, &mut notes.words),
        Making::Moves => moves_bundle(alloc, bytes, options, &mut notes.words),
        Making::Windows(cut) => windows_bundle(alloc, bytes, cut, options, &mut notes.words),
        Making::Goal(_) => make_goal(alloc, bytes, options, notes),
        Making::Around(detour) => { around_bundle(alloc, bytes, options, detour, &mut notes.words) }
    }
}

/// The exit status: 4 if `exit` asks for steps and there are some, otherwise 0.
pub(crate) fn goal_status(exit: Exit, has_steps: bool) -> u8
    ensures { (result ≡ 0) ⊎ ((result ≡ 4) × (exit ≡ Exit.Steps)) }
{
    match exit {
        Exit::Steps => {
            if has_steps {
                return 4;
            }
            0
        }
        Exit::Printed => 0,
    }
}

fn made_status(making: Making, has_steps: bool) -> u8
    ensures { IsMadeWith making result }
{
    match making {
        Making::Goal(exit) => goal_status(exit, has_steps),
        _ => 0,
    }
}

fn made(making: Making, output: Vec<u8>, notes: Notes) -> Result<Report, Refusal>
    ensures { IfOk result (λ r. (r.output.items ≡ output.items) × IsMadeWith making r.status) }
{
    let Notes { words, has_steps } = notes;
    let errors = words.end()?;
    let status = made_status(making, has_steps);
    Ok(Report {
        output,
        errors,
        status,
    })
}

fn refused_with(alloc: Global, refusal: Refusal, words: Words) -> Result<Report, Refusal>
    ensures { IfOk result (λ r. IsRefusal refusal r.output.items r.errors.items r.status) }
{
    let words = words.end()?;
    let Answer { output, status } = answer_of(alloc, Err(refusal))?;
    let mut errors = output;
    errors.extend_from_slice(words.as_slice())?;
    Ok(Report {
        output: Vec::new(alloc),
        errors,
        status,
    })
}

/// Adds a refusal's reason.
pub(crate) fn push_said(
    alloc: Global,
    out: &mut Words,
    making: Making,
    given: GivenBundle,
    refusal: &Refusal,
) -> Result<(), Refusal> {
    let GivenBundle { bytes, options } = given;
    if is_of_options(refusal) && push_misfits(alloc, out, bytes, options)? {
        return Ok(());
    }
    if let Refusal::OutOfMemory = refusal {
        return Err(Refusal::OutOfMemory);
    }
    match making {
        Making::Cert => push_why_none(alloc, out, bytes, refusal),
        Making::After => push_unmade(alloc, out, bytes, refusal),
        Making::Windows(cut) => push_windows_words(alloc, out, given, cut, refusal),
        Making::Goal(_) => push_goal_words(alloc, out, bytes, options, refusal),
        Making::Around(_) => push_unturned(alloc, out, bytes, refusal),
        _ => push_words_of(alloc, out, bytes, refusal),
    }
}

fn push_unmade(
    alloc: Global,
    out: &mut Words,
    bytes: &[u8],
    refusal: &Refusal,
) -> Result<(), Refusal> {
    match refusal {
        Refusal::WrongStage(step) => push_open(alloc, out, bytes, *step),
        _ => push_words_of(alloc, out, bytes, refusal),
    }
}

fn push_unturned(
    alloc: Global,
    out: &mut Words,
    bytes: &[u8],
    refusal: &Refusal,
) -> Result<(), Refusal> {
    match refusal {
        Refusal::BadLine(line) => push_unbegun(alloc, out, bytes, *line),
        Refusal::NoPlan => Ok(()),
        _ => push_words_of(alloc, out, bytes, refusal),
    }
}

// `around_bundle` itself explains `NoPlan`.
fn said_before(alloc: Global, making: Making, refusal: &Refusal, notes: Notes) -> Words {
    let Notes { words, .. } = notes;
    match (making, refusal) {
        (Making::Around(_), Refusal::NoPlan) => words,
        _ => Words::new(alloc),
    }
}

const GOAL_DEAD: &[u8; 76] =
    b"  Before the first step `ringplan goal --dead NODE` goes around dead nodes.\n";

// Says why a history's next line is refused, and what to do without a history.
fn push_unbegun(alloc: Global, out: &mut Words, bytes: &[u8], line: u32) -> Result<(), Refusal> {
    let is_over = line > Page { bytes }.count();
    if kind_of(bytes) == Kind::Change {
        out.text(
            b"refused: `around` goes on from a plan and its history, and the bundle has a change\n",
        );
    } else if is_over && !bytes.is_empty() && front(bytes, 1) == bytes.len() {
        out.text(
            b"refused: `around` goes on from a plan and its history, and the bundle has a ring only\n",
        );
    } else {
        push_words_of(alloc, out, bytes, &Refusal::BadLine(line))?;
        if !is_over || kind_of(bytes) == Kind::History {
            return Ok(());
        }
    }
    out.text(GOAL_DEAD);
    Ok(())
}

fn report_made(
    alloc: Global,
    making: Making,
    options: &Options,
    bytes: &[u8],
) -> Result<Report, Refusal>
    requires { IsTold making }
    ensures { IfOk result (λ r. IsReport making options.now bytes.now r.output.items r.status) }
{
    let mut notes = Notes {
        words: Words::new(alloc),
        has_steps: false,
    };
    match make_of(alloc, making, options, bytes, &mut notes) {
        Ok(output) => made(making, output, notes),
        Err(refusal) => {
            let given = GivenBundle { bytes, options };
            let mut words = said_before(alloc, making, &refusal, notes);
            push_said(alloc, &mut words, making, given, &refusal)?;
            refused_with(alloc, refusal, words)
        }
    }
}

fn silent(alloc: Global, answer: Answer) -> Report
    ensures output { result.output.items ≡ answer.output.items }
    ensures status { result.status ≡ answer.status }
{
    let Answer { output, status } = answer;
    Report {
        output,
        errors: Vec::new(alloc),
        status,
    }
}

fn report_why(alloc: Global, color: Color, bytes: &[u8]) -> Result<Report, Refusal>
    ensures why { IfOk result (λ r. IsWhy bytes.now r.output.items r.status) }
    ensures few { IfOk result (λ r. r.status ≤ 3) }
{
    let answer = why_bundle(alloc, bytes, color)?;
    Ok(silent(alloc, answer))
}

fn report_stated(
    alloc: Global,
    statement: Statement,
    options: &Options,
    bytes: &[u8],
) -> Result<Report, Refusal>
    ensures { IfOk result (λ r. IsStated statement options.now bytes.now r.status) }
{
    let answer = state_bundle(alloc, statement, options, bytes)?;
    Ok(silent(alloc, answer))
}

/// Returns what a request prints. Fails only with `OutOfMemory`.
///
/// Standard output has what is made. After a refusal, standard error has its line and reason. `why` and statements
/// print both on standard output.
pub fn report_bundle(
    alloc: Global,
    making: Making,
    options: &Options,
    bytes: &[u8],
) -> Result<Report, Refusal>
    ensures { IfOk result (λ r. IsReport making options.now bytes.now r.output.items r.status) }
{
    match making {
        Making::Why(color) => report_why(alloc, color, bytes),
        Making::State(statement) => report_stated(alloc, statement, options, bytes),
        _ => report_made(alloc, making, options, bytes),
    }
}

/// The output for an unreadable input.
pub fn report_unread(alloc: Global, refusal: Refusal) -> Result<Report, Refusal>
    ensures { IfOk result (λ r. IsRefusal refusal r.output.items r.errors.items r.status) }
{
    let mut words = Words::new(alloc);
    push_words_of(alloc, &mut words, b"", &refusal)?;
    refused_with(alloc, refusal, words)
}
