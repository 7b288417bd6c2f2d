//! Why bundles are refused.

ghost use Rattle.std.specs.Prelude.{◌≡◌, ◌≢◌, ◌≤◌, ◌++◌, ◌∷◌, ℕ, List, [], Ok, Err, IfOk, IfNone, OnOk, codes};
ghost use Rattle.ring_names.specs.declared.refusal.Refusal.TheVariants.{OutOfMemory};
ghost use Rattle.texts.specs.Left.{whole_text};
ghost use Rattle.plan_text.specs.Valid.{Suits};
ghost use Rattle.ring_script.specs.Bundles.{IsOfRing, bundle_at};
ghost use Rattle.ring_script.specs.declared.bundle.Kind.TheVariants as kind;
ghost use Rattle.ringplan_answers.specs.Answers.{texts_of};
ghost use Rattle.ringplan_answers.specs.Verdict.{TextsKeepPromises};
ghost use Rattle.ringplan_reports.specs.Kept.{SaysKept};
ghost use Rattle.ringplan_reports.specs.Studies.{HasApproved};
ghost use Rattle.ringplan_reports.specs.Why.{AnswersCheck, BeginsWith, IsWhy};

use crate::history_words::{tell_history, unless_memory};
use crate::keeping::{APART, FEW, MEMBERS, say_kept};
use crate::painting::painted;
use crate::study::{Study, studied, study_change};
use change_text::{Options, Wanted, read_wanted};
use plan_cert::Cert;
use plan_check::{Turned, check};
use plan_goal::{Kind, cert_bundle, front, is_among, kind_of};
use ring_names::{NodeId, Refusal};
use ring_script::Bundle;
use ringplan_answers::{Answer, Kind as Sections, answer_of, check_bundle, read_bundle};
use ringplan_request::Color;
use show_refusal::{Read, Remedy, tell_plan};
use show_why::{Page, Said, tell_text};
use std::alloc::Global;
use texts::{Words, small};

/// The checker's answer to a mended bundle.
#[derive(Clone, Copy, PartialEq, Eq)]
pub(crate) enum MendOutcome {
    Accepted,
    /// Its change has a plan.
    Planned,
    /// Accepted, and the history is the plan's run.
    Replayed,
    /// Another refusal.
    Next(Refusal),
    /// The refusal stays, or there is no mend.
    Same,
}

fn asked(alloc: Global, mended: &[u8], was: &Refusal) -> Result<MendOutcome, Refusal>
    ensures yes { IfOk result (λ o. o ≡ MendOutcome.Accepted → TextsKeepPromises mended.now) }
{
    match kind_of(mended) {
        Kind::Plan => match check_bundle(alloc, mended) {
            Ok(()) => Ok(MendOutcome::Accepted),
            Err(refusal) => next(refusal, was),
        },
        Kind::Change => match study_change(alloc, mended, &Options::new(alloc)) {
            Ok(_) => Ok(MendOutcome::Planned),
            Err(refusal) => next(refusal, was),
        },
        Kind::History => match studied(alloc, mended, &Options::new(alloc)) {
            Ok(_) => Ok(MendOutcome::Replayed),
            Err(refusal) => next(refusal, was),
        },
    }
}

fn next(refusal: Refusal, was: &Refusal) -> Result<MendOutcome, Refusal>
    ensures { IfOk result (λ o. o ≢ MendOutcome.Accepted) }
{
    if refusal == Refusal::OutOfMemory {
        return Err(refusal);
    }
    Ok(if refusal == *was {
        MendOutcome::Same
    } else {
        MendOutcome::Next(refusal)
    })
}

// Adds the mend and its outcome, unless the refusal stays.
fn push_mend(
    alloc: Global,
    out: &mut Words,
    bytes: &[u8],
    said: &Said,
    was: &Refusal,
) -> Result<MendOutcome, Refusal> {
    let mut mended = Words::new(alloc);
    said.mended(&mut mended, Page { bytes });
    let outcome = asked(alloc, mended.end()?.as_slice(), was)?;
    if outcome != MendOutcome::Same {
        said.push_mend(out);
        push_outcome(alloc, out, outcome)?;
    }
    Ok(outcome)
}

fn push_outcome(alloc: Global, out: &mut Words, outcome: MendOutcome) -> Result<(), Refusal> {
    let words: &[u8] = match outcome {
        MendOutcome::Accepted => b"  then the checker says yes.\n",
        MendOutcome::Planned => b"  then there is a plan.\n",
        MendOutcome::Replayed => b"  then the checker says yes, and the history is a run of it.\n",
        MendOutcome::Next(refusal) => return push_next(alloc, out, refusal),
        MendOutcome::Same => b"",
    };
    out.text(words);
    Ok(())
}

fn push_next(alloc: Global, out: &mut Words, refusal: Refusal) -> Result<(), Refusal> {
    let mut line = Vec::new(alloc);
    refusal.write_line(&mut line)?;
    line.pop();
    out.fill(
        b"  then the checker goes on, to `@`.\n",
        &[line.as_slice()],
        &[],
    );
    Ok(())
}

// For bundles with valid texts.
fn tell_read(
    alloc: Global,
    said: &mut Said,
    bytes: &[u8],
    refusal: &Refusal,
) -> Result<(), Refusal> {
    match refusal {
        Refusal::NoPlan => tell_no_plan(alloc, said, bytes),
        Refusal::Mismatch(entry, code) => tell_history(alloc, said, bytes, *entry, *code),
        _ => tell_checked(alloc, said, &bytes[..front(bytes, 3)], refusal),
    }
}

// Longer texts are not searched: the cost may grow with the steps' square.
const SOUGHT: usize = 65_536;

fn remedy_of(alloc: Global, texts: &[u8], refusal: &Refusal) -> Result<Remedy, Refusal> {
    let Refusal::TooManyChains(node) = refusal else {
        return Ok(Remedy::Unknown);
    };
    if texts.len() > SOUGHT {
        return Ok(Remedy::Unknown);
    }
    match cert_bundle(alloc, texts) {
        Ok(_) => Ok(Remedy::Certificate),
        Err(Refusal::OutOfMemory) => Err(Refusal::OutOfMemory),
        Err(Refusal::TooManyChains(other)) if other == *node => Ok(Remedy::Plan),
        Err(_) => Ok(Remedy::Unknown),
    }
}

fn tell_checked(
    alloc: Global,
    said: &mut Said,
    texts: &[u8],
    refusal: &Refusal,
) -> Result<(), Refusal> {
    let bundle = match read_bundle(alloc, Sections::Check, texts) {
        Ok(bundle) => bundle,
        Err(refusal) => return unless_memory(refusal),
    };
    let read = Read {
        bytes: texts,
        ring: &bundle.ring,
        plan: &bundle.plan,
        cert: &bundle.cert,
        remedy: remedy_of(alloc, texts, refusal)?,
    };
    let _ = tell_plan(alloc, said, read, refusal)?;
    Ok(())
}

fn members_left(wanted: &Wanted) -> u32 {
    let mut members = 0u32;
    for node in wanted.ring.nodes() {
        members = members.saturating_add(u32::from(node.is_member));
    }
    for node in wanted.change.joins.as_slice() {
        members = members.saturating_add(u32::from(!wanted.ring.is_member(*node)));
    }
    for node in wanted.change.leaves.as_slice() {
        members = members.saturating_sub(u32::from(wanted.ring.is_member(*node)));
    }
    members
}

/// Reports if too few live members would be left. Returns whether so.
pub(crate) fn push_few(
    alloc: Global,
    out: &mut Words,
    wanted: &Wanted,
    dead: &[NodeId],
) -> Result<bool, Refusal> {
    let mut members = members_left(wanted);
    let leaves = wanted.change.leaves.as_slice();
    for node in 0..small(wanted.ring.nodes().len()) {
        let node = NodeId(node);
        let stays = wanted.ring.is_member(node) && !is_among(leaves, node);
        members = members.saturating_sub(u32::from(stays && is_among(dead, node)));
    }
    if members >= wanted.ring.n() {
        return Ok(false);
    }
    push_too_few(alloc, out, members, wanted.ring.n());
    Ok(true)
}

/// Says that partitions have more slots than there are members.
pub(crate) fn push_too_few(alloc: Global, out: &mut Words, members: u32, slots: u32) {
    let mut said = Said::new(alloc);
    tell_few(&mut said, members, slots);
    said.push(out, Page { bytes: b"" });
}

fn tell_no_plan(alloc: Global, said: &mut Said, bytes: &[u8]) -> Result<(), Refusal> {
    let wanted = match read_wanted(alloc, bytes) {
        Ok(wanted) => wanted,
        Err(refusal) => return unless_memory(refusal),
    };
    tell_few(said, members_left(&wanted), wanted.ring.n());
    Ok(())
}

fn tell_few(said: &mut Said, members: u32, slots: u32) {
    if members >= slots {
        said.title(b"the planner found no plan");
        return;
    }
    let title: &[u8] = if members == 1 {
        b"there is no plan: # member would be left, and a partition needs #"
    } else {
        b"there is no plan: # members would be left, and a partition needs #"
    };
    said.title_with(title, &[], &[members, slots]);
    said.note(b"Let fewer nodes leave, or more join.")
}

/// Adds why a bundle is refused. Fills `said`, and returns the mend's outcome.
pub(crate) fn push_why(
    alloc: Global,
    out: &mut Words,
    said: &mut Said,
    bytes: &[u8],
    refusal: &Refusal,
) -> Result<MendOutcome, Refusal> {
    if !tell_text(alloc, said, bytes, refusal)? {
        tell_read(alloc, said, bytes, refusal)?;
    }
    push_said(alloc, out, said, bytes, refusal)
}

fn push_said(
    alloc: Global,
    out: &mut Words,
    said: &Said,
    bytes: &[u8],
    refusal: &Refusal,
) -> Result<MendOutcome, Refusal> {
    said.push(out, Page { bytes });
    if said.has_mend() {
        return push_mend(alloc, out, bytes, said, refusal);
    }
    Ok(MendOutcome::Same)
}

/// Adds why a bundle is refused. Nothing if the refusal's line says all.
pub fn push_words_of(
    alloc: Global,
    out: &mut Words,
    bytes: &[u8],
    refusal: &Refusal,
) -> Result<(), Refusal> {
    let mut said = Said::new(alloc);
    let _ = push_why(alloc, out, &mut said, bytes, refusal)?;
    Ok(())
}

/// Adds what a yes says about a plan.
pub(crate) fn push_accepted(out: &mut Words, found: &Study) {
    let (ring, plan) = (found.approved.ring(), found.approved.plan());
    let begin: &[u8] = if plan.len() == 1 {
        b"accepted: # step. In every run of the plan, in any order that it allows:\n"
    } else {
        b"accepted: # steps. In every run of the plan, in any order that it allows:\n"
    };
    out.fill(begin, &[], &[plan.len()]);
    let held =
        b"  for each acknowledged put, any # slots of its partition include one that has it or a successor";
    out.fill(held, &[], &[ring.r()]);
    if ring.loss() > 0 {
        out.fill(b",\n  with # lost between", &[], &[ring.loss()]);
    }
    out.fill(
        b";\n  @;\n  @;\n  @.\n",
        &[APART.as_slice(), FEW.as_slice(), MEMBERS.as_slice()],
        &[],
    );
    if found.history.is_some() {
        out.text(b"  The history is a run of it.\n");
    }
}

fn answer_with(
    alloc: Global,
    found: Result<Vec<u8>, Refusal>,
    lines: &[u8],
    words: Words,
    color: Color,
) -> Result<Answer, Refusal>
    ensures { IfOk result (λ a. BeginsWith (texts_of found) lines.now a.output.items a.status) }
{
    let words = painted(alloc, words.end()?, color)?;
    let mut answer = answer_of(alloc, found)?;
    answer.output.extend_from_slice(lines)?;
    answer.output.extend_from_slice(words.as_slice())?;
    Ok(answer)
}

fn answer_accepted(alloc: Global, found: &Study, color: Color) -> Result<Answer, Refusal>
    ensures { IfOk result (λ a. BeginsWith (Ok (codes "yes" ++ 10 ∷ [])) [] a.output.items a.status) }
{
    let mut words = Words::new(alloc);
    push_accepted(&mut words, found);
    let yes = Vec::from_slice(alloc, b"yes\n")?;
    answer_with(alloc, Ok(yes), b"", words, color)
}

fn answer_turned(
    alloc: Global,
    bytes: &[u8],
    turned: &Turned,
    cert: &Cert,
    color: Color,
) -> Result<Answer, Refusal>
    requires { Suits turned.now.ring turned.now.plan }
    ensures { IfOk result (λ a. (lines : List ℕ) × SaysKept turned.now.ring turned.now.plan cert.now lines
        × BeginsWith (Err turned.now.refusal) lines a.output.items a.status) }
{
    let refusal = &turned.refusal;
    unless_memory(*refusal)?;
    let lines = say_kept(alloc, &turned.ring, &turned.plan, cert)?;
    let mut said = Said::new(alloc);
    let read = Read {
        bytes,
        ring: &turned.ring,
        plan: &turned.plan,
        cert,
        remedy: remedy_of(alloc, bytes, refusal)?,
    };
    let _ = tell_plan(alloc, &mut said, read, refusal)?;
    let mut words = Words::new(alloc);
    let _ = push_said(alloc, &mut words, &said, bytes, refusal)?;
    words.text(b"  `ringplan-break FILE` looks for a run in which this plan does harm.\n");
    answer_with(alloc, Err(*refusal), lines.as_slice(), words, color)
}

fn why_read(alloc: Global, bytes: &[u8], bundle: Bundle, color: Color) -> Result<Answer, Refusal>
    requires read { whole_text (bundle_at kind.Check) bytes.now ≡ Ok bundle }
    requires parts { IsOfRing bundle }
    ensures { IfOk result (λ a. AnswersCheck bytes.now bundle a.output.items a.status) }
{
    let Bundle {
        ring,
        plan,
        cert,
        ..
    } = bundle;
    match check(alloc, ring, plan, &cert) {
        Ok(approved) => {
            let found = Study {
                approved,
                cert,
                history: None,
            };
            answer_accepted(alloc, &found, color)
        }
        Err(turned) => answer_turned(alloc, bytes, &turned, &cert, color),
    }
}

// For a change or a history.
fn push_more(alloc: Global, out: &mut Words, bytes: &[u8]) -> Result<Option<Refusal>, Refusal>
    ensures { IfOk result (λ r. IfNone r (HasApproved bytes.now)) }
{
    match studied(alloc, bytes, &Options::new(alloc)) {
        Ok(found) => {
            push_accepted(out, &found);
            // Shows the prover that the plan is approved.
            let _ = found.approved.plan();
            Ok(None)
        }
        Err(refusal) => {
            unless_memory(refusal)?;
            push_words_of(alloc, out, bytes, &refusal)?;
            Ok(Some(refusal))
        }
    }
}

fn why_more(alloc: Global, bytes: &[u8], color: Color) -> Result<Answer, Refusal>
    ensures yes { IfOk result (λ a. a.status ≡ 0 → HasApproved bytes.now) }
    ensures few { IfOk result (λ a. a.status ≤ 3) }
{
    let mut words = Words::new(alloc);
    let found = match push_more(alloc, &mut words, bytes)? {
        Some(refusal) => Err(refusal),
        None => Ok(Vec::from_slice(alloc, b"yes\n")?),
    };
    answer_with(alloc, found, b"", words, color)
}

// For a bundle that is not a ring, a plan and a certificate.
fn why_unread(
    alloc: Global,
    bytes: &[u8],
    refusal: &Refusal,
    color: Color,
) -> Result<Answer, Refusal>
    ensures yes { IfOk result (λ a. a.status ≡ 0 → HasApproved bytes.now) }
    ensures few { IfOk result (λ a. a.status ≤ 3) }
    ensures memory { OnOk result (refusal.now ≢ OutOfMemory) }
{
    unless_memory(*refusal)?;
    match kind_of(bytes) {
        Kind::Plan => {
            let mut words = Words::new(alloc);
            push_words_of(alloc, &mut words, bytes, refusal)?;
            answer_with(alloc, Err(*refusal), b"", words, color)
        }
        Kind::Change | Kind::History => why_more(alloc, bytes, color),
    }
}

/// Answers as the checker does, and says why.
///
/// Line and status are the checker's. Words follow, with the lines concerned and a mend; only words may have colours.
///
/// For a change, makes a plan first. For a history, says whether it is a run.
pub fn why_bundle(alloc: Global, bytes: &[u8], color: Color) -> Result<Answer, Refusal>
    ensures why { IfOk result (λ a. IsWhy bytes.now a.output.items a.status) }
    ensures few { IfOk result (λ a. a.status ≤ 3) }
{
    match read_bundle(alloc, Sections::Check, bytes) {
        Ok(bundle) => why_read(alloc, bytes, bundle, color),
        Err(refusal) => why_unread(alloc, bytes, &refusal, color),
    }
}
