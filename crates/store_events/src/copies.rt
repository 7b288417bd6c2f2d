//! Opens, closes and aborts copies.

ghost use Rattle.std.specs.Prelude.{◌≡◌};
ghost use Rattle.plan_stage.specs.Clauses.{first_failing};
ghost use Rattle.plan_runs.specs.declared.event.Event.TheVariants.{OpenCopy, CloseCopy, AbortCopy};
ghost use Rattle.store_parts.specs.GuardsKept.{abort_copy_guards_kept};
ghost use Rattle.store_parts.specs.Parts.{plan_of, IsSound, Tests, Passes, Answers, Follows};

use crate::kinds::{has_copy, is_ready};
use crate::parties::party_refusal;
use plan_runs::Reply;
use ring_names::Refusal;
use store_parts::Parts;

/// Returns why the copy cannot open now: `UnknownNumber` without such a copy, or `AlreadyDone` if finished or open.
///
/// Then `NotReady` if a dependency is not finished, then `NodeDown` with the copy's least down node.
pub fn open_refusal(parts: &Parts, step: u32) -> Option<Refusal>
    requires { IsSound parts.now }
    ensures { Tests parts.now (OpenCopy step) result }
{
    if !has_copy(parts, step) {
        return Some(Refusal::UnknownNumber);
    }
    if parts.steps.is_done(step) || parts.steps.is_open(step) {
        return Some(Refusal::AlreadyDone);
    }
    if !is_ready(parts, step) {
        return Some(Refusal::NotReady);
    }
    party_refusal(parts, step)
}

/// Opens the copy. Marked chunks stay marked.
pub fn open_copy(parts: &mut Parts, step: u32) -> Reply
    requires sound { IsSound parts.old }
    requires passes { Passes parts.old (OpenCopy step) }
    ensures next { Answers parts.old (OpenCopy step) result parts.new }
    ensures follows { Follows parts.old parts.new }
{
    parts.steps.open(step);
    Reply::Plain
}

fn not_open(parts: &Parts, step: u32) -> Option<Refusal>
    ensures { result ≡ first_failing (abort_copy_guards_kept (plan_of parts.now) parts.now.steps step) }
{
    if !has_copy(parts, step) {
        return Some(Refusal::UnknownNumber);
    }
    if !parts.steps.is_open(step) {
        return Some(Refusal::NotOpen);
    }
    None
}

/// Returns why the copy cannot close now: `UnknownNumber` without such a copy, `NotOpen`, or `ChunksLeft` with the
/// number of unmarked chunks.
pub fn close_refusal(parts: &Parts, step: u32) -> Option<Refusal>
    requires { IsSound parts.now }
    ensures { Tests parts.now (CloseCopy step) result }
{
    if let Some(refusal) = not_open(parts, step) {
        return Some(refusal);
    }
    let left = 16 - parts.steps.marked(step);
    if left != 0 {
        return Some(Refusal::ChunksLeft(left));
    }
    None
}

/// Finishes the copy.
pub fn close_copy(parts: &mut Parts, step: u32) -> Reply
    requires sound { IsSound parts.old }
    requires passes { Passes parts.old (CloseCopy step) }
    ensures next { Answers parts.old (CloseCopy step) result parts.new }
    ensures follows { Follows parts.old parts.new }
{
    parts.steps.finish(step);
    Reply::Plain
}

/// Returns why the copy cannot be aborted now: `UnknownNumber` without such a copy, or `NotOpen`.
pub fn abort_refusal(parts: &Parts, step: u32) -> Option<Refusal>
    requires { IsSound parts.now }
    ensures { Tests parts.now (AbortCopy step) result }
{
    not_open(parts, step)
}

/// Aborts the copy. Its chunks stay marked.
pub fn abort_copy(parts: &mut Parts, step: u32) -> Reply
    requires sound { IsSound parts.old }
    requires passes { Passes parts.old (AbortCopy step) }
    ensures next { Answers parts.old (AbortCopy step) result parts.new }
    ensures follows { Follows parts.old parts.new }
{
    parts.steps.close_open(step);
    Reply::Plain
}
