//! Judges a history while reading it.

ghost use Rattle.std.specs.Prelude.{◌≡◌, ◌≤◌, ◌++◌, ℕ, List, IfOk, IfErr, OnOk, OnErr};
ghost use Rattle.std.specs.Io.KnownBytes.{Appends};
ghost use Rattle.ring_table.specs.Value.{RingValue};
ghost use Rattle.ringplan_answers.specs.Io.{AppendsPart};
ghost use Rattle.plan_text.specs.declared.step.Planned.{Planned};
ghost use Rattle.history_watch.specs.Watching.{HasRoom, IsWatching, IsRefused, IsJudged};
ghost use Rattle.history_watch.specs.Loops.{is_shown, shown_at, so_far_line, IsOutside, Shows, ShowsPart, Watches};

use crate::watch::Watch;
use history_text::{CHUNK, read_some};
use plan_check::Approved;
use ring_names::{Refusal, push_decimal};
use ringplan_answers::write_all;
use std::alloc::{AllocError, Global};
use std::io::{Read, Write};

fn is_shown(every: u32, count: u32) -> bool
    ensures { result ≡ is_shown every count }
{
    every > 0 && count % every == 0
}

fn so_far_line(alloc: Global, count: u32) -> Result<Vec<u8>, AllocError>
    ensures { IfOk result (λ line. line.items ≡ so_far_line count) }
{
    let mut line = Vec::from_slice(alloc, b"so far ")?;
    push_decimal(&mut line, count)?;
    line.extend_from_slice(b" entries\n")?;
    Ok(line)
}

fn show<W: Write>(alloc: Global, output: &mut W, every: u32, count: u32) -> Result<(), Refusal>
    ensures ok { OnOk result (Appends (W.contents output.old) (W.contents output.new) (shown_at every count)) }
    ensures part { OnErr result (AppendsPart (W.contents output.old) (W.contents output.new) (shown_at every count)) }
    ensures err { IfErr result IsOutside }
{
    if is_shown(every, count) {
        let line = so_far_line(alloc, count)?;
        write_all(output, line.as_slice())?;
    }
    Ok(())
}

// Prints the lines after each entry judged since `before`.
fn show_all<W: Write>(
    alloc: Global,
    output: &mut W,
    every: u32,
    before: u32,
    after: u32,
) -> Result<(), Refusal>
    requires { before ≤ after }
    ensures ok { OnOk result (Shows every before after (W.contents output.old) (W.contents output.new)) }
    ensures part { OnErr result (ShowsPart every before after (W.contents output.old) (W.contents output.new)) }
    ensures err { IfErr result IsOutside }
{
    let mut count = before;
    'counts: while count < after {
        count += 1;
        show(alloc, output, every, count)?;
    }
    Ok(())
}

// Takes the next bytes, and prints how many entries were judged.
fn watch_some<W: Write>(
    alloc: Global,
    watch: &mut Watch,
    every: u32,
    more: &[u8],
    output: &mut W,
) -> Result<(), Refusal>
    requires { HasRoom watch.old }
    ensures room { OnOk result (HasRoom watch.new) }
    ensures ok { OnOk result ((ring : RingValue) (plan : List Planned) (before : List ℕ) → IsWatching ring plan before watch.old → IsWatching ring plan (before ++ more.now) watch.new) }
    ensures err { IfErr result (λ e. (IsOutside e → ⊥) → (ring : RingValue) (plan : List Planned) (before : List ℕ) → IsWatching ring plan before watch.old → IsRefused ring plan (before ++ more.now) e) }
    ensures judged { (ring : RingValue) (plan : List Planned) (before : List ℕ) → IsWatching ring plan before watch.old → IsJudged ring plan (before ++ more.now) watch.new.count }
    ensures shown { OnOk result (Shows every watch.old.count watch.new.count (W.contents output.old) (W.contents output.new)) }
    ensures part { OnErr result (ShowsPart every watch.old.count watch.new.count (W.contents output.old) (W.contents output.new)) }
    ensures told { IfErr result (λ e. (IsOutside e → ⊥) → Shows every watch.old.count watch.new.count (W.contents output.old) (W.contents output.new)) }
{
    let before = watch.count();
    let taken = watch.take(alloc, more);
    show_all(alloc, output, every, before, watch.count())?;
    taken
}

/// Judges a history while reading it: to its line `end`, to the first refused entry or line, or to the input's end.
/// Returns what a replay prints. After each `every` entries, unless 0, prints a line of their number at once. Reads no
/// byte once the answer is known.
pub fn watch_history<R: Read + Drop, W: Write>(
    alloc: Global,
    approved: &Approved,
    every: u32,
    input: &mut R,
    output: &mut W,
) -> Result<Vec<u8>, Refusal>
    ensures { Watches approved.now.ring approved.now.plan every (R.remaining input.old) (R.remaining input.new) (W.contents output.old) (W.contents output.new) result }
{
    let mut watch = Watch::start(alloc, approved)?;
    'reads: for turn in 0..u64::MAX {
        let more = read_some(alloc, input, CHUNK)?;
        if more.is_empty() {
            return watch.end(alloc);
        }
        watch_some(alloc, &mut watch, every, more.as_slice(), output)?;
        if watch.is_over() {
            return watch.end(alloc);
        }
    }
    Err(Refusal::ReadFailed)
}
