//! Blocks: the receipts of a script's line.

ghost use Rattle.std.specs.Prelude.{◌≡◌, List, true, IfOk, IfErr, IfSome, IfNone};
ghost use Rattle.ring_names.specs.declared.refusal.Refusal.TheVariants.{OutOfMemory};
ghost use Rattle.plan_runs.specs.declared.event.Event.TheVariants.{StartPut, StartGet};
ghost use Rattle.ring_board.specs.declared.asked.Asked.{Asked as TheAsked};
ghost use Rattle.ring_board.specs.Kinds.{sends, acknowledges, reads, ends};
ghost use Rattle.ring_board.specs.Behind.{behind, behind_one, begins_with};
ghost use Rattle.ring_board.specs.Blocks.{Leaves, HasNoBlock, turns_a_node};

use crate::asked::Asked;
use crate::kinds::{is_acknowledged, is_end, is_read, is_sent};
use crate::receipt::Receipt;
use crate::starts::{PutLine, all_ended, get_started, put_started};
use plan_runs::{Event, Key, is_same_event};
use ring_names::Refusal;

// Skips the put's writes and hints, then an acknowledgement, if any.
fn behind_put(put: u32, list: &[Receipt]) -> &[Receipt]
    ensures { result.now ≡ behind_one (λ r. acknowledges put r.event) (behind (λ r. sends put r.event) list.now) }
{
    let mut rest = list;
    'receipts: while let Some((first, later)) = rest.split_first() {
        if !is_sent(put, &first.event) {
            return if is_acknowledged(put, &first.event) {
                later
            } else {
                rest
            };
        }
        rest = later;
    }
    rest
}

fn behind_reads(get: u32, list: &[Receipt]) -> &[Receipt]
    ensures { result.now ≡ behind (λ r. reads get r.event) list.now }
{
    let mut rest = list;
    'receipts: while let Some((first, later)) = rest.split_first() {
        if !is_read(get, &first.event) {
            return rest;
        }
        rest = later;
    }
    rest
}

// Returns whether the list begins with the get's end, and what follows.
fn behind_end(get: u32, list: &[Receipt]) -> (bool, &[Receipt])
    ensures ends { result.0 ≡ begins_with (λ r. ends get r.event) list.now }
    ensures rest { result.1.now ≡ behind_one (λ r. ends get r.event) list.now }
{
    let Some((first, later)) = list.split_first() else {
        return (false, list);
    };
    if is_end(get, &first.event) {
        (true, later)
    } else {
        (false, list)
    }
}

fn behind_put_line<'a>(
    asked: &[Asked],
    line: &PutLine,
    list: &'a [Receipt],
) -> Option<&'a [Receipt]>
    ensures some { IfSome result (λ rest. Leaves asked.now
        (StartPut line.now.writer line.now.key.now line.now.value.now line.now.seen.now) list.now rest.now asked.now) }
    ensures none { IfNone result
        (HasNoBlock asked.now (StartPut line.now.writer line.now.key.now line.now.value.now line.now.seen.now) list.now) }
{
    if !all_ended(asked, line.key, line.seen) {
        return Some(list);
    }
    let Some((start, later)) = list.split_first() else {
        return None;
    };
    match put_started(asked, line, start) {
        Some(put) => Some(behind_put(put, later)),
        None => None,
    }
}

// Skips the block of a get's line, and adds the get. None without a block.
fn behind_get_line<'a>(
    asked: &mut Vec<Asked>,
    key: &Key,
    list: &'a [Receipt],
) -> Result<Option<&'a [Receipt]>, Refusal>
    ensures some { IfOk result
        (λ o. IfSome o (λ rest. Leaves asked.old.items (StartGet key.now) list.now rest.now asked.new.items)) }
    ensures none { IfOk result (λ o. IfNone o (HasNoBlock asked.old.items (StartGet key.now) list.now)) }
    ensures memory { IfErr result (λ e. e ≡ OutOfMemory) }
{
    let Some((start, later)) = list.split_first() else {
        return Ok(None);
    };
    let Some(number) = get_started(key, start) else {
        return Ok(None);
    };
    let (ended, rest) = behind_end(number, behind_reads(number, later));
    let key = key.try_copy()?;
    asked.push(Asked { number, key, ended })?;
    Ok(Some(rest))
}

// Skips the block of a `down` or `up` line, if any.
fn behind_node_line<'a>(line: &Event, list: &'a [Receipt]) -> &'a [Receipt]
    requires { turns_a_node line.now ≡ true }
    ensures { (asked : List TheAsked) → Leaves asked line.now list.now result.now asked }
{
    let Some((first, later)) = list.split_first() else {
        return list;
    };
    if is_same_event(&first.event, line) {
        later
    } else {
        list
    }
}

/// Skips the line's block, and adds the line's get. None if a needed block is missing.
pub(crate) fn behind_line<'a>(
    asked: &mut Vec<Asked>,
    line: &Event,
    list: &'a [Receipt],
) -> Result<Option<&'a [Receipt]>, Refusal>
    ensures some { IfOk result
        (λ o. IfSome o (λ rest. Leaves asked.old.items line.now list.now rest.now asked.new.items)) }
    ensures none { IfOk result (λ o. IfNone o (HasNoBlock asked.old.items line.now list.now)) }
    ensures memory { IfErr result (λ e. e ≡ OutOfMemory) }
{
    match line {
        Event::StartPut(writer, key, value, seen) => {
            let put = PutLine {
                writer: *writer,
                key,
                value,
                seen,
            };
            Ok(behind_put_line(asked.as_slice(), &put, list))
        }
        Event::StartGet(key) => behind_get_line(asked, key, list),
        Event::Down(_) | Event::Up(_) => Ok(Some(behind_node_line(line, list))),
        _ => Ok(None),
    }
}
