//! Checks that a history interleaves lists of receipts.

ghost use Rattle.std.specs.Prelude.{◌≡◌, ◌↔◌, ◌+◌, ◌<◌, ◌==◌, ℕ, min, length, vec_len, slice_index, count_by, IfOk};
ghost use Rattle.std.specs.Prelude.{IfErr, IsTrue};
ghost use Rattle.ring_names.specs.declared.refusal.Refusal.TheVariants.{OutOfMemory};
ghost use Rattle.ring_board.specs.Interleaving.{rises, Stands, standing, Interleaves, AreStanding};

use crate::receipt::Receipt;
use plan_runs::{Entry, is_same_event, is_same_reply};
use ring_names::{Listed, Refusal};
use std::alloc::Global;

fn are_rising(list: &[Receipt]) -> bool
    ensures { result ≡ rises list.now }
{
    let Some((first, mut rest)) = list.split_first() else {
        return true;
    };
    let mut last = first.index;
    'receipts: while let Some((next, later)) = rest.split_first() {
        if next.index <= last {
            return false;
        }
        last = next.index;
        rest = later;
    }
    true
}

fn stands(history: &[Entry], receipt: &Receipt) -> bool
    ensures { IsTrue result ↔ Stands history.now receipt.now }
{
    match history.get(receipt.index as usize) {
        Some(entry) => {
            is_same_event(&entry.event, &receipt.event)
                && is_same_reply(&entry.reply, &receipt.reply)
        }
        None => false,
    }
}

fn all_stand(history: &[Entry], list: &[Receipt]) -> bool
    ensures { IsTrue result ↔ AreStanding history.now list.now }
{
    let mut rest = list;
    'receipts: while let Some((first, later)) = rest.split_first() {
        if !stands(history, first) {
            return false;
        }
        rest = later;
    }
    true
}

// Counts each place's receipts, up to 255.
fn count_in(counts: &mut Vec<u8>, list: &[Receipt])
    ensures len { vec_len counts.new ≡ vec_len counts.old }
    ensures counts { (k : ℕ) → k < vec_len counts.old → slice_index counts.new.items k
        ≡ min 255 (slice_index counts.old.items k + count_by (λ r. k == r.index) list.now) }
{
    let mut rest = list;
    'receipts: while let Some((first, later)) = rest.split_first() {
        let index = first.index as usize;
        if index < counts.len() {
            counts[index] = counts[index].saturating_add(1);
        }
        rest = later;
    }
}

fn are_once(counts: &[u8]) -> bool
    ensures { IsTrue result ↔ ((k : ℕ) → k < length counts.now → slice_index counts.now k ≡ 1) }
{
    for count in counts {
        if *count != 1 {
            return false;
        }
    }
    true
}

/// Whether the history interleaves the lists. Takes a byte for each entry.
pub(crate) fn interleaves(
    alloc: Global,
    history: &[Entry],
    lists: &[Listed<Receipt>],
) -> Result<bool, Refusal>
    ensures exactly { IfOk result (λ b. IsTrue b ↔ Interleaves history.now lists.now) }
    ensures memory { IfErr result (λ e. e ≡ OutOfMemory) }
{
    let mut counts = vec![in alloc; 0u8; history.len()]?;
    let mut rest = lists;
    'lists: while let Some((first, later)) = rest.split_first() {
        let list = first.as_slice();
        if !are_rising(list) || !all_stand(history, list) {
            return Ok(false);
        }
        count_in(&mut counts, list);
        rest = later;
    }
    Ok(are_once(counts.as_slice()))
}
