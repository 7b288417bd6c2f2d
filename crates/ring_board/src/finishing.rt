//! Checks that each step's finisher is the worker whose list has its end.

ghost use Rattle.std.specs.Prelude.{◌≡◌, ◌↔◌, ◌<◌, ◌≤◌, ◌||◌, ℕ, false, length, vec_len, slice_index_or, IfOk, IfErr};
ghost use Rattle.std.specs.Prelude.{IsTrue};
ghost use Rattle.ring_names.specs.declared.refusal.Refusal.TheVariants.{OutOfMemory};
ghost use Rattle.ring_board.specs.Finishing.{AreBy, has_end, worker_at, Finishes};

use crate::kinds::finished;
use crate::receipt::Receipt;
use ring_names::{Listed, Refusal};
use std::alloc::Global;

// Marks the steps that the list finishes. Returns whether `worker` is the finisher of all.
fn mark(finishers: &[u32], marks: &mut Vec<bool>, worker: usize, list: &[Receipt]) -> bool
    requires { vec_len marks.old ≡ length finishers.now }
    ensures len { vec_len marks.new ≡ vec_len marks.old }
    ensures yes { IsTrue result ↔ AreBy finishers.now worker list.now }
    ensures marked { IsTrue result → (k : ℕ) → k < vec_len marks.old
        → slice_index_or marks.new.items k false ≡ (slice_index_or marks.old.items k false || has_end k list.now) }
{
    let mut rest = list;
    'receipts: while let Some((first, later)) = rest.split_first() {
        if let Some(step) = finished(&first.event) {
            let step = step as usize;
            if step < finishers.len() {
                if finishers[step] as usize != worker {
                    return false;
                }
                marks[step] = true;
            }
        }
        rest = later;
    }
    true
}

// Returns the list's worker; for the first `front` lists the number of workers.
fn worker_of(front: usize, workers: u32, place: usize) -> usize
    ensures { result ≡ worker_at front workers place }
{
    if place < front {
        workers as usize
    } else {
        place - front
    }
}

/// Whether each step ends in some list, and its finisher is the worker of each such list. Takes a byte for each step.
///
/// Steps that end in the first `front` lists have the number of workers as finisher.
pub(crate) fn are_finishers(
    alloc: Global,
    finishers: &[u32],
    front: usize,
    workers: u32,
    lists: &[Listed<Receipt>],
) -> Result<bool, Refusal>
    ensures exactly { IfOk result (λ b. IsTrue b ↔ Finishes finishers.now front workers lists.now) }
    ensures memory { IfErr result (λ e. e ≡ OutOfMemory) }
{
    let mut marks = vec![in alloc; false; finishers.len()]?;
    let mut place = 0usize;
    let mut rest = lists;
    'lists: while let Some((first, later)) = rest.split_first() {
        let worker = worker_of(front, workers, place);
        if !mark(finishers, &mut marks, worker, first.as_slice()) {
            return Ok(false);
        }
        place = place.saturating_add(1);
        rest = later;
    }
    Ok(marks.as_slice().iter().all(|mark| *mark))
}
