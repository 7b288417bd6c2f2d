//! Checks that lists of receipts are a drive's.

ghost use Rattle.std.specs.Prelude.{◌≡◌, ◌↔◌, ◌+◌, ◌<◌, ◌≤◌, ℕ, [], true, length, slice_index_or, IfOk, IfErr, IsTrue};
ghost use Rattle.std.specs.List.{list_all};
ghost use Rattle.ring_names.specs.declared.refusal.Refusal.TheVariants.{OutOfMemory};
ghost use Rattle.ring_board.specs.Kinds.{is_step};
ghost use Rattle.ring_board.specs.Blocks.{IsClient};
ghost use Rattle.ring_board.specs.Finishing.{list_at};
ghost use Rattle.ring_board.specs.Agreed.{AgreesBehind, Agrees};

use crate::clients::is_client;
use crate::finishing::are_finishers;
use crate::interleaving::interleaves;
use crate::kinds::{are_of_handoffs, are_of_steps};
use crate::outcome::Outcome;
use crate::receipt::Receipt;
use plan_check::Approved;
use ring_names::{Listed, Refusal};
use script_text::Script;
use std::alloc::Global;

fn are_workers(lists: &[Listed<Receipt>], first: usize, workers: u32) -> bool
    requires { first + workers ≤ length lists.now }
    ensures { IsTrue result
        ↔ ((i : ℕ) → i < workers → list_all (λ r. is_step r.event) (list_at lists.now (first + i)) ≡ true) }
{
    for worker in 0..workers {
        if !are_of_steps(lists[first + worker as usize].as_slice()) {
            return false;
        }
    }
    true
}

fn are_clients(
    alloc: Global,
    scripts: &[Script],
    lists: &[Listed<Receipt>],
    first: usize,
) -> Result<bool, Refusal>
    requires { first + length scripts.now ≤ length lists.now }
    ensures exactly { IfOk result (λ b. IsTrue b ↔ ((i : ℕ) → i < length scripts.now
        → IsClient (slice_index_or scripts.now i []) (list_at lists.now (first + i)))) }
    ensures memory { IfErr result (λ e. e ≡ OutOfMemory) }
{
    for (place, script) in scripts.iter().enumerate() {
        if !is_client(alloc, script.events(), lists[first + place].as_slice())? {
            return Ok(false);
        }
    }
    Ok(true)
}

#[derive(Clone, Copy)]
struct Cast<'a> {
    steps: u32,
    scripts: &'a [Script],
    workers: u32,
}

// Whether the lists are a drive's, with `front` lists before the workers'.
fn agrees_behind(
    alloc: Global,
    cast: &Cast,
    outcome: &Outcome,
    front: usize,
) -> Result<bool, Refusal>
    requires { length outcome.now.receipts.items ≡ front + (cast.now.workers + (length cast.now.scripts.now + 1)) }
    ensures exactly { IfOk result (λ b. IsTrue b ↔ AgreesBehind front cast.now.steps cast.now.scripts.now cast.now.workers outcome.now.history.items outcome.now.receipts.items outcome.now.finishers.items) }
    ensures memory { IfErr result (λ e. e ≡ OutOfMemory) }
{
    let (scripts, workers) = (cast.scripts, cast.workers);
    let lists = outcome.receipts.as_slice();
    let finishers = outcome.finishers.as_slice();
    let clients = front + workers as usize;
    let interleaved = interleaves(alloc, outcome.history.as_slice(), lists)?;
    let finished = are_finishers(alloc, finishers, front, workers, lists)?;
    let served = are_clients(alloc, scripts, lists, clients)?;
    let worked = are_workers(lists, front, workers);
    let handed = are_of_handoffs(lists[clients + scripts.len()].as_slice());
    let all = finishers.len() == cast.steps as usize;
    Ok(interleaved && finished && served && worked && handed && all)
}

/// Whether a drive's threads can have these receipts. The history must interleave the lists. Each step's finisher must
/// be the worker whose list has its `do` or `close`.
///
/// The last lists are the workers' (only events of steps), the clients' (a block for each line) and the handoffs'.
///
/// Takes a byte for each entry and step, and the keys of a script's gets.
pub fn agrees(
    alloc: Global,
    approved: &Approved,
    scripts: &[Script],
    workers: u32,
    outcome: &Outcome,
) -> Result<bool, Refusal>
    ensures exactly { IfOk result (λ b. IsTrue b ↔ Agrees (length approved.now.plan) scripts.now workers outcome.now.history.items outcome.now.receipts.items outcome.now.finishers.items) }
    ensures memory { IfErr result (λ e. e ≡ OutOfMemory) }
{
    let behind = (workers as usize).saturating_add(scripts.len());
    let Some(front) = outcome.receipts.len().checked_sub(behind.saturating_add(1)) else {
        return Ok(false);
    };
    let cast = Cast {
        steps: approved.plan().len(),
        scripts,
        workers,
    };
    agrees_behind(alloc, &cast, outcome, front)
}
