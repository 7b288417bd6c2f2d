//! Replays.

ghost use Rattle.std.specs.Prelude.{◌≡◌, ◌≤◌, length, IfErr};
ghost use Rattle.ring_names.specs.declared.refusal.Refusal.TheVariants.{OutOfMemory};
ghost use Rattle.texts.specs.Left.{whole_text};
ghost use Rattle.texts.specs.Late.{NoFaultBefore};
ghost use Rattle.history_text.specs.Replays.{parts_of, replay_at, IsReplay};
ghost use Rattle.ringplan_answers.specs.Answers.{texts_of};
ghost use Rattle.ringplan_answers.specs.Replays.{IsJudgedIf, ReplaysOfIf};
ghost use Rattle.ringplan_answers.specs.Verdict.{MakesIf};
ghost use Rattle.ringplan_request.specs.declared.job.Job.TheVariants.{Replay as Replaying};

use history_text::{ReplayBundle, read_replay};
use plan_check::{Approved, Turned, check};
use plan_runs::Entry;
use ring_names::Refusal;
use ring_script::replay_history;
use std::alloc::Global;

// Replays a history. Frees the store unless the program `ends` then.
fn replay_approved(
    alloc: Global,
    approved: &Approved,
    history: Vec<Entry>,
    ends: bool,
) -> Result<Vec<u8>, Refusal>
    requires { length history.items ≤ 1000000 }
    ensures { IsJudgedIf approved.now.ring approved.now.plan history.items (texts_of result) }
{
    match replay_history(alloc, approved, history, ends) {
        Ok(text) => Ok(text),
        Err(refusal) => Err(refusal),
    }
}

fn replay_checked(alloc: Global, bundle: ReplayBundle, ends: bool) -> Result<Vec<u8>, Refusal>
    requires { IsReplay bundle }
    ensures { ReplaysOfIf (parts_of bundle) (texts_of result) }
{
    match check(alloc, bundle.ring, bundle.plan, &bundle.cert) {
        Ok(approved) => replay_approved(alloc, &approved, bundle.history, ends),
        Err(Turned { refusal, .. }) => Err(refusal),
    }
}

/// Replays a history, if the checker accepts the plan and the history is its run: `yes`, the final owners, `end`.
///
/// Fails with the texts' first fault, then as the checker does, then with `Mismatch` of the first impossible entry; at
/// any entry with `OutOfMemory`.
pub fn replay_bundle(alloc: Global, bytes: &[u8]) -> Result<Vec<u8>, Refusal>
    ensures replays { MakesIf Replaying bytes.now (texts_of result) }
    ensures late { IfErr result (λ e. e ≡ OutOfMemory → NoFaultBefore 5 (whole_text replay_at bytes.now)) }
{
    match read_replay(alloc, bytes) {
        Ok(bundle) => replay_checked(alloc, bundle, false),
        Err(e) => Err(e),
    }
}

/// Drops the bytes after reading, so that the store reuses their memory.
pub(crate) fn replay_whole(alloc: Global, bytes: Vec<u8>) -> Result<Vec<u8>, Refusal>
    ensures { MakesIf Replaying bytes.items (texts_of result) }
{
    let read = read_replay(alloc, bytes.as_slice());
    drop(bytes);
    match read {
        Ok(bundle) => replay_checked(alloc, bundle, true),
        Err(e) => Err(e),
    }
}
