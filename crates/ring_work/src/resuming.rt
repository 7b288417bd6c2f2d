//! Resumes a drive from a history.

ghost use Rattle.std.specs.Prelude.{◌≡◌, ◌≢◌, ◌↔◌, ◌+◌, ◌<◌, ◌≤◌, [], ◌∷◌, true, length, map, vec_len, IfOk, IfErr};
ghost use Rattle.std.specs.Prelude.{OnOk};
ghost use Rattle.std.specs.List.{AllByRecursion, list_all};
ghost use Rattle.ring_names.specs.declared.refusal.Refusal.TheVariants.{OutOfMemory, HistoryFull, TurnsSpent};
ghost use Rattle.plan_runs.specs.World.{opening_world};
ghost use Rattle.ring_board.specs.Words.{finished_word};
ghost use Rattle.script_text.specs.Client.{is_client_event};
ghost use Rattle.ring_exec.specs.Faults.{IsFirstFault};
ghost use Rattle.ring_board.specs.Finishing.{list_at};
ghost use Rattle.ring_work.specs.Driven.{IsHistory, IsFault, MayStop, MustTurn};
ghost use Rattle.ring_work.specs.Resumed.{Continues, Resumed, IsStop, TellsFault};

use crate::driving::{drive_on, empty_fault, fault_kind, history_of};
use crate::earlier::earlier_list;
use crate::fault::Fault;
use crate::noting::no_limit;
use crate::site::{Job, LockedStore};
use plan_check::{Approved, Gate};
use plan_runs::Entry;
use ring_board::{Outcome, Receipt};
use ring_exec::{Executor, MAX_ENTRIES, RunLedger, Share};
use ring_names::{Listed, Refusal};
use script_text::Script;
use std::alloc::Global;
use std::marker::Brand;
use std::sync::Wait;
use std::sync::ledger::Blank;
use std::thread::Threads;

fn one_list(alloc: Global, list: Listed<Receipt>) -> Result<Vec<Listed<Receipt>>, Refusal>
    ensures { IfOk result (λ v. v.items ≡ list ∷ []) }
{
    let mut front = Vec::new(alloc);
    front.push(list)?;
    Ok(front)
}

// Aborts open copies, and lists earlier events.
fn front_of<'a, L: RunLedger, R: Wait, G: Gate>(
    job: &Job<'a, R, G>,
    executor: &Executor<'a, L>,
    share: &mut Share<L>,
    entries: &[Entry],
) -> Result<Vec<Listed<Receipt>>, Refusal>
    requires few { length entries.now ≤ 1000000 }
    ensures one { IfOk result (λ v. vec_len v ≡ 1) }
    ensures first { IfOk result
        (λ v. Continues (length job.now.approved.now.plan) entries.now (list_at v.items 0)) }
    ensures parts { share.new.token.parts ≡ share.old.token.parts }
{
    let store = LockedStore {
        rt: job.rt,
        executor,
    };
    let steps = job.approved.plan().len();
    let list = earlier_list(&store, job.alloc, share, steps, entries)?;
    one_list(job.alloc, list)
}

// Returns the fault, with the history so far, before threads start.
fn abort_drive<'a, L: RunLedger>(
    alloc: Global,
    executor: Executor<'a, L>,
    shares: Vec<Share<L>>,
    approved: &Approved,
    refusal: Refusal,
) -> Fault
    requires ring { approved.now.ring ≡ L.ring }
    requires plan { approved.now.plan ≡ L.plan }
    ensures run { IsHistory approved.now.ring approved.now.plan result.history.items }
    ensures refusal { IsFault result.refusal }
    ensures spent { result.refusal ≡ TurnsSpent → ⊥ }
{
    let refusal = fault_kind(no_limit(refusal));
    match executor.finish(shares) {
        Ok(ledgered) => {
            let (history, _) = history_of(approved, ledgered);
            Fault { refusal, history }
        }
        Err(_) => empty_fault(alloc, approved, refusal),
    }
}

fn resume_on<'a, L: RunLedger + Send + Sync, R: Threads + Wait + Sync, G: Gate + Sync>(
    job: &Job<'a, R, G>,
    executor: Executor<'a, L>,
    share: Share<L>,
    entries: &[Entry],
) -> Result<Outcome, Fault>
    requires few { length entries.now ≤ 1000000 }
    requires parts { job.now.workers + length job.now.scripts.now + 2 ≤ share.token.parts }
    requires ring { job.now.approved.now.ring ≡ L.ring }
    requires plan { job.now.approved.now.plan ≡ L.plan }
    requires workers { job.now.workers ≤ 64 }
    requires scripts { length job.now.scripts.now ≤ 8 }
    ensures ok { IfOk result (λ o. Resumed job.now.approved.now.ring job.now.approved.now.plan job.now.scripts.now job.now.workers entries.now o.history.items o.receipts.items o.finishers.items) }
    ensures threads { IfOk result
        (λ o. vec_len o.receipts ≡ 1 + (job.now.workers + (length job.now.scripts.now + 1))) }
    ensures board { IfOk result (λ o. map finished_word o.finishers.items ≡ o.board) }
    ensures turned { MustTurn (G.must_refuse job.now.gate.now) job.now.scripts.now → OnOk result ⊥ }
    ensures refusal { IfErr result (λ f. IsFault f.refusal) }
    ensures spent { IfErr result (λ f. f.refusal ≡ TurnsSpent
        → MayStop (G.may_refuse job.now.gate.now) job.now.approved.now.plan (length job.now.scripts.now)) }
    ensures history { IfErr result
        (λ f. IsHistory job.now.approved.now.ring job.now.approved.now.plan f.history.items) }
{
    let mut share = share;
    // A refused abort keeps the history.
    let mut shares = match Vec::with_capacity(job.alloc, 1) {
        Ok(shares) => shares,
        Err(_) => {
            executor.give_up();
            return Err(empty_fault(job.alloc, job.approved, fault_kind(Refusal::OutOfMemory)));
        }
    };
    match front_of(job, &executor, &mut share, entries) {
        Ok(front) => drive_on(job, executor, share, entries, front),
        Err(refusal) => {
            shares.push_reserved(share);
            Err(abort_drive(job.alloc, executor, shares, job.approved, refusal))
        }
    }
}

fn stop_refusal(approved: &Approved, entries: &[Entry], refusal: Refusal) -> Refusal
    requires full { (refusal ≡ HistoryFull) ↔ (1000000 < length entries.now) }
    requires few { length entries.now ≤ 1000000 }
    requires err { refusal ≢ HistoryFull → refusal ≢ OutOfMemory
        → IsFirstFault approved.now.ring approved.now.plan (opening_world approved.now.ring) 0 entries.now refusal }
    ensures stop { IsStop approved.now.ring approved.now.plan entries.now result }
    ensures full { (result ≡ HistoryFull) ↔ (1000000 < length entries.now) }
    ensures fault { TellsFault approved.now.ring approved.now.plan entries.now result }
    ensures spent { result ≡ TurnsSpent → ⊥ }
{
    if refusal == Refusal::OutOfMemory {
        return Refusal::OutOfMemory;
    }
    refusal
}

fn resume_as<'a, L: RunLedger + Send + Sync, R: Threads + Wait + Sync, G: Gate + Sync>(
    job: &Job<'a, R, G>,
    blank: Blank,
    entries: &[Entry],
) -> Result<Outcome, Fault>
    requires few { length entries.now ≤ 1000000 }
    requires name { blank.name ≡ L.name }
    requires parts { (blank.parts ≡ L.parts) × (blank.parts ≡ 128) }
    requires ring { job.now.approved.now.ring ≡ L.ring }
    requires plan { job.now.approved.now.plan ≡ L.plan }
    requires workers { job.now.workers ≤ 64 }
    requires scripts { length job.now.scripts.now ≤ 8 }
    ensures ok { IfOk result (λ o. Resumed job.now.approved.now.ring job.now.approved.now.plan job.now.scripts.now job.now.workers entries.now o.history.items o.receipts.items o.finishers.items) }
    ensures threads { IfOk result
        (λ o. vec_len o.receipts ≡ 1 + (job.now.workers + (length job.now.scripts.now + 1))) }
    ensures board { IfOk result (λ o. map finished_word o.finishers.items ≡ o.board) }
    ensures turned { MustTurn (G.must_refuse job.now.gate.now) job.now.scripts.now → OnOk result ⊥ }
    ensures refusal { IfErr result
        (λ f. IsStop job.now.approved.now.ring job.now.approved.now.plan entries.now f.refusal) }
    ensures full { IfErr result (λ f. (f.refusal ≡ HistoryFull) ↔ (1000000 < length entries.now)) }
    ensures fault { IfErr result
        (λ f. TellsFault job.now.approved.now.ring job.now.approved.now.plan entries.now f.refusal) }
    ensures spent { IfErr result (λ f. f.refusal ≡ TurnsSpent
        → MayStop (G.may_refuse job.now.gate.now) job.now.approved.now.plan (length job.now.scripts.now)) }
    ensures history { IfErr result
        (λ f. IsHistory job.now.approved.now.ring job.now.approved.now.plan f.history.items) }
    ensures empty { IfErr result (λ f. (IsFault f.refusal → ⊥) → f.history.items ≡ []) }
{
    let (alloc, approved) = (job.alloc, job.approved);
    match Executor::<L>::restore(alloc, blank, approved, entries) {
        Ok((executor, share)) => resume_on(job, executor, share, entries),
        Err(refusal) => Err(empty_fault(alloc, approved, stop_refusal(approved, entries, refusal))),
    }
}

/// Resumes a run from a history.
///
/// Restores the store, aborts open copies by step number, then runs as `drive` does.
///
/// The first list of receipts has the entries, then these aborts. Steps that the entries finished have the number of
/// workers as finisher.
///
/// Over 1,000,000 entries are refused first, then `Mismatch` names the first entry outside a run. Both leave the
/// fault's history empty.
///
/// Later refusals are those of `drive`, with 70 also if an abort does not fit the history. Lack of memory comes last at
/// each entry.
pub fn resume<R: Threads + Wait + Sync, G: Gate + Sync>(
    rt: &R,
    alloc: Global,
    approved: &Approved,
    entries: &[Entry],
    scripts: &[Script],
    workers: u32,
    gate: &G,
) -> Result<Outcome, Fault>
    requires workers { (0 < workers) × (workers ≤ 64) }
    requires scripts { (0 < length scripts.now) × (length scripts.now ≤ 8) }
    requires clients { AllByRecursion (λ s. list_all is_client_event s ≡ true) scripts.now }
    ensures ok { IfOk result (λ o. Resumed approved.now.ring approved.now.plan scripts.now workers entries.now o.history.items o.receipts.items o.finishers.items) }
    // For earlier events, workers, clients and handoffs.
    ensures threads { IfOk result (λ o. vec_len o.receipts ≡ 1 + (workers + (length scripts.now + 1))) }
    // Only closing a board makes such words.
    ensures board { IfOk result (λ o. map finished_word o.finishers.items ≡ o.board) }
    ensures turned { MustTurn (G.must_refuse gate.now) scripts.now → OnOk result ⊥ }
    ensures refusal { IfErr result (λ f. IsStop approved.now.ring approved.now.plan entries.now f.refusal) }
    // Too many entries are refused first; then, memory aside, the first entry outside a run.
    ensures full { IfErr result (λ f. (f.refusal ≡ HistoryFull) ↔ (1000000 < length entries.now)) }
    ensures fault { IfErr result (λ f. TellsFault approved.now.ring approved.now.plan entries.now f.refusal) }
    ensures spent { IfErr result
        (λ f. f.refusal ≡ TurnsSpent → MayStop (G.may_refuse gate.now) approved.now.plan (length scripts.now)) }
    ensures history { IfErr result (λ f. IsHistory approved.now.ring approved.now.plan f.history.items) }
    ensures empty { IfErr result (λ f. (IsFault f.refusal → ⊥) → f.history.items ≡ []) }
{
    if entries.len() > MAX_ENTRIES {
        return Err(empty_fault(alloc, approved, Refusal::HistoryFull));
    }
    let job = Job {
        rt,
        alloc,
        approved,
        scripts,
        workers,
        gate,
    };
    resume_as::<Brand, R, G>(&job, Blank::new(128), entries)
}
