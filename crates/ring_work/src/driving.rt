//! A drive: all threads of a run.

ghost use Rattle.std.specs.Prelude.{◌≡◌, ◌+◌, ◌<◌, ◌≤◌, ◌++◌, ◌∷◌, All, [], Some, true, length, vec_len, map, IsTrue};
ghost use Rattle.std.specs.Prelude.{IsNone, IfOk, IfErr, IfNone, IfSome, OnOk};
ghost use Rattle.std.specs.List.{AllByRecursion, list_all};
ghost use Rattle.ring_names.specs.declared.refusal.Refusal.TheVariants.{OutOfMemory, TurnsSpent};
ghost use Rattle.ring_board.specs.Words.{finished_word};
ghost use Rattle.script_text.specs.Client.{is_client_event};
ghost use Rattle.ring_board.specs.Agreed.{Agrees};
ghost use Rattle.ring_board.specs.Finishing.{list_at};
ghost use Rattle.ring_work.specs.Driven.{Driven, IsHistory, IsWhole, IsSafe, IsFault, MayStop, MustTurn, IsSpent};

use crate::earlier::finish_all;
use crate::fault::Fault;
use crate::left::{Left, worse};
use crate::noting::no_limit;
use crate::site::Job;
use crate::threads::run_all;
use plan_check::{Approved, Gate};
use plan_runs::Entry;
use ring_board::{Board, ClosedBoard, Outcome, Receipt, Seat, agrees};
use ring_exec::{Executor, Ledgered, RunLedger, Share};
use ring_names::{Listed, Refusal};
use script_text::Script;
use std::alloc::Global;
use std::marker::Brand;
use std::sync::Wait;
use std::sync::ledger::Blank;
use std::thread::Threads;

// The extra seat claims steps that the entries finished.
fn board_of(
    alloc: Global,
    steps: u32,
    workers: u32,
    entries: &[Entry],
) -> Result<(Board, Seat, Seat), Refusal>
    requires { workers ≤ 64 }
    ensures board { IfOk result (λ r. (r.0.steps ≡ steps) × (r.0.workers ≡ workers + 1)) }
    ensures seats { IfOk result (λ r. (r.1.board ≡ r.0.id) × (r.2.board ≡ r.0.id)) }
    ensures worker { IfOk result (λ r. r.2.worker ≡ Some workers) }
{
    let (board, first) = Board::new(alloc, steps, workers + 1)?;
    let mut first = first;
    let Ok(mut seat) = board.seat(&mut first, workers) else {
        unreachable!()
    };
    finish_all(&board, &mut seat, entries);
    Ok((board, first, seat))
}

fn all_seats(seats: Vec<Seat>, first: Seat, last: Seat) -> Result<Vec<Seat>, Refusal>
    ensures some { IfOk result (λ v. 0 < vec_len v) }
    ensures seats { IfOk result (λ v. v.items ≡ seats.items ++ first ∷ last ∷ []) }
{
    let mut seats = seats;
    seats.reserve(2)?;
    seats.push_reserved(first);
    seats.push_reserved(last);
    Ok(seats)
}

fn end_of(board: Board, first: Seat, last: Seat, seats: Vec<Seat>) -> Result<ClosedBoard, Refusal>
    requires first { (first.board ≡ board.id) × (last.board ≡ board.id) }
    requires seats { All (λ s. s.board ≡ board.id) seats.items }
{
    let seats = all_seats(seats, first, last)?;
    board.end(seats)
}

// Returns the finishers. Refused if a step is unfinished.
fn finishers_of(alloc: Global, words: &[u64]) -> Result<Vec<u32>, Refusal>
    ensures { IfOk result (λ v. map finished_word v.items ≡ words.now) }
{
    let mut finishers = Vec::new(alloc);
    for word in words {
        if *word < 128 || *word > 255 {
            return Err(Refusal::Disagree);
        }
        finishers.push((*word - 128) as u32)?;
    }
    Ok(finishers)
}

#[derive(Drop)]
struct Finish {
    board: ClosedBoard,
    finishers: Vec<u32>,
    ghost told: { map finished_word finishers.items ≡ board },
}

fn finish_of(alloc: Global, end: Result<ClosedBoard, Refusal>) -> Result<Finish, Refusal> {
    let board = end?;
    let finishers = finishers_of(alloc, board.words())?;
    Ok(Finish { board, finishers })
}

/// Returns the history, and whether it finishes all steps.
pub(crate) fn history_of<'a, L: RunLedger>(
    approved: &Approved,
    ledgered: Ledgered<'a, L>,
) -> (Vec<Entry>, bool)
    requires ring { approved.now.ring ≡ L.ring }
    requires plan { approved.now.plan ≡ L.plan }
    ensures run { IsHistory approved.now.ring approved.now.plan result.0.items }
    ensures whole { IsTrue result.1 → IsWhole approved.now.ring approved.now.plan result.0.items }
    ensures safe { IsSafe approved.now.ring approved.now.plan result.0.items }
{
    let _ = approved.ring();
    let _ = ledgered.entries();
    let finished = ledgered.is_finished();
    (ledgered.into_entries(), finished)
}

/// Maps a refusal to a drive's.
pub(crate) fn fault_kind(refusal: Refusal) -> Refusal
    ensures fault { IsFault result }
    ensures spent { result ≡ TurnsSpent → refusal ≡ TurnsSpent }
    ensures memory { result ≡ OutOfMemory → refusal ≡ OutOfMemory }
{
    match refusal {
        Refusal::TurnsSpent => Refusal::TurnsSpent,
        Refusal::OutOfMemory => Refusal::OutOfMemory,
        _ => Refusal::Disagree,
    }
}

pub(crate) fn empty_fault(alloc: Global, approved: &Approved, refusal: Refusal) -> Fault
    ensures empty { result.history.items ≡ [] }
    ensures run { IsHistory approved.now.ring approved.now.plan result.history.items }
    ensures refusal { result.refusal ≡ refusal }
{
    Fault {
        refusal,
        history: Vec::new(alloc),
    }
}

// Whether a drive did all steps and lines, and has a list of each thread.
fn is_whole(finished: bool, complete: bool, count: usize, lists: usize) -> bool
    ensures { IsTrue result → IsTrue finished × IsTrue complete × (count ≡ lists) }
{
    finished && complete && count == lists
}

// Returns the outcome's failure. A stopped thread comes first.
fn judge<'a, R: Wait, G: Gate>(
    job: &Job<'a, R, G>,
    outcome: &Outcome,
    whole: bool,
    stopped: Option<Refusal>,
) -> Option<Refusal>
    ensures whole { IfNone result (IsTrue whole) }
    ensures agrees { IfNone result (Agrees (length job.now.approved.now.plan) job.now.scripts.now job.now.workers outcome.now.history.items outcome.now.receipts.items outcome.now.finishers.items) }
    ensures fault { IfSome result IsFault }
    ensures spent { IfSome result (λ e. e ≡ TurnsSpent → IsSpent stopped) }
{
    if let Some(refusal) = stopped {
        return Some(fault_kind(refusal));
    }
    if !whole {
        return Some(Refusal::Disagree);
    }
    match agrees(job.alloc, job.approved, job.scripts, job.workers, outcome) {
        Ok(true) => None,
        Ok(false) => Some(Refusal::Disagree),
        Err(_) => Some(Refusal::OutOfMemory),
    }
}

fn worst(met: Option<Refusal>, other: Refusal) -> Refusal
    ensures { result ≡ TurnsSpent → IsSpent met }
{
    match worse(met, Some(no_limit(other))) {
        Some(refusal) => refusal,
        None => Refusal::Disagree,
    }
}

// An earlier refusal takes precedence.
fn finish_after(finish: Result<Finish, Refusal>, met: Option<Refusal>) -> Result<Finish, Refusal>
    ensures { IfErr result (λ e. e ≡ TurnsSpent → IsSpent met) }
{
    match finish {
        Ok(finish) => Ok(finish),
        Err(refusal) => Err(met.unwrap_or(no_limit(refusal))),
    }
}

fn fault_of(outcome: Outcome, refusal: Refusal) -> Fault
    ensures { (result.refusal ≡ refusal) × (result.history ≡ outcome.history) }
{
    let Outcome {
        history,
        receipts: _,
        finishers: _,
        board: _,
    } = outcome;
    Fault { refusal, history }
}

fn append_lists(
    front: Vec<Listed<Receipt>>,
    lists: Vec<Listed<Receipt>>,
    met: Option<Refusal>,
) -> (Vec<Listed<Receipt>>, Option<Refusal>)
    ensures first { 0 < vec_len front → list_at result.0.items 0 ≡ list_at front.items 0 }
    ensures spent { IsSpent result.1 → IsSpent met }
{
    let mut all = front;
    let mut met = met;
    for list in lists {
        if all.push(list).is_err() {
            met = worse(met, Some(Refusal::OutOfMemory));
        }
    }
    (all, met)
}

fn with_room(front: Vec<Listed<Receipt>>, threads: usize) -> Result<Vec<Listed<Receipt>>, Refusal>
    ensures { IfOk result (λ v. v.items ≡ front.items) }
{
    let mut front = front;
    front.reserve(threads)?;
    Ok(front)
}

fn threads_of<'a, R: Wait, G: Gate>(job: &Job<'a, R, G>) -> usize
    requires workers { job.now.workers ≤ 64 }
    requires scripts { length job.now.scripts.now ≤ 8 }
    ensures { result ≡ job.now.workers + (length job.now.scripts.now + 1) }
{
    job.workers as usize + (job.scripts.len() + 1)
}

fn prepare<'a, R: Wait, G: Gate>(
    job: &Job<'a, R, G>,
    entries: &[Entry],
    front: Vec<Listed<Receipt>>,
) -> Result<(Board, Seat, Seat, Vec<Listed<Receipt>>), Refusal>
    requires workers { job.now.workers ≤ 64 }
    requires scripts { length job.now.scripts.now ≤ 8 }
    ensures board { IfOk result
        (λ r. (r.0.steps ≡ length job.now.approved.now.plan) × (r.0.workers ≡ job.now.workers + 1)) }
    ensures seats { IfOk result (λ r. (r.1.board ≡ r.0.id) × (r.2.board ≡ r.0.id)) }
    ensures front { IfOk result (λ r. r.3.items ≡ front.items) }
{
    let front = with_room(front, threads_of(job))?;
    let steps = job.approved.plan().len();
    let (board, first, last) = board_of(job.alloc, steps, job.workers, entries)?;
    Ok((board, first, last, front))
}

// `complete` if all threads started and ran all lines.
#[derive(Drop)]
struct Ran<L: RunLedger> {
    shares: Vec<Share<L>>,
    receipts: Vec<Listed<Receipt>>,
    finish: Result<Finish, Refusal>,
    refusal: Option<Refusal>,
    complete: bool,
}

fn run<'a, L: RunLedger + Send + Sync, R: Threads + Wait + Sync, G: Gate + Sync>(
    job: &Job<'a, R, G>,
    executor: &Executor<'a, L>,
    share: Share<L>,
    entries: &[Entry],
    front: Vec<Listed<Receipt>>,
) -> Result<Ran<L>, Refusal>
    requires parts { job.now.workers + length job.now.scripts.now + 2 ≤ share.token.parts }
    requires workers { job.now.workers ≤ 64 }
    requires scripts { length job.now.scripts.now ≤ 8 }
    ensures first { IfOk result (λ r. 0 < vec_len front → list_at r.receipts.items 0 ≡ list_at front.items 0) }
    ensures spent { IfOk result (λ r. IsSpent r.refusal
        → MayStop (G.may_refuse job.now.gate.now) job.now.approved.now.plan (length job.now.scripts.now)) }
    ensures finish { IfOk result (λ r. IfErr r.finish (λ e. e ≡ TurnsSpent → IsSpent r.refusal)) }
    ensures turned { IfOk result (λ r. MustTurn (G.must_refuse job.now.gate.now) job.now.scripts.now
        → IsTrue r.complete → ⊥) }
{
    let (board, first, last, front) = prepare(job, entries, front)?;
    let (first, left) = run_all(&*job, &*executor, &board, first, share)?;
    let Left {
        seats,
        shares,
        receipts,
        refusal,
        complete,
    } = left;
    let finish = finish_of(job.alloc, end_of(board, first, last, seats));
    let (receipts, refusal) = append_lists(front, receipts, refusal);
    let finish = finish_after(finish, refusal);
    Ok(Ran {
        shares,
        receipts,
        finish,
        refusal,
        complete,
    })
}

// Returns the outcome, or its history and failure.
fn check_outcome<'a, R: Wait, G: Gate>(
    job: &Job<'a, R, G>,
    outcome: Outcome,
    whole: bool,
    stopped: Option<Refusal>,
) -> Result<Outcome, Fault>
    requires run { IsHistory job.now.approved.now.ring job.now.approved.now.plan outcome.history.items }
    requires whole { IsTrue whole → IsWhole job.now.approved.now.ring job.now.approved.now.plan outcome.history.items }
    requires safe { IsSafe job.now.approved.now.ring job.now.approved.now.plan outcome.history.items }
    requires board { map finished_word outcome.finishers.items ≡ outcome.board }
    ensures ok { IfOk result (λ o. Driven job.now.approved.now.ring job.now.approved.now.plan job.now.scripts.now job.now.workers o.history.items o.receipts.items o.finishers.items) }
    ensures whole { OnOk result (IsTrue whole) }
    ensures receipts { IfOk result (λ o. IsTrue whole × (o.receipts ≡ outcome.receipts)) }
    ensures board { IfOk result (λ o. map finished_word o.finishers.items ≡ o.board) }
    ensures refusal { IfErr result (λ f. IsFault f.refusal) }
    ensures spent { IfErr result (λ f. f.refusal ≡ TurnsSpent → IsSpent stopped) }
    ensures history { IfErr result
        (λ f. IsHistory job.now.approved.now.ring job.now.approved.now.plan f.history.items) }
{
    match judge(job, &outcome, whole, stopped) {
        None => Ok(outcome),
        Some(refusal) => Err(fault_of(outcome, refusal)),
    }
}

fn finish_drive<'a, L: RunLedger, R: Wait, G: Gate>(
    job: &Job<'a, R, G>,
    executor: Executor<'a, L>,
    ran: Ran<L>,
    lists: usize,
) -> Result<Outcome, Fault>
    requires ring { job.now.approved.now.ring ≡ L.ring }
    requires plan { job.now.approved.now.plan ≡ L.plan }
    requires finish { IfErr ran.finish (λ e. e ≡ TurnsSpent → IsSpent ran.refusal) }
    ensures ok { IfOk result (λ o. Driven job.now.approved.now.ring job.now.approved.now.plan job.now.scripts.now job.now.workers o.history.items o.receipts.items o.finishers.items) }
    ensures lists { IfOk result (λ o. (vec_len o.receipts ≡ lists) × (o.receipts ≡ ran.receipts)) }
    ensures board { IfOk result (λ o. map finished_word o.finishers.items ≡ o.board) }
    ensures turned { (IsTrue ran.complete → ⊥) → OnOk result ⊥ }
    ensures refusal { IfErr result (λ f. IsFault f.refusal) }
    ensures spent { IfErr result (λ f. f.refusal ≡ TurnsSpent → IsSpent ran.refusal) }
    ensures history { IfErr result
        (λ f. IsHistory job.now.approved.now.ring job.now.approved.now.plan f.history.items) }
{
    let Ran {
        shares,
        receipts,
        finish,
        refusal,
        complete,
    } = ran;
    let ledgered = match executor.finish(shares) {
        Ok(ledgered) => ledgered,
        Err(other) => return Err(empty_fault(
            job.alloc,
            job.approved,
            fault_kind(worst(refusal, other)),
        )),
    };
    let (history, finished) = history_of(job.approved, ledgered);
    match finish {
        Ok(Finish { board, finishers }) => {
            let whole = is_whole(finished, complete, receipts.len(), lists);
            let outcome = Outcome {
                history,
                receipts,
                finishers,
                board,
            };
            check_outcome(job, outcome, whole, refusal)
        }
        Err(other) => Err(Fault {
            refusal: fault_kind(other),
            history,
        }),
    }
}

/// Runs the threads on a store with these entries. The threads' lists follow `front`.
pub(crate) fn drive_on<'a, L: RunLedger + Send + Sync, R: Threads + Wait + Sync, G: Gate + Sync>(
    job: &Job<'a, R, G>,
    executor: Executor<'a, L>,
    share: Share<L>,
    entries: &[Entry],
    front: Vec<Listed<Receipt>>,
) -> Result<Outcome, Fault>
    requires front { vec_len front ≤ 1 }
    requires parts { job.now.workers + length job.now.scripts.now + 2 ≤ share.token.parts }
    requires ring { job.now.approved.now.ring ≡ L.ring }
    requires plan { job.now.approved.now.plan ≡ L.plan }
    requires workers { job.now.workers ≤ 64 }
    requires scripts { length job.now.scripts.now ≤ 8 }
    ensures ok { IfOk result (λ o. Driven job.now.approved.now.ring job.now.approved.now.plan job.now.scripts.now job.now.workers o.history.items o.receipts.items o.finishers.items) }
    ensures threads { IfOk result
        (λ o. vec_len o.receipts ≡ vec_len front + (job.now.workers + (length job.now.scripts.now + 1))) }
    ensures first { IfOk result (λ o. 0 < vec_len front → list_at o.receipts.items 0 ≡ list_at front.items 0) }
    ensures board { IfOk result (λ o. map finished_word o.finishers.items ≡ o.board) }
    ensures turned { MustTurn (G.must_refuse job.now.gate.now) job.now.scripts.now → OnOk result ⊥ }
    ensures refusal { IfErr result (λ f. IsFault f.refusal) }
    ensures spent { IfErr result (λ f. f.refusal ≡ TurnsSpent
        → MayStop (G.may_refuse job.now.gate.now) job.now.approved.now.plan (length job.now.scripts.now)) }
    ensures history { IfErr result
        (λ f. IsHistory job.now.approved.now.ring job.now.approved.now.plan f.history.items) }
{
    let lists = front.len() + threads_of(job);
    match run(job, &executor, share, entries, front) {
        Ok(ran) => finish_drive(job, executor, ran, lists),
        Err(refusal) => {
            executor.give_up();
            Err(empty_fault(job.alloc, job.approved, fault_kind(no_limit(refusal))))
        }
    }
}

fn drive_as<'a, L: RunLedger + Send + Sync, R: Threads + Wait + Sync, G: Gate + Sync>(
    job: &Job<'a, R, G>,
    blank: Blank,
) -> Result<Outcome, Fault>
    requires name { blank.name ≡ L.name }
    requires parts { (blank.parts ≡ L.parts) × (blank.parts ≡ 128) }
    requires ring { job.now.approved.now.ring ≡ L.ring }
    requires plan { job.now.approved.now.plan ≡ L.plan }
    requires workers { job.now.workers ≤ 64 }
    requires scripts { length job.now.scripts.now ≤ 8 }
    ensures ok { IfOk result (λ o. Driven job.now.approved.now.ring job.now.approved.now.plan job.now.scripts.now job.now.workers o.history.items o.receipts.items o.finishers.items) }
    ensures threads { IfOk result (λ o. vec_len o.receipts ≡ job.now.workers + (length job.now.scripts.now + 1)) }
    ensures board { IfOk result (λ o. map finished_word o.finishers.items ≡ o.board) }
    ensures turned { MustTurn (G.must_refuse job.now.gate.now) job.now.scripts.now → OnOk result ⊥ }
    ensures refusal { IfErr result (λ f. IsFault f.refusal) }
    ensures spent { IfErr result (λ f. f.refusal ≡ TurnsSpent
        → MayStop (G.may_refuse job.now.gate.now) job.now.approved.now.plan (length job.now.scripts.now)) }
    ensures history { IfErr result
        (λ f. IsHistory job.now.approved.now.ring job.now.approved.now.plan f.history.items) }
{
    match Executor::<L>::new(job.alloc, blank, job.approved) {
        Ok((executor, share)) => drive_on(job, executor, share, &[], Vec::new(job.alloc)),
        Err(refusal) => Err(empty_fault(job.alloc, job.approved, fault_kind(refusal))),
    }
}

/// Runs the plan with 1 to 64 workers and 1 to 8 scripts.
///
/// A client runs each script, and a thread hands off hints.
///
/// Workers pass the gate after opening a copy: as worker `w`, at the step.
///
/// Clients pass before each line: as worker 64 plus the script's number, at the line's number.
///
/// Fails with 71 if a worker took 1,000,000 turns without finishing a step, or the gate refused.
///
/// Otherwise fails with 70 if the history is full or records disagree, and with 60 if memory or a thread was refused.
pub fn drive<R: Threads + Wait + Sync, G: Gate + Sync>(
    rt: &R,
    alloc: Global,
    approved: &Approved,
    scripts: &[Script],
    workers: u32,
    gate: &G,
) -> Result<Outcome, Fault>
    requires workers { (0 < workers) × (workers ≤ 64) }
    requires scripts { (0 < length scripts.now) × (length scripts.now ≤ 8) }
    requires clients { AllByRecursion (λ s. list_all is_client_event s ≡ true) scripts.now }
    ensures ok { IfOk result (λ o. Driven approved.now.ring approved.now.plan scripts.now workers o.history.items o.receipts.items o.finishers.items) }
    // For workers, clients and handoffs.
    ensures threads { IfOk result (λ o. vec_len o.receipts ≡ workers + (length scripts.now + 1)) }
    // Only closing a board makes such words.
    ensures board { IfOk result (λ o. map finished_word o.finishers.items ≡ o.board) }
    ensures turned { MustTurn (G.must_refuse gate.now) scripts.now → OnOk result ⊥ }
    ensures refusal { IfErr result (λ f. IsFault f.refusal) }
    ensures spent { IfErr result
        (λ f. f.refusal ≡ TurnsSpent → MayStop (G.may_refuse gate.now) approved.now.plan (length scripts.now)) }
    ensures history { IfErr result (λ f. IsHistory approved.now.ring approved.now.plan f.history.items) }
{
    let job = Job {
        rt,
        alloc,
        approved,
        scripts,
        workers,
        gate,
    };
    drive_as::<Brand, R, G>(&job, Blank::new(128))
}
