//! Workers, which do the plan's steps.

ghost use Rattle.std.specs.Prelude.{◌≡◌, ◌<◌, ◌≤◌, true, is_some, length, IfErr, IfSome};
ghost use Rattle.ring_names.specs.Lists.{has};
ghost use Rattle.ring_names.specs.declared.refusal.Refusal.TheVariants.{OutOfMemory};
ghost use Rattle.ring_work.specs.Driven.{IsSpent};

use crate::done::{Done, Sat};
use crate::noting::go_on;
use crate::site::{Site, is_set, set};
use plan_check::Gate;
use plan_runs::Event;
use plan_text::Step;
use ring_board::{Board, Claim, Seat};
use ring_exec::RunLedger;
use ring_names::Refusal;
use std::alloc::Global;
use std::sync::Wait;
use std::{mem, thread};

/// The most turns without finishing a step.
const MAX_TURNS: u32 = 1_000_000;

const CHUNKS: u32 = 16;

const NONE: u32 = 0xffff_ffff;

// A worker's knowledge of the steps. Walks skip finished steps and waiting ones.
//
// So a step is looked at again only after a change, and each dependency is passed once.
#[derive(Drop)]
struct Walk {
    finished: Vec<bool>,
    // A bit for each step to look at.
    open: Vec<u64>,
    // By step, the first that waits for it; by waiting step, the next.
    waiting: Vec<u32>,
    behind: Vec<u32>,
    // By step, how many first dependencies are known to be finished.
    passed: Vec<u32>,
    left: u32,
    from: u32,
}

impl Walk {
    fn new(alloc: Global, steps: u32) -> Result<Walk, Refusal>
        ensures memory { IfErr result (λ e. e ≡ OutOfMemory) }
    {
        let finished = vec![in alloc; false; steps as usize]?;
        let open = vec![in alloc; u64::MAX; (steps / 64) as usize + 1]?;
        let waiting = vec![in alloc; NONE; steps as usize]?;
        let behind = vec![in alloc; NONE; steps as usize]?;
        let passed = vec![in alloc; 0u32; steps as usize]?;
        Ok(Walk {
            finished,
            open,
            waiting,
            behind,
            passed,
            left: steps,
            from: 0,
        })
    }

    fn is_known(&self, step: u32) -> bool {
        self.finished.get(step as usize).copied().unwrap_or(false)
    }

    fn set_open(&mut self, step: u32, is: bool) {
        if let Some(word) = self.open.get_mut((step / 64) as usize) {
            let bit = 1u64 << (step % 64);
            if is {
                *word |= bit;
            } else {
                *word &= !bit;
            }
        }
    }

    fn first_open(&self, from: u32, end: u32) -> Option<u32>
        ensures { IfSome result (λ s. s < end) }
    {
        let mut skipped = u64::MAX << (from % 64);
        for word in from / 64..end / 64 + 1 {
            let bits = self.open.get(word as usize).copied().unwrap_or(0) & skipped;
            if bits != 0 {
                let step = word
                    .saturating_mul(64)
                    .saturating_add(bits.trailing_zeros());
                return if step < end { Some(step) } else { None };
            }
            skipped = u64::MAX;
        }
        None
    }

    // Skips the step until the other is finished.
    fn wait(&mut self, step: u32, other: u32) {
        if let (Some(first), Some(next)) = (
            self.waiting.get_mut(other as usize),
            self.behind.get_mut(step as usize),
        ) {
            *next = *first;
            *first = step;
            self.set_open(step, false);
        }
    }

    fn passed_count(&self, step: u32) -> usize {
        self.passed.get(step as usize).copied().unwrap_or(0) as usize
    }

    fn pass(&mut self, step: u32, more: u32) {
        if let Some(passed) = self.passed.get_mut(step as usize) {
            *passed = passed.saturating_add(more);
        }
    }

    // Lets walks see the steps that wait for this one.
    fn wake(&mut self, step: u32) {
        let mut next = match self.waiting.get_mut(step as usize) {
            Some(first) => mem::replace(first, NONE),
            None => NONE,
        };
        for _ in 0..self.behind.len() {
            let Some(later) = self.behind.get(next as usize).copied() else {
                break;
            };
            self.set_open(next, true);
            next = later;
        }
    }

    fn note(&mut self, step: u32) {
        if let Some(known) = self.finished.get_mut(step as usize) {
            if !*known {
                *known = true;
                self.left = self.left.saturating_sub(1);
                self.set_open(step, false);
                self.wake(step);
            }
        }
    }
}

fn is_finished(board: &Board, seat: &mut Seat, walk: &mut Walk, step: u32) -> bool
    requires board { seat.old.board ≡ board.now.id }
    requires step { step < board.now.steps }
    ensures board { seat.new.board ≡ board.now.id }
    ensures worker { seat.new.worker ≡ seat.old.worker }
{
    if walk.is_known(step) {
        return true;
    }
    let finished = board.is_done(seat, step);
    if finished {
        walk.note(step);
    }
    finished
}

// Whether the step can be done. With unfinished dependencies it waits.
fn is_next(board: &Board, seat: &mut Seat, walk: &mut Walk, step: u32, others: &[u32]) -> bool
    requires board { seat.old.board ≡ board.now.id }
    requires step { step < board.now.steps }
    ensures board { seat.new.board ≡ board.now.id }
    ensures worker { seat.new.worker ≡ seat.old.worker }
{
    if is_finished(board, seat, walk, step) {
        return false;
    }
    let mut more = 0u32;
    for other in others.get(walk.passed_count(step)..).unwrap_or(&[]) {
        if *other >= board.steps() || !is_finished(board, seat, walk, *other) {
            walk.pass(step, more);
            walk.wait(step, *other);
            return false;
        }
        more = more.saturating_add(1);
    }
    walk.pass(step, more);
    true
}

// Does a step that is not a copy. Returns whether it is done.
fn do_step<L: RunLedger, R: Wait, G: Gate>(
    site: &Site<L, R, G>,
    done: &mut Done<L>,
    step: u32,
) -> Result<bool, Refusal> {
    match done.note(site.store, Event::Do(step)) {
        Ok(()) => Ok(true),
        Err(refusal) => {
            go_on(refusal)?;
            Ok(false)
        }
    }
}

// Returns the events of an open copy's chunks and close.
fn rest_of(alloc: Global, step: u32) -> Result<Vec<Event>, Refusal> {
    let mut rest = Vec::with_capacity(alloc, CHUNKS as usize + 1)?;
    for chunk in 0..CHUNKS {
        rest.push(Event::ChunkCopy(step, chunk))?;
    }
    rest.push(Event::CloseCopy(step))?;
    Ok(rest)
}

// Submits the rest of a copy under one lock, but for marked chunks. Returns false if a node is down: then the copy must
// be aborted.
fn copy_rest<L: RunLedger, R: Wait, G: Gate>(
    site: &Site<L, R, G>,
    done: &mut Done<L>,
    rest: &[Event],
) -> Result<bool, Refusal> {
    let mut left = rest;
    for _ in 0..rest.len() {
        let before = done.receipts.len();
        match done.note_row(site.store, left) {
            Ok(()) => return Ok(true),
            Err(Refusal::AlreadyDone) => {
                let answered = done.receipts.len().saturating_sub(before);
                left = left.get(answered.saturating_add(1)..).unwrap_or(&[]);
            }
            Err(Refusal::NodeDown(_)) => return Ok(false),
            Err(refusal) => return Err(refusal),
        }
    }
    Ok(true)
}

fn copy_on<L: RunLedger, R: Wait, G: Gate>(
    site: &Site<L, R, G>,
    done: &mut Done<L>,
    worker: u32,
    step: u32,
) -> Result<bool, Refusal> {
    if !site.job.gate.pass(site.job.rt, worker, u64::from(step)) {
        return Err(Refusal::TurnsSpent);
    }
    let rest = rest_of(site.job.alloc, step)?;
    if copy_rest(site, done, rest.as_slice())? {
        return Ok(true);
    }
    done.note(site.store, Event::AbortCopy(step))?;
    Ok(false)
}

fn copy<L: RunLedger, R: Wait, G: Gate>(
    site: &Site<L, R, G>,
    done: &mut Done<L>,
    worker: u32,
    step: u32,
) -> Result<bool, Refusal> {
    match done.note(site.store, Event::OpenCopy(step)) {
        Ok(()) => copy_on(site, done, worker, step),
        Err(refusal) => {
            go_on(refusal)?;
            Ok(false)
        }
    }
}

// Does a claimed step, then finishes it or gives it back. Returns whether it is finished.
fn carry_out<L: RunLedger, R: Wait, G: Gate>(
    site: &Site<L, R, G>,
    sat: &mut Sat<L>,
    step: u32,
) -> Result<bool, Refusal>
    requires board { sat.old.seat.board ≡ site.now.board.now.id }
    requires steps { site.now.board.now.steps ≡ length site.now.plan.now }
    requires step { step < length site.now.plan.now }
    requires held { has step sat.old.seat.held ≡ true }
    ensures board { sat.new.seat.board ≡ site.now.board.now.id }
    ensures worker { sat.new.seat.worker ≡ sat.old.seat.worker }
{
    let came = match site.plan.step(step) {
        Step::Copy(_, _) => copy(site, &mut sat.done, sat.worker, step),
        _ => do_step(site, &mut sat.done, step),
    };
    match &came {
        Ok(true) => site.board.mark_done(&mut sat.seat, step),
        _ => site.board.give_back(&mut sat.seat, step),
    }
    came
}

// Claims the range's first step that can be done next.
fn claim_from<L: RunLedger, R: Wait, G: Gate>(
    site: &Site<L, R, G>,
    seat: &mut Seat,
    walk: &mut Walk,
    from: u32,
    end: u32,
) -> Option<u32>
    requires board { seat.old.board ≡ site.now.board.now.id }
    requires worker { is_some seat.old.worker ≡ true }
    requires steps { (site.now.board.now.steps ≡ length site.now.plan.now) × (end ≤ length site.now.plan.now) }
    ensures board { seat.new.board ≡ site.now.board.now.id }
    ensures worker { seat.new.worker ≡ seat.old.worker }
    ensures held { IfSome result (λ s. (s < length site.now.plan.now) × (has s seat.new.held ≡ true)) }
{
    let mut place = from;
    'places: for _ in from..end {
        let Some(step) = walk.first_open(place, end) else {
            break;
        };
        if is_next(site.board, seat, walk, step, site.plan.deps(step)) {
            if let Claim::Won = site.board.claim(seat, step) {
                return Some(step);
            }
        }
        place = step.saturating_add(1);
    }
    None
}

// Searches all steps once, beginning after the last claimed.
fn claim_next<L: RunLedger, R: Wait, G: Gate>(
    site: &Site<L, R, G>,
    seat: &mut Seat,
    walk: &mut Walk,
) -> Option<u32>
    requires board { seat.old.board ≡ site.now.board.now.id }
    requires worker { is_some seat.old.worker ≡ true }
    requires steps { site.now.board.now.steps ≡ length site.now.plan.now }
    ensures board { seat.new.board ≡ site.now.board.now.id }
    ensures worker { seat.new.worker ≡ seat.old.worker }
    ensures held { IfSome result (λ s. (s < length site.now.plan.now) × (has s seat.new.held ≡ true)) }
{
    let steps = site.plan.len();
    let from = walk.from.min(steps);
    let found = match claim_from(site, seat, walk, from, steps) {
        Some(step) => Some(step),
        None => claim_from(site, seat, walk, 0, from),
    };
    if let Some(step) = found {
        walk.from = step.saturating_add(1);
    }
    found
}

// Claims and does a step. Returns whether it is finished.
fn turn<L: RunLedger, R: Wait, G: Gate>(
    site: &Site<L, R, G>,
    sat: &mut Sat<L>,
    walk: &mut Walk,
) -> Result<bool, Refusal>
    requires board { sat.old.seat.board ≡ site.now.board.now.id }
    requires worker { is_some sat.old.seat.worker ≡ true }
    requires steps { site.now.board.now.steps ≡ length site.now.plan.now }
    ensures board { sat.new.seat.board ≡ site.now.board.now.id }
    ensures worker { sat.new.seat.worker ≡ sat.old.seat.worker }
{
    let Some(step) = claim_next(site, &mut sat.seat, walk) else {
        return Ok(false);
    };
    let finished = carry_out(site, sat, step)?;
    if finished {
        walk.note(step);
    }
    Ok(finished)
}

// Takes turns until all steps are finished or all threads must stop.
fn turns<L: RunLedger, R: Wait, G: Gate>(
    site: &Site<L, R, G>,
    sat: &mut Sat<L>,
    walk: &mut Walk,
) -> Result<(), Refusal>
    requires board { sat.old.seat.board ≡ site.now.board.now.id }
    requires worker { is_some sat.old.seat.worker ≡ true }
    requires steps { site.now.board.now.steps ≡ length site.now.plan.now }
    ensures board { sat.new.seat.board ≡ site.now.board.now.id }
{
    let mut idle = 0u32;
    'turns: for _ in site.job.rt.forever() {
        if walk.left == 0 || is_set(&site.flags.stop) {
            break;
        }
        if idle >= MAX_TURNS {
            return Err(Refusal::TurnsSpent);
        }
        if turn(site, sat, walk)? {
            idle = 0;
        } else {
            idle += 1;
            thread::yield_now();
        }
    }
    Ok(())
}

fn work_on<L: RunLedger, R: Wait, G: Gate>(
    site: &Site<L, R, G>,
    sat: &mut Sat<L>,
) -> Result<(), Refusal>
    requires board { sat.old.seat.board ≡ site.now.board.now.id }
    requires worker { is_some sat.old.seat.worker ≡ true }
    requires steps { site.now.board.now.steps ≡ length site.now.plan.now }
    ensures board { sat.new.seat.board ≡ site.now.board.now.id }
    ensures spent { IfErr result (λ e. 0 < length site.now.plan.now) }
{
    let steps = site.plan.len();
    if steps == 0 {
        return Ok(());
    }
    let mut walk = Walk::new(site.job.alloc, steps)?;
    turns(site, sat, &mut walk)
}

/// Runs a worker until every step is finished.
///
/// Stops all threads on a full history, lack of memory, a refusing gate, or `MAX_TURNS`.
pub(crate) fn work<L: RunLedger, R: Wait, G: Gate>(site: &Site<L, R, G>, sat: Sat<L>) -> Sat<L>
    requires board { sat.seat.board ≡ site.now.board.now.id }
    requires worker { is_some sat.seat.worker ≡ true }
    requires steps { site.now.board.now.steps ≡ length site.now.plan.now }
    ensures board { result.seat.board ≡ site.now.board.now.id }
    ensures spent { IsSpent result.done.stopped → 0 < length site.now.plan.now }
{
    let mut sat = sat;
    let ended = work_on(site, &mut sat);
    sat.done.stopped = match ended {
        Ok(()) => None,
        Err(refusal) => {
            set(&site.flags.stop);
            Some(refusal)
        }
    };
    sat
}
