//! Starts and joins a drive's threads.

ghost use Rattle.std.specs.Prelude.{◌≡◌, ◌⊎◌, ◌+◌, ◌<◌, ◌≤◌, ℕ, All, Any, [], None, true, false, is_some, length, vec_len};
ghost use Rattle.std.specs.Prelude.{slice_index_or, IfOk, IfErr, IsTrue};
ghost use Rattle.ring_names.specs.declared.refusal.Refusal.TheVariants.{OutOfMemory};
ghost use Rattle.ring_work.specs.Driven.{MayStop, MustTurn, MayPass, IsSpent};

use crate::client::serve;
use crate::done::{Done, Sat};
use crate::handing::hand_off;
use crate::left::Left;
use crate::site::{Flags, Job, LockedStore, Site, set, wake};
use crate::worker::work;
use plan_check::Gate;
use plan_text::Plan;
use ring_board::{Board, Seat};
use ring_exec::{Executor, RunLedger, Share};
use ring_names::Refusal;
use std::alloc::Global;
use std::snapshot::Snapshot;
use std::sync::Wait;
use std::thread;
use std::thread::{Promise, PromisedHandle, Scope, Threads};

// A worker's promise: its seat is at this board; an empty plan meets no limit of turns.
#[derive(Drop)]
struct AtBoard(Snapshot<Board>, Snapshot<Plan>);

impl<L: RunLedger> Promise<Sat<L>> for AtBoard {
    ghost use Rattle.std.specs.Prelude.{◌≡◌, ◌<◌, length};
    ghost use Rattle.ring_work.specs.Driven.{IsSpent};

    ghost kept_by = { λ p r. (r.seat.board ≡ p.0.value.id) × (IsSpent r.done.stopped → 0 < length p.1.value) };
}

// A client's promise: it meets the limit only if the gate may refuse. If all lines ran, each passed the gate.
#[derive(Drop)]
struct ByGate<G: Gate>(Snapshot<G>, u32, usize);

impl<L: RunLedger, G: Gate> Promise<Done<L>> for ByGate<G> {
    ghost use Rattle.std.specs.Prelude.{ℕ, IsTrue};
    ghost use Rattle.ring_work.specs.Driven.{IsSpent, MayPass};

    ghost kept_by = { λ p r. (IsSpent r.stopped → (line : ℕ) × G.may_refuse p.0.value p.1 line)
        × (IsTrue r.complete → MayPass (G.must_refuse p.0.value) p.1 p.2) };
}

// The handoffs' promise: they meet no limit of turns.
#[derive(Clone, Copy)]
struct Never;

impl<L: RunLedger> Promise<Done<L>> for Never {
    ghost use Rattle.ring_work.specs.Driven.{IsSpent};

    ghost kept_by = { λ p r. IsSpent r.stopped → ⊥ };
}

#[derive(Drop)]
struct Room<L: RunLedger, G: Gate> {
    sitting: Vec<PromisedHandle<Sat<L>, AtBoard>>,
    serving: Vec<PromisedHandle<Done<L>, ByGate<G>>>,
    left: Left<L>,
}

impl<L: RunLedger, G: Gate> Room<L, G> {
    fn new(alloc: Global, workers: usize, clients: usize) -> Result<Room<L, G>, Refusal>
        ensures none { IfOk result (λ r. (vec_len r.sitting ≡ 0) × (vec_len r.serving ≡ 0)) }
        ensures left { IfOk result (λ r. (vec_len r.left.seats ≡ 0) × (r.left.refusal ≡ None)) }
        ensures memory { IfErr result (λ e. e ≡ OutOfMemory) }
    {
        let sitting = Vec::with_capacity(alloc, workers)?;
        let serving = Vec::with_capacity(alloc, clients)?;
        let left = Left::with_room(alloc, workers, clients)?;
        Ok(Room {
            sitting,
            serving,
            left,
        })
    }
}

fn start_handoffs<'s, 'x, 'e, 'a, L: RunLedger + Send + Sync, R: Wait + Sync, G: Gate + Sync>(
    scope: &Scope<'s, &'x ()>,
    site: &'s Site<'e, 'a, L, R, G>,
    done: Done<L>,
) -> Option<PromisedHandle<Done<L>, Never>> {
    let spawned = scope.spawn_with(
        Never,
        move || -> Done<L>
            ensures { IsSpent result.stopped → ⊥ }
        { hand_off(site, done) },
    );
    match spawned {
        Ok(handle) => Some(handle),
        Err(_refusal) => None,
    }
}

fn start_worker<'s, 'x, 'e, 'a, L: RunLedger + Send + Sync, R: Wait + Sync, G: Gate + Sync>(
    scope: &Scope<'s, &'x ()>,
    site: &'s Site<'e, 'a, L, R, G>,
    handles: &mut Vec<PromisedHandle<Sat<L>, AtBoard>>,
    sat: Sat<L>,
) -> bool
    requires board { (sat.seat.board ≡ site.now.board.now.id) × (is_some sat.seat.worker ≡ true) }
    requires steps { site.now.board.now.steps ≡ length site.now.plan.now }
    requires old { All (λ h. (h.promise.0.value.id ≡ site.now.board.now.id)
        × (h.promise.1.value ≡ site.now.plan.now)) handles.old.items }
    ensures { All (λ h. (h.promise.0.value.id ≡ site.now.board.now.id)
        × (h.promise.1.value ≡ site.now.plan.now)) handles.new.items }
{
    let spawned = scope.spawn_with(
        AtBoard(Snapshot::of(site.board), Snapshot::of(site.plan)),
        move || -> Sat<L>
            requires { (sat.seat.board ≡ site.now.board.now.id) × (is_some sat.seat.worker ≡ true)
                × (site.now.board.now.steps ≡ length site.now.plan.now) }
            ensures { (result.seat.board ≡ site.entry.now.board.now.id)
                × (IsSpent result.done.stopped → 0 < length site.entry.now.plan.now) }
        { work(site, sat) },
    );
    match spawned {
        Ok(handle) => handles.push(handle).is_err(),
        Err(_refusal) => true,
    }
}

// Starts the last worker first, to join the first first. Returns whether a start was refused.
fn start_workers<'s, 'x, 'e, 'a, L: RunLedger + Send + Sync, R: Wait + Sync, G: Gate + Sync>(
    scope: &Scope<'s, &'x ()>,
    site: &'s Site<'e, 'a, L, R, G>,
    handles: &mut Vec<PromisedHandle<Sat<L>, AtBoard>>,
    first: &mut Seat,
    root: &mut Share<L>,
) -> bool
    requires first { first.old.board ≡ site.now.board.now.id }
    requires steps { site.now.board.now.steps ≡ length site.now.plan.now }
    requires workers { site.now.job.now.workers ≤ site.now.board.now.workers }
    requires parts { site.now.job.now.workers < root.old.token.parts }
    requires none { vec_len handles.old ≡ 0 }
    ensures first { first.new.board ≡ site.now.board.now.id }
    ensures parts { root.new.token.parts + site.now.job.now.workers ≡ root.old.token.parts }
    ensures handles { All (λ h. (h.promise.0.value.id ≡ site.now.board.now.id)
        × (h.promise.1.value ≡ site.now.plan.now)) handles.new.items }
{
    let workers = site.job.workers;
    let mut refused = false;
    for started in 0..workers {
        let worker = workers - 1 - started;
        let Ok(seat) = site.board.seat(first, worker) else {
            unreachable!()
        };
        let done = Done::new(site.job.alloc, root.split());
        refused = start_worker(scope, site, handles, Sat { done, worker, seat }) || refused;
    }
    refused
}

// Returns whether this or an earlier start was refused.
fn start_client<'s, 'x, 'e, 'a, L: RunLedger + Send + Sync, R: Wait + Sync, G: Gate + Sync>(
    scope: &Scope<'s, &'x ()>,
    site: &'s Site<'e, 'a, L, R, G>,
    handles: &mut Vec<PromisedHandle<Done<L>, ByGate<G>>>,
    number: usize,
    done: Done<L>,
    refused: bool,
) -> bool
    requires scripts { (number < length site.now.job.now.scripts.now) × (length site.now.job.now.scripts.now ≤ 8) }
    requires old { All (λ h. (h.promise.0.value ≡ site.now.job.now.gate.now) × (64 ≤ h.promise.1)
        × (h.promise.1 < 64 + length site.now.job.now.scripts.now)) handles.old.items }
    ensures all { All (λ h. (h.promise.0.value ≡ site.now.job.now.gate.now) × (64 ≤ h.promise.1)
        × (h.promise.1 < 64 + length site.now.job.now.scripts.now)) handles.new.items }
    ensures kept { (client line : ℕ) → Any (λ h. (h.promise.1 ≡ client) × (line < h.promise.2)) handles.old.items
        → Any (λ h. (h.promise.1 ≡ client) × (line < h.promise.2)) handles.new.items }
    ensures before { result ≡ false → refused ≡ false }
    ensures served { result ≡ false
        → (line : ℕ) → line < length (slice_index_or site.now.job.now.scripts.now number [])
        → Any (λ h. (h.promise.1 ≡ 64 + number) × (line < h.promise.2)) handles.new.items }
{
    let client = 64 + number as u32;
    let script = &site.job.scripts[number];
    let lines = script.len();
    let spawned = scope.spawn_with(
        ByGate(Snapshot::of(site.job.gate), client, lines),
        move || -> Done<L>
            ensures { (IsSpent result.stopped
                → (line : ℕ) × G.may_refuse site.entry.now.job.now.gate.now client line)
                × (IsTrue result.complete
                → MayPass (G.must_refuse site.entry.now.job.now.gate.now) client (length script.entry.now)) }
        { serve(site, done, client, script) },
    );
    match spawned {
        Ok(handle) => match handles.push(handle) {
            Ok(()) => refused,
            Err(_refusal) => true,
        },
        Err(_refusal) => true,
    }
}

// Starts the last first. Returns whether this or an earlier start was refused.
fn start_clients<'s, 'x, 'e, 'a, L: RunLedger + Send + Sync, R: Wait + Sync, G: Gate + Sync>(
    scope: &Scope<'s, &'x ()>,
    site: &'s Site<'e, 'a, L, R, G>,
    handles: &mut Vec<PromisedHandle<Done<L>, ByGate<G>>>,
    root: &mut Share<L>,
    before: bool,
) -> bool
    requires scripts { length site.now.job.now.scripts.now ≤ 8 }
    requires parts { length site.now.job.now.scripts.now < root.old.token.parts }
    requires none { vec_len handles.old ≡ 0 }
    ensures all { All (λ h. (h.promise.0.value ≡ site.now.job.now.gate.now) × (64 ≤ h.promise.1)
        × (h.promise.1 < 64 + length site.now.job.now.scripts.now)) handles.new.items }
    ensures served { result ≡ false → (s line : ℕ) → s < length site.now.job.now.scripts.now
        → line < length (slice_index_or site.now.job.now.scripts.now s [])
        → Any (λ h. (h.promise.1 ≡ 64 + s) × (line < h.promise.2)) handles.new.items }
{
    let clients = site.job.scripts.len();
    let mut refused = before;
    for started in 0..clients {
        let done = Done::new(site.job.alloc, root.split());
        let number = clients - 1 - started;
        refused = start_client(scope, site, handles, number, done, refused);
    }
    refused
}

fn join_workers<L: RunLedger, R: Threads + Wait, G: Gate>(
    site: &Site<L, R, G>,
    handles: Vec<PromisedHandle<Sat<L>, AtBoard>>,
    left: Left<L>,
) -> Left<L>
    requires handles { All (λ h. (h.promise.0.value.id ≡ site.now.board.now.id)
        × (h.promise.1.value ≡ site.now.plan.now)) handles.items }
    requires seats { All (λ s. s.board ≡ site.now.board.now.id) left.seats.items }
    ensures seats { All (λ s. s.board ≡ site.now.board.now.id) result.seats.items }
    ensures spent { IsSpent result.refusal → IsSpent left.refusal ⊎ (0 < length site.now.plan.now) }
    ensures complete { IsTrue result.complete → IsTrue left.complete }
{
    let mut left = left;
    let mut handles = handles;
    while let Some(handle) = handles.pop() {
        left.take_seat(site.board, handle.join(site.job.rt));
    }
    left
}

fn join_clients<L: RunLedger, R: Threads + Wait, G: Gate>(
    site: &Site<L, R, G>,
    handles: Vec<PromisedHandle<Done<L>, ByGate<G>>>,
    left: Left<L>,
) -> Left<L>
    requires handles { All (λ h. (h.promise.0.value ≡ site.now.job.now.gate.now) × (64 ≤ h.promise.1)
        × (h.promise.1 < 64 + length site.now.job.now.scripts.now)) handles.items }
    requires spent { IsSpent left.refusal
        → MayStop (G.may_refuse site.now.job.now.gate.now) site.now.plan.now (length site.now.job.now.scripts.now) }
    ensures seats { result.seats ≡ left.seats }
    ensures spent { IsSpent result.refusal
        → MayStop (G.may_refuse site.now.job.now.gate.now) site.now.plan.now (length site.now.job.now.scripts.now) }
    ensures complete { IsTrue result.complete → IsTrue left.complete }
    ensures passed { IsTrue result.complete → (client line : ℕ)
        → Any (λ h. (h.promise.1 ≡ client) × (line < h.promise.2)) handles.items
        → G.must_refuse site.now.job.now.gate.now client line → ⊥ }
{
    let mut left = left;
    let mut handles = handles;
    while let Some(handle) = handles.pop() {
        left.take(handle.join(site.job.rt));
    }
    left
}

fn join_handoffs<L: RunLedger, R: Threads + Wait>(
    rt: &R,
    handle: Option<PromisedHandle<Done<L>, Never>>,
    left: Left<L>,
) -> Left<L>
    ensures seats { result.seats ≡ left.seats }
    ensures spent { IsSpent result.refusal → IsSpent left.refusal }
    ensures complete { IsTrue result.complete → IsTrue left.complete }
{
    let mut left = left;
    if let Some(handle) = handle {
        left.take(handle.join(rt));
    }
    left
}

fn run_in<'s, 'x, 'e, 'a, L: RunLedger + Send + Sync, R: Threads + Wait + Sync, G: Gate + Sync>(
    scope: &Scope<'s, &'x ()>,
    site: &'s Site<'e, 'a, L, R, G>,
    room: Room<L, G>,
    first: Seat,
    share: Share<L>,
) -> (Seat, Left<L>)
    requires first { first.board ≡ site.now.board.now.id }
    requires steps { site.now.board.now.steps ≡ length site.now.plan.now }
    requires workers { (site.now.job.now.workers ≤ 64) × (length site.now.job.now.scripts.now ≤ 8)
        × (site.now.job.now.workers ≤ site.now.board.now.workers) }
    requires parts { site.now.job.now.workers + length site.now.job.now.scripts.now + 2 ≤ share.token.parts }
    requires none { (vec_len room.sitting ≡ 0) × (vec_len room.serving ≡ 0)
        × (vec_len room.left.seats ≡ 0) × (room.left.refusal ≡ None) }
    ensures first { result.0.board ≡ site.now.board.now.id }
    ensures seats { All (λ s. s.board ≡ site.now.board.now.id) result.1.seats.items }
    ensures spent { IsSpent result.1.refusal
        → MayStop (G.may_refuse site.now.job.now.gate.now) site.now.plan.now (length site.now.job.now.scripts.now) }
    ensures turned { MustTurn (G.must_refuse site.now.job.now.gate.now) site.now.job.now.scripts.now
        → IsTrue result.1.complete → ⊥ }
{
    let mut first = first;
    let mut root = share;
    let Room {
        mut sitting,
        mut serving,
        mut left,
    } = room;
    let handing = start_handoffs(scope, site, Done::new(site.job.alloc, root.split()));
    let unseated = start_workers(scope, site, &mut sitting, &mut first, &mut root);
    let before = handing.is_none() || unseated;
    let refused = start_clients(scope, site, &mut serving, &mut root, before);
    if refused {
        set(&site.flags.stop);
    }
    left.note_start(refused);
    let left = join_workers(site, sitting, left);
    let left = join_clients(site, serving, left);
    set(&site.flags.joined);
    wake(&site.flags.bell);
    let mut left = join_handoffs(site.job.rt, handing, left);
    left.share(root);
    (first, left)
}

/// Starts and joins all threads. Returns the board's first seat too.
///
/// A refused start ends the others as soon as they see it.
pub(crate) fn run_all<'e, 'a, L: RunLedger + Send + Sync, R: Threads + Wait + Sync, G: Gate + Sync>(
    job: &'e Job<'a, R, G>,
    executor: &'e Executor<'a, L>,
    board: &'e Board,
    first: Seat,
    share: Share<L>,
) -> Result<(Seat, Left<L>), Refusal>
    requires first { first.board ≡ board.now.id }
    requires steps { board.now.steps ≡ length job.now.approved.now.plan }
    requires workers { (job.now.workers ≤ 64) × (job.now.workers ≤ board.now.workers) }
    requires scripts { length job.now.scripts.now ≤ 8 }
    requires parts { job.now.workers + length job.now.scripts.now + 2 ≤ share.token.parts }
    ensures first { IfOk result (λ a. a.0.board ≡ board.now.id) }
    ensures seats { IfOk result (λ a. All (λ s. s.board ≡ board.now.id) a.1.seats.items) }
    ensures spent { IfOk result (λ a. IsSpent a.1.refusal
        → MayStop (G.may_refuse job.now.gate.now) job.now.approved.now.plan (length job.now.scripts.now)) }
    ensures turned { IfOk result (λ a. MustTurn (G.must_refuse job.now.gate.now) job.now.scripts.now
        → IsTrue a.1.complete → ⊥) }
    ensures memory { IfErr result (λ e. e ≡ OutOfMemory) }
{
    let rt = job.rt;
    let flags = Flags::new();
    let store = LockedStore { rt, executor };
    let site = Site {
        job,
        plan: job.approved.plan(),
        store: &store,
        board,
        flags: &flags,
    };
    let site = &site;
    let room = Room::new(job.alloc, job.workers as usize, job.scripts.len())?;
    let back = thread::scope(
        thread::scope_env(),
        rt,
        |scope| -> (Seat, Left<L>)
            requires first { first.board ≡ site.now.board.now.id }
            requires steps { site.now.board.now.steps ≡ length site.now.plan.now }
            requires workers { (site.now.job.now.workers ≤ 64) × (length site.now.job.now.scripts.now ≤ 8)
                × (site.now.job.now.workers ≤ site.now.board.now.workers) }
            requires parts { site.now.job.now.workers + length site.now.job.now.scripts.now + 2 ≤ share.token.parts }
            requires none { (vec_len room.sitting ≡ 0) × (vec_len room.serving ≡ 0)
                × (vec_len room.left.seats ≡ 0) × (room.left.refusal ≡ None) }
            ensures first { result.0.board ≡ site.entry.now.board.now.id }
            ensures seats { All (λ s. s.board ≡ site.entry.now.board.now.id) result.1.seats.items }
            ensures spent { IsSpent result.1.refusal → MayStop (G.may_refuse site.entry.now.job.now.gate.now)
                site.entry.now.plan.now (length site.entry.now.job.now.scripts.now) }
            ensures turned { MustTurn (G.must_refuse site.entry.now.job.now.gate.now)
                site.entry.now.job.now.scripts.now → IsTrue result.1.complete → ⊥ }
        { run_in(scope, site, room, first, share) },
    );
    Ok(back)
}
