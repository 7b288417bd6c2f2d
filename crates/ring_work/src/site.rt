//! What a drive's threads share.

use plan_check::{Approved, Gate};
use plan_text::Plan;
use ring_board::Board;
use ring_exec::{Executor, RunLedger};
use script_text::Script;
use std::alloc::Global;
use std::sync::Wait;
use std::sync::atomic::{AtomicBool, AtomicU64, Ordering};

#[derive(Drop)]
pub(crate) struct Job<'a, R: Wait, G: Gate> {
    pub rt: &'a R,
    pub alloc: Global,
    pub approved: &'a Approved,
    pub scripts: &'a [Script],
    pub workers: u32,
    pub gate: &'a G,
}

#[derive(Drop)]
pub(crate) struct LockedStore<'r, 'e, 'a, L: RunLedger, R: Wait> {
    pub rt: &'r R,
    pub executor: &'e Executor<'a, L>,
}

/// The threads' flags and bell.
///
/// `stop`: all must stop. `joined`: all but handoffs have ended. The bell counts its rings.
#[derive(Drop)]
pub(crate) struct Flags {
    pub stop: AtomicBool,
    pub joined: AtomicBool,
    pub bell: AtomicU64,
}

impl Flags {
    pub fn new() -> Flags {
        Flags {
            stop: AtomicBool::new(false),
            joined: AtomicBool::new(false),
            bell: AtomicU64::new(0),
        }
    }
}

/// What all threads see.
#[derive(Drop)]
pub(crate) struct Site<'e, 'a, L: RunLedger, R: Wait, G: Gate> {
    pub job: &'e Job<'a, R, G>,
    pub plan: &'e Plan,
    pub store: &'e LockedStore<'a, 'e, 'a, L, R>,
    pub board: &'e Board,
    pub flags: &'e Flags,
}

pub(crate) fn is_set(flag: &AtomicBool) -> bool {
    flag.load(Ordering::SeqCst)
}

pub(crate) fn set(flag: &AtomicBool) {
    flag.store(true, Ordering::SeqCst);
}

pub(crate) fn wake(bell: &AtomicU64) {
    bell.fetch_add(1, Ordering::SeqCst);
    bell.wake_all();
}

pub(crate) fn ring_count(bell: &AtomicU64) -> u32 {
    (bell.load(Ordering::SeqCst) & 0xffff_ffff) as u32
}
