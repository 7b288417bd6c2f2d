//! Gates that hold threads until others come.

use plan_check::Gate;
use std::sync::atomic::{AtomicBool, Ordering};
use std::sync::{Mutex, Wait};
use std::thread;

/// Holds threads until enough have come, for at most a million looks, each under a lock.
#[derive(Drop)]
pub struct Turnstile {
    come: Mutex<u32>,
    awaited: u32,
}

impl Turnstile {
    pub fn new(awaited: u32) -> Turnstile {
        Turnstile {
            come: Mutex::new(0),
            awaited,
        }
    }

    fn count<R: Wait>(&self, rt: &R) {
        let mut come = self.come.lock(rt);
        *come = come.saturating_add(1);
    }

    fn is_met<R: Wait>(&self, rt: &R) -> bool {
        *self.come.lock(rt) >= self.awaited
    }
}

impl Gate for Turnstile {
    ghost may_refuse = { λ gate worker mark. Unit {0} };

    ghost must_refuse = { λ gate worker mark. ⊥ };

    fn pass<R: Wait>(&self, rt: &R, _worker: u32, _mark: u64) -> bool {
        self.count(rt);
        for _ in 0..1_000_000 {
            if self.is_met(rt) {
                return true;
            }
            thread::yield_now();
        }
        false
    }
}

/// Holds a worker until a client has reached this line, for at most a million looks.
#[derive(Drop)]
pub struct Behind {
    come: AtomicBool,
    line: u64,
}

impl Behind {
    pub fn new(line: u64) -> Behind {
        Behind {
            come: AtomicBool::new(false),
            line,
        }
    }

    fn note(&self, line: u64) {
        if line >= self.line {
            self.come.store(true, Ordering::SeqCst);
        }
    }

    fn is_met(&self) -> bool {
        for _ in 0..1_000_000 {
            if self.come.load(Ordering::SeqCst) {
                return true;
            }
            thread::yield_now();
        }
        false
    }
}

impl Gate for Behind {
    ghost may_refuse = { λ gate worker mark. Unit {0} };

    ghost must_refuse = { λ gate worker mark. ⊥ };

    fn pass<R: Wait>(&self, _rt: &R, worker: u32, mark: u64) -> bool {
        if worker < 64 {
            return self.is_met();
        }
        self.note(mark);
        true
    }
}

/// Shut only for one worker at one mark.
#[derive(Clone, Copy, Debug)]
pub struct ShutAt {
    pub worker: u32,
    pub mark: u64,
}

impl Gate for ShutAt {
    ghost use Rattle.std.specs.Prelude.{◌≡◌};

    ghost may_refuse = { λ gate worker mark. (worker ≡ gate.worker) × (mark ≡ gate.mark) };

    ghost must_refuse = { λ gate worker mark. (worker ≡ gate.worker) × (mark ≡ gate.mark) };

    fn pass<R: Wait>(&self, _rt: &R, worker: u32, mark: u64) -> bool {
        !(worker == self.worker && mark == self.mark)
    }
}

/// Lets no one pass.
#[derive(Clone, Copy, Debug)]
pub struct Shut;

impl Gate for Shut {
    ghost may_refuse = { λ gate worker mark. Unit {0} };

    ghost must_refuse = { λ gate worker mark. ⊥ };

    fn pass<R: Wait>(&self, _rt: &R, _worker: u32, _mark: u64) -> bool {
        false
    }
}
