//! Gates for threads.

ghost use Rattle.std.specs.Prelude.{ℕ, IsTrue, IsFalse};

use std::sync::Wait;

/// A gate before pieces of work, which marks name.
///
/// It may hold a worker until others have come as far, up to a limit. So tests show that threads overlap.
pub trait Gate {
    /// Whether the gate may refuse this worker at this mark.
    ghost may_refuse: { Self → ℕ → ℕ → Type 0 };

    /// Whether the gate always refuses this worker at this mark.
    ghost must_refuse: { Self → ℕ → ℕ → Type 0 };

    /// Waits until the worker may pass. False if the limit is used up.
    fn pass<R: Wait>(&self, rt: &R, worker: u32, mark: u64) -> bool
        ensures refused { IsFalse result → may_refuse self.now worker mark }
        ensures passed { IsTrue result → must_refuse self.now worker mark → ⊥ };
}

/// Lets every worker pass at once.
#[derive(Clone, Copy, Debug)]
pub struct OpenGate;

impl Gate for OpenGate {
    ghost may_refuse = { λ gate worker mark. ⊥ };

    ghost must_refuse = { λ gate worker mark. ⊥ };

    fn pass<R: Wait>(&self, _rt: &R, _worker: u32, _mark: u64) -> bool {
        true
    }
}
