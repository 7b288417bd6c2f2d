//! A judge that borrows nothing: a watch at rest between calls.

ghost use Rattle.std.specs.Prelude.{◌≡◌, ◌≢◌, ◌≤◌, ◌++◌, ◌↔◌, ℕ, List, [], IsTrue, IfOk, IfErr, OnOk};
ghost use Rattle.ring_names.specs.declared.refusal.Refusal.{Refusal as TheRefusal};
ghost use Rattle.ring_names.specs.declared.refusal.Refusal.TheVariants.{OutOfMemory};
ghost use Rattle.ring_table.specs.Value.{RingValue};
ghost use Rattle.plan_text.specs.declared.step.Planned.{Planned};
ghost use Rattle.history_watch.specs.Watching.{IsAnswer, IsCutOff, IsJudged, IsRefused, IsWatching};
ghost use Rattle.std.proofs.Props.{props};
ghost use Rattle.history_watch.specs.Pausing.{IsReadyState};

use crate::resting::{Paused, State, finish, take_more};
use crate::watch::Watch;
use plan_check::Approved;
use ring_names::Refusal;
use std::alloc::Global;
use std::mem::replace;

/// A judge of a partly read history. It owns its plan, and stays refused after a refusal.
pub struct Judge {
    approved: Approved,
    state: State,
    count: u32,
    ghost ready: { IsReadyState approved.ring approved.plan count state } by { Prim.hlevel props },
}

// Explicit, so that crates above need not check the parts.
impl Drop for Judge {
    fn drop(self) {
        let Judge {
            approved,
            state,
            count,
        } = self;
        drop(state);
        drop(approved);
    }
}

impl Judge {
    ghost use Rattle.history_watch.specs.Judging.{IsJudging, IsOver, HasRefused, IsUnchanged};

    /// Returns a judge before a history's first byte.
    pub fn start(alloc: Global, approved: Approved) -> Result<Judge, Refusal>
        ensures ok { IfOk result (λ j. IsJudging approved.ring approved.plan [] j) }
        ensures first { IfOk result (λ j. j.count ≡ 0) }
        ensures memory { IfErr result (λ e. e ≡ OutOfMemory) }
    {
        let paused = Watch::start(alloc, &approved)?.pause();
        Ok(Judge {
            approved,
            state: State::Going(paused),
            count: 0,
        })
    }

    /// Counts the entries followed.
    pub fn count(&self) -> u32
        ensures { result ≡ self.now.count }
    {
        self.count
    }

    /// Whether the line `end` has come.
    pub fn is_over(&self) -> bool
        ensures { IsTrue result ↔ IsOver self.now }
    {
        self.state.is_over()
    }

    /// Takes the next bytes, which may end anywhere. Ignores bytes after the line `end`. A refused judge repeats its
    /// refusal.
    pub fn take(&mut self, alloc: Global, bytes: &[u8]) -> Result<(), Refusal>
        ensures ok { OnOk result ((ring : RingValue) (plan : List Planned) (before : List ℕ) → IsJudging ring plan before self.old → IsJudging ring plan (before ++ bytes.now) self.new) }
        ensures err { IfErr result (λ e. e ≢ OutOfMemory → (ring : RingValue) (plan : List Planned) (before : List ℕ) → IsJudging ring plan before self.old → IsRefused ring plan (before ++ bytes.now) e) }
        ensures judged { (ring : RingValue) (plan : List Planned) (before : List ℕ) → IsJudging ring plan before self.old → IsJudged ring plan (before ++ bytes.now) self.new.count }
        ensures counts { self.old.count ≤ self.new.count }
        ensures refused { IfErr result (λ e. HasRefused self.new e) }
        ensures again { (e : TheRefusal) → HasRefused self.old e → HasRefused self.new e × IfErr result (λ f. f ≡ e) × OnOk result ⊥ }
    {
        match replace(&mut self.state, State::Refused(Refusal::OutOfMemory)) {
            State::Going(paused) => {
                let next = take_more(alloc, &self.approved, paused, self.count, bytes);
                let answer = next.state.answer();
                self.count = next.count;
                self.state = next.state;
                answer
            }
            State::Refused(refusal) => {
                self.state = State::Refused(refusal);
                Err(refusal)
            }
        }
    }

    /// Returns what a replay prints if no more bytes come. The judge may take more.
    pub fn end(&mut self, alloc: Global) -> Result<Vec<u8>, Refusal>
        ensures ok { IfOk result (λ text. (ring : RingValue) (plan : List Planned) (bytes : List ℕ) (so : IsJudging ring plan bytes self.old) → IsAnswer ring plan bytes so.watch so.is.said text.items) }
        ensures err { IfErr result (λ e. e ≢ OutOfMemory → (ring : RingValue) (plan : List Planned) (bytes : List ℕ) → IsJudging ring plan bytes self.old → IsCutOff ring plan bytes e) }
        ensures over { IfErr result (λ e. IsOver self.old → e ≡ OutOfMemory) }
        ensures same { IsUnchanged self.old self.new }
        ensures again { (e : TheRefusal) → HasRefused self.old e → IfErr result (λ f. f ≡ e) × IfOk result (λ text. ⊥) }
    {
        match replace(&mut self.state, State::Refused(Refusal::OutOfMemory)) {
            State::Going(paused) => {
                let ended = finish(alloc, &self.approved, paused, self.count);
                self.state = State::Going(ended.paused);
                ended.found
            }
            State::Refused(refusal) => {
                self.state = State::Refused(refusal);
                Err(refusal)
            }
        }
    }
}
