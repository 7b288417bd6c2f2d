//! The steps of a running store's plan.

ghost use Rattle.std.specs.Prelude.{◌≡◌, ◌<◌, ℕ, true, false, length, replicate, IfOk, IfErr};
ghost use Rattle.ring_names.specs.declared.refusal.Refusal.TheVariants.{OutOfMemory};
ghost use Rattle.plan_runs.specs.World.{passing_below};
ghost use Rattle.plan_runs.specs.Effects.{changed, with_mark as with_chunk};
ghost use Rattle.store_parts.specs.Marks.{with_mark};
ghost use Rattle.store_parts.specs.Steps.{step_at_start, is_done_at, is_open_at, is_marked_at, marks_at, steps_left};

use crate::marks::Marks;
use ring_names::Refusal;
use std::alloc::Global;
use std::marker::Model;

/// A step's state.
#[derive(Clone, Copy, Debug, PartialEq, Eq)]
pub struct StepNow {
    /// Whether the step is finished.
    pub done: bool,
    /// Whether the step is an open copy.
    pub is_open: bool,
    /// The chunks given to the mirror. They stay marked after an abort.
    pub marks: Marks,
}

/// A plan's steps, by number. Each call except `start` costs one look-up.
#[derive(Drop)]
pub struct Steps {
    steps: Vec<StepNow>,
    left: u32,
}

impl Model for Steps {
    ghost use Rattle.std.specs.Prelude.{◌≡◌, List};
    ghost use Rattle.store_parts.specs.declared.steps.StepNow.{StepNow};
    ghost use Rattle.store_parts.specs.Steps.{steps_left};

    ghost Value = { List StepNow };

    ghost view = { λ a. a.steps.items };

    ghost invariant = { λ a. a.left ≡ steps_left a.steps.items };
}

impl Steps {
    /// Creates so many steps, neither done nor open, without marked chunks.
    pub fn start(alloc: Global, count: u32) -> Result<Steps, Refusal>
        ensures start { IfOk result (λ steps. steps ≡ replicate count step_at_start) }
        ensures memory { IfErr result (λ e. e ≡ OutOfMemory) }
    {
        let mut steps = Vec::with_capacity(alloc, count as usize)?;
        for step in 0..count {
            steps.push_reserved(StepNow {
                done: false,
                is_open: false,
                marks: Marks::none(),
            });
        }
        Ok(Steps { steps, left: count })
    }

    /// Whether the step exists and is done.
    pub fn is_done(&self, step: u32) -> bool
        ensures { result ≡ is_done_at self.now step }
    {
        match self.steps.get(step as usize) {
            Some(now) => now.done,
            None => false,
        }
    }

    /// Whether the step is an open copy.
    pub fn is_open(&self, step: u32) -> bool
        ensures { result ≡ is_open_at self.now step }
    {
        match self.steps.get(step as usize) {
            Some(now) => now.is_open,
            None => false,
        }
    }

    /// Whether the copy's chunk is marked.
    pub fn is_marked(&self, step: u32, chunk: u32) -> bool
        ensures { result ≡ is_marked_at self.now step chunk }
    {
        match self.steps.get(step as usize) {
            Some(now) => now.marks.has(chunk),
            None => false,
        }
    }

    fn marks(&self, step: u32) -> Marks
        ensures { result ≡ marks_at self.now step }
    {
        match self.steps.get(step as usize) {
            Some(now) => now.marks,
            None => Marks::none(),
        }
    }

    /// Counts the copy's marked chunks, of 16.
    pub fn marked(&self, step: u32) -> u32
        ensures { result ≡ length (passing_below 16 (is_marked_at self.now step)) }
    {
        self.marks(step).count_below(16)
    }

    /// Counts the steps not done. Costs no look-up.
    pub fn left(&self) -> u32
        ensures { result ≡ steps_left self.now }
    {
        self.left
    }

    /// Marks the step as done and not open.
    #[tactic(auto, using(crate::proofs::Writing::writing))]
    pub fn finish(&mut self, step: u32)
        ensures { self.new ≡ changed self.old step (λ x. record x { done = true; is_open = false }) }
    {
        let place = step as usize;
        if place < self.steps.len() {
            let now = &mut self.steps[place];
            if !now.done {
                self.left -= 1;
            }
            now.done = true;
            now.is_open = false;
        }
    }

    /// Opens the step.
    #[tactic(auto, using(crate::proofs::Writing::writing))]
    pub fn open(&mut self, step: u32)
        ensures { self.new ≡ changed self.old step (λ x. record x { is_open = true }) }
    {
        let place = step as usize;
        if place < self.steps.len() {
            self.steps[place].is_open = true;
        }
    }

    /// Closes the step without finishing it.
    #[tactic(auto, using(crate::proofs::Writing::writing))]
    pub fn close_open(&mut self, step: u32)
        ensures { self.new ≡ changed self.old step (λ x. record x { is_open = false }) }
    {
        let place = step as usize;
        if place < self.steps.len() {
            self.steps[place].is_open = false;
        }
    }

    /// Marks the step's chunk.
    #[tactic(auto, using(crate::proofs::Writing::writing))]
    pub fn mark(&mut self, step: u32, chunk: u32)
        requires { chunk < 16 }
        ensures steps { self.new ≡ changed self.old step (λ x. record x { marks = with_mark x.marks chunk }) }
        ensures marks { step < length self.old → (m d : ℕ)
            → is_marked_at self.new m d ≡ with_chunk (is_marked_at self.old) step chunk m d }
    {
        let place = step as usize;
        if place < self.steps.len() {
            let now = &mut self.steps[place];
            now.marks = now.marks.with(chunk);
        }
    }
}
