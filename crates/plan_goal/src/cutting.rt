//! Cuts a plan into consecutive windows.

use crate::groups::Groups;
use crate::pieces::{Pieces, Place, waits_in};
use find_rounds::add;
use plan_text::{Plan, Step};
use ring_names::Refusal;
use ring_table::Ring;
use std::alloc::Global;
use texts::{at, set, small};

// The most passes of `settle`.
const PASSES: u32 = 64;

#[derive(Drop)]
struct StepWindows<'a> {
    plan: &'a Plan,
    of_steps: &'a [u32],
    of_groups: Vec<u32>,
}

impl<'a> StepWindows<'a> {
    fn of_step(&self, step: u32) -> u32 {
        let group = at(self.of_steps, step as usize);
        at(&self.of_groups, group as usize)
    }

    // Moves the step's group to a later window. Returns whether it moved.
    fn raise(&mut self, step: u32, window: u32) -> bool {
        let group = at(self.of_steps, step as usize) as usize;
        if at(&self.of_groups, group) >= window {
            return false;
        }
        set(&mut self.of_groups, group, window);
        true
    }

    // Puts each group in the window of its copy's round. Rounds count from 1.
    fn begin(&mut self, rounds: &[u32], width: u32) {
        let plan = self.plan;
        for number in 0..plan.len() {
            if matches!(plan.step(number), Step::Copy(_, _)) {
                let round = at(rounds, number as usize).saturating_sub(1);
                if let Some(window) = round.checked_div(width) {
                    self.raise(number, window);
                }
            }
        }
    }

    // Moves each group to the latest window that it waits for. Returns whether one moved.
    fn pass(&mut self) -> bool {
        let plan = self.plan;
        let mut is_raised = false;
        for number in 0..plan.len() {
            let mut window = 0u32;
            for dependency in plan.deps(number) {
                window = window.max(self.of_step(*dependency));
            }
            if self.raise(number, window) {
                is_raised = true;
            }
        }
        is_raised
    }

    // After `PASSES` passes, makes one window.
    fn settle(&mut self) {
        for _ in 0..PASSES {
            if !self.pass() {
                return;
            }
        }
        for group in 0..self.of_groups.len() {
            set(&mut self.of_groups, group, 0);
        }
    }

    fn count(&self) -> u32 {
        let mut last = 0u32;
        for window in self.of_groups.iter() {
            last = last.max(*window);
        }
        last.saturating_add(1)
    }
}

#[derive(Drop)]
struct Cutting {
    alloc: Global,
    pieces: Pieces,
}

impl Cutting {
    fn add(
        &mut self,
        step: &Step,
        dependencies: &[u32],
        number: u32,
        window: u32,
    ) -> Result<(), Refusal> {
        let after = waits_in(
            self.alloc,
            self.pieces.places.as_slice(),
            window,
            dependencies,
        )?;
        let (Some(plan), Some(steps)) = (
            self.pieces.plans.get_mut(window as usize),
            self.pieces.steps.get_mut(window as usize),
        ) else {
            return Err(Refusal::NoPlan);
        };
        let place = Place {
            window,
            number: add(plan, step.copy(), &after)?,
        };
        steps.push(number)?;
        self.pieces.places.push(place)?;
        Ok(())
    }
}

fn pieces(alloc: Global, windows: &StepWindows) -> Result<Pieces, Refusal> {
    let mut cutting = Cutting {
        alloc,
        pieces: Pieces::new(alloc),
    };
    for _ in 0..windows.count() {
        cutting.pieces.plans.push(Plan::new(alloc))?;
        cutting.pieces.steps.push(Vec::new(alloc))?;
    }
    let plan = windows.plan;
    for number in 0..plan.len() {
        let window = windows.of_step(number);
        cutting.add(plan.step(number), plan.deps(number), number, window)?;
    }
    Ok(cutting.pieces)
}

/// Cuts the plan into windows of `width` rounds.
///
/// A move's steps stay together, with its drop. A step keeps only dependencies in its window: earlier ones are done.
pub fn cut(
    alloc: Global,
    ring: &Ring,
    plan: &Plan,
    rounds: &[u32],
    width: u32,
) -> Result<Pieces, Refusal> {
    let groups = Groups::of(alloc, ring, plan)?;
    let mut windows = StepWindows {
        plan,
        of_steps: groups.of_steps.as_slice(),
        of_groups: vec![in alloc; 0u32; groups.count as usize]?,
    };
    windows.begin(rounds, width);
    windows.settle();
    pieces(alloc, &windows)
}
