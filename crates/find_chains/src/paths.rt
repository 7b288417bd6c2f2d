//! Paths of dependencies.

use crate::looks::Looks;
use plan_order::Ends;
use plan_text::Plan;
use ring_names::{Refusal, Rows};
use std::alloc::Global;
use std::collections::BTreeSet;
use texts::{at, set};

// The most facts of a certificate, and steps of a fact.
const MOST_FACTS: usize = 262_144;

const MOST_STEPS: usize = 1024;

// The looks for a search, and for a kept path's steps. They bound what is kept.
const SEARCH: u64 = 64;

const STEP: u64 = 4;

#[derive(Drop)]
pub(crate) struct Paths<'a> {
    plan: &'a Plan,
    looks: Looks,
    pub(crate) found: Rows,
    asked: BTreeSet<Ends>,
    // by step, the last search that reached it, and its successor on the path
    searches: Vec<u32>,
    behind: Vec<u32>,
    search: u32,
    queue: Vec<u32>,
    path: Vec<u32>,
}

impl<'a> Paths<'a> {
    pub(crate) fn of(alloc: Global, plan: &'a Plan) -> Result<Paths<'a>, Refusal> {
        let steps = plan.len() as usize;
        Ok(Paths {
            plan,
            looks: Looks::new(),
            found: Rows::new(alloc),
            asked: BTreeSet::new(alloc),
            searches: vec![in alloc; 0u32; steps]?,
            behind: vec![in alloc; 0u32; steps]?,
            search: 0,
            queue: Vec::new(alloc),
            path: Vec::new(alloc),
        })
    }

    pub(crate) fn look(&mut self) -> bool {
        self.looks.spend(1)
    }

    /// Finds a path to a later step, if needed and new. Leaves out paths over 1,024 steps, or beyond the looks.
    pub(crate) fn need(&mut self, first: u32, last: u32) -> Result<(), Refusal> {
        let plan = self.plan;
        if first >= last || last >= plan.len() || plan.depends(first, last) {
            return Ok(());
        }
        if !self.looks.spend(SEARCH) {
            return Ok(());
        }
        if self.asked.insert(Ends { first, last })? && self.reach(first, last)? {
            self.keep(first, last)?;
        }
        Ok(())
    }

    // Searches backwards, down to the first step.
    fn reach(&mut self, first: u32, last: u32) -> Result<bool, Refusal> {
        self.search = self.search.saturating_add(1);
        self.queue.clear();
        self.queue.push(last)?;
        for turn in 0..self.plan.len() as usize {
            if turn >= self.queue.len() {
                break;
            }
            let step = at(self.queue.as_slice(), turn);
            if self.ask(step, first)? {
                return Ok(true);
            }
        }
        Ok(false)
    }

    fn ask(&mut self, step: u32, first: u32) -> Result<bool, Refusal> {
        let plan = self.plan;
        if step >= plan.len() {
            return Ok(false);
        }
        for dependency in plan.deps(step).iter().rev() {
            if *dependency < first || !self.look() {
                break;
            }
            let place = *dependency as usize;
            if at(self.searches.as_slice(), place) != self.search {
                set(self.searches.as_mut_slice(), place, self.search);
                set(self.behind.as_mut_slice(), place, step);
                self.queue.push(*dependency)?;
            }
            if *dependency == first {
                return Ok(true);
            }
        }
        Ok(false)
    }

    fn keep(&mut self, first: u32, last: u32) -> Result<(), Refusal> {
        self.path.clear();
        let mut step = first;
        for turn in 0..MOST_STEPS {
            self.path.push(step)?;
            if step == last {
                return self.keep_path();
            }
            step = at(self.behind.as_slice(), step as usize);
        }
        Ok(())
    }

    fn keep_path(&mut self) -> Result<(), Refusal> {
        let steps = u64::try_from(self.path.len()).unwrap_or(u64::MAX);
        if self.found.len() < MOST_FACTS && self.looks.spend(steps.saturating_mul(STEP)) {
            self.found.push(self.path.as_slice())?;
        }
        Ok(())
    }
}
