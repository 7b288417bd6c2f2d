//! How far a run has come.

use crate::kept::Kept;
use plan_runs::{Entry, Event};
use plan_text::Plan;
use ring_names::Refusal;
use std::alloc::Global;
use texts::{at, is_set, put, raise};

/// An open copy, and how many of 16 chunks are copied.
#[derive(Clone, Copy, Debug)]
pub struct OpenCopy {
    pub step: u32,
    pub chunks: u32,
}

/// Done steps, open copies and down nodes after a history.
#[derive(Drop)]
pub struct Progress {
    // by step
    done: Vec<bool>,
    // by step: copied chunks
    chunks: Vec<u32>,
    // by step
    is_open: Vec<bool>,
    // by node, up to the last ever down
    is_down: Vec<bool>,
    /// The remaining hints.
    pub kept: Kept,
}

impl Progress {
    /// Returns the progress after the history, a run of the plan.
    pub fn of(alloc: Global, plan: &Plan, history: &[Entry]) -> Result<Progress, Refusal> {
        let steps = plan.len() as usize;
        let mut progress = Progress {
            done: vec![in alloc; false; steps]?,
            chunks: vec![in alloc; 0u32; steps]?,
            is_open: vec![in alloc; false; steps]?,
            is_down: Vec::new(alloc),
            kept: Kept::new(alloc),
        };
        for entry in history {
            progress.note(&entry.event)?;
            progress.kept.note(alloc, entry)?;
        }
        Ok(progress)
    }

    fn note(&mut self, event: &Event) -> Result<(), Refusal> {
        match event {
            Event::Do(step) => put(self.done.as_mut_slice(), *step, true),
            Event::OpenCopy(step) => put(self.is_open.as_mut_slice(), *step, true),
            Event::ChunkCopy(step, _) => { raise(self.chunks.as_mut_slice(), *step as usize) }
            Event::CloseCopy(step) => {
                put(self.is_open.as_mut_slice(), *step, false);
                put(self.done.as_mut_slice(), *step, true);
            }
            Event::AbortCopy(step) => put(self.is_open.as_mut_slice(), *step, false),
            Event::Down(node) => self.put_down(node.0)?,
            Event::Up(node) => put(self.is_down.as_mut_slice(), node.0, false),
            _ => {}
        }
        Ok(())
    }

    fn put_down(&mut self, node: u32) -> Result<(), Refusal> {
        for number in self.is_down.len()..(node as usize).saturating_add(1) {
            self.is_down.push(false)?;
        }
        put(self.is_down.as_mut_slice(), node, true);
        Ok(())
    }

    /// Whether the step is done.
    pub fn is_done(&self, step: u32) -> bool {
        is_set(self.done.as_slice(), step)
    }

    /// Whether the step is an open copy.
    pub fn is_open(&self, step: u32) -> bool {
        is_set(self.is_open.as_slice(), step)
    }

    /// Whether the node is down.
    pub fn is_down(&self, node: u32) -> bool {
        is_set(self.is_down.as_slice(), node)
    }

    /// Returns how many of the copy's 16 chunks are copied.
    pub fn chunks(&self, step: u32) -> u32 {
        at(self.chunks.as_slice(), step as usize).min(16)
    }

    /// Counts the done steps.
    pub fn count(&self) -> u32 {
        let mut count = 0u32;
        for is_done in self.done.as_slice() {
            if *is_done {
                count = count.saturating_add(1);
            }
        }
        count
    }

    /// Whether the step is neither done nor open, with its dependencies done.
    pub fn is_ready(&self, plan: &Plan, step: u32) -> bool {
        if step >= plan.len() || self.is_done(step) || self.is_open(step) {
            return false;
        }
        for earlier in plan.deps(step) {
            if !self.is_done(*earlier) {
                return false;
            }
        }
        true
    }
}
