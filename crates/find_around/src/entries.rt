//! Begun steps, and remaining hints.

use crate::around::AroundTask;
use plan_runs::{Entry, Event, Reply};
use ring_names::{Refusal, Slot};
use std::collections::BTreeSet;
use texts::put;

#[derive(Drop)]
pub(crate) struct BegunSteps {
    pub(crate) begun: Vec<bool>,
    pub(crate) done: Vec<bool>,
    pub(crate) hints: BTreeSet<(Slot, u32)>,
}

impl BegunSteps {
    pub(crate) fn of(task: &AroundTask) -> Result<BegunSteps, Refusal> {
        let mut found = BegunSteps {
            begun: vec![in task.alloc; false; task.plan.len() as usize]?,
            done: vec![in task.alloc; false; task.plan.len() as usize]?,
            hints: BTreeSet::new(task.alloc),
        };
        for entry in task.history {
            found.note(entry)?;
        }
        Ok(found)
    }

    fn note(&mut self, entry: &Entry) -> Result<(), Refusal> {
        match &entry.event {
            Event::Do(step) => {
                put(self.begun.as_mut_slice(), *step, true);
                put(self.done.as_mut_slice(), *step, true);
            }
            Event::OpenCopy(step) => put(self.begun.as_mut_slice(), *step, true),
            Event::CloseCopy(step) => put(self.done.as_mut_slice(), *step, true),
            Event::Hint(_, _, node) => {
                if let Reply::Ticket(slot, _) = &entry.reply {
                    self.hints.insert((*slot, node.0))?;
                }
            }
            Event::Handoff(node, slot) => {
                let _ = self.hints.remove(&(*slot, node.0));
            }
            Event::Lose(node) => {
                let lost = node.0;
                self.hints.retain(|hint| hint.1 != lost);
            }
            // Other events begin no step and move no hint.
            _ => {}
        }
        Ok(())
    }
}
