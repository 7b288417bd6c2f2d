//! Slots that stay on request.

use crate::around::{AroundTask, Search};
use crate::moving::{Moves, PlannedMove};
use crate::told::SlotOutcome;
use plan_moves::Progress;
use ring_names::{Refusal, Slot};
use texts::put;

fn has_slot(task: &AroundTask, slot: Slot) -> bool {
    slot.partition < task.ring.q() && slot.index < task.ring.n()
}

fn has_done(progress: &Progress, step: Option<u32>) -> bool {
    match step {
        Some(step) => progress.is_done(step),
        None => false,
    }
}

// The slot's first move whose switch is to come, or whose final mirror can be undone.
fn first_open(moves: &Moves, progress: &Progress, slot: Slot) -> Option<usize> {
    let mut next = moves.first(slot);
    for turn in 0..moves.len() {
        let it = moves.at(next)?;
        if it.switch.is_none() && has_done(progress, it.copy) {
            return None;
        }
        if !has_done(progress, it.switch) {
            return next;
        }
        next = it.next;
    }
    None
}

/// Returns the named slots that stay anyway: no remaining step moves them, and no node mirrors them.
///
/// Costs a pass over plan and history.
pub fn find_unmoved(task: &AroundTask) -> Result<Vec<Slot>, Refusal> {
    let mut unmoved = Vec::new(task.alloc);
    if task.left.is_empty() {
        return Ok(unmoved);
    }
    let progress = Progress::of(task.alloc, task.plan, task.history)?;
    let moves = Moves::of(task.alloc, task.ring, task.plan)?;
    for slot in task.left {
        if !has_slot(task, *slot) || first_open(&moves, &progress, *slot).is_none() {
            unmoved.push(*slot)?;
        }
    }
    Ok(unmoved)
}

impl Search<'_> {
    pub(crate) fn leave_named(&mut self) -> Result<(), Refusal> {
        let left = self.task.left;
        for slot in left {
            if has_slot(&self.task, *slot) {
                self.leave_slot(*slot)?;
            }
        }
        self.make_way()
    }

    // Lets the slot stay. If all chunks are copied, finishes the move instead.
    fn leave_slot(&mut self, slot: Slot) -> Result<(), Refusal> {
        let place = first_open(&self.moves, &self.progress, slot);
        let Some(it) = self.moves.at(place) else {
            return Ok(());
        };
        if self.is_filled(&it) {
            self.leave_out_from(it.next)?;
            return self.note_outcome(slot, SlotOutcome::Ended(it.target));
        }
        self.cancel(&it)?;
        self.leave_out_from(place)?;
        self.note_outcome(slot, SlotOutcome::Left)
    }

    fn cancel(&mut self, it: &PlannedMove) -> Result<(), Refusal> {
        if self.has_done(it.mirror) {
            self.take_back(it)?;
        }
        Ok(())
    }

    /// Undoes the mirror, and so the move.
    pub(crate) fn take_back(&mut self, it: &PlannedMove) -> Result<(), Refusal> {
        self.note_taken(it.slot, it.target)?;
        if let Some(mirror) = it.mirror {
            put(self.taken.as_mut_slice(), mirror, true);
        }
        if let Some(copy) = it.copy {
            put(self.fresh.as_mut_slice(), copy, true);
        }
        self.is_changed = true;
        Ok(())
    }
}
