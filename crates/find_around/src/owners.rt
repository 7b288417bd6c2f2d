//! Owners after the kept steps.

use crate::around::Search;
use crate::moving::{PlannedMove, first_owner};
use ring_names::Slot;

/// A step number after all steps.
pub(crate) const END: u32 = u32::MAX;

/// When a copy comes among a listed slot's switches.
#[derive(Clone, Copy, Debug, PartialEq, Eq)]
pub(crate) enum Way {
    /// As in the old plan.
    InLine,
    /// Before all switches to come.
    First,
}

impl Search<'_> {
    /// The owner after done steps and those before step `line`. 0 means now.
    pub(crate) fn owner_at(&self, slot: Slot, line: u32) -> u32 {
        let mut owner = first_owner(self.task.ring, slot);
        let mut next = self.moves.first(slot);
        for turn in 0..self.moves.len() {
            let Some(it) = self.moves.at(next) else {
                break;
            };
            if let Some(switch) = self.kept(it.switch) {
                if switch < line || self.is_done(switch) {
                    owner = it.target;
                }
            }
            next = it.next;
        }
        owner
    }

    pub(crate) fn last_left(&self, slot: Slot) -> Option<usize> {
        let mut next = self.moves.last(slot);
        for turn in 0..self.moves.len() {
            let it = self.moves.at(next)?;
            if self.kept(it.switch).is_some() {
                return next;
            }
            next = it.before;
        }
        None
    }

    pub(crate) fn last_owner(&self, slot: Slot) -> u32 {
        match self.moves.at(self.last_left(slot)) {
            Some(it) => it.target,
            None => first_owner(self.task.ring, slot),
        }
    }

    fn has_dead_hint(&self, slot: Slot) -> bool {
        for hint in self.hints.of_partition(slot.partition) {
            if hint.0.index == slot.index && self.is_dead(hint.1) {
                return true;
            }
        }
        false
    }

    /// When a copy can read the slot, and from which owner.
    pub(crate) fn readable(&self, slot: Slot, line: u32) -> Option<(Way, u32)> {
        if self.has_dead_hint(slot) {
            return None;
        }
        let owner = self.owner_at(slot, line);
        if !self.is_dead(owner) {
            return Some((Way::InLine, owner));
        }
        let owner = self.owner_at(slot, 0);
        if !self.is_dead(owner) {
            return Some((Way::First, owner));
        }
        None
    }

    pub(crate) fn switches_left(&self, slot: Slot) -> u32 {
        let mut count = 0u32;
        let mut next = self.moves.last(slot);
        for turn in 0..self.moves.len() {
            let Some(it) = self.moves.at(next) else {
                break;
            };
            if let Some(switch) = self.kept(it.switch) {
                if self.is_done(switch) {
                    break;
                }
                count = count.saturating_add(1);
            }
            next = it.before;
        }
        count
    }

    /// Whether the node keeps a hint for another slot whose owner is dead.
    pub(crate) fn is_barred(&self, slot: Slot, node: u32) -> bool {
        for hint in self.hints.of_partition(slot.partition) {
            if hint.1 == node && hint.0 != slot && self.is_dead(self.owner_at(hint.0, 0)) {
                return true;
            }
        }
        false
    }

    pub(crate) fn is_filled(&self, it: &PlannedMove) -> bool {
        let (Some(copy), Some(_)) = (it.copy, it.switch) else {
            return false;
        };
        self.is_done(copy) || (self.progress.is_open(copy) && self.progress.chunks(copy) == 16)
    }
}
