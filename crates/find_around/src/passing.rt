//! Copies that must now precede a switch to a dead node.

use crate::around::Search;
use crate::moving::PlannedMove;
use crate::owners::Way;
use ring_names::{Refusal, Slot};
use texts::is_set;

impl Search<'_> {
    /// Marks the switches that the move's copy must now precede, and all steps after them.
    pub(crate) fn passed_by(&self, step: u32) -> Result<Vec<bool>, Refusal> {
        let mut passed = Vec::new(self.task.alloc);
        let Some(it) = self.moves.at(self.moves.of_step(step)) else {
            return Ok(passed);
        };
        if (it.copy != Some(step) && it.mirror != Some(step)) || self.is_fixed(step) {
            return Ok(passed);
        }
        let switches = self.switches_after(&it)?;
        if switches.is_empty() {
            return Ok(passed);
        }
        for other in 0..step {
            let is_passed = switches.binary_search(&other).is_ok()
                || self.is_after_passed(passed.as_slice(), other);
            passed.push(is_passed)?;
        }
        Ok(passed)
    }

    fn is_after_passed(&self, passed: &[bool], step: u32) -> bool {
        step < self.task.plan.len()
            && self
                .task
                .plan
                .deps(step)
                .iter()
                .any(|other| is_set(passed, *other))
    }

    // Returns the switches that the move's copy must now precede, ascending.
    fn switches_after(&self, it: &PlannedMove) -> Result<Vec<u32>, Refusal> {
        let mut switches = Vec::new(self.task.alloc);
        let Some(copy) = it.copy else {
            return Ok(switches);
        };
        let Some(listing) = self.listings.get(&copy) else {
            return Ok(switches);
        };
        let partition = it.slot.partition;
        for index in 0..7u32 {
            if let Some(Some(Way::First)) = listing.ways.get(index as usize) {
                self.push_switches(&mut switches, Slot { partition, index }, copy)?;
            }
        }
        switches.sort_unstable();
        Ok(switches)
    }

    fn push_switches(&self, switches: &mut Vec<u32>, slot: Slot, copy: u32) -> Result<(), Refusal> {
        let mut next = self.moves.first(slot);
        for turn in 0..self.moves.len() {
            let Some(it) = self.moves.at(next) else {
                break;
            };
            if let Some(switch) = self.kept(it.switch) {
                if switch < copy && !self.is_done(switch) {
                    switches.push(switch)?;
                }
            }
            next = it.next;
        }
        Ok(())
    }
}
