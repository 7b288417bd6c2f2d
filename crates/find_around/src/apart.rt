//! Keeps a partition's slots in different racks.

use crate::around::Search;
use crate::told::SlotOutcome;
use ring_names::{Refusal, Slot};

impl Search<'_> {
    pub(crate) fn keep_apart(&mut self) -> Result<(), Refusal> {
        for partition in 0..self.task.ring.q() {
            for turn in 0..self.task.ring.n() {
                if !self.ends_otherwise(partition) || !self.part(partition)? {
                    break;
                }
                self.make_way()?;
            }
        }
        Ok(())
    }

    fn ends_otherwise(&self, partition: u32) -> bool {
        for index in 0..self.task.ring.n() {
            if self.saying_of(Slot { partition, index }).outcome.is_some() {
                return true;
            }
        }
        false
    }

    fn part(&mut self, partition: u32) -> Result<bool, Refusal> {
        let mut has_parted = false;
        for index in 0..self.task.ring.n() {
            has_parted = self.part_slot(Slot { partition, index })? || has_parted;
        }
        Ok(has_parted)
    }

    // Retargets or leaves out the slot's last move, if fewer slots then share a rack.
    fn part_slot(&mut self, slot: Slot) -> Result<bool, Refusal> {
        let place = self.last_left(slot);
        let (Some(found), Some(it)) = (place, self.moves.at(place)) else {
            return Ok(false);
        };
        let owners = self.others(&it);
        let kin = self.count_kin(it.target, &owners);
        if kin == 0 || self.has_done(it.mirror) {
            return Ok(false);
        }
        let other = self.other_target(&it, it.source);
        if self.count_kin(other.unwrap_or(it.source), &owners) >= kin {
            return Ok(false);
        }
        if let Some(other) = other {
            self.redirect(found, &it, it.source, other)?;
        } else if self.leaves(it.source) {
            return Ok(false);
        } else {
            self.leave_out_from(place)?;
            self.note_outcome(slot, SlotOutcome::Close(it.target))?;
        }
        Ok(true)
    }
}
