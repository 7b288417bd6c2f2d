//! Rounds in turn: a copy takes the first round in which all its groups are free, from their last rounds on.

use crate::groups::Groups;
use ring_names::Refusal;
use std::alloc::Global;
use texts::{at, raise, set};

/// Each group's last round, and its copies there.
#[derive(Drop)]
pub struct Later {
    last: Vec<u32>,
    taken: Vec<u32>,
}

impl Later {
    /// Starts with all groups free from this round on.
    pub fn of(alloc: Global, groups: usize, round: u32) -> Result<Later, Refusal> {
        Ok(Later {
            last: vec![in alloc; round; groups]?,
            taken: vec![in alloc; 0u32; groups]?,
        })
    }

    fn earliest(&self, groups: &Groups, group: usize) -> u32 {
        let last = at(&self.last, group);
        if at(&self.taken, group) >= groups.most(group) {
            return last.saturating_add(1);
        }
        last
    }

    fn take(&mut self, group: usize, round: u32) {
        if at(&self.last, group) < round {
            set(&mut self.last, group, round);
            set(&mut self.taken, group, 0);
        }
        raise(&mut self.taken, group);
    }

    /// The round of the next copy with these groups.
    pub fn round(&mut self, groups: &Groups, parties: &[u32]) -> u32 {
        let mut round = 0u32;
        for group in parties {
            round = round.max(self.earliest(groups, *group as usize));
        }
        for group in parties {
            self.take(*group as usize, round);
        }
        round
    }
}
