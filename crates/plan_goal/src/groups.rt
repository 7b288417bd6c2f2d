//! Groups steps: a group is a slot's move with its drop.

use find_chains::Stays;
use plan_text::{Plan, Step};
use ring_names::Refusal;
use ring_table::Ring;
use std::alloc::Global;
use texts::at;

/// Each step's group, and the number of groups.
#[derive(Drop)]
pub struct Groups {
    pub of_steps: Vec<u32>,
    pub count: u32,
}

impl Groups {
    /// Groups a plan's steps.
    pub fn of(alloc: Global, ring: &Ring, plan: &Plan) -> Result<Groups, Refusal> {
        let mut groups = Groups {
            of_steps: Vec::new(alloc),
            count: 0,
        };
        let mut stays = Stays::of(alloc, ring)?;
        for number in 0..plan.len() {
            let step = plan.step(number);
            let group = groups.group(leader(&stays, step));
            groups.of_steps.push(group)?;
            stays.act(step, number)?;
        }
        Ok(groups)
    }

    fn group(&mut self, leader: Option<u32>) -> u32 {
        if let Some(step) = leader {
            return at(self.of_steps.as_slice(), step as usize);
        }
        let group = self.count;
        self.count = self.count.saturating_add(1);
        group
    }
}

// Returns an earlier step of the group: the mirror of a copy or switch, or the switch away from a drop's node.
fn leader(stays: &Stays, step: &Step) -> Option<u32> {
    match step {
        Step::Copy(slot, _) | Step::Switch(slot) => stays.stay(stays.mirror_at(*slot))?.begun,
        Step::Drop(slot, node) => stays.stay(stays.latest_at(*slot, node.0))?.left,
        Step::Mirror(_, _) | Step::Join(_) | Step::Retire(_) => None,
    }
}
