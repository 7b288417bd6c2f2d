//! The order that the checker needs.

use crate::paths::Paths;
use crate::stays::{Stay, Stays};
use plan_text::{Plan, Source, Step};
use ring_names::{NodeId, Refusal, Slot};
use ring_table::Ring;
use std::alloc::Global;
use texts::{at, place_of, set};

/// Asks for the paths that the checker needs.
#[derive(Drop)]
pub(crate) struct ClauseNeeds<'a> {
    ring: &'a Ring,
    plan: &'a Plan,
    stays: Stays,
    // by slot, 1 plus its last step, or 0
    lasts: Vec<u32>,
}

impl<'a> ClauseNeeds<'a> {
    pub(crate) fn of(
        alloc: Global,
        ring: &'a Ring,
        plan: &'a Plan,
    ) -> Result<ClauseNeeds<'a>, Refusal> {
        let slots = (ring.q() as usize).saturating_mul(7);
        Ok(ClauseNeeds {
            ring,
            plan,
            stays: Stays::of(alloc, ring)?,
            lasts: vec![in alloc; 0u32; slots]?,
        })
    }

    pub(crate) fn ask_all(&mut self, paths: &mut Paths) -> Result<(), Refusal> {
        let plan = self.plan;
        for number in 0..plan.len() {
            let step = plan.step(number);
            self.ask(paths, step, number)?;
            self.stays.act(step, number)?;
        }
        Ok(())
    }

    fn ask(&mut self, paths: &mut Paths, step: &Step, number: u32) -> Result<(), Refusal> {
        match step {
            Step::Join(_) => Ok(()),
            Step::Mirror(slot, node) => {
                self.follow(paths, *slot, number)?;
                self.mirror(paths, *slot, *node, number)
            }
            Step::Copy(slot, source) => {
                self.follow(paths, *slot, number)?;
                self.copy(paths, *slot, source, number)
            }
            Step::Switch(slot) | Step::Drop(slot, _) => self.follow(paths, *slot, number),
            Step::Retire(node) => self.retire(paths, *node, number),
        }
    }

    fn follow(&mut self, paths: &mut Paths, slot: Slot, number: u32) -> Result<(), Refusal> {
        let place = place_of(slot);
        let last = at(self.lasts.as_slice(), place);
        set(self.lasts.as_mut_slice(), place, number.saturating_add(1));
        if last == 0 {
            return Ok(());
        }
        paths.need(last.saturating_sub(1), number)
    }

    // A mirror follows its node's join, and switches of the partition's other slots away from the node.
    fn mirror(
        &self,
        paths: &mut Paths,
        slot: Slot,
        node: NodeId,
        number: u32,
    ) -> Result<(), Refusal> {
        for index in 0..self.ring.n() {
            if index != slot.index {
                let partition = slot.partition;
                self.leave(paths, Slot { partition, index }, node, number)?;
            }
        }
        self.join(paths, node, number)
    }

    fn leave(
        &self,
        paths: &mut Paths,
        slot: Slot,
        node: NodeId,
        number: u32,
    ) -> Result<(), Refusal> {
        let mut next = self.stays.latest_at(slot, node.0);
        for turn in 0..self.stays.len() {
            let Some(stay) = self.stay(paths, next) else {
                break;
            };
            need_some(paths, stay.left, number)?;
            next = stay.same_before;
        }
        Ok(())
    }

    fn stay(&self, paths: &mut Paths, place: Option<usize>) -> Option<Stay> {
        let stay = self.stays.stay(place)?;
        if paths.look() { Some(stay) } else { None }
    }

    fn join(&self, paths: &mut Paths, node: NodeId, number: u32) -> Result<(), Refusal> {
        need_some(paths, self.plan.join_of(node), number)
    }

    // A copy from listed slots comes before or after each of their switches.
    fn copy(
        &self,
        paths: &mut Paths,
        slot: Slot,
        source: &Source,
        number: u32,
    ) -> Result<(), Refusal> {
        match source {
            Source::Owner => Ok(()),
            Source::Slots(from) => {
                for index in from.as_slice() {
                    let partition = slot.partition;
                    let index = u32::from(*index);
                    self.switches(paths, Slot { partition, index }, number)?;
                }
                Ok(())
            }
        }
    }

    fn switches(&self, paths: &mut Paths, slot: Slot, number: u32) -> Result<(), Refusal> {
        for step in self.plan.slot_steps(slot) {
            if !paths.look() {
                break;
            }
            if *step < self.plan.len() && matches!(self.plan.step(*step), Step::Switch(_)) {
                paths.need((*step).min(number), (*step).max(number))?;
            }
        }
        Ok(())
    }

    // A retirement comes after the node's join and drops.
    fn retire(&self, paths: &mut Paths, node: NodeId, number: u32) -> Result<(), Refusal> {
        self.join(paths, node, number)?;
        let mut next = self.stays.latest_of(node.0);
        for turn in 0..self.stays.len() {
            let Some(stay) = self.stay(paths, next) else {
                break;
            };
            need_some(paths, stay.dropped, number)?;
            next = stay.node_before;
        }
        Ok(())
    }
}

fn need_some(paths: &mut Paths, first: Option<u32>, last: u32) -> Result<(), Refusal> {
    match first {
        Some(first) => paths.need(first, last),
        None => Ok(()),
    }
}
