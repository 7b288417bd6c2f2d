//! Partitions without new moves.

use crate::around::{Reach, Search};
use crate::moving::PlannedMove;
use crate::told::SlotOutcome;
use plan_runs::Back;
use ring_names::{NodeId, Refusal, Slot};
use ringplan_request::Extent;
use texts::{is_set, put, small};

impl Search<'_> {
    /// Leaves out moves that have not begun in resting partitions.
    pub(crate) fn rest(&mut self) -> Result<(), Refusal> {
        self.mark_resting();
        if self.task.extent == Extent::Begun {
            self.leave_joins();
        }
        for partition in 0..self.task.ring.q() {
            if self.is_resting(partition) {
                for index in 0..self.task.ring.n() {
                    self.rest_slot(Slot { partition, index })?;
                }
            }
        }
        self.make_way()
    }

    pub(crate) fn is_resting(&self, partition: u32) -> bool {
        is_set(self.resting.as_slice(), partition)
    }

    fn mark_resting(&mut self) {
        if self.task.extent == Extent::Begun {
            for partition in 0..self.task.ring.q() {
                self.touch(partition);
            }
        } else if self.reach != Reach::Far {
            self.mark_touched();
        }
    }

    fn touch(&mut self, partition: u32) {
        put(self.resting.as_mut_slice(), partition, true);
    }

    fn mark_touched(&mut self) {
        for slot in self.task.left {
            self.touch(slot.partition);
        }
        self.touch_moved();
        self.touch_hinted();
        self.touch_owned();
    }

    fn touch_moved(&mut self) {
        for place in 0..self.moves.len() {
            if let Some(it) = self.moves.at(Some(place)) {
                let is_dead = self.is_dead(it.source) || self.is_dead(it.target);
                if is_dead && !self.has_done(it.switch) {
                    self.touch(it.slot.partition);
                }
            }
        }
    }

    fn touch_hinted(&mut self) {
        for place in 0..self.hints.all().len() {
            if let Some((slot, node)) = self.hints.all().get(place).copied() {
                if self.is_dead(node) {
                    self.touch(slot.partition);
                }
            }
        }
    }

    fn touch_owned(&mut self) {
        for partition in 0..self.task.ring.q() {
            for index in 0..self.task.ring.n() {
                if self.is_dead(self.owner_at(Slot { partition, index }, 0)) {
                    self.touch(partition);
                }
            }
        }
    }

    fn leave_joins(&mut self) {
        let plan = self.task.plan;
        for node in 0..small(self.task.ring.nodes().len()) {
            let join = plan.join_of(NodeId(node));
            if self.kept(join).is_some() && !self.has_done(join) {
                self.remove(join);
                self.remove(plan.retirement_of(NodeId(node)));
                self.say_of_node(b"@ does not join\n", node);
            }
        }
    }

    // Whether the begun move is to end. With `--back`, a mirror without chunks is undone instead.
    fn is_to_end(&self, it: &PlannedMove) -> bool {
        let has_chunks = match it.copy {
            Some(copy) => self.is_done(copy) || self.progress.chunks(copy) > 0,
            None => false,
        };
        let is_kept = self.task.back == Back::Never || self.task.extent == Extent::Whole;
        self.has_done(it.mirror) && (has_chunks || is_kept)
    }

    fn rest_slot(&mut self, slot: Slot) -> Result<(), Refusal> {
        let mut next = self.moves.first(slot);
        for turn in 0..self.moves.len() {
            let Some(it) = self.moves.at(next) else {
                break;
            };
            if self.kept(it.mirror).is_none() {
                break;
            }
            if !self.has_done(it.switch) && !self.is_to_end(&it) {
                return self.rest_from(next, &it);
            }
            next = it.next;
        }
        Ok(())
    }

    fn rest_from(&mut self, from: Option<usize>, it: &PlannedMove) -> Result<(), Refusal> {
        if self.has_done(it.mirror) {
            self.take_back(it)?;
        }
        self.leave_out_from(from)?;
        self.note_outcome(it.slot, SlotOutcome::NotBegun)
    }

    pub(crate) fn keep_full(&mut self) -> Result<(), Refusal> {
        self.leave_joins();
        for place in 0..self.moves.len() {
            if let Some(it) = self.moves.at(Some(place)) {
                if self.kept(it.mirror).is_some() {
                    self.keep_if_full(place, &it)?;
                }
            }
        }
        Ok(())
    }

    fn keep_if_full(&mut self, place: usize, it: &PlannedMove) -> Result<(), Refusal> {
        let is_full = self.is_filled(it);
        if is_full || self.has_done(it.switch) {
            if self.is_dead(it.source) && !self.has_done(it.drop) {
                self.remove(it.drop);
            }
            if self.is_dead(it.target) && !self.has_done(it.switch) {
                self.note_outcome(it.slot, SlotOutcome::Filled(it.target))?;
            }
            return Ok(());
        }
        if !self.has_done(it.mirror) {
            self.leave_out_from(Some(place))?;
            return self.note_outcome(it.slot, SlotOutcome::NotBegun);
        }
        if self.task.back == Back::Allowed && !self.has_done(it.copy) {
            self.take_back(it)?;
            self.leave_out_from(Some(place))?;
            return self.note_outcome(it.slot, SlotOutcome::NotBegun);
        }
        self.stick(it)?;
        self.note_outcome(it.slot, SlotOutcome::MirroredStill(it.target))
    }
}
