//! Decides which moves go on.

use crate::around::{Reach, Search};
use crate::moving::{PlannedMove, first_owner};
use crate::told::SlotOutcome;
use plan_runs::Back;
use ring_names::{NodeId, Refusal, Slot};
use texts::{is_set, put};

#[derive(Clone, Copy, Debug)]
enum Fate {
    Goes,
    Stays,
    // The slot stays mirrored, without later moves.
    Stuck,
}

pub(crate) fn settle(search: &mut Search) -> Result<(), Refusal> {
    search.leave_named()?;
    search.rest()?;
    search.part_from_dead();
    if search.reach == Reach::Full {
        search.keep_full()?;
    } else {
        search.settle_slots()?;
        search.settle_copies()?;
    }
    search.say_of_slots()?;
    search.keep_holders()?;
    search.say_of_reach();
    Ok(())
}

impl Search<'_> {
    fn count_owned(&mut self) {
        for partition in 0..self.task.ring.q() {
            for index in 0..self.task.ring.n() {
                let owner = self.last_owner(Slot { partition, index });
                self.own(owner);
            }
        }
    }

    fn settle_slots(&mut self) -> Result<(), Refusal> {
        self.count_owned();
        for partition in 0..self.task.ring.q() {
            for index in 0..self.task.ring.n() {
                self.settle_slot(Slot { partition, index })?;
            }
        }
        self.make_way()?;
        self.keep_apart()
    }

    fn settle_slot(&mut self, slot: Slot) -> Result<(), Refusal> {
        let Some(first) = self.moves.first(slot) else {
            return Ok(());
        };
        let mut owner = first_owner(self.task.ring, slot);
        let mut next = Some(first);
        let mut is_staying = false;
        for turn in 0..self.moves.len() {
            let (Some(place), Some(it)) = (next, self.moves.at(next)) else {
                break;
            };
            if self.kept(it.mirror).is_none() {
                break;
            }
            match self.settle_move(place, it, owner)? {
                Fate::Goes => {
                    owner = self.target_of(place, owner);
                    is_staying = false;
                }
                Fate::Stays => {
                    if !is_staying {
                        self.crowd.stay(it.mirror)?;
                    }
                    is_staying = true;
                }
                Fate::Stuck => break,
            }
            next = it.next;
        }
        Ok(())
    }

    fn target_of(&self, place: usize, node: u32) -> u32 {
        match self.moves.at(Some(place)) {
            Some(it) => it.target,
            None => node,
        }
    }

    // Decides about the move. `owner` is the slot's owner before it.
    fn settle_move(&mut self, place: usize, it: PlannedMove, owner: u32) -> Result<Fate, Refusal> {
        self.moves.lead(place, owner, it.target);
        if owner != it.source && !self.has_done(it.drop) {
            self.is_changed = true;
        }
        if self.is_dead(owner) && !self.has_done(it.drop) {
            self.remove(it.drop);
        }
        if self.has_done(it.switch) {
            return Ok(Fate::Goes);
        }
        if self.is_filled(&it) {
            if self.is_dead(it.target) {
                self.note_outcome(it.slot, SlotOutcome::Filled(it.target))?;
            }
            return Ok(Fate::Goes);
        }
        if self.has_done(it.mirror) && self.is_dead(it.target) {
            return self.settle_dead(place, &it, owner);
        }
        if !self.has_done(it.mirror) && !self.retarget(place, &it, owner)? {
            return Ok(Fate::Stays);
        }
        Ok(Fate::Goes)
    }

    fn settle_dead(&mut self, place: usize, it: &PlannedMove, owner: u32) -> Result<Fate, Refusal> {
        if self.task.back == Back::Never || self.has_done(it.copy) {
            self.stick(it)?;
            self.note_outcome(it.slot, SlotOutcome::MirroredToDead(it.target))?;
            return Ok(Fate::Stuck);
        }
        self.take_back(it)?;
        let is_resting = self.is_resting(it.slot.partition);
        if is_resting || it.switch.is_none() {
            self.leave_out_from(Some(place))?;
            if is_resting {
                self.note_outcome(it.slot, SlotOutcome::NotBegun)?;
            }
            return Ok(Fate::Stuck);
        }
        if self.retarget(place, it, owner)? {
            return Ok(Fate::Goes);
        }
        Ok(Fate::Stays)
    }

    // Retargets the move if needed. Returns whether it is kept.
    fn retarget(&mut self, place: usize, it: &PlannedMove, owner: u32) -> Result<bool, Refusal> {
        if it.target == owner {
            self.leave_out(it);
            return Ok(false);
        }
        if !self.is_dead(it.target) && !self.is_barred(it.slot, it.target) {
            self.note_planned(it.slot)?;
            return Ok(true);
        }
        let other = if self.leaves(owner) || it.next.is_none() {
            self.other_target(it, owner)
        } else {
            None
        };
        let Some(other) = other else {
            self.leave_out(it);
            self.note_outcome(it.slot, SlotOutcome::Untaken(it.target))?;
            return Ok(false);
        };
        self.redirect(place, it, owner, other)?;
        Ok(true)
    }

    /// Leads the move to `other`.
    pub(crate) fn redirect(
        &mut self,
        place: usize,
        it: &PlannedMove,
        owner: u32,
        other: u32,
    ) -> Result<(), Refusal> {
        let planned = match self.saying_of(it.slot).outcome {
            Some(SlotOutcome::Elsewhere(node, planned)) if node == it.target => planned,
            _ => it.target,
        };
        self.note_outcome(it.slot, SlotOutcome::Elsewhere(other, planned))?;
        self.own(other);
        self.moves.lead(place, owner, other);
        self.is_changed = true;
        if let (Some(mirror), Some(join)) = (it.mirror, self.task.plan.join_of(NodeId(other))) {
            self.more.add(mirror, join)?;
        }
        Ok(())
    }

    /// Keeps the slot mirrored for good.
    pub(crate) fn stick(&mut self, it: &PlannedMove) -> Result<(), Refusal> {
        if !self.has_done(it.copy) {
            self.remove(it.copy);
        }
        self.remove(it.switch);
        self.remove(it.drop);
        self.crowd.stay(it.mirror)?;
        self.leave_out_from(it.next)
    }

    fn settle_copies(&mut self) -> Result<(), Refusal> {
        self.awaited = self.find_awaited()?;
        for copy in 0..self.task.plan.len() {
            let place = self.moves.of_step(copy);
            if let (Some(place), Some(it)) = (place, self.moves.at(place)) {
                if it.copy == Some(copy) && !self.is_gone(copy) {
                    self.settle_copy(place, &it, copy)?;
                }
            }
        }
        Ok(())
    }

    fn settle_copy(&mut self, place: usize, it: &PlannedMove, copy: u32) -> Result<(), Refusal> {
        if self.is_done(copy) || self.is_filled(it) || !self.reads_dead(it) {
            return Ok(());
        }
        if !self.relist(it, copy)? {
            self.leave_unread(it, place)?;
        } else if self.is_ahead(it) {
            self.begin_again(it, place)?;
        }
        self.make_way()
    }

    fn is_ahead(&self, it: &PlannedMove) -> bool {
        self.has_done(it.mirror) && self.ahead.contains(&it.slot)
    }

    fn find_awaited(&self) -> Result<Vec<bool>, Refusal> {
        let plan = self.task.plan;
        let mut awaited = vec![in self.task.alloc; false; plan.len() as usize]?;
        for step in 0..plan.len() {
            if self.is_fixed(step) {
                for other in plan.deps(step) {
                    if self.moves.of_step(step) != self.moves.of_step(*other) {
                        put(awaited.as_mut_slice(), *other, true);
                    }
                }
            }
        }
        Ok(awaited)
    }

    fn is_awaited(&self, it: &PlannedMove) -> bool {
        match it.mirror {
            Some(mirror) => is_set(self.awaited.as_slice(), mirror),
            None => false,
        }
    }

    // Restarts a move whose mirror is ahead of the owner, since its copy reads other slots.
    fn begin_again(&mut self, it: &PlannedMove, place: usize) -> Result<(), Refusal> {
        if self.task.back == Back::Never || self.is_awaited(it) {
            self.stick(it)?;
            return self.note_outcome(it.slot, SlotOutcome::MirroredAhead(it.target));
        }
        self.take_back(it)?;
        if self.is_resting(it.slot.partition) {
            self.leave_out_from(Some(place))?;
            return self.note_outcome(it.slot, SlotOutcome::NotBegun);
        }
        self.note_outcome(it.slot, SlotOutcome::Again(it.target))
    }

    fn leave_unread(&mut self, it: &PlannedMove, place: usize) -> Result<(), Refusal> {
        if self.has_done(it.mirror) && self.task.back == Back::Allowed {
            self.take_back(it)?;
        }
        if self.has_done(it.mirror) {
            self.stick(it)?;
            return self.note_outcome(it.slot, SlotOutcome::MirroredUnread(it.target));
        }
        self.leave_out_from(Some(place))?;
        self.note_outcome(it.slot, SlotOutcome::Unread)
    }
}
