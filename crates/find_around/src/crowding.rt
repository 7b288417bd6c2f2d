//! Moves to nodes that keep another slot of the partition.

use crate::around::{AroundTask, Search};
use crate::moving::{Moves, PlannedMove};
use crate::told::SlotOutcome;
use ring_names::{Refusal, Slot};
use std::alloc::Global;
use std::collections::BinaryHeap;
use texts::{at, place_of, set};

#[derive(Drop)]
pub(crate) struct Crowd {
    // partition, target and mirror; ascending
    arrivals: Vec<(u32, u32, u32)>,
    // mirrors of moves left out, the first on top
    staying: BinaryHeap<u32>,
    // by slot, the mirror of its first left-out move
    cuts: Vec<u32>,
}

impl Crowd {
    pub(crate) fn of(task: &AroundTask, moves: &Moves) -> Result<Crowd, Refusal> {
        let alloc: Global = task.alloc;
        let mut arrivals = Vec::new(alloc);
        for place in 0..moves.len() {
            if let Some(it) = moves.at(Some(place)) {
                if let Some(mirror) = it.mirror {
                    arrivals.push((it.slot.partition, it.target, mirror))?;
                }
            }
        }
        arrivals.sort_unstable();
        let slots = (task.ring.q() as usize).saturating_mul(7);
        Ok(Crowd {
            arrivals,
            staying: BinaryHeap::new(alloc),
            cuts: vec![in alloc; u32::MAX; slots]?,
        })
    }

    fn cut(&self, slot: Slot) -> u32 {
        at(self.cuts.as_slice(), place_of(slot))
    }

    fn first(&self, partition: u32, node: u32, mirror: u32) -> usize {
        match self.arrivals.binary_search(&(partition, node, mirror)) {
            Ok(place) | Err(place) => place,
        }
    }

    fn arrival(&self, place: usize, partition: u32, node: u32) -> Option<u32> {
        match self.arrivals.get(place) {
            Some((there, target, mirror)) if *there == partition && *target == node => Some(
                *mirror,
            ),
            _ => None,
        }
    }

    /// Notes a left-out move: its slot stays.
    pub(crate) fn stay(&mut self, mirror: Option<u32>) -> Result<(), Refusal> {
        if let Some(mirror) = mirror {
            self.staying.push(u32::MAX.saturating_sub(mirror))?;
        }
        Ok(())
    }

    fn pop(&mut self) -> Option<u32> {
        let top = self.staying.pop()?;
        Some(u32::MAX.saturating_sub(top))
    }
}

impl Search<'_> {
    pub(crate) fn leave_out(&mut self, it: &PlannedMove) {
        self.remove(it.mirror);
        self.remove(it.copy);
        self.remove(it.switch);
        self.remove(it.drop);
    }

    pub(crate) fn leave_out_from(&mut self, from: Option<usize>) -> Result<(), Refusal> {
        let Some(first) = self.moves.at(from) else {
            return Ok(());
        };
        let old = self.crowd.cut(first.slot);
        let Some(mirror) = first.mirror else {
            return Ok(());
        };
        if old <= mirror {
            return Ok(());
        }
        set(self.crowd.cuts.as_mut_slice(), place_of(first.slot), mirror);
        self.crowd.stay(first.mirror)?;
        let mut next = from;
        for turn in 0..self.moves.len() {
            let Some(it) = self.moves.at(next) else {
                break;
            };
            if it.mirror == Some(old) {
                break;
            }
            self.leave_out(&it);
            next = it.next;
        }
        Ok(())
    }

    /// Leaves out moves to nodes that keep another slot of the partition, and their slots' later moves.
    pub(crate) fn make_way(&mut self) -> Result<(), Refusal> {
        for turn in 0..u32::MAX {
            let Some(mirror) = self.crowd.pop() else {
                break;
            };
            if let Some(it) = self.moves.at(self.moves.of_step(mirror)) {
                if self.crowd.cut(it.slot) >= mirror {
                    self.make_way_for(&it, mirror)?;
                }
            }
        }
        Ok(())
    }

    fn next_switch(&self, it: &PlannedMove) -> Option<u32> {
        let mut next = it.next;
        for turn in 0..self.moves.len() {
            let later = self.moves.at(next)?;
            if let Some(switch) = self.kept(later.switch) {
                return Some(switch);
            }
            next = later.next;
        }
        None
    }

    // Leaves out moves to the slot's owner before its next kept switch.
    fn make_way_for(&mut self, it: &PlannedMove, mirror: u32) -> Result<(), Refusal> {
        let until = self.next_switch(it);
        let (partition, node) = (it.slot.partition, it.source);
        let from = self.crowd.first(partition, node, mirror);
        for place in from..self.crowd.arrivals.len() {
            let Some(other) = self.crowd.arrival(place, partition, node) else {
                break;
            };
            if let Some(switch) = until {
                if switch < other {
                    return self.more.add(other, switch);
                }
            }
            self.step_aside(it, other)?;
        }
        Ok(())
    }

    fn step_aside(&mut self, it: &PlannedMove, other: u32) -> Result<(), Refusal> {
        let place = self.moves.of_step(other);
        let Some(late) = self.moves.at(place) else {
            return Ok(());
        };
        let is_left = self.kept(late.mirror).is_none() || self.has_done(late.mirror);
        if is_left || late.slot == it.slot || late.target != it.source {
            return Ok(());
        }
        self.leave_out_from(place)?;
        self.note_outcome(late.slot, SlotOutcome::Crowded(it.source))
    }
}
