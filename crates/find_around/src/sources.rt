//! Sources for copies whose owner is dead.

use crate::around::Search;
use crate::moving::PlannedMove;
use crate::owners::Way;
use plan_text::{Source, Step};
use ring_names::{Refusal, Slot};
use ring_table::Allowance;
use texts::{at, put, raise};

/// The slots that a copy lists, by index.
#[derive(Clone, Copy, Debug)]
pub(crate) struct CopyListing {
    pub(crate) ways: [Option<Way>; 7],
}

// A listable slot, ordered by preference.
#[derive(Clone, Copy, Debug, PartialEq, Eq, PartialOrd, Ord)]
struct ListableSlot {
    // its switches to come
    switches: u32,
    // copies that read from its owner, by allowance
    load: u64,
    index: u32,
    owner: u32,
    is_first: bool,
}

impl Search<'_> {
    fn load_of(&self, node: u32) -> u64 {
        let gives = match self.task.ring.nodes().get(node as usize) {
            Some(declared) => match declared.allowance {
                Allowance::Joint(most) => most,
                Allowance::Split { take: _, give } => give,
            },
            None => 1,
        };
        let load = u64::from(at(self.load.as_slice(), node as usize)).saturating_mul(1_000_000);
        match load.checked_div(u64::from(gives)) {
            Some(part) => part,
            None => load,
        }
    }

    // A copy cannot read its own target.
    fn candidate(&self, it: &PlannedMove, slot: Slot, copy: u32) -> Option<ListableSlot> {
        let (way, owner) = self.readable(slot, copy)?;
        if owner == it.target {
            return None;
        }
        Some(ListableSlot {
            switches: self.switches_left(slot),
            load: self.load_of(owner),
            index: slot.index,
            owner,
            is_first: way == Way::First,
        })
    }

    fn candidates(&self, it: &PlannedMove, copy: u32) -> Result<Vec<ListableSlot>, Refusal> {
        let mut found = Vec::new(self.task.alloc);
        let partition = it.slot.partition;
        for index in 0..self.task.ring.n() {
            if index != it.slot.index {
                if let Some(candidate) = self.candidate(it, Slot { partition, index }, copy) {
                    found.push(candidate)?;
                }
            }
        }
        found.sort_unstable();
        Ok(found)
    }

    fn order(&mut self, slot: Slot, copy: u32, way: Way) -> Result<(), Refusal> {
        let mut next = self.moves.first(slot);
        for turn in 0..self.moves.len() {
            let Some(it) = self.moves.at(next) else {
                break;
            };
            if let Some(switch) = self.kept(it.switch) {
                let is_before = self.is_done(switch) || (way == Way::InLine && switch < copy);
                if is_before {
                    self.more.add(copy, switch)?;
                } else {
                    self.more.add(switch, copy)?;
                }
            }
            next = it.next;
        }
        Ok(())
    }

    fn list(
        &mut self,
        listing: &mut CopyListing,
        partition: u32,
        copy: u32,
        one: ListableSlot,
    ) -> Result<(), Refusal> {
        let way = if one.is_first {
            Way::First
        } else {
            Way::InLine
        };
        let index = one.index;
        raise(self.load.as_mut_slice(), one.owner as usize);
        self.order(Slot { partition, index }, copy, way)?;
        if let Some(old) = listing.ways.get_mut(index as usize) {
            *old = Some(way);
        }
        Ok(())
    }

    /// Lets the copy read R other slots, if there are R.
    pub(crate) fn relist(&mut self, it: &PlannedMove, copy: u32) -> Result<bool, Refusal> {
        let found = self.candidates(it, copy)?;
        let reads = self.task.ring.r() as usize;
        if found.len() < reads {
            return Ok(false);
        }
        let mut listing = CopyListing { ways: [None; 7] };
        for one in found.iter().take(reads) {
            self.list(&mut listing, it.slot.partition, copy, *one)?;
        }
        self.listings.insert(copy, listing)?;
        put(self.fresh.as_mut_slice(), copy, true);
        self.is_changed = true;
        Ok(true)
    }

    pub(crate) fn reads_dead(&self, it: &PlannedMove) -> bool {
        let Some(copy) = it.copy else {
            return false;
        };
        if copy >= self.task.plan.len() {
            return false;
        }
        let Step::Copy(_, Source::Slots(from)) = self.task.plan.step(copy) else {
            return self.is_dead(it.source);
        };
        let partition = it.slot.partition;
        for index in from.as_slice() {
            let index = u32::from(*index);
            if self.is_unreadable(Slot { partition, index }, copy) {
                return true;
            }
        }
        false
    }

    // Whether the owner before the copy, or a keeper of the slot's hints, is dead.
    fn is_unreadable(&self, slot: Slot, copy: u32) -> bool {
        match self.readable(slot, copy) {
            Some((Way::InLine, _)) => false,
            Some((Way::First, _)) | None => true,
        }
    }
}
