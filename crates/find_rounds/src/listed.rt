//! Copies that read listed slots, not the owner.
//!
//! A leaving node gives all its slots at its own pace. If a copy reads R staying slots instead, each of their owners
//! gives a little. This needs R + 1 parties instead of 2, so it must save at least half of the rounds.

use crate::groups::Groups;
use crate::moving::SlotMove;
use crate::rounds::counts;
use crate::task::Task;
use ring_names::{Refusal, Rows};
use texts::{at, lower, parts, raise, small};

// The slots that each copy lists, by index.
#[derive(Drop)]
struct Listing {
    // by move, ascending
    slots: Rows,
    // the current move's slots
    row: Vec<u32>,
    // each group's copies
    counts: Vec<u32>,
}

#[derive(Clone, Copy, PartialEq, Eq)]
enum Which {
    Staying,
    Moving,
}

fn most(groups: &Groups, group: usize, rounds: u32) -> u32 {
    groups.most(group).saturating_mul(rounds)
}

impl Listing {
    // What the slot's owner can still give in these rounds, in 64ths of its allowance.
    fn left(&self, task: &Task, place: usize, rounds: u32) -> Option<u32> {
        let (layout, groups) = (task.layout, task.groups);
        let group = groups.giver(layout.owner(place));
        let left = most(groups, group, rounds).saturating_sub(at(&self.counts, group));
        if left == 0 {
            return None;
        }
        left.saturating_mul(64).checked_div(groups.most(group))
    }

    // The partition's first unlisted slot of the kind whose owner has most left.
    fn best(&self, task: &Task, partition: usize, rounds: u32, which: Which) -> Option<u32> {
        let layout = task.layout;
        let mut best = None;
        let mut most = None;
        for index in 0..layout.slots {
            let place = layout.place(partition, index);
            let left = self.left(task, place, rounds);
            let is_meant = layout.moves(place) == (which == Which::Moving);
            if is_meant && most < left && !self.row.contains(&small(index)) {
                most = left;
                best = Some(small(index));
            }
        }
        best
    }

    fn count(&mut self, task: &Task, step: &SlotMove) {
        let (layout, groups) = (task.layout, task.groups);
        if self.row.is_empty() {
            return;
        }
        lower(&mut self.counts, groups.giver(step.from));
        for index in self.row.iter() {
            let place = layout.place(step.slot.partition as usize, *index as usize);
            raise(&mut self.counts, groups.giver(layout.owner(place)));
        }
    }

    // Lists R slots for a copy whose owner is overloaded, or none if fewer can be listed.
    fn list(&mut self, task: &Task, step: &SlotMove, rounds: u32) -> Result<(), Refusal> {
        self.row.clear();
        let giver = task.groups.giver(step.from);
        if at(&self.counts, giver) > most(task.groups, giver, rounds) {
            for _ in 0..task.reads {
                let partition = step.slot.partition as usize;
                let Some(index) = self.best(task, partition, rounds, Which::Staying) else {
                    self.row.clear();
                    break;
                };
                self.row.push(index)?;
            }
            self.row.sort_unstable();
            self.count(task, step);
        }
        self.slots.push(&self.row)
    }

    // Lists slots for all copies. Returns whether the rounds suffice.
    fn list_all(&mut self, task: &Task, rounds: u32) -> Result<bool, Refusal> {
        let groups = task.groups;
        self.counts = counts(task.alloc, groups, task.moves)?;
        for step in task.moves {
            self.list(task, step, rounds)?;
        }
        Ok(self.fits(groups, rounds))
    }

    fn fits(&self, groups: &Groups, rounds: u32) -> bool {
        for group in 0..groups.len() {
            if at(&self.counts, group) > most(groups, group, rounds) {
                return false;
            }
        }
        true
    }

    // Lists R slots for a barred owner's copy, staying ones first. Returns whether there are R.
    fn list_around(&mut self, task: &Task, step: &SlotMove, rounds: u32) -> Result<bool, Refusal> {
        self.row.clear();
        if task.groups.is_barred(step.from) {
            let partition = step.slot.partition as usize;
            for _ in 0..task.reads {
                let stays = self.best(task, partition, rounds, Which::Staying);
                let moves = self.best(task, partition, rounds, Which::Moving);
                let Some(index) = stays.or(moves) else {
                    return Ok(false);
                };
                self.row.push(index)?;
            }
            self.row.sort_unstable();
            self.count(task, step);
        }
        self.slots.push(&self.row)?;
        Ok(true)
    }

    fn list_all_around(&mut self, task: &Task, rounds: u32) -> Result<bool, Refusal> {
        self.counts = counts(task.alloc, task.groups, task.moves)?;
        for step in task.moves {
            if !self.list_around(task, step, rounds)? {
                return Ok(false);
            }
        }
        Ok(self.fits(task.groups, rounds))
    }
}

fn nothing_listed(task: &Task) -> Listing {
    Listing {
        slots: Rows::new(task.alloc),
        row: Vec::new(task.alloc),
        counts: Vec::new(task.alloc),
    }
}

// Which copies list slots, by their owner.
#[derive(Clone, Copy)]
enum OwnerKind {
    Loaded,
    Barred,
}

fn try_rounds(task: &Task, owner: OwnerKind, rounds: u32) -> Result<Option<Rows>, Refusal> {
    let mut listing = nothing_listed(task);
    let is_enough = match owner {
        OwnerKind::Loaded => listing.list_all(task, rounds)?,
        OwnerKind::Barred => listing.list_all_around(task, rounds)?,
    };
    Ok(if is_enough { Some(listing.slots) } else { None })
}

// Finds slots for the fewest rounds, at most `most`, by binary search.
fn search(task: &Task, owner: OwnerKind, most: u32) -> Result<Option<Rows>, Refusal> {
    let (mut low, mut high) = (1u32, most);
    let mut found = None;
    for _ in 0..32 {
        if low > high {
            break;
        }
        let middle = low.saturating_add(high.saturating_sub(low) / 2);
        match try_rounds(task, owner, middle)? {
            Some(better) => {
                found = Some(better);
                high = middle.saturating_sub(1);
            }
            None => low = middle.saturating_add(1),
        }
    }
    Ok(found)
}

/// Returns R slots to list for each copy whose owner is barred: staying slots first, for the fewest rounds.
///
/// None if a partition has too few slots with live owners.
pub fn around(task: &Task) -> Result<Option<Rows>, Refusal> {
    // Enough rounds for one copy at a time.
    let most = small(task.moves.len()).saturating_mul(8).saturating_add(1);
    search(task, OwnerKind::Barred, most)
}

/// The fewest rounds that allowances permit for copies from owners.
pub fn fewest(groups: &Groups, counts: &[u32]) -> u32 {
    let mut most = 0u32;
    for group in 0..groups.len() {
        most = most.max(parts(at(counts, group), groups.most(group)));
    }
    most
}

/// Whether listed slots save enough rounds.
pub fn is_worth(rounds: u32, from_owners: u32) -> bool {
    rounds.saturating_mul(2) <= from_owners && rounds.saturating_add(4) <= from_owners
}

/// Returns each copy's listed slots for the fewest rounds. A copy without slots reads the owner.
pub fn sources(task: &Task) -> Result<Option<Rows>, Refusal> {
    let groups = task.groups;
    let from_owners = fewest(groups, &counts(task.alloc, groups, task.moves)?);
    search(task, OwnerKind::Loaded, from_owners / 2)
}
