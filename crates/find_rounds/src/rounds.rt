//! Rounds of copies.

use crate::colours::Colours;
use crate::groups::Groups;
use crate::later::Later;
use crate::listed::{around, fewest, is_worth, sources};
use crate::moving::SlotMove;
use crate::phases::{followers, in_phases};
use crate::task::Task;
use crate::urgency::by_urgency;
use ring_names::{Refusal, Rows};
use std::alloc::Global;
use texts::{raise, row, small};

/// Counts each group's copies, if all read owners.
pub fn counts(alloc: Global, groups: &Groups, moves: &[SlotMove]) -> Result<Vec<u32>, Refusal> {
    let mut counts = vec![in alloc; 0u32; groups.len()]?;
    for step in moves {
        raise(&mut counts, groups.giver(step.from));
        raise(&mut counts, groups.taker(step.to));
    }
    Ok(counts)
}

/// Rounds, groups and listed slots of copies.
#[derive(Drop)]
pub struct Schedule {
    pub parties: Rows,
    /// By copy, its listed slots, ascending. A copy without slots reads the owner.
    pub listed: Rows,
    rounds: Vec<u32>,
}

// The groups of a copy's sources and target.
fn parties(task: &Task, step: &SlotMove, listed: &[u32]) -> Result<Vec<u32>, Refusal> {
    let (layout, groups) = (task.layout, task.groups);
    let mut parties = Vec::new(task.alloc);
    for index in listed {
        let place = layout.place(step.slot.partition as usize, *index as usize);
        parties.push(small(groups.giver(layout.owner(place))))?;
    }
    if listed.is_empty() {
        parties.push(small(groups.giver(step.from)))?;
    }
    parties.push(small(groups.taker(step.to)))?;
    Ok(parties)
}

// Rounds of copies with seats; others follow in turn.
fn seated(task: &Task, colours: &Colours, parties: &Rows) -> Result<Vec<u32>, Refusal> {
    let (alloc, groups) = (task.alloc, task.groups);
    let mut rounds = Vec::new(alloc);
    let mut later = Later::of(alloc, groups.len(), small(colours.rounds))?;
    for copy in 0..task.moves.len() {
        rounds.push(match colours.round(copy) {
            Some(round) => small(round),
            None => later.round(groups, row(parties, copy)),
        })?;
    }
    Ok(rounds)
}

impl Schedule {
    /// Starts empty.
    pub fn new(alloc: Global) -> Schedule {
        Schedule {
            parties: Rows::new(alloc),
            listed: Rows::new(alloc),
            rounds: Vec::new(alloc),
        }
    }

    fn add_parties(&mut self, task: &Task) -> Result<(), Refusal> {
        self.parties = Rows::new(task.alloc);
        let mut number = 0usize;
        for step in task.moves {
            let parties = parties(task, step, row(&self.listed, number))?;
            self.parties.push(&parties)?;
            number = number.saturating_add(1);
        }
        Ok(())
    }

    fn read_owners(&mut self, task: &Task) -> Result<(), Refusal> {
        let alloc = task.alloc;
        let mut colours = Colours::new(alloc);
        colours.colour_all(alloc, task.groups, task.moves)?;
        self.rounds = seated(task, &colours, &self.parties)?;
        Ok(())
    }

    // Returns whether listed slots save enough rounds.
    fn read_listed(&mut self, task: &Task) -> Result<bool, Refusal> {
        let (alloc, groups) = (task.alloc, task.groups);
        let Some(rounds) = by_urgency(alloc, groups, &self.parties, &Rows::new(alloc))? else {
            return Ok(false);
        };
        let counts = counts(alloc, groups, task.moves)?;
        if !is_worth(rounds.count, fewest(groups, &counts)) {
            return Ok(false);
        }
        self.rounds = rounds.of_copies;
        Ok(true)
    }

    fn read_all(&mut self, task: &Task) -> Result<(), Refusal> {
        if let Some(listed) = sources(task)? {
            self.listed = listed;
            self.add_parties(task)?;
            if self.read_listed(task)? {
                return Ok(());
            }
            self.listed = Rows::new(task.alloc);
        }
        self.add_parties(task)?;
        self.read_owners(task)
    }

    fn count(&self) -> u32 {
        let mut count = 0u32;
        for round in self.rounds.iter() {
            count = count.max(round.saturating_add(1));
        }
        count
    }

    fn try_urgency(&mut self, task: &Task, behind: &Rows) -> Result<(), Refusal> {
        if let Some(rounds) = by_urgency(task.alloc, task.groups, &self.parties, behind)? {
            if rounds.count < self.count() {
                self.rounds = rounds.of_copies;
            }
        }
        Ok(())
    }

    // Lets copies avoid barred groups. A listed slot moves later: after all other copies or, if that takes fewer
    // rounds, after those that list it.
    fn read_around(&mut self, task: &Task) -> Result<(), Refusal> {
        let Some(listed) = around(task)? else {
            return Err(Refusal::NoPlan);
        };
        self.listed = listed;
        self.add_parties(task)?;
        let behind = followers(task, &self.listed)?;
        self.rounds = in_phases(task, &self.parties, &behind)?;
        if behind.total() > 0 {
            self.try_urgency(task, &behind)?;
        }
        Ok(())
    }

    /// Gives moves rounds within allowances. A copy whose owner is barred lists R slots. Fails with `NoPlan` if there
    /// are fewer.
    pub fn fill(&mut self, task: &Task) -> Result<(), Refusal> {
        if task.groups.has_barred() {
            return self.read_around(task);
        }
        self.read_all(task)?;
        // Colours may need more rounds if nodes give and take.
        self.try_urgency(task, &Rows::new(task.alloc))
    }

    /// Pairs (round, index into moves), sorted by round, partition and slot index.
    pub fn order(&self, alloc: Global) -> Result<Vec<(u32, u32)>, Refusal> {
        let mut order = Vec::new(alloc);
        for round in self.rounds.iter() {
            order.push((*round, small(order.len())))?;
        }
        order.sort_unstable();
        Ok(order)
    }
}
