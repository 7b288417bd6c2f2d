//! Copies that list moving slots.

use crate::later::Later;
use crate::task::Task;
use crate::urgency::by_urgency;
use ring_names::{Refusal, Rows};
use std::alloc::Global;
use texts::{at, row, set, small};

// By slot, 1 plus its move's number, or 0.
fn by_place(task: &Task) -> Result<Vec<u32>, Refusal> {
    let layout = task.layout;
    let mut numbers = vec![in task.alloc; 0u32; layout.total()]?;
    let mut number = 0u32;
    for step in task.moves {
        number = number.saturating_add(1);
        set(&mut numbers, layout.place_of(step.slot), number);
    }
    Ok(numbers)
}

/// Returns each copy's followers: the moves of the slots that it lists.
pub fn followers(task: &Task, listed: &Rows) -> Result<Rows, Refusal> {
    let (layout, numbers) = (task.layout, by_place(task)?);
    let mut behind = Rows::new(task.alloc);
    let mut copy = 0usize;
    for step in task.moves {
        let mut later = Vec::new(task.alloc);
        for index in row(listed, copy) {
            let place = layout.place(step.slot.partition as usize, *index as usize);
            if let Some(number) = at(&numbers, place).checked_sub(1) {
                later.push(number)?;
            }
        }
        behind.push(&later)?;
        copy = copy.saturating_add(1);
    }
    Ok(behind)
}

fn are_late(task: &Task, behind: &Rows) -> Result<Vec<bool>, Refusal> {
    let mut marks = vec![in task.alloc; false; task.moves.len()]?;
    for copy in 0..behind.len() {
        for number in row(behind, copy) {
            if let Some(mark) = marks.get_mut(*number as usize) {
                *mark = true;
            }
        }
    }
    Ok(marks)
}

fn numbers_of(alloc: Global, marks: &[bool], mark: bool) -> Result<Vec<u32>, Refusal> {
    let mut numbers = Vec::new(alloc);
    for number in 0..marks.len() {
        if marks.get(number) == Some(&mark) {
            numbers.push(small(number))?;
        }
    }
    Ok(numbers)
}

#[derive(Drop)]
struct Phases {
    next: u32,
    rounds: Vec<u32>,
}

impl Phases {
    // Gives copies rounds: by urgency, or in turn if that takes too long.
    fn add(&mut self, task: &Task, parties: &Rows, numbers: &[u32]) -> Result<(), Refusal> {
        let alloc = task.alloc;
        let mut rows = Rows::new(alloc);
        for number in numbers {
            rows.push(row(parties, *number as usize))?;
        }
        let first = self.next;
        match by_urgency(alloc, task.groups, &rows, &Rows::new(alloc))? {
            Some(found) => self.set(numbers, found.of_copies.as_slice(), first),
            None => {
                let found = in_turn(task, &rows)?;
                self.set(numbers, found.as_slice(), first);
            }
        }
        Ok(())
    }

    fn set(&mut self, numbers: &[u32], found: &[u32], first: u32) {
        let mut place = 0usize;
        for number in numbers {
            if let Some(round) = found.get(place) {
                let round = first.saturating_add(*round);
                set(&mut self.rounds, *number as usize, round);
                self.next = self.next.max(round.saturating_add(1));
            }
            place = place.saturating_add(1);
        }
    }
}

fn in_turn(task: &Task, parties: &Rows) -> Result<Vec<u32>, Refusal> {
    let mut later = Later::of(task.alloc, task.groups.len(), 0)?;
    let mut rounds = Vec::new(task.alloc);
    for copy in 0..parties.len() {
        rounds.push(later.round(task.groups, row(parties, copy)))?;
    }
    Ok(rounds)
}

/// Two phases of rounds: followers come after all other copies.
pub fn in_phases(task: &Task, parties: &Rows, behind: &Rows) -> Result<Vec<u32>, Refusal> {
    let late = are_late(task, behind)?;
    let mut phases = Phases {
        next: 0,
        rounds: vec![in task.alloc; 0u32; task.moves.len()]?,
    };
    for mark in [false, true] {
        let numbers = numbers_of(task.alloc, &late, mark)?;
        phases.add(task, parties, &numbers)?;
    }
    Ok(phases.rounds)
}
