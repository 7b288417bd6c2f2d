//! Assigns rounds within groups' allowances.
//!
//! A group is split into seats with one copy a round each, so rounds are edge colours of a graph of seats. If giving
//! and taking are counted apart, the graph has two sides. It then needs as many rounds as its fullest seat has copies
//! (Kőnig 1916).

use crate::groups::Groups;
use crate::listed::fewest;
use crate::moving::SlotMove;
use crate::round_sets::RoundSets;
use crate::rounds::counts;
use ring_names::Refusal;
use std::alloc::Global;
use texts::{at, parts, set, small};

// Stands for no copy.
const NONE: u32 = 4_294_967_295;

#[derive(Clone, Copy)]
struct End {
    group: usize,
    seat: usize,
}

#[derive(Clone, Copy)]
struct Seated {
    giver: End,
    taker: End,
    round: usize,
}

/// Seats, and their copy in each round.
#[derive(Drop)]
pub struct Colours {
    pub rounds: usize,
    // each group's first seat, then the last group's end
    firsts: Vec<u32>,
    // each seat's copy in each round
    table: Vec<u32>,
    // by group, rounds with a free seat
    free: RoundSets,
    // by copy, its seats and round, if any
    seated: Vec<Option<Seated>>,
}

impl Colours {
    /// Starts empty.
    pub fn new(alloc: Global) -> Colours {
        Colours {
            rounds: 0,
            firsts: Vec::new(alloc),
            table: Vec::new(alloc),
            free: RoundSets::new(alloc),
            seated: Vec::new(alloc),
        }
    }

    fn begin(
        &mut self,
        alloc: Global,
        groups: &Groups,
        counts: &[u32],
        copies: usize,
    ) -> Result<(), Refusal> {
        let rounds = fewest(groups, counts);
        self.rounds = rounds as usize;
        let mut seats = 0u32;
        for group in 0..groups.len() {
            self.firsts.push(seats)?;
            seats = seats.saturating_add(parts(at(counts, group), rounds));
        }
        self.firsts.push(seats)?;
        let cells = (seats as usize).saturating_mul(self.rounds);
        self.table = vec![in alloc; NONE; cells]?;
        for _ in 0..copies {
            self.seated.push(None)?;
        }
        self.free.fill(groups.len(), self.rounds)
    }

    /// Gives rounds to as many copies as possible.
    pub fn colour_all(
        &mut self,
        alloc: Global,
        groups: &Groups,
        moves: &[SlotMove],
    ) -> Result<(), Refusal> {
        self.begin(alloc, groups, &counts(alloc, groups, moves)?, moves.len())?;
        let mut copy = 0usize;
        for step in moves {
            self.colour(alloc, copy, groups.giver(step.from), groups.taker(step.to))?;
            copy = copy.saturating_add(1);
        }
        Ok(())
    }

    fn cell(&self, end: End, round: usize) -> usize {
        end.seat.saturating_mul(self.rounds).saturating_add(round)
    }

    fn copy_at(&self, end: End, round: usize) -> Option<usize> {
        match self.table.get(self.cell(end, round)) {
            Some(copy) if *copy != NONE => Some(*copy as usize),
            _ => None,
        }
    }

    fn free_end(&self, group: usize, round: usize) -> Option<End> {
        let first = at(&self.firsts, group) as usize;
        let end = at(&self.firsts, group.saturating_add(1)) as usize;
        for seat in first..end {
            let end = End { group, seat };
            if self.copy_at(end, round).is_none() {
                return Some(end);
            }
        }
        None
    }

    fn renew(&mut self, group: usize, round: usize) {
        let is_free = self.free_end(group, round).is_some();
        self.free.put(group, round, is_free);
    }

    fn write(&mut self, end: End, round: usize, copy: u32) {
        let cell = self.cell(end, round);
        set(&mut self.table, cell, copy);
        self.renew(end.group, round);
    }

    fn place(&mut self, copy: usize, seated: Seated) {
        self.write(seated.giver, seated.round, small(copy));
        self.write(seated.taker, seated.round, small(copy));
        if let Some(old) = self.seated.get_mut(copy) {
            *old = Some(seated);
        }
    }

    fn lift(&mut self, seated: Seated) {
        self.write(seated.giver, seated.round, NONE);
        self.write(seated.taker, seated.round, NONE);
    }

    fn seated(&self, copy: usize) -> Option<Seated> {
        match self.seated.get(copy) {
            Some(seated) => *seated,
            None => None,
        }
    }

    /// The copy's round, if any.
    pub fn round(&self, copy: usize) -> Option<usize> {
        match self.seated(copy) {
            Some(seated) => Some(seated.round),
            None => None,
        }
    }

    // The copies along a path of alternating rounds, and its end.
    fn path(
        &self,
        alloc: Global,
        from: End,
        first: usize,
        second: usize,
    ) -> Result<(Vec<u32>, End), Refusal> {
        let mut copies = Vec::new(alloc);
        let mut end = from;
        let mut round = first;
        for _ in 0..self.seated.len() {
            let Some(copy) = self.copy_at(end, round) else {
                break;
            };
            let Some(seated) = self.seated(copy) else {
                break;
            };
            copies.push(small(copy))?;
            end = if seated.giver.seat == end.seat {
                seated.taker
            } else {
                seated.giver
            };
            round = if round == first { second } else { first };
        }
        Ok((copies, end))
    }

    fn exchange(&mut self, copies: &[u32], first: usize, second: usize) {
        for copy in copies {
            if let Some(seated) = self.seated(*copy as usize) {
                self.lift(seated);
            }
        }
        for copy in copies {
            if let Some(seated) = self.seated(*copy as usize) {
                let round = if seated.round == first { second } else { first };
                self.place(*copy as usize, Seated { round, ..seated });
            }
        }
    }

    fn sit(&mut self, copy: usize, giver: usize, taker: usize, round: usize) {
        if let (Some(giver), Some(taker)) = (
            self.free_end(giver, round),
            self.free_end(taker, round),
        ) {
            self.place(
                copy,
                Seated {
                    giver,
                    taker,
                    round,
                },
            );
        }
    }

    // Seats a copy in a round with both groups free. Otherwise tries to free one by swapping two rounds along a path.
    fn colour(
        &mut self,
        alloc: Global,
        copy: usize,
        giver: usize,
        taker: usize,
    ) -> Result<(), Refusal> {
        if let Some(round) = self.free.common(giver, taker) {
            self.sit(copy, giver, taker, round);
            return Ok(());
        }
        let (Some(first), Some(second)) = (
            self.free.common(giver, giver),
            self.free.common(taker, taker),
        ) else {
            return Ok(());
        };
        let (Some(stays), Some(from)) = (self.free_end(giver, first), self.free_end(taker, second))
        else {
            return Ok(());
        };
        let (copies, last) = self.path(alloc, from, first, second)?;
        if last.seat != stays.seat {
            self.exchange(&copies, first, second);
            self.sit(copy, giver, taker, first);
        }
        Ok(())
    }
}
