//! Spreads moving slots over partitions by swaps.
//!
//! A swap replaces a moving slot's owner by a former owner of the partition, or by another moving slot's owner. Longer
//! exchanges help few rings and need most looks.

use crate::candidates::Candidates;
use crate::crowds::{ANY_GAIN, Cost, Crowds, FEWER_JOINERS};
use find_flow::{Role, Seats};
use ring_names::Refusal;
use std::alloc::Global;
use texts::{quotient, small};

// The most looks for one swap.
const LOOKS: u32 = 128;

// The most swaps compared for one.
const COMPARED: u32 = 16;

#[derive(Drop)]
struct Spread {
    crowds: Crowds,
    candidates: Candidates,
    // looks left for joining nodes
    looks: u32,
}

impl Spread {
    fn fill(&mut self, alloc: Global, seats: &Seats) -> Result<(), Refusal> {
        self.looks = small(seats.total()).saturating_mul(32);
        self.crowds.fill(alloc, seats)?;
        self.candidates.fill(alloc, seats)
    }

    fn look(
        &mut self,
        seats: &Seats,
        place: usize,
        limit: Cost,
        turn: u32,
    ) -> Option<(Cost, usize)> {
        let other = self.candidates.next(seats, place, turn)?;
        self.looks = self.looks.saturating_sub(1);
        let cost = self.crowds.cost(seats, place, other, limit)?;
        Some((cost, other))
    }

    fn best(
        &mut self,
        seats: &Seats,
        place: usize,
        limit: Cost,
        looks: u32,
    ) -> Result<Option<usize>, Refusal> {
        self.candidates.begin(seats, place)?;
        let (mut least, mut found, mut compared) = (limit, None, 0u32);
        for turn in 0..looks {
            if compared >= COMPARED {
                break;
            }
            if let Some((cost, other)) = self.look(seats, place, limit, turn) {
                compared = compared.saturating_add(1);
                if cost < least {
                    least = cost;
                    found = Some(other);
                }
            }
        }
        Ok(found)
    }

    // Whether it swapped.
    fn exchange(
        &mut self,
        seats: &mut Seats,
        place: usize,
        limit: Cost,
        looks: u32,
    ) -> Result<bool, Refusal> {
        let Some(other) = self.best(seats, place, limit, looks)? else {
            return Ok(false);
        };
        self.candidates.exchange(place, other);
        self.crowds.exchange(seats, place, other);
        Ok(true)
    }

    // Whether a joining node left.
    fn relieve(&mut self, seats: &mut Seats, partition: usize) -> Result<bool, Refusal> {
        for index in 0..seats.slots {
            let place = seats.place(partition, index);
            if seats.members.role(seats.now(place)) == Role::Joins
                && self.exchange(seats, place, FEWER_JOINERS, LOOKS)?
            {
                return Ok(true);
            }
        }
        Ok(false)
    }

    fn thin(&mut self, seats: &mut Seats, partition: usize) -> Result<(), Refusal> {
        for _ in 0..seats.slots {
            let is_done = self.looks == 0 || !self.crowds.can_relieve(partition);
            if is_done || !self.relieve(seats, partition)? {
                break;
            }
        }
        Ok(())
    }

    fn thin_all(&mut self, seats: &mut Seats) -> Result<(), Refusal> {
        for partition in 0..seats.partitions {
            self.thin(seats, partition)?;
        }
        Ok(())
    }

    // Swaps each moving slot once, if that gains.
    fn even_all(&mut self, seats: &mut Seats) -> Result<(), Refusal> {
        let all = small(seats.total()).saturating_mul(8);
        let looks = quotient(all, self.crowds.all_moves()).max(8).min(LOOKS);
        for place in 0..seats.total() {
            let before = seats.place_before(seats.partition(place), seats.now(place));
            if before.is_none() {
                self.exchange(seats, place, ANY_GAIN, looks)?;
            }
        }
        Ok(())
    }

    fn run(&mut self, alloc: Global, seats: &mut Seats) -> Result<(), Refusal> {
        self.fill(alloc, seats)?;
        self.thin_all(seats)?;
        self.even_all(seats)?;
        seats.align_all();
        Ok(())
    }
}

/// Spreads moving slots by swaps.
///
/// Moves, loads and pairs in one rack do not grow, nor do copies with fewer than `reads` other staying slots.
///
/// Partitions get fewer joining owners after the first, then fewer moving slots after the first. Then nodes share
/// partitions more evenly.
///
/// Good, not always optimal: joining nodes take some 32 looks for each of the ring's slots, the rest at most 16.
pub fn spread_moves(alloc: Global, reads: u32, seats: &mut Seats) -> Result<(), Refusal> {
    if seats.moved() == 0 {
        return Ok(());
    }
    let mut spread = Spread {
        crowds: Crowds::new(alloc, reads),
        candidates: Candidates::new(alloc),
        looks: 0,
    };
    spread.run(alloc, seats)
}
