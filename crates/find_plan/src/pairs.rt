//! Partitions that two nodes share.

use find_flow::Seats;
use ring_names::Refusal;
use std::alloc::Global;
use texts::{at, lower, raise};

/// Half a swap: a slot's old and new owner.
#[derive(Clone, Copy)]
pub struct Half {
    pub partition: usize,
    pub place: usize,
    pub old: u32,
    pub new: u32,
}

/// How many partitions each two nodes share. At most 2 MB, for 1,024 nodes.
#[derive(Drop)]
pub struct PairCounts {
    // by node, its counts with nodes of smaller numbers
    counts: Vec<u32>,
}

fn pairs_of(nodes: usize) -> usize {
    nodes.saturating_mul(nodes.saturating_sub(1)) / 2
}

fn place_of(one: u32, other: u32) -> usize {
    let (low, high) = if one < other {
        (one, other)
    } else {
        (other, one)
    };
    pairs_of(high as usize).saturating_add(low as usize)
}

impl PairCounts {
    /// Starts empty.
    pub fn new(alloc: Global) -> PairCounts {
        PairCounts {
            counts: Vec::new(alloc),
        }
    }

    /// Counts the pairs of all partitions.
    pub fn fill(&mut self, alloc: Global, seats: &Seats) -> Result<(), Refusal> {
        let pairs = pairs_of(seats.members.count() as usize);
        self.counts = vec![in alloc; 0u32; pairs]?;
        for place in 0..seats.total() {
            self.add(seats, place);
        }
        Ok(())
    }

    fn add(&mut self, seats: &Seats, place: usize) {
        let node = seats.now(place);
        for other in seats.place(seats.partition(place), 0)..place {
            raise(&mut self.counts, place_of(node, seats.now(other)));
        }
    }

    fn count(&self, one: u32, other: u32) -> i64 {
        i64::from(at(&self.counts, place_of(one, other)))
    }

    /// How much half a swap adds to the counts' sum of squares.
    pub fn growth(&self, seats: &Seats, half: Half) -> i64 {
        let start = seats.place(half.partition, 0);
        let mut growth = 0i64;
        for place in start..start.saturating_add(seats.slots) {
            if place != half.place {
                let mate = seats.now(place);
                let more = self.count(half.new, mate).saturating_add(1);
                let steps = more.saturating_sub(self.count(half.old, mate));
                growth = growth.saturating_add(steps.saturating_mul(2));
            }
        }
        growth
    }

    /// Counts the new owner instead of the old one.
    pub fn replace(&mut self, seats: &Seats, half: Half) {
        let start = seats.place(half.partition, 0);
        for place in start..start.saturating_add(seats.slots) {
            if place != half.place {
                let mate = seats.now(place);
                lower(&mut self.counts, place_of(half.old, mate));
                raise(&mut self.counts, place_of(half.new, mate));
            }
        }
    }
}
