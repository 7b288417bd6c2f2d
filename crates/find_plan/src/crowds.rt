//! How crowded partitions are.

use crate::pairs::{Half, PairCounts};
use find_flow::{Role, Seats};
use ring_names::Refusal;
use std::alloc::Global;
use texts::{at, lower, raise, set, small};

/// A swap's cost, the most important part first. Negative is a gain.
#[derive(Clone, Copy, PartialEq, Eq, PartialOrd, Ord, Drop)]
pub struct Cost {
    // for each partition, 64 for each joining node after the first, and 1 for each pair of these. Two partitions have
    // at most 42 pairs
    joiners: i64,
    // moving slots after a partition's first
    moves: i64,
    // squares of how many partitions each two nodes share
    shares: i64,
}

/// A limit for swaps that lower `joiners`.
pub const FEWER_JOINERS: Cost = Cost {
    joiners: -1,
    moves: 100,
    shares: 0,
};

/// A limit for swaps that gain anything.
pub const ANY_GAIN: Cost = Cost {
    joiners: 0,
    moves: 0,
    shares: 0,
};

fn beyond_first(count: i64) -> i64 {
    count.saturating_sub(1).max(0)
}

fn crowding(joiners: i64) -> i64 {
    let pairs = joiners.saturating_mul(joiners.saturating_sub(1)) / 2;
    beyond_first(joiners)
        .saturating_mul(64)
        .saturating_add(pairs)
}

fn joins(seats: &Seats, node: u32) -> i64 {
    if seats.members.role(node) == Role::Joins {
        1
    } else {
        0
    }
}

fn enters(seats: &Seats, partition: usize, node: u32) -> i64 {
    match seats.place_before(partition, node) {
        Some(_) => 0,
        None => 1,
    }
}

fn joiners_more(seats: &Seats, half: Half) -> i64 {
    joins(seats, half.new).saturating_sub(joins(seats, half.old))
}

fn moves_more(seats: &Seats, half: Half) -> i64 {
    let before = enters(seats, half.partition, half.old);
    enters(seats, half.partition, half.new).saturating_sub(before)
}

fn half_of(seats: &Seats, one: usize, other: usize) -> Half {
    Half {
        partition: seats.partition(one),
        place: one,
        old: seats.now(one),
        new: seats.now(other),
    }
}

fn change(counts: &mut [u32], place: usize, more: i64) {
    let count = i64::from(at(counts, place)).saturating_add(more);
    set(counts, place, u32::try_from(count).unwrap_or(0));
}

/// How crowded partitions are, and which nodes share them.
#[derive(Drop)]
pub struct Crowds {
    joiners: Vec<u32>,
    moves: Vec<u32>,
    pairs: PairCounts,
    // how many partitions have each number of joining owners
    levels: Vec<u32>,
    reads: u32,
}

impl Crowds {
    /// Starts empty. `reads` slots answer a read.
    pub fn new(alloc: Global, reads: u32) -> Crowds {
        Crowds {
            joiners: Vec::new(alloc),
            moves: Vec::new(alloc),
            pairs: PairCounts::new(alloc),
            levels: Vec::new(alloc),
            reads,
        }
    }

    /// Counts joining owners, moving slots and pairs.
    pub fn fill(&mut self, alloc: Global, seats: &Seats) -> Result<(), Refusal> {
        self.joiners = vec![in alloc; 0u32; seats.partitions]?;
        self.moves = vec![in alloc; 0u32; seats.partitions]?;
        for place in 0..seats.total() {
            self.add(seats, place);
        }
        self.levels = vec![in alloc; 0u32; seats.slots.saturating_add(1)]?;
        for joiners in self.joiners.iter() {
            raise(&mut self.levels, *joiners as usize);
        }
        self.pairs.fill(alloc, seats)
    }

    fn add(&mut self, seats: &Seats, place: usize) {
        let (partition, node) = (seats.partition(place), seats.now(place));
        change(&mut self.joiners, partition, joins(seats, node));
        change(&mut self.moves, partition, enters(seats, partition, node));
    }

    fn joiners(&self, partition: usize) -> u32 {
        at(&self.joiners, partition)
    }

    /// Whether another partition has at least two fewer joining owners.
    pub fn can_relieve(&self, partition: usize) -> bool {
        let end = self.joiners(partition).saturating_sub(1) as usize;
        for level in 0..end {
            if at(&self.levels, level) > 0 {
                return true;
            }
        }
        false
    }

    /// Counts the moving slots.
    pub fn all_moves(&self) -> u32 {
        let mut all = 0u32;
        for moves in self.moves.iter() {
            all = all.saturating_add(*moves);
        }
        all
    }

    fn joiners_cost(&self, partition: usize, more: i64) -> i64 {
        let now = i64::from(self.joiners(partition));
        crowding(now.saturating_add(more)).saturating_sub(crowding(now))
    }

    fn joiners_of(&self, seats: &Seats, first: Half, other: usize) -> i64 {
        let more = joiners_more(seats, first);
        self.joiners_cost(first.partition, more)
            .saturating_add(self.joiners_cost(other, 0i64.saturating_sub(more)))
    }

    fn moves_cost(&self, partition: usize, more: i64) -> i64 {
        let now = i64::from(at(&self.moves, partition));
        beyond_first(now.saturating_add(more)).saturating_sub(beyond_first(now))
    }

    // How many copies can only read their owner, because too few other slots stay.
    fn tied(&self, seats: &Seats, moves: i64) -> i64 {
        let staying = i64::from(small(seats.slots)).saturating_sub(moves);
        if staying < i64::from(self.reads) {
            moves
        } else {
            0
        }
    }

    fn more_tied(&self, seats: &Seats, partition: usize, more: i64) -> i64 {
        let now = i64::from(at(&self.moves, partition));
        self.tied(seats, now.saturating_add(more))
            .saturating_sub(self.tied(seats, now))
    }

    /// Returns an allowed swap's cost, if below the limit.
    ///
    /// Checks that `one`'s owner may have `other`; the caller checked the reverse.
    ///
    /// The partitions must have the same size. No move may be added, nor a copy that can read only its owner: an owner
    /// may give few copies at once.
    pub fn cost(&self, seats: &Seats, one: usize, other: usize, limit: Cost) -> Option<Cost> {
        let (first, second) = (half_of(seats, one, other), half_of(seats, other, one));
        if seats.volumes.size(first.partition) != seats.volumes.size(second.partition) {
            return None;
        }
        let joiners = self.joiners_of(seats, first, second.partition);
        if joiners > limit.joiners || !seats.may_have(other, first.old) {
            return None;
        }
        let (here, there) = (moves_more(seats, first), moves_more(seats, second));
        let moves = self
            .moves_cost(first.partition, here)
            .saturating_add(self.moves_cost(second.partition, there));
        let tied = self
            .more_tied(seats, first.partition, here)
            .saturating_add(self.more_tied(seats, second.partition, there));
        let is_dear = joiners == limit.joiners && moves > limit.moves;
        if is_dear || tied > 0 || here.saturating_add(there) > 0 {
            return None;
        }
        let shares = self
            .pairs
            .growth(seats, first)
            .saturating_add(self.pairs.growth(seats, second));
        let cost = Cost {
            joiners,
            moves,
            shares,
        };
        if cost < limit { Some(cost) } else { None }
    }

    fn count(&mut self, seats: &Seats, half: Half) {
        let before = self.joiners(half.partition);
        change(&mut self.joiners, half.partition, joiners_more(seats, half));
        let after = self.joiners(half.partition);
        lower(&mut self.levels, before as usize);
        raise(&mut self.levels, after as usize);
        change(&mut self.moves, half.partition, moves_more(seats, half));
        self.pairs.replace(seats, half);
    }

    /// Swaps two owners.
    pub fn exchange(&mut self, seats: &mut Seats, one: usize, other: usize) {
        let (first, second) = (half_of(seats, one, other), half_of(seats, other, one));
        self.count(seats, first);
        self.count(seats, second);
        seats.exchange(one, other);
    }
}
