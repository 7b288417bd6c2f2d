//! The members' order.

use find_flow::{Role, Seats};
use ring_names::Refusal;
use std::alloc::Global;
use texts::{NONE, small};

/// A member's rank. The least comes first.
#[derive(Clone, Copy, PartialEq, Eq, PartialOrd, Ord, Drop)]
pub struct Rank {
    /// Joining members below their part come first.
    is_sated: bool,
    /// Then members with few slots by weight.
    price: u64,
    /// Then members with much allowance left, then small numbers.
    crowd: u32,
    node: u32,
}

/// A rank after all members.
pub const NOBODY: Rank = Rank {
    is_sated: true,
    price: 18_446_744_073_709_551_615,
    crowd: NONE,
    node: NONE,
};

/// Returns the rank that comes first.
pub fn sooner(one: Rank, other: Rank) -> Rank {
    if other < one { other } else { one }
}

impl Rank {
    /// The member, if any.
    pub fn node(&self) -> Option<u32> {
        if self.node == NONE {
            return None;
        }
        Some(self.node)
    }
}

/// Which members take part.
#[derive(Clone, Copy, PartialEq, Eq)]
pub enum Who {
    All,
    /// Joining members below their part.
    Wanting,
    /// All, those that lack most of their stored share by weight first.
    Emptiest,
    /// All, those with fewest slots by weight first.
    Fewest,
    /// Joining members below their stored share, the neediest first.
    Lacking,
    /// Staying members, those most above their stored share by weight first.
    Fullest,
}

// A member's greatest price.
const DEAREST: u64 = 18_446_744_073_709_551_614;

/// A tournament tree over all nodes in rack order. Each knot has the first rank of its children.
#[derive(Drop)]
pub struct Ranks {
    who: Who,
    // the first leaf's place
    size: u32,
    knots: Vec<Rank>,
}

impl Ranks {
    /// Starts empty.
    pub fn new(alloc: Global, who: Who) -> Ranks {
        Ranks {
            who,
            size: 1,
            knots: Vec::new(alloc),
        }
    }

    /// Ranks all nodes.
    pub fn fill(&mut self, alloc: Global, seats: &Seats) -> Result<(), Refusal> {
        let count = seats.members.count();
        for _ in 0..16 {
            if self.size < count {
                self.size = self.size.saturating_mul(2);
            }
        }
        self.knots = vec![in alloc; NOBODY; self.size.saturating_mul(2) as usize]?;
        for node in 0..count {
            let place = self.leaf(seats, node);
            self.write(place, self.rank(seats, node));
        }
        for turn in 0..self.size {
            self.join(self.size.saturating_sub(turn).saturating_sub(1));
        }
        Ok(())
    }

    fn leaf(&self, seats: &Seats, node: u32) -> u32 {
        self.size.saturating_add(seats.members.racks.turn(node))
    }

    fn at(&self, place: u32) -> Rank {
        match self.knots.get(place as usize) {
            Some(rank) => *rank,
            None => NOBODY,
        }
    }

    fn write(&mut self, place: u32, rank: Rank) {
        if let Some(old) = self.knots.get_mut(place as usize) {
            *old = rank;
        }
    }

    fn join(&mut self, place: u32) {
        let left = place.saturating_mul(2);
        let first = sooner(self.at(left), self.at(left.saturating_add(1)));
        self.write(place, first);
    }

    fn takes_part(&self, seats: &Seats, node: u32) -> bool {
        match self.who {
            Who::All | Who::Emptiest | Who::Fewest => seats.members.is_after(node),
            Who::Wanting => seats.members.is_after(node) && seats.wants(node),
            Who::Lacking => seats.members.role(node) == Role::Joins && seats.volumes.lack(node) > 0,
            Who::Fullest => seats.members.role(node) == Role::Stays,
        }
    }

    fn price(&self, seats: &Seats, node: u32) -> u64 {
        let weight = seats.members.weight(node);
        match self.who {
            Who::All | Who::Wanting | Who::Fewest => seats.take_price(node),
            Who::Emptiest => seats.volumes.fullness(node, weight),
            Who::Lacking => DEAREST.saturating_sub(seats.volumes.lack(node)),
            Who::Fullest => DEAREST.saturating_sub(seats.volumes.fullness(node, weight)),
        }
    }

    fn rank(&self, seats: &Seats, node: u32) -> Rank {
        if !self.takes_part(seats, node) {
            return NOBODY;
        }
        let by_parts = self.who == Who::All || self.who == Who::Wanting;
        Rank {
            is_sated: by_parts && !seats.wants(node),
            price: self.price(seats, node),
            crowd: seats.taking(node),
            node,
        }
    }

    /// Updates the node's rank.
    pub fn renew(&mut self, seats: &Seats, node: u32) {
        let rank = self.rank(seats, node);
        self.put(seats, node, rank);
    }

    fn put(&mut self, seats: &Seats, node: u32, rank: Rank) {
        let mut place = self.leaf(seats, node);
        self.write(place, rank);
        for _ in 0..16 {
            place /= 2;
            self.join(place);
        }
    }

    /// The first rank in a range of places.
    pub fn first(&self, from: u32, end: u32) -> Rank {
        let mut first = NOBODY;
        let mut left = self.size.saturating_add(from);
        let mut right = self.size.saturating_add(end);
        for _ in 0..16 {
            if left >= right {
                break;
            }
            if left % 2 == 1 {
                first = sooner(first, self.at(left));
                left = left.saturating_add(1);
            }
            if right % 2 == 1 {
                right = right.saturating_sub(1);
                first = sooner(first, self.at(right));
            }
            left /= 2;
            right /= 2;
        }
        first
    }

    /// Finds the first members in order, at most `count`.
    pub fn lead(&mut self, seats: &Seats, count: u32, found: &mut Vec<u32>) -> Result<(), Refusal> {
        found.clear();
        for _ in 0..count {
            let Some(node) = self.at(1).node() else {
                break;
            };
            found.push(node)?;
            self.put(seats, node, NOBODY);
        }
        for node in found.iter() {
            self.renew(seats, *node);
        }
        Ok(())
    }

    /// The first member.
    pub fn head(&self) -> Option<u32> {
        self.at(1).node()
    }

    /// Whether no member takes part.
    pub fn is_empty(&self) -> bool {
        self.at(1) == NOBODY
    }

    /// The number of leaves: at least one for each node.
    pub fn len(&self) -> u32 {
        small(self.knots.len()).saturating_sub(self.size)
    }
}
