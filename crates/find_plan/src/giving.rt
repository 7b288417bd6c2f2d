//! Members that give.

use crate::ranks::Who;
use crate::takers::Takers;
use find_flow::{Role, Seats};
use ring_names::Refusal;
use std::alloc::Global;
use std::cmp::Reverse;
use std::collections::BinaryHeap;
use texts::{at, raise};

/// A giver's rank. The greatest has most slots by weight, then most allowance left, then the smallest number.
#[derive(Clone, Copy, PartialEq, Eq, PartialOrd, Ord, Drop)]
pub(crate) struct Giver {
    pub(crate) price: u64,
    pub(crate) crowd: Reverse<u32>,
    pub(crate) node: Reverse<u32>,
}

fn ranked(seats: &Seats, node: u32) -> Giver {
    Giver {
        price: seats.give_price(node),
        crowd: Reverse(seats.giving(node)),
        node: Reverse(node),
    }
}

#[derive(Drop)]
struct Givers {
    heap: BinaryHeap<Giver>,
    // by node, how many slots were tried
    looked: Vec<u32>,
    takers: Takers,
}

impl Givers {
    fn gather(&mut self, alloc: Global, seats: &Seats) -> Result<(), Refusal> {
        self.looked = vec![in alloc; 0u32; seats.members.count() as usize]?;
        for node in 0..seats.members.count() {
            if seats.members.role(node) == Role::Stays {
                self.heap.push(ranked(seats, node))?;
            }
        }
        self.takers.fill(alloc, seats)
    }

    // Whether a joining member took the slot.
    fn pass(&mut self, seats: &mut Seats, place: usize) -> Result<bool, Refusal> {
        let owner = seats.now(place);
        seats.vacate(place);
        match self.takers.taker(seats, seats.partition(place))? {
            Some(taker) => {
                seats.fill(place, taker);
                self.takers.renew(seats, taker);
                Ok(true)
            }
            None => {
                seats.fill(place, owner);
                Ok(false)
            }
        }
    }

    fn give_one(&mut self, seats: &mut Seats, node: u32) -> Result<bool, Refusal> {
        for turn in at(&self.looked, node as usize) as usize..seats.owned_count(node) {
            raise(&mut self.looked, node as usize);
            let place = seats.owned(node, turn);
            if seats.now(place) == node && self.pass(seats, place)? {
                return Ok(true);
            }
        }
        Ok(false)
    }

    fn give(&mut self, seats: &mut Seats) -> Result<(), Refusal> {
        let turns = seats.total().saturating_add(self.heap.len());
        for _ in 0..turns {
            if self.takers.is_empty() {
                break;
            }
            let Some(first) = self.heap.pop() else {
                break;
            };
            let node = first.node.0;
            if self.give_one(seats, node)? {
                self.heap.push(ranked(seats, node))?;
            }
        }
        Ok(())
    }
}

/// Moves slots from staying to joining members below their parts. The member with most slots by weight gives first,
/// until none can move.
pub fn give(alloc: Global, seats: &mut Seats) -> Result<(), Refusal> {
    let mut givers = Givers {
        heap: BinaryHeap::new(alloc),
        looked: Vec::new(alloc),
        takers: Takers::new(alloc, Who::Wanting),
    };
    givers.gather(alloc, seats)?;
    givers.give(seats)
}
