//! Chooses owners by partitions' sizes.

use crate::filling::fill_partition;
use crate::giving::Giver;
use crate::ranks::Who;
use crate::swapping::swap_all;
use crate::takers::Takers;
use find_flow::{Grouped, Role, Seats};
use ring_names::Refusal;
use std::alloc::Global;
use std::cmp::Reverse;
use std::collections::BinaryHeap;
use texts::{at, raise, small};

fn by_size(alloc: Global, seats: &Seats) -> Result<Vec<u32>, Refusal> {
    let mut keyed = Vec::new(alloc);
    for partition in 0..seats.partitions {
        keyed.push((Reverse(seats.volumes.size(partition)), small(partition)))?;
    }
    keyed.sort_unstable();
    let mut order = Vec::new(alloc);
    for (_, partition) in keyed.iter() {
        order.push(*partition)?;
    }
    Ok(order)
}

// Splits off the partitions without keys.
fn split_full<'a>(seats: &Seats, order: &'a [u32]) -> (&'a [u32], &'a [u32]) {
    for place in 0..order.len() {
        if seats.volumes.size(order[place] as usize) == 0 {
            return order.split_at(place);
        }
    }
    (order, &[])
}

// Returns each member's former slots with keys, the largest first.
fn owned_by(alloc: Global, seats: &Seats, order: &[u32]) -> Result<Grouped, Refusal> {
    let mut owned = Grouped::new(alloc);
    owned.begin(alloc, seats.members.count() as usize)?;
    for partition in order {
        for index in 0..seats.slots {
            owned.count(seats.first(seats.place(*partition as usize, index)) as usize);
        }
    }
    owned.make_room(alloc)?;
    for partition in order {
        for index in 0..seats.slots {
            let place = seats.place(*partition as usize, index);
            owned.put(seats.first(place) as usize, small(place));
        }
    }
    Ok(owned)
}

fn fill_each(
    alloc: Global,
    seats: &mut Seats,
    partitions: &[u32],
    who: Who,
) -> Result<(), Refusal> {
    let mut takers = Takers::new(alloc, who);
    takers.fill(alloc, seats)?;
    for partition in partitions {
        fill_partition(seats, &mut takers, *partition as usize)?;
    }
    Ok(())
}

pub(crate) fn joiners(seats: &Seats, partition: usize) -> u32 {
    let mut joiners = 0u32;
    for index in 0..seats.slots {
        let node = seats.now(seats.place(partition, index));
        if seats.members.role(node) == Role::Joins {
            joiners = joiners.saturating_add(1);
        }
    }
    joiners
}

#[derive(Drop)]
struct Sizing {
    owned: Grouped,
    takers: Takers,
}

impl Sizing {
    // Whether a joining member that lacks at least the slot took it.
    fn pass(&mut self, seats: &mut Seats, place: usize) -> Result<bool, Refusal> {
        let (owner, partition) = (seats.now(place), seats.partition(place));
        let rack = seats.members.racks.of(owner);
        seats.vacate(place);
        match self.takers.heir(seats, partition, rack)? {
            Some(taker) if seats.volumes.lack(taker) >= seats.volumes.parts(partition) => {
                seats.fill(place, taker);
                self.takers.renew(seats, taker);
                Ok(true)
            }
            _ => {
                seats.fill(place, owner);
                Ok(false)
            }
        }
    }

    fn is_wanted(&self, seats: &Seats, partition: usize, crowd: u32) -> bool {
        match self.takers.head() {
            Some(first) => {
                seats.volumes.lack(first) >= seats.volumes.parts(partition)
                    && joiners(seats, partition) <= crowd
            }
            None => false,
        }
    }

    // Gives the slot away, if the owner stays and exceeds its share by at least half the slot.
    fn give(&mut self, seats: &mut Seats, place: usize, crowd: u32) -> Result<(), Refusal> {
        let (owner, partition) = (seats.now(place), seats.partition(place));
        let is_full = seats.members.role(owner) == Role::Stays
            && i128::from(seats.volumes.over(owner)).saturating_mul(2)
                >= i128::from(seats.volumes.parts(partition));
        if is_full && owner == seats.first(place) && self.is_wanted(seats, partition, crowd) {
            self.pass(seats, place)?;
        }
        Ok(())
    }

    // Partitions with few joining owners come first.
    fn give_all(&mut self, seats: &mut Seats, order: &[u32]) -> Result<(), Refusal> {
        for crowd in 0..small(seats.slots) {
            for partition in order {
                for index in 0..seats.slots {
                    let place = seats.place(*partition as usize, index);
                    self.give(seats, place, crowd)?;
                }
            }
        }
        Ok(())
    }

    fn give_one(
        &mut self,
        seats: &mut Seats,
        looked: &mut [u32],
        node: u32,
        crowd: u32,
    ) -> Result<bool, Refusal> {
        let start = self.owned.start(node as usize);
        let count = self.owned.end(node as usize).saturating_sub(start);
        for turn in at(looked, node as usize) as usize..count {
            raise(looked, node as usize);
            let place = self.owned.item(start.saturating_add(turn)) as usize;
            let partition = seats.partition(place);
            if seats.now(place) == node
                && self.is_wanted(seats, partition, crowd)
                && self.pass(seats, place)?
            {
                return Ok(true);
            }
        }
        Ok(false)
    }

    // Lets members that store most by weight give, even below their levels.
    fn force(&mut self, alloc: Global, seats: &mut Seats, crowd: u32) -> Result<(), Refusal> {
        let mut heap = BinaryHeap::new(alloc);
        for node in 0..seats.members.count() {
            if seats.members.role(node) == Role::Stays {
                heap.push(ranked(seats, node))?;
            }
        }
        let mut looked = vec![in alloc; 0u32; seats.members.count() as usize]?;
        for _ in 0..seats.total().saturating_add(heap.len()) {
            if self.takers.is_empty() {
                break;
            }
            let Some(first) = heap.pop() else {
                break;
            };
            let node = first.node.0;
            if self.give_one(seats, &mut looked, node, crowd)? {
                heap.push(ranked(seats, node))?;
            }
        }
        Ok(())
    }
}

fn ranked(seats: &Seats, node: u32) -> Giver {
    Giver {
        price: seats.volumes.load_by(node, seats.members.weight(node)),
        crowd: Reverse(seats.giving(node)),
        node: Reverse(node),
    }
}

/// Gives slots to members by partitions' sizes:
///
/// 1. Leavers' slots, the largest first, go to members that lack most by weight, as racks allow. Slots without keys go
///    to members with few slots.
///
/// 2. Slots above owners' levels, the largest first, go to joining members that lack most, if they lack at least the
///    slot.
///
/// 3. If a joining member still lacks something, members that store most by weight give, even below their levels.
///
/// 4. Swaps for slots of near size bring members closer to their shares.
pub fn take_by_size(alloc: Global, seats: &mut Seats) -> Result<(), Refusal> {
    let order = by_size(alloc, seats)?;
    let (full, empty) = split_full(seats, order.as_slice());
    fill_each(alloc, seats, full, Who::Emptiest)?;
    fill_each(alloc, seats, empty, Who::Fewest)?;
    let mut sizing = Sizing {
        owned: owned_by(alloc, seats, full)?,
        takers: Takers::new(alloc, Who::Lacking),
    };
    sizing.takers.fill(alloc, seats)?;
    sizing.give_all(seats, full)?;
    for crowd in 0..small(seats.slots) {
        sizing.force(alloc, seats, crowd)?;
    }
    swap_all(alloc, seats, &sizing.owned)
}
