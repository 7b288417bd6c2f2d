//! Frees slots in crowded racks.

use find_flow::Seats;
use std::cmp::Reverse;
use texts::NONE;

// A slot's urgency. The greatest is freed first: in racks above their most, then of owners with many slots by weight.
#[derive(Clone, Copy, PartialEq, Eq, PartialOrd, Ord, Drop)]
struct Urgency {
    is_above: bool,
    price: u64,
    crowd: Reverse<u32>,
    place: Reverse<usize>,
}

fn urgency_of(seats: &Seats, partition: usize, place: usize) -> Option<Urgency> {
    let rack = seats.rack_at(place)?;
    let racks = &seats.members.racks;
    let count = seats.count(partition, rack);
    if count <= racks.least(rack) {
        return None;
    }
    let node = seats.now(place);
    Some(Urgency {
        is_above: count > racks.most(rack),
        price: seats.give_price(node),
        crowd: Reverse(seats.giving(node)),
        place: Reverse(place),
    })
}

fn is_last(seats: &Seats, partition: usize, place: usize) -> bool {
    let rack = seats.rack_at(place);
    let end = seats.place(partition, seats.slots);
    for later in place.saturating_add(1)..end {
        if seats.rack_at(later) == rack {
            return false;
        }
    }
    seats.now(place) != NONE
}

fn above(seats: &Seats, partition: usize) -> u32 {
    let mut above = 0u32;
    for index in 0..seats.slots {
        let place = seats.place(partition, index);
        if is_last(seats, partition, place) && urgency_of(seats, partition, place).is_some() {
            above = above.saturating_add(1);
        }
    }
    above
}

fn next(seats: &Seats, partition: usize) -> Option<usize> {
    let mut first = None;
    for index in 0..seats.slots {
        let one = urgency_of(seats, partition, seats.place(partition, index));
        if first < one {
            first = one;
        }
    }
    let found = first?;
    if found.is_above || above(seats, partition) > seats.members.racks.above {
        return Some(found.place.0);
    }
    None
}

/// Frees the fewest slots that spreading over racks needs.
pub fn thin(seats: &mut Seats) {
    for partition in 0..seats.partitions {
        for _ in 0..seats.slots {
            match next(seats, partition) {
                Some(place) => seats.vacate(place),
                None => break,
            }
        }
    }
}
