//! Finds slots to swap.

use find_flow::{Grouped, Role, Seats};
use ring_names::Refusal;
use std::alloc::Global;
use texts::{at, quotient, set, small, swap};

/// Each node's slots.
#[derive(Drop)]
pub struct Candidates {
    // each node's slots; the last group has slots that staying members got by moves before any swap
    places: Grouped,
    // each place's position in its owner's group
    turns: Vec<u32>,
    // by group, the last look's position
    fingers: Vec<u32>,
    // former owners that now lack the partition and may have the slot
    gone: Vec<u32>,
}

fn is_entered(seats: &Seats, place: usize) -> bool {
    let node = seats.now(place);
    let before = seats.place_before(seats.partition(place), node);
    seats.members.role(node) == Role::Stays && before.is_none()
}

impl Candidates {
    /// Starts empty.
    pub fn new(alloc: Global) -> Candidates {
        Candidates {
            places: Grouped::new(alloc),
            turns: Vec::new(alloc),
            fingers: Vec::new(alloc),
            gone: Vec::new(alloc),
        }
    }

    /// Groups all slots.
    pub fn fill(&mut self, alloc: Global, seats: &Seats) -> Result<(), Refusal> {
        let groups = (seats.members.count() as usize).saturating_add(1);
        self.turns = vec![in alloc; 0u32; seats.total()]?;
        self.fingers = vec![in alloc; 0u32; groups]?;
        self.places.begin(alloc, groups)?;
        for place in 0..seats.total() {
            self.count(seats, place);
        }
        self.places.make_room(alloc)?;
        for place in 0..seats.total() {
            self.put(seats, place);
        }
        Ok(())
    }

    fn count(&mut self, seats: &Seats, place: usize) {
        self.places.count(seats.now(place) as usize);
        if is_entered(seats, place) {
            self.places.count(seats.members.count() as usize);
        }
    }

    fn put(&mut self, seats: &Seats, place: usize) {
        let owner = seats.now(place) as usize;
        set(&mut self.turns, place, small(self.places.end(owner)));
        self.places.put(owner, small(place));
        if is_entered(seats, place) {
            self.places
                .put(seats.members.count() as usize, small(place));
        }
    }

    /// Prepares the slot's candidates.
    pub fn begin(&mut self, seats: &Seats, place: usize) -> Result<(), Refusal> {
        let partition = seats.partition(place);
        self.gone.clear();
        for index in 0..seats.slots {
            let node = seats.first(seats.place(partition, index));
            if seats.members.is_after(node) && seats.may_have(place, node) {
                self.gone.push(node)?;
            }
        }
        Ok(())
    }

    // The group's next place, unless all came before.
    fn next_of(&mut self, group: usize, round: u32) -> Option<usize> {
        let start = self.places.start(group);
        let count = self.places.end(group).saturating_sub(start);
        if round as usize >= count {
            return None;
        }
        let mut finger = (at(&self.fingers, group) as usize).saturating_add(1);
        if finger >= count {
            finger = 0;
        }
        set(&mut self.fingers, group, small(finger));
        Some(self.places.item(start.saturating_add(finger)) as usize)
    }

    /// Returns the next slot to exchange owners with. Turns alternate between slots of former owners, who return to the
    /// partition, and slots that members got by moves.
    pub fn next(&mut self, seats: &Seats, place: usize, turn: u32) -> Option<usize> {
        let ways = small(self.gone.len()).saturating_add(1);
        let round = quotient(turn, ways);
        let way = turn.saturating_sub(round.saturating_mul(ways));
        if let Some(node) = self.gone.get(way as usize) {
            let group = *node as usize;
            return self.next_of(group, round);
        }
        let other = self.next_of(seats.members.count() as usize, round)?;
        let node = seats.now(other);
        let before = seats.place_before(seats.partition(place), node);
        if before.is_none() && is_entered(seats, other) && seats.may_have(place, node) {
            return Some(other);
        }
        None
    }

    /// Swaps two owners.
    pub fn exchange(&mut self, one: usize, other: usize) {
        let (first, second) = (at(&self.turns, one), at(&self.turns, other));
        self.places.swap(first as usize, second as usize);
        swap(&mut self.turns, one, other);
    }
}
