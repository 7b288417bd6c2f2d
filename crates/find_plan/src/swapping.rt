//! Swaps slots of near sizes.

use crate::ranks::{Ranks, Who};
use crate::sizing::joiners;
use find_flow::{Grouped, Role, Seats};
use ring_names::Refusal;
use std::alloc::Global;

// The members searched for another slot.
const GIVERS: u32 = 8;

// How many slots of each are tried.
const LOOKS: usize = 32;

// The passes over all slots.
const TURNS: u32 = 3;

// A joining member returns `place` to its former owner, and gets `other`.
#[derive(Clone, Copy)]
struct Swap {
    place: usize,
    other: usize,
}

fn suits(seats: &Seats, partition: usize, new: u32, old: u32) -> bool {
    let racks = &seats.members.racks;
    let (to, from) = (racks.of(new), racks.of(old));
    to == from || seats.count(partition, to) < seats.count(partition, from)
}

// How much farther from its share `more` takes the node, by squared distance and weight.
fn farther(seats: &Seats, node: u32, more: i64) -> i128 {
    let over = i128::from(seats.volumes.over(node));
    let more = i128::from(more);
    let square = over
        .saturating_mul(2)
        .saturating_add(more)
        .saturating_mul(more);
    match square.checked_div(i128::from(seats.members.weight(node))) {
        Some(square) => square,
        None => 0,
    }
}

fn parts(seats: &Seats, place: usize) -> i64 {
    i64::try_from(seats.volumes.parts(seats.partition(place))).unwrap_or(i64::MAX)
}

impl Swap {
    // Whether the swap lets no more slots share a rack, and no more joining owners a partition.
    fn is_possible(&self, seats: &Seats) -> bool {
        let (here, there) = (seats.partition(self.place), seats.partition(self.other));
        let (taker, giver) = (seats.now(self.place), seats.now(self.other));
        here != there
            && giver == seats.first(self.other)
            && seats.place_now(there, taker).is_none()
            && joiners(seats, there) <= joiners(seats, here).saturating_sub(1)
            && suits(seats, there, taker, giver)
            && suits(seats, here, seats.first(self.place), taker)
    }

    // Returns how much farther from their shares the members get. The joining member must not exceed its share, nor
    // newly lack more than `slack`.
    fn cost(&self, seats: &Seats, slack: i64) -> Option<i128> {
        let (here, there) = (parts(seats, self.place), parts(seats, self.other));
        let (taker, giver) = (seats.now(self.place), seats.now(self.other));
        let (owner, more) = (seats.first(self.place), there.saturating_sub(here));
        let over = seats.volumes.over(taker);
        let after = over.saturating_add(more);
        let least = over.min(0i64.saturating_sub(slack));
        if after > 0 || after < least || !self.is_possible(seats) {
            return None;
        }
        let back = if owner == giver {
            farther(seats, owner, 0i64.saturating_sub(more))
        } else {
            farther(seats, owner, here).saturating_add(farther(
                seats,
                giver,
                0i64.saturating_sub(there),
            ))
        };
        Some(farther(seats, taker, more).saturating_add(back))
    }

    fn make(&self, seats: &mut Seats) {
        let (taker, owner) = (seats.now(self.place), seats.first(self.place));
        seats.vacate(self.place);
        seats.vacate(self.other);
        seats.fill(self.place, owner);
        seats.fill(self.other, taker);
    }
}

#[derive(Drop)]
struct Swapping<'a> {
    owned: &'a Grouped,
    fullest: Ranks,
    givers: Vec<u32>,
    slack: i64,
}

impl<'a> Swapping<'a> {
    fn first_to(&self, seats: &Seats, node: u32, most: i64) -> usize {
        let (mut low, mut high) = (
            self.owned.start(node as usize),
            self.owned.end(node as usize),
        );
        for _ in 0..32 {
            if low >= high {
                break;
            }
            let middle = low.saturating_add(high.saturating_sub(low) / 2);
            if parts(seats, self.owned.item(middle) as usize) > most {
                low = middle.saturating_add(1);
            } else {
                high = middle;
            }
        }
        low
    }

    fn best_of(
        &self,
        seats: &Seats,
        place: usize,
        node: u32,
        best: Option<(i128, usize)>,
    ) -> Option<(i128, usize)> {
        let most = parts(seats, place).saturating_sub(seats.volumes.over(seats.now(place)));
        let start = self.first_to(seats, node, most);
        let end = self
            .owned
            .end(node as usize)
            .min(start.saturating_add(LOOKS));
        let mut found = best;
        for turn in start..end {
            let other = self.owned.item(turn) as usize;
            let limit = match found {
                Some((cost, _)) => cost,
                None => 0,
            };
            match (Swap { place, other }).cost(seats, self.slack) {
                Some(cost) if cost < limit => found = Some((cost, other)),
                _ => {}
            }
        }
        found
    }

    // Whether it swapped.
    fn swap(&mut self, seats: &mut Seats, place: usize) -> Result<bool, Refusal> {
        let (owner, partition) = (seats.first(place), seats.partition(place));
        let is_taken = seats.members.role(owner) == Role::Stays
            && seats.now(place) != owner
            && seats.volumes.size(partition) > 0
            && seats.place_now(partition, owner).is_none();
        if !is_taken {
            return Ok(false);
        }
        self.fullest.lead(seats, GIVERS, &mut self.givers)?;
        let mut best = self.best_of(seats, place, owner, None);
        for node in self.givers.iter() {
            best = self.best_of(seats, place, *node, best);
        }
        let Some((_, other)) = best else {
            return Ok(false);
        };
        let giver = seats.now(other);
        (Swap { place, other }).make(seats);
        self.fullest.renew(seats, owner);
        self.fullest.renew(seats, giver);
        Ok(true)
    }
}

/// Swaps slots that joining members took, to bring members closer to their shares.
///
/// `owned` has former slots with keys by node, the largest first.
pub(crate) fn swap_all(alloc: Global, seats: &mut Seats, owned: &Grouped) -> Result<(), Refusal> {
    let mut swapping = Swapping {
        owned,
        fullest: Ranks::new(alloc, Who::Fullest),
        givers: Vec::new(alloc),
        slack: i64::try_from(seats.volumes.most() / 2).unwrap_or(0),
    };
    swapping.fullest.fill(alloc, seats)?;
    for _ in 0..TURNS {
        let mut is_changed = false;
        for place in 0..seats.total() {
            if swapping.swap(seats, place)? {
                is_changed = true;
            }
        }
        if !is_changed {
            break;
        }
    }
    Ok(())
}
