//! Finds a free slot's taker.

use crate::ranks::{NOBODY, Ranks, Who, sooner};
use find_flow::Seats;
use ring_names::Refusal;
use std::alloc::Global;
use texts::NONE;

/// Members by their rank as takers.
#[derive(Drop)]
pub struct Takers {
    ranks: Ranks,
    // ranges of members, in rack order, that may not take
    blocked: Vec<(u32, u32)>,
}

impl Takers {
    /// Starts empty.
    pub fn new(alloc: Global, who: Who) -> Takers {
        Takers {
            ranks: Ranks::new(alloc, who),
            blocked: Vec::new(alloc),
        }
    }

    /// Ranks all members.
    pub fn fill(&mut self, alloc: Global, seats: &Seats) -> Result<(), Refusal> {
        self.ranks.fill(alloc, seats)
    }

    /// The first member, if one is left.
    pub fn head(&self) -> Option<u32> {
        self.ranks.head()
    }

    /// Whether no member is left.
    pub fn is_empty(&self) -> bool {
        self.ranks.is_empty()
    }

    /// Updates the member's rank.
    pub fn renew(&mut self, seats: &Seats, node: u32) {
        self.ranks.renew(seats, node);
    }

    fn block_owners(&mut self, seats: &Seats, partition: usize) -> Result<(), Refusal> {
        for index in 0..seats.slots {
            let place = seats.place(partition, index);
            for node in [seats.first(place), seats.now(place)] {
                if node != NONE {
                    let turn = seats.members.racks.turn(node);
                    self.blocked.push((turn, turn.saturating_add(1)))?;
                }
            }
        }
        Ok(())
    }

    fn block_rack(&mut self, seats: &Seats, partition: usize, rack: usize) -> Result<(), Refusal> {
        let racks = &seats.members.racks;
        let count = seats.count(partition, rack);
        let is_open = count < racks.most(rack) && seats.is_open(partition);
        if !is_open && count >= racks.least(rack) {
            self.blocked.push(racks.span(rack))?;
        }
        Ok(())
    }

    // If no rack must have a slot, only racks with a slot can be full.
    fn block_racks(&mut self, seats: &Seats, partition: usize) -> Result<(), Refusal> {
        if seats.members.racks.level > 0 {
            for rack in seats.members.racks.with_members.iter() {
                self.block_rack(seats, partition, *rack as usize)?;
            }
            return Ok(());
        }
        for index in 0..seats.slots {
            if let Some(rack) = seats.rack_at(seats.place(partition, index)) {
                self.block_rack(seats, partition, rack)?;
            }
        }
        Ok(())
    }

    /// Returns the first member that may take the partition's slot.
    pub fn taker(&mut self, seats: &Seats, partition: usize) -> Result<Option<u32>, Refusal> {
        self.blocked.clear();
        self.block_owners(seats, partition)?;
        self.block_racks(seats, partition)?;
        Ok(self.first())
    }

    /// Returns the first member that may take this rack's slot, so that no more slots share a rack.
    pub fn heir(
        &mut self,
        seats: &Seats,
        partition: usize,
        rack: usize,
    ) -> Result<Option<u32>, Refusal> {
        self.blocked.clear();
        self.block_owners(seats, partition)?;
        let most = seats.count(partition, rack);
        for index in 0..seats.slots {
            if let Some(other) = seats.rack_at(seats.place(partition, index)) {
                if seats.count(partition, other) > most {
                    self.blocked.push(seats.members.racks.span(other))?;
                }
            }
        }
        Ok(self.first())
    }

    fn first(&mut self) -> Option<u32> {
        self.blocked.sort_unstable();
        let mut first = NOBODY;
        let mut from = 0u32;
        for (start, end) in self.blocked.iter() {
            first = sooner(first, self.ranks.first(from, *start));
            from = from.max(*end);
        }
        first = sooner(first, self.ranks.first(from, self.ranks.len()));
        first.node()
    }
}
