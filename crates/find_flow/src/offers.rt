//! Slots that a search may use.

use crate::grouped::Grouped;
use crate::meeting::{Link, Meeting};
use crate::seats::Seats;
use ring_names::Refusal;
use std::alloc::Global;
use texts::{at, set, small, swap};

/// One level's slots, by rack and by partition. A search uses each slot once: later it would meet no new member.
#[derive(Drop)]
pub struct Offers {
    level: u32,
    // whether the lists are current
    is_known: bool,
    // the slots, except those of frozen owners
    places: Vec<u32>,
    // these slots by rack; a rack's group ends before its used slots
    by_rack: Grouped,
    // these slots' partitions, unused partitions first
    partitions: Vec<u32>,
    unused: usize,
    // by rack, 1 if its partitions were searched
    done: Vec<u32>,
    // racks whose slots or partitions were searched
    touched: Vec<u32>,
    // racks and unused partitions with room for them, in which the asking node has or had a slot
    late: Vec<(u32, u32)>,
}

impl Offers {
    /// Starts empty.
    pub fn new(alloc: Global, level: u32) -> Offers {
        Offers {
            level,
            is_known: false,
            places: Vec::new(alloc),
            by_rack: Grouped::new(alloc),
            partitions: Vec::new(alloc),
            unused: 0,
            done: Vec::new(alloc),
            touched: Vec::new(alloc),
            late: Vec::new(alloc),
        }
    }

    /// Notes that owners or levels change.
    pub fn forget(&mut self) {
        self.is_known = false;
    }

    /// Makes all slots unused again.
    pub fn close(&mut self) {
        for rack in self.touched.iter() {
            self.by_rack.restore(*rack as usize);
            set(&mut self.done, *rack as usize, 0);
        }
        self.touched.clear();
        self.unused = self.partitions.len();
        self.late.clear();
    }

    fn gather(&mut self, seats: &Seats, meeting: &Meeting) -> Result<(), Refusal> {
        self.places.clear();
        for place in 0..seats.total() {
            let is_on_level = meeting.level_at(seats, place) == self.level;
            if is_on_level && !meeting.is_frozen(seats.now(place)) {
                self.places.push(small(place))?;
            }
        }
        Ok(())
    }

    fn list_partitions(&mut self, seats: &Seats) -> Result<(), Refusal> {
        self.partitions.clear();
        let mut last = None;
        for place in self.places.iter() {
            let partition = seats.partition(*place as usize);
            if last != Some(partition) {
                self.partitions.push(small(partition))?;
                last = Some(partition);
            }
        }
        Ok(())
    }

    fn sort(&mut self, alloc: Global, seats: &Seats) -> Result<(), Refusal> {
        self.list_partitions(seats)?;
        let racks = &seats.members.racks;
        self.done = vec![in alloc; 0u32; racks.len()]?;
        self.by_rack.begin(alloc, racks.len())?;
        for place in self.places.iter() {
            self.by_rack.count(racks.of(seats.now(*place as usize)));
        }
        self.by_rack.make_room(alloc)?;
        for place in self.places.iter() {
            let rack = racks.of(seats.now(*place as usize));
            self.by_rack.put(rack, *place);
        }
        self.touched.clear();
        self.close();
        Ok(())
    }

    /// Makes the lists, unless they are current.
    pub fn open(
        &mut self,
        alloc: Global,
        seats: &Seats,
        meeting: &mut Meeting,
    ) -> Result<(), Refusal> {
        if self.is_known {
            return Ok(());
        }
        self.is_known = true;
        meeting.spend(small(seats.total()));
        self.gather(seats, meeting)?;
        self.sort(alloc, seats)
    }

    /// Removes frozen owners' slots.
    pub fn prune(
        &mut self,
        alloc: Global,
        seats: &Seats,
        meeting: &mut Meeting,
    ) -> Result<(), Refusal> {
        let count = self.places.len();
        if !self.is_known || count == 0 {
            return Ok(());
        }
        let mut kept = 0usize;
        for turn in 0..count {
            let place = at(&self.places, turn);
            if !meeting.is_frozen(seats.now(place as usize)) {
                set(&mut self.places, kept, place);
                kept = kept.saturating_add(1);
            }
        }
        self.places.truncate(kept);
        meeting.spend(small(count));
        if kept < count {
            self.sort(alloc, seats)?;
        }
        Ok(())
    }

    /// Visits members of `node`'s rack that could hand `node` a slot.
    pub fn in_rack(
        &mut self,
        seats: &Seats,
        meeting: &mut Meeting,
        node: u32,
    ) -> Result<(), Refusal> {
        let rack = seats.members.racks.of(node);
        let (start, end) = (self.by_rack.start(rack), self.by_rack.end(rack));
        if start >= end {
            return Ok(());
        }
        self.touched.push(small(rack))?;
        let mut kept = start;
        for turn in start..end {
            if !meeting.look() {
                break;
            }
            let place = self.by_rack.item(turn);
            let partition = seats.partition(place as usize);
            if seats.knows(partition, node) {
                self.by_rack.swap(kept, turn);
                kept = kept.saturating_add(1);
            } else {
                let to = node;
                meeting.meet(seats, seats.now(place as usize), Link { to, partition })?;
            }
        }
        self.by_rack.cut(rack, kept);
        Ok(())
    }

    // Meets the partition's owners, if the node's rack has room. Returns whether the partition is used up.
    fn use_partition(
        &mut self,
        seats: &Seats,
        meeting: &mut Meeting,
        link: Link,
    ) -> Result<bool, Refusal> {
        let rack = seats.members.racks.of(link.to);
        if !seats.has_room(link.partition, rack) {
            return Ok(false);
        }
        if seats.knows(link.partition, link.to) {
            self.late.push((small(rack), small(link.partition)))?;
            return Ok(false);
        }
        meeting.meet_all(seats, link, self.level)?;
        Ok(true)
    }

    // Searches all partitions, for a rack's first node.
    fn use_all(&mut self, seats: &Seats, meeting: &mut Meeting, node: u32) -> Result<(), Refusal> {
        let mut kept = 0usize;
        for turn in 0..self.unused {
            if !meeting.look() {
                break;
            }
            let partition = at(&self.partitions, turn) as usize;
            let to = node;
            if !self.use_partition(seats, meeting, Link { to, partition })? {
                swap(&mut self.partitions, kept, turn);
                kept = kept.saturating_add(1);
            }
        }
        self.unused = kept;
        Ok(())
    }

    // Searches the late partitions, for a rack's further nodes.
    fn use_late(&mut self, seats: &Seats, meeting: &mut Meeting, node: u32) -> Result<(), Refusal> {
        let own = seats.members.racks.of(node);
        for (rack, number) in self.late.iter() {
            if !meeting.look() {
                break;
            }
            let partition = *number as usize;
            if *rack as usize == own && !seats.knows(partition, node) {
                let to = node;
                meeting.meet_all(seats, Link { to, partition }, self.level)?;
            }
        }
        Ok(())
    }

    /// Meets members of any rack that could hand the node a slot.
    pub fn across(
        &mut self,
        seats: &Seats,
        meeting: &mut Meeting,
        node: u32,
    ) -> Result<(), Refusal> {
        // If every rack has only its minimum, no rack can spare a slot for another.
        if seats.members.racks.above == 0 {
            return Ok(());
        }
        let rack = seats.members.racks.of(node);
        if at(&self.done, rack) != 0 {
            return self.use_late(seats, meeting, node);
        }
        set(&mut self.done, rack, 1);
        self.touched.push(small(rack))?;
        self.use_all(seats, meeting, node)
    }
}
