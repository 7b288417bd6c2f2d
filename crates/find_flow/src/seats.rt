//! Owners, before and after.

use crate::copies::Copies;
use crate::grouped::Grouped;
use crate::members::{Members, Role};
use crate::volumes::NodeVolumes;
use ring_names::Refusal;
use ring_table::Ring;
use std::alloc::Global;
use texts::{NONE, at, lower, raise, set, small, swap};

/// Each slot's owner. Places count by partition, then by index.
#[derive(Drop)]
pub struct Seats<'a> {
    pub members: &'a Members,
    /// The partitions, and the slots in each.
    pub partitions: usize,
    pub slots: usize,
    // by place, the owner before
    first: Vec<u32>,
    // by place, the owner or `NONE`
    now: Vec<u32>,
    // each node's places before
    owned: Grouped,
    // by node, its current slots
    load: Vec<u32>,
    copies: Copies,
    /// The partitions' sizes, if known.
    pub volumes: NodeVolumes,
}

impl<'a> Seats<'a> {
    /// Starts empty.
    pub fn new(alloc: Global, ring: &Ring, members: &'a Members) -> Seats<'a> {
        Seats {
            members,
            partitions: ring.rows().len(),
            slots: ring.n() as usize,
            first: Vec::new(alloc),
            now: Vec::new(alloc),
            owned: Grouped::new(alloc),
            load: Vec::new(alloc),
            copies: Copies::new(alloc),
            volumes: NodeVolumes::new(alloc),
        }
    }

    /// Sets the partitions' sizes.
    pub fn measure(&mut self, alloc: Global, sizes: &[u64]) -> Result<(), Refusal> {
        let nodes = self.members.count() as usize;
        self.volumes.fill(alloc, sizes, self.partitions, nodes)
    }

    /// Sets the ring's owners. Slots of leaving nodes have none.
    pub fn begin(&mut self, alloc: Global, ring: &Ring) -> Result<(), Refusal> {
        for row in ring.rows() {
            for owner in row.as_slice() {
                self.first.push(owner.0)?;
            }
        }
        self.now = Vec::from_slice(alloc, self.first.as_slice())?;
        self.load = vec![in alloc; 0u32; self.members.count() as usize]?;
        self.copies.fill(ring)?;
        self.own(alloc)?;
        self.volumes.aim(self.members, self.slots);
        for place in 0..self.total() {
            if self.members.role(self.first(place)) == Role::Leaves {
                self.vacate(place);
            }
        }
        Ok(())
    }

    fn own(&mut self, alloc: Global) -> Result<(), Refusal> {
        self.owned.begin(alloc, self.load.len())?;
        for owner in self.first.iter() {
            self.owned.count(*owner as usize);
            raise(&mut self.load, *owner as usize);
        }
        self.owned.make_room(alloc)?;
        for place in 0..self.first.len() {
            let owner = at(&self.first, place) as usize;
            self.owned.put(owner, small(place));
            let partition = self.partition(place);
            self.volumes.add(partition, owner);
        }
        Ok(())
    }

    /// Counts the slots.
    pub fn total(&self) -> usize {
        self.first.len()
    }

    /// The slot's place.
    pub fn place(&self, partition: usize, index: usize) -> usize {
        partition.saturating_mul(self.slots).saturating_add(index)
    }

    /// The place's partition.
    pub fn partition(&self, place: usize) -> usize {
        match place.checked_div(self.slots) {
            Some(partition) => partition,
            None => 0,
        }
    }

    /// The former owner.
    pub fn first(&self, place: usize) -> u32 {
        at(&self.first, place)
    }

    /// The current owner.
    pub fn now(&self, place: usize) -> u32 {
        at(&self.now, place)
    }

    /// Counts the node's former slots.
    pub fn owned_count(&self, node: u32) -> usize {
        let node = node as usize;
        self.owned.end(node).saturating_sub(self.owned.start(node))
    }

    /// The place of a former slot.
    pub fn owned(&self, node: u32, turn: usize) -> usize {
        let start = self.owned.start(node as usize);
        self.owned.item(start.saturating_add(turn)) as usize
    }

    /// Takes the slot from its owner.
    pub fn vacate(&mut self, place: usize) {
        let node = self.now(place);
        set(&mut self.now, place, NONE);
        lower(&mut self.load, node as usize);
        let partition = self.partition(place);
        self.volumes.remove(partition, node as usize);
        if node == self.first(place) {
            self.copies.give(node);
        } else {
            self.copies.leave(node);
        }
    }

    /// Gives the free slot to the node.
    pub fn fill(&mut self, place: usize, node: u32) {
        set(&mut self.now, place, node);
        raise(&mut self.load, node as usize);
        let partition = self.partition(place);
        self.volumes.add(partition, node as usize);
        if node == self.first(place) {
            self.copies.keep(node);
        } else {
            self.copies.take(node);
        }
    }

    /// Whether the node owns or owned a slot of the partition.
    pub fn knows(&self, partition: usize, node: u32) -> bool {
        let start = self.place(partition, 0);
        for place in start..start.saturating_add(self.slots) {
            if self.now(place) == node || self.first(place) == node {
                return true;
            }
        }
        false
    }

    /// The owner's rack.
    pub fn rack_at(&self, place: usize) -> Option<usize> {
        match self.now(place) {
            NONE => None,
            node => Some(self.members.racks.of(node)),
        }
    }

    /// Counts the partition's slots in the rack now.
    pub fn count(&self, partition: usize, rack: usize) -> u32 {
        let mut count = 0u32;
        let start = self.place(partition, 0);
        for place in start..start.saturating_add(self.slots) {
            if self.rack_at(place) == Some(rack) {
                count = count.saturating_add(1);
            }
        }
        count
    }

    /// Whether a free slot may go to any rack with room. Otherwise only racks below their minimum may have it.
    pub fn is_open(&self, partition: usize) -> bool {
        let racks = &self.members.racks;
        let mut holes = 0u32;
        for index in 0..self.slots {
            if self.now(self.place(partition, index)) == NONE {
                holes = holes.saturating_add(1);
            }
        }
        if racks.level == 0 {
            return holes > 0;
        }
        let mut missing = 0u32;
        for rack in racks.with_members.iter() {
            let rack = *rack as usize;
            let lack = racks
                .least(rack)
                .saturating_sub(self.count(partition, rack));
            missing = missing.saturating_add(lack);
        }
        missing < holes
    }

    /// Whether the rack may have one more slot.
    pub fn has_room(&self, partition: usize, rack: usize) -> bool {
        self.count(partition, rack) < self.members.racks.most(rack)
    }

    /// Whether the rack may have one fewer slot.
    pub fn can_spare(&self, partition: usize, rack: usize) -> bool {
        let least = self.members.racks.least(rack);
        least == 0 || self.count(partition, rack) > least
    }

    fn suits(&self, place: usize, rack: usize) -> bool {
        let partition = self.partition(place);
        match self.rack_at(place) {
            None => false,
            Some(old) => {
                old == rack || (self.has_room(partition, rack) && self.can_spare(partition, old))
            }
        }
    }

    /// The node's current place in the partition.
    pub fn place_now(&self, partition: usize, node: u32) -> Option<usize> {
        let (start, slots) = (self.place(partition, 0), self.slots);
        found(&self.now, start, slots, node)
    }

    /// The node's former place in the partition.
    pub fn place_before(&self, partition: usize, node: u32) -> Option<usize> {
        let (start, slots) = (self.place(partition, 0), self.slots);
        found(&self.first, start, slots, node)
    }

    /// Whether the node could replace the owner.
    pub fn may_have(&self, place: usize, node: u32) -> bool {
        let rack = self.members.racks.of(node);
        self.place_now(self.partition(place), node).is_none()
            && self.suits(place, rack)
            && self.may_enter(place, node)
    }

    // With sizes, a staying member's slot goes only to a joining node, and only if the partition has keys.
    fn may_enter(&self, place: usize, node: u32) -> bool {
        let partition = self.partition(place);
        !self.volumes.are_asked()
            || self.members.role(self.first(place)) == Role::Leaves
            || self.place_before(partition, node).is_some()
            || (self.members.role(node) == Role::Joins && self.volumes.size(partition) > 0)
    }

    // A former owner regains its own slot of the partition.
    fn replace(&mut self, place: usize, node: u32) {
        let own = self.place_before(self.partition(place), node);
        self.vacate(place);
        match own {
            Some(own) if own != place => {
                let other = self.now(own);
                self.vacate(own);
                self.fill(own, node);
                self.fill(place, other);
            }
            _ => self.fill(place, node),
        }
    }

    /// Hands a slot on, if allowed. Returns whether it did.
    pub fn hand(&mut self, partition: usize, from: u32, to: u32) -> bool {
        let Some(place) = self.place_now(partition, from) else {
            return false;
        };
        if !self.may_have(place, to) {
            return false;
        }
        self.replace(place, to);
        true
    }

    /// Swaps two owners. Loads stay; indexes may change.
    pub fn exchange(&mut self, one: usize, other: usize) {
        swap(&mut self.now, one, other);
    }

    fn align(&mut self, partition: usize) {
        for index in 0..self.slots {
            let place = self.place(partition, index);
            if let Some(other) = self.place_now(partition, self.first(place)) {
                self.exchange(place, other);
            }
        }
    }

    /// Puts owners back at their former indexes.
    pub fn align_all(&mut self) {
        for partition in 0..self.partitions {
            self.align(partition);
        }
    }

    /// Counts the node's slots now.
    pub fn load(&self, node: u32) -> u32 {
        at(&self.load, node as usize)
    }

    /// What one more slot costs the balance, in units of 2^-32. Two costs are equal only if the exact quotients are.
    pub fn take_price(&self, node: u32) -> u64 {
        let twice = u64::from(self.load(node)).saturating_mul(2);
        price(twice.saturating_add(1), self.members.weight(node))
    }

    /// What the balance gains from one slot fewer.
    pub fn give_price(&self, node: u32) -> u64 {
        let twice = u64::from(self.load(node)).saturating_mul(2);
        price(twice.saturating_sub(1), self.members.weight(node))
    }

    /// How full the allowance is with one more copy to the node.
    pub fn taking(&self, node: u32) -> u32 {
        self.copies.taking(node)
    }

    /// How full the allowance is with one more copy from the node.
    pub fn giving(&self, node: u32) -> u32 {
        self.copies.giving(node)
    }

    /// Whether a joining node lacks a slot of its part.
    pub fn wants(&self, node: u32) -> bool {
        self.load(node) < self.members.part(node)
    }

    /// Whether a joining node would lack a slot after giving one.
    pub fn is_costly(&self, node: u32) -> bool {
        self.members.role(node) == Role::Joins && self.load(node) <= self.members.part(node)
    }

    /// Counts the slots with a new owner.
    pub fn moved(&self) -> u32 {
        let mut moved = 0u32;
        for place in 0..self.total() {
            if self.now(place) != self.first(place) {
                moved = moved.saturating_add(1);
            }
        }
        moved
    }
}

fn price(steps: u64, weight: u32) -> u64 {
    match steps
        .saturating_mul(4_294_967_296)
        .checked_div(u64::from(weight))
    {
        Some(price) => price,
        None => 0,
    }
}

fn found(owners: &[u32], start: usize, count: usize, node: u32) -> Option<usize> {
    for place in start..start.saturating_add(count) {
        if at(owners, place) == node {
            return Some(place);
        }
    }
    None
}
