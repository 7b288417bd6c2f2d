//! The members that a search meets.
//!
//! A search goes backwards, from a member that needs a slot to members that could hand one over. A hand-over adds no
//! move if both nodes would own a slot of the partition by a move, or both owned one before. A path stays within one
//! level. An unmoved slot is on level 1, a moved one on its owner's level.

use crate::members::Role;
use crate::seats::Seats;
use ring_names::Refusal;
use std::alloc::Global;
use texts::{NONE, at, set, small};

// The most looks of all searches at slots and partitions.
const LOOKS: u32 = 80_000_000;

/// A search's purpose.
#[derive(Clone, Copy, PartialEq, Eq)]
pub enum SearchAim {
    /// Gives a joining member its part.
    Part,
    /// Balances without further moves or smaller parts.
    Balance,
}

/// Who receives a slot, and the slot's partition.
#[derive(Clone, Copy)]
pub struct Link {
    pub to: u32,
    pub partition: usize,
}

/// The members met, and what searches share.
#[derive(Drop)]
pub struct Meeting {
    aim: SearchAim,
    /// The member that needs a slot.
    pub first: u32,
    /// The first member met that can give.
    pub found: Option<u32>,
    /// All members met, in order.
    pub met: Vec<u32>,
    // by member met, who receives its slot, and the slot's partition
    to: Vec<u32>,
    partitions: Vec<u32>,
    levels: Vec<u32>,
    // by node, 1 if frozen
    frozen: Vec<u32>,
    looks: u32,
}

impl Meeting {
    /// Starts before any search.
    pub fn new(alloc: Global) -> Meeting {
        Meeting {
            aim: SearchAim::Part,
            first: NONE,
            found: None,
            met: Vec::new(alloc),
            to: Vec::new(alloc),
            partitions: Vec::new(alloc),
            levels: Vec::new(alloc),
            frozen: Vec::new(alloc),
            looks: LOOKS,
        }
    }

    /// Sets the level of joining nodes, and 0 for others. Unfreezes all nodes.
    pub fn set_levels(&mut self, alloc: Global, seats: &Seats, level: u32) -> Result<(), Refusal> {
        let count = seats.members.count() as usize;
        self.levels = vec![in alloc; 0u32; count]?;
        self.to = vec![in alloc; NONE; count]?;
        self.partitions = vec![in alloc; 0u32; count]?;
        for node in 0..seats.members.count() {
            if seats.members.role(node) == Role::Joins {
                set(&mut self.levels, node as usize, level);
            }
        }
        self.thaw(alloc, count)
    }

    /// Unfreezes all nodes.
    pub fn thaw(&mut self, alloc: Global, count: usize) -> Result<(), Refusal> {
        self.frozen = vec![in alloc; 0u32; count]?;
        Ok(())
    }

    /// The node's level.
    pub fn level(&self, node: u32) -> u32 {
        at(&self.levels, node as usize)
    }

    /// Sets the node's level.
    pub fn put_level(&mut self, node: u32, level: u32) {
        set(&mut self.levels, node as usize, level);
    }

    /// A slot's level.
    pub fn level_at(&self, seats: &Seats, place: usize) -> u32 {
        let node = seats.now(place);
        if node == seats.first(place) {
            return 1;
        }
        self.level(node)
    }

    /// Whether searches avoid the node.
    pub fn is_frozen(&self, node: u32) -> bool {
        at(&self.frozen, node as usize) != 0
    }

    /// Freezes the members met.
    pub fn freeze(&mut self) {
        for node in self.met.iter() {
            set(&mut self.frozen, *node as usize, 1);
        }
    }

    /// Begins a search at a member.
    pub fn begin(&mut self, first: u32, aim: SearchAim) -> Result<(), Refusal> {
        for node in self.met.iter() {
            set(&mut self.to, *node as usize, NONE);
        }
        self.met.clear();
        self.met.push(first)?;
        self.first = first;
        self.aim = aim;
        self.found = None;
        Ok(())
    }

    /// Counts looks as spent.
    pub fn spend(&mut self, looks: u32) {
        self.looks = self.looks.saturating_sub(looks);
    }

    /// Spends a look. Returns whether to go on.
    pub fn look(&mut self) -> bool {
        self.spend(1);
        !self.is_over()
    }

    /// Whether a giver is found or no look is left.
    pub fn is_over(&self) -> bool {
        self.found.is_some() || self.is_spent()
    }

    /// Whether no look is left.
    pub fn is_spent(&self) -> bool {
        self.looks == 0
    }

    fn can_give(&self, seats: &Seats, node: u32) -> bool {
        if self.aim == SearchAim::Part {
            return !seats.is_costly(node);
        }
        self.level(node) == self.level(self.first)
            && seats.is_costly(node) == seats.wants(self.first)
            && seats.give_price(node) > seats.take_price(self.first)
    }

    /// Meets the member, unless it was met or is frozen.
    pub fn meet(&mut self, seats: &Seats, node: u32, link: Link) -> Result<(), Refusal> {
        let place = node as usize;
        let is_known = node == self.first || at(&self.to, place) != NONE;
        if is_known || node >= seats.members.count() || self.is_frozen(node) {
            return Ok(());
        }
        self.met.push(node)?;
        set(&mut self.to, place, link.to);
        set(&mut self.partitions, place, small(link.partition));
        if self.found.is_none() && self.can_give(seats, node) {
            self.found = Some(node);
        }
        Ok(())
    }

    /// Meets the level's owners that could give the link's node a slot.
    pub fn meet_all(&mut self, seats: &Seats, link: Link, level: u32) -> Result<(), Refusal> {
        let rack = seats.members.racks.of(link.to);
        let has_room = seats.has_room(link.partition, rack);
        for index in 0..seats.slots {
            let place = seats.place(link.partition, index);
            if let (Some(old), true) = (
                seats.rack_at(place),
                self.level_at(seats, place) == level,
            ) {
                if old == rack || (has_room && seats.can_spare(link.partition, old)) {
                    self.meet(seats, seats.now(place), link)?;
                }
            }
        }
        self.spend(small(seats.slots));
        Ok(())
    }

    /// Who receives the node's slot, and the slot's partition.
    pub fn link(&self, node: u32) -> Link {
        Link {
            to: at(&self.to, node as usize),
            partition: at(&self.partitions, node as usize) as usize,
        }
    }
}
