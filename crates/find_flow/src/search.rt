//! Searches for paths of members.

use crate::meeting::{Link, Meeting, SearchAim};
use crate::members::Role;
use crate::offers::Offers;
use crate::seats::Seats;
use ring_names::Refusal;
use std::alloc::Global;

/// The state of searches.
#[derive(Drop)]
pub struct PathSearch {
    pub meeting: Meeting,
    offers: Vec<Offers>,
}

impl PathSearch {
    /// Starts empty.
    pub fn new(alloc: Global) -> PathSearch {
        PathSearch {
            meeting: Meeting::new(alloc),
            offers: Vec::new(alloc),
        }
    }

    /// Adds three levels.
    pub fn fill(&mut self, alloc: Global) -> Result<(), Refusal> {
        for level in 0..3 {
            self.offers.push(Offers::new(alloc, level))?;
        }
        Ok(())
    }

    /// Notes that owners or levels change.
    pub fn forget(&mut self) {
        for level in 0..self.offers.len() {
            if let Some(offers) = self.offers.get_mut(level) {
                offers.forget();
            }
        }
    }

    /// Sets levels as `Meeting` does.
    pub fn set_levels(&mut self, alloc: Global, seats: &Seats, level: u32) -> Result<(), Refusal> {
        self.forget();
        self.meeting.set_levels(alloc, seats, level)
    }

    /// Freezes the members met.
    pub fn freeze(&mut self, alloc: Global, seats: &Seats) -> Result<(), Refusal> {
        self.meeting.freeze();
        for level in 0..self.offers.len() {
            if let Some(offers) = self.offers.get_mut(level) {
                offers.prune(alloc, seats, &mut self.meeting)?;
            }
        }
        Ok(())
    }

    // Meets owners that could give their slots instead of those that the node gave.
    fn meet_back(&mut self, seats: &Seats, node: u32) -> Result<(), Refusal> {
        if seats.members.role(node) != Role::Stays {
            return Ok(());
        }
        for turn in 0..seats.owned_count(node) {
            let place = seats.owned(node, turn);
            if seats.now(place) != node {
                let partition = seats.partition(place);
                let to = node;
                self.meeting.meet_all(seats, Link { to, partition }, 1)?;
            }
        }
        Ok(())
    }

    // Meets members that could hand the node a slot.
    fn go_on(&mut self, alloc: Global, seats: &Seats, node: u32) -> Result<(), Refusal> {
        let level = self.meeting.level(node) as usize;
        if let Some(offers) = self.offers.get_mut(level) {
            offers.open(alloc, seats, &mut self.meeting)?;
            offers.in_rack(seats, &mut self.meeting, node)?;
            if !self.meeting.is_over() {
                offers.across(seats, &mut self.meeting, node)?;
            }
        }
        if self.meeting.is_over() {
            return Ok(());
        }
        self.meet_back(seats, node)
    }

    fn begin(&mut self, first: u32, aim: SearchAim) -> Result<(), Refusal> {
        for level in 0..self.offers.len() {
            if let Some(offers) = self.offers.get_mut(level) {
                offers.close();
            }
        }
        self.meeting.begin(first, aim)
    }

    /// Returns a member from which a path leads to the first, if looks suffice.
    pub fn find(
        &mut self,
        alloc: Global,
        seats: &Seats,
        first: u32,
        aim: SearchAim,
    ) -> Result<Option<u32>, Refusal> {
        self.begin(first, aim)?;
        for turn in 0..seats.members.count() as usize {
            if self.meeting.is_over() {
                break;
            }
            let Some(node) = self.meeting.met.get(turn) else {
                break;
            };
            let node = *node;
            self.go_on(alloc, seats, node)?;
        }
        Ok(self.meeting.found)
    }

    /// Hands slots on along the path from a member.
    pub fn shift(&mut self, seats: &mut Seats, from: u32) {
        self.forget();
        let mut node = from;
        for _ in 0..seats.members.count() {
            if node == self.meeting.first {
                break;
            }
            let link = self.meeting.link(node);
            if !seats.hand(link.partition, node, link.to) {
                break;
            }
            node = link.to;
        }
    }
}
