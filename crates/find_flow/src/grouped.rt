//! Numbers in groups.

use ring_names::Refusal;
use std::alloc::Global;
use texts::{at, raise, set, small, swap};

/// Numbers in groups. Count all numbers, make room, then put each.
#[derive(Drop)]
pub struct Grouped {
    // each group's start, then the last group's end
    starts: Vec<u32>,
    // each group's end so far
    ends: Vec<u32>,
    items: Vec<u32>,
}

impl Grouped {
    /// Starts empty.
    pub fn new(alloc: Global) -> Grouped {
        Grouped {
            starts: Vec::new(alloc),
            ends: Vec::new(alloc),
            items: Vec::new(alloc),
        }
    }

    /// Starts with empty groups.
    pub fn begin(&mut self, alloc: Global, groups: usize) -> Result<(), Refusal> {
        self.starts = vec![in alloc; 0u32; groups.saturating_add(1)]?;
        Ok(())
    }

    /// Notes one more number of the group.
    pub fn count(&mut self, group: usize) {
        raise(&mut self.starts, group.saturating_add(1));
    }

    /// Makes room for all counted numbers.
    pub fn make_room(&mut self, alloc: Global) -> Result<(), Refusal> {
        let mut total = 0u32;
        for group in 0..self.starts.len() {
            total = total.saturating_add(at(&self.starts, group));
            set(&mut self.starts, group, total);
        }
        self.ends = Vec::from_slice(alloc, self.starts.as_slice())?;
        self.items = vec![in alloc; 0u32; total as usize]?;
        Ok(())
    }

    /// Puts a number into the group.
    pub fn put(&mut self, group: usize, number: u32) {
        let place = at(&self.ends, group);
        set(&mut self.items, place as usize, number);
        raise(&mut self.ends, group);
    }

    /// The group's first place.
    pub fn start(&self, group: usize) -> usize {
        at(&self.starts, group) as usize
    }

    /// The place after the group.
    pub fn end(&self, group: usize) -> usize {
        at(&self.ends, group) as usize
    }

    /// The number at the place.
    pub fn item(&self, place: usize) -> u32 {
        at(&self.items, place)
    }

    /// Swaps the numbers at two places.
    pub fn swap(&mut self, one: usize, other: usize) {
        swap(&mut self.items, one, other);
    }

    /// Ends the group before the place.
    pub fn cut(&mut self, group: usize, end: usize) {
        set(&mut self.ends, group, small(end));
    }

    /// Undoes a full group's cuts.
    pub fn restore(&mut self, group: usize) {
        let end = at(&self.starts, group.saturating_add(1));
        set(&mut self.ends, group, end);
    }
}
