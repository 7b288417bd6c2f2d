//! Racks, and how many slots of a partition each may have.
//!
//! In an even spread the fewest pairs share a rack: each rack has `level` slots, or one for each member if it has fewer
//! members. Some racks have one slot more.

use ring_names::Refusal;
use std::alloc::Global;
use texts::{at, raise, set, small};

/// Each node's rack, numbered from 0.
#[derive(Drop)]
pub struct Racks {
    of: Vec<u32>,
    /// The nodes, rack by rack.
    pub order: Vec<u32>,
    // by node, its place in `order`
    turns: Vec<u32>,
    // each rack's first place, then the last rack's end
    firsts: Vec<u32>,
    // by rack, its final members
    counts: Vec<u32>,
    /// The racks with final members: at most a partition's slots, unless the level is 0.
    pub with_members: Vec<u32>,
    /// A partition's fewest slots in a rack with enough members.
    pub level: u32,
    /// How many racks have one slot more.
    pub above: u32,
}

fn keyed(alloc: Global, racks: &[u32], nodes: u32) -> Result<Vec<(u64, u32)>, Refusal> {
    let mut keyed = Vec::new(alloc);
    for node in 0..nodes {
        let key = match racks.get(node as usize) {
            Some(rack) => u64::from(*rack),
            None => u64::from(node).saturating_add(4_294_967_296),
        };
        keyed.push((key, node))?;
    }
    keyed.sort_unstable();
    Ok(keyed)
}

impl Racks {
    /// Starts empty.
    pub fn new(alloc: Global) -> Racks {
        Racks {
            of: Vec::new(alloc),
            order: Vec::new(alloc),
            turns: Vec::new(alloc),
            firsts: Vec::new(alloc),
            counts: Vec::new(alloc),
            with_members: Vec::new(alloc),
            level: 0,
            above: 0,
        }
    }

    /// Sets the nodes' racks, without members.
    pub fn fill(&mut self, alloc: Global, racks: &[u32], nodes: u32) -> Result<(), Refusal> {
        self.of = vec![in alloc; 0u32; nodes as usize]?;
        self.turns = vec![in alloc; 0u32; nodes as usize]?;
        let mut last = None;
        for (key, node) in keyed(alloc, racks, nodes)?.iter() {
            if last != Some(*key) {
                last = Some(*key);
                self.firsts.push(small(self.order.len()))?;
            }
            let rack = small(self.firsts.len()).saturating_sub(1);
            set(&mut self.of, *node as usize, rack);
            set(&mut self.turns, *node as usize, small(self.order.len()));
            self.order.push(*node)?;
        }
        self.counts = vec![in alloc; 0u32; self.firsts.len()]?;
        self.firsts.push(small(self.order.len()))?;
        Ok(())
    }

    /// Adds the node to the final members.
    pub fn add(&mut self, node: u32) {
        let rack = self.of(node);
        raise(&mut self.counts, rack);
    }

    fn sum(&self, level: u32) -> u32 {
        let mut sum = 0u32;
        for count in self.counts.iter() {
            sum = sum.saturating_add((*count).min(level));
        }
        sum
    }

    /// Finds the level and the racks with members. Call after the last `add`.
    pub fn set_level(&mut self, slots: u32) -> Result<(), Refusal> {
        for rack in 0..self.len() {
            if at(&self.counts, rack) > 0 {
                self.with_members.push(small(rack))?;
            }
        }
        for level in 0..slots.saturating_add(1) {
            if self.sum(level) <= slots {
                self.level = level;
            }
        }
        self.above = slots.saturating_sub(self.sum(self.level));
        Ok(())
    }

    /// Counts the racks.
    pub fn len(&self) -> usize {
        self.counts.len()
    }

    /// The node's rack.
    pub fn of(&self, node: u32) -> usize {
        at(&self.of, node as usize) as usize
    }

    /// The node's place in rack order.
    pub fn turn(&self, node: u32) -> u32 {
        at(&self.turns, node as usize)
    }

    /// The rack's first place and its end.
    pub fn span(&self, rack: usize) -> (u32, u32) {
        let first = at(&self.firsts, rack);
        (first, at(&self.firsts, rack.saturating_add(1)))
    }

    /// The fewest final slots of a partition in the rack.
    pub fn least(&self, rack: usize) -> u32 {
        at(&self.counts, rack).min(self.level)
    }

    /// The most final slots of a partition in the rack.
    pub fn most(&self, rack: usize) -> u32 {
        at(&self.counts, rack).min(self.level.saturating_add(1))
    }
}
