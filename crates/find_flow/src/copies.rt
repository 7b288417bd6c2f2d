//! Copies and allowances of nodes.

use ring_names::Refusal;
use ring_table::{Allowance, Ring};
use std::alloc::Global;
use texts::{at, lower, raise};

/// Counts copies from each node and to it. A joint allowance counts both in the first number.
#[derive(Drop)]
pub struct Copies {
    // each count's allowance; 0 if unused
    most: Vec<u32>,
    counts: Vec<u32>,
}

impl Copies {
    /// Starts empty.
    pub fn new(alloc: Global) -> Copies {
        Copies {
            most: Vec::new(alloc),
            counts: Vec::new(alloc),
        }
    }

    /// Adds the ring's nodes.
    pub fn fill(&mut self, ring: &Ring) -> Result<(), Refusal> {
        for node in ring.nodes() {
            let (give, take) = match node.allowance {
                Allowance::Joint(both) => (both, 0),
                Allowance::Split { take, give } => (give, take),
            };
            self.most.push(give)?;
            self.most.push(take)?;
            self.counts.push(0)?;
            self.counts.push(0)?;
        }
        Ok(())
    }

    fn giver(&self, node: u32) -> usize {
        (node as usize).saturating_mul(2)
    }

    fn taker(&self, node: u32) -> usize {
        let first = self.giver(node);
        let second = first.saturating_add(1);
        if at(&self.most, second) == 0 {
            first
        } else {
            second
        }
    }

    /// Counts one more copy from the node.
    pub fn give(&mut self, node: u32) {
        let place = self.giver(node);
        raise(&mut self.counts, place);
    }

    /// Counts one fewer copy from the node.
    pub fn keep(&mut self, node: u32) {
        let place = self.giver(node);
        lower(&mut self.counts, place);
    }

    /// Counts one more copy to the node.
    pub fn take(&mut self, node: u32) {
        let place = self.taker(node);
        raise(&mut self.counts, place);
    }

    /// Counts one fewer copy to the node.
    pub fn leave(&mut self, node: u32) {
        let place = self.taker(node);
        lower(&mut self.counts, place);
    }

    fn crowd(&self, place: usize) -> u32 {
        let copies = at(&self.counts, place).saturating_add(1).saturating_mul(64);
        match copies.checked_div(at(&self.most, place)) {
            Some(crowd) => crowd,
            None => copies,
        }
    }

    /// How full the allowance is with one more copy to the node, in 64ths.
    pub fn taking(&self, node: u32) -> u32 {
        self.crowd(self.taker(node))
    }

    /// How full the allowance is with one more copy from the node, in 64ths.
    pub fn giving(&self, node: u32) -> u32 {
        self.crowd(self.giver(node))
    }
}
