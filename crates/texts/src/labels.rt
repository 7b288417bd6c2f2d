//! Labels of nodes.

use crate::numbers::{NONE, at};
use ring_names::{Names, Refusal};
use std::alloc::Global;

/// Each node's name, such as its rack's. Equal names have equal numbers.
#[derive(Drop)]
pub struct Labels {
    names: Names,
    // by node
    numbers: Vec<u32>,
}

impl Labels {
    /// Starts without nodes.
    pub fn new(alloc: Global) -> Labels {
        Labels {
            names: Names::new(alloc),
            numbers: Vec::new(alloc),
        }
    }

    /// Adds the next node, with a name.
    pub fn add(&mut self, name: &[u8]) -> Result<(), Refusal> {
        if self.names.len() == u32::MAX {
            return self.add_alone();
        }
        let number = self.names.add(name)?;
        self.numbers.push(number)?;
        Ok(())
    }

    /// Adds the next node without a name, under a new number.
    pub fn add_alone(&mut self) -> Result<(), Refusal> {
        let node = crate::numbers::small(self.numbers.len());
        self.numbers.push(NONE.saturating_sub(node))?;
        Ok(())
    }

    /// The number of each node's name.
    pub fn numbers(&self) -> &[u32] {
        self.numbers.as_slice()
    }

    /// The number of the node's name.
    pub fn of(&self, node: u32) -> u32 {
        at(self.numbers.as_slice(), node as usize)
    }

    /// The node's name, or no bytes.
    pub fn name(&self, node: u32) -> &[u8] {
        match self.names.name_of(self.of(node)) {
            Some(name) => name,
            None => &[],
        }
    }

    /// Counts the names.
    pub fn count(&self) -> u32 {
        self.names.len()
    }

    /// The name with that number.
    pub fn name_of(&self, number: u32) -> Option<&[u8]> {
        self.names.name_of(number)
    }
}

/// Returns what follows the name's last `byte`, if anything.
pub fn suffix(name: &[u8], byte: u8) -> Option<&[u8]> {
    let mut start = None;
    let mut place = 0usize;
    for other in name {
        place = place.saturating_add(1);
        if *other == byte {
            start = Some(place);
        }
    }
    let start = start?;
    if start < name.len() {
        Some(&name[start..])
    } else {
        None
    }
}
