//! Owners and moves of slots.

use ring_names::{Refusal, Slot};
use ring_table::Ring;
use std::alloc::Global;
use texts::{at, set};

/// Slots' owners, partition by partition, and which slots move.
#[derive(Drop)]
pub struct Layout {
    /// The partitions, and the slots in each.
    pub partitions: usize,
    pub slots: usize,
    owners: Vec<u32>,
    // by slot, 1 if it moves
    moving: Vec<u32>,
}

impl Layout {
    /// Reads the ring's owners.
    pub fn of(alloc: Global, ring: &Ring) -> Result<Layout, Refusal> {
        let mut owners = Vec::new(alloc);
        for row in ring.rows() {
            for owner in row.as_slice() {
                owners.push(owner.0)?;
            }
        }
        let moving = vec![in alloc; 0u32; owners.len()]?;
        Ok(Layout {
            partitions: ring.rows().len(),
            slots: ring.n() as usize,
            owners,
            moving,
        })
    }

    /// The slot's place.
    pub fn place(&self, partition: usize, index: usize) -> usize {
        partition.saturating_mul(self.slots).saturating_add(index)
    }

    /// The slot's place.
    pub fn place_of(&self, slot: Slot) -> usize {
        self.place(slot.partition as usize, slot.index as usize)
    }

    /// Counts the slots.
    pub fn total(&self) -> usize {
        self.owners.len()
    }

    /// The slot's owner.
    pub fn owner(&self, place: usize) -> u32 {
        at(&self.owners, place)
    }

    /// Whether the slot moves.
    pub fn moves(&self, place: usize) -> bool {
        at(&self.moving, place) != 0
    }

    /// Lets the slot move.
    pub fn let_move(&mut self, place: usize) {
        set(&mut self.moving, place, 1);
    }
}
