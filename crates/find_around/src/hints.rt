//! The stored hints, by partition.

use ring_names::{Refusal, Slot};
use ring_table::Ring;
use std::alloc::Global;
use std::collections::BTreeSet;
use texts::{at, set, small};

#[derive(Drop)]
pub(crate) struct HintTable {
    // ascending
    all: Vec<(Slot, u32)>,
    // by partition, the place of its first hint; last their count
    firsts: Vec<u32>,
}

impl HintTable {
    pub(crate) fn of(
        alloc: Global,
        ring: &Ring,
        kept: BTreeSet<(Slot, u32)>,
    ) -> Result<HintTable, Refusal> {
        let partitions = ring.q() as usize;
        let mut hints = HintTable {
            all: Vec::new(alloc),
            firsts: vec![in alloc; 0u32; partitions.saturating_add(1)]?,
        };
        for hint in kept.iter() {
            hints.all.push(*hint)?;
            let behind = (hint.0.partition as usize).saturating_add(1);
            set(hints.firsts.as_mut_slice(), behind, small(hints.all.len()));
        }
        let mut count = 0u32;
        for place in 0..partitions.saturating_add(1) {
            count = count.max(at(hints.firsts.as_slice(), place));
            set(hints.firsts.as_mut_slice(), place, count);
        }
        Ok(hints)
    }

    pub(crate) fn all(&self) -> &[(Slot, u32)] {
        self.all.as_slice()
    }

    pub(crate) fn of_partition(&self, partition: u32) -> &[(Slot, u32)] {
        let from = at(self.firsts.as_slice(), partition as usize) as usize;
        let to = at(
            self.firsts.as_slice(),
            (partition as usize).saturating_add(1),
        ) as usize;
        if from <= to && to <= self.all.len() {
            return &self.all[from..to];
        }
        &[]
    }
}
