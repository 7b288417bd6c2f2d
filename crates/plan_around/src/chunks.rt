//! Puts by chunk.

use plan_runs::{Entry, Event, Reply};
use ring_names::Refusal;
use ring_space::place;
use ring_table::Ring;
use std::alloc::Global;
use std::collections::BTreeMap;

pub(crate) type Chunk = (u32, u32);

#[derive(Drop)]
pub(crate) struct PutsByChunk {
    alloc: Global,
    puts: BTreeMap<Chunk, Vec<u32>>,
}

impl PutsByChunk {
    pub(crate) fn new(alloc: Global) -> PutsByChunk {
        PutsByChunk {
            alloc,
            puts: BTreeMap::new(alloc),
        }
    }

    pub(crate) fn note(&mut self, ring: &Ring, entry: &Entry) -> Result<(), Refusal> {
        let (Event::StartPut(_, key, _, _), Reply::Put(put)) = (&entry.event, &entry.reply) else {
            return Ok(());
        };
        let lies = place(ring.q(), key.as_slice());
        let chunk = (lies.partition, lies.chunk);
        if let Some(puts) = self.puts.get_mut(&chunk) {
            puts.push(*put)?;
            return Ok(());
        }
        let mut puts = Vec::new(self.alloc);
        puts.push(*put)?;
        self.puts.insert(chunk, puts)?;
        Ok(())
    }

    /// The chunk's puts, ascending.
    pub(crate) fn of(&self, chunk: Chunk) -> &[u32] {
        match self.puts.get(&chunk) {
            Some(puts) => puts.as_slice(),
            None => &[],
        }
    }

    pub(crate) fn in_order(&self) -> Result<Vec<u32>, Refusal> {
        let mut order = Vec::new(self.alloc);
        for puts in self.puts.values() {
            order.extend_from_slice(puts.as_slice())?;
        }
        Ok(order)
    }
}
