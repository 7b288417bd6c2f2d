//! Finds mirrors with puts that their owners lack.

use crate::chunks::{Chunk, PutsByChunk};
use crate::storing::{Mirrored, happen, has_put, mirrored_slot};
use plan_check::Approved;
use plan_moves::Progress;
use plan_runs::{Entry, Event};
use plan_text::{Plan, Source, Step};
use ring_core::World;
use ring_names::{Refusal, Slot};
use std::alloc::Global;

// None unless the step is an unfinished copy from listed slots.
fn listing_slot(plan: &Plan, progress: &Progress, step: u32) -> Option<Slot> {
    if step >= plan.len() || progress.is_done(step) {
        return None;
    }
    match plan.step(step) {
        Step::Copy(slot, Source::Slots(_)) => Some(*slot),
        _ => None,
    }
}

#[derive(Clone, Copy, Debug)]
struct Given {
    it: Mirrored,
    chunk: Chunk,
}

#[derive(Drop)]
struct Looking<'a> {
    alloc: Global,
    approved: &'a Approved,
    progress: &'a Progress,
    store: World<'a>,
    puts: PutsByChunk,
    ahead: Vec<Slot>,
}

impl Looking<'_> {
    fn look(&mut self, entry: &Entry) -> Result<(), Refusal> {
        self.puts.note(self.approved.ring(), entry)?;
        let Some(given) = self.given(&entry.event) else {
            let _ = happen(&mut self.store, &entry.event)?;
            return Ok(());
        };
        let lacking = self.lacking(&given)?;
        let _ = happen(&mut self.store, &entry.event)?;
        if self.is_ahead(&given, lacking.as_slice()) {
            let Given { it, .. } = given;
            self.ahead.push(it.slot)?;
        }
        Ok(())
    }

    // Returns the chunk, if an unfinished copy from listed slots gives it.
    fn given(&self, event: &Event) -> Option<Given> {
        let Event::ChunkCopy(step, chunk) = event else {
            return None;
        };
        let slot = listing_slot(self.approved.plan(), self.progress, *step)?;
        let it = mirrored_slot(&self.store, slot)?;
        let chunk = (slot.partition, *chunk);
        Some(Given { it, chunk })
    }

    fn lacking(&self, given: &Given) -> Result<Vec<u32>, Refusal> {
        let mut lacking = Vec::new(self.alloc);
        for put in self.puts.of(given.chunk) {
            if !has_put(&self.store, given.it.mirror, *put, given.it.slot.index) {
                lacking.push(*put)?;
            }
        }
        Ok(lacking)
    }

    // Whether the mirror got a put of `lacking` that no write could give.
    fn is_ahead(&self, given: &Given, lacking: &[u32]) -> bool {
        lacking.iter().any(|put| {
            has_put(&self.store, given.it.mirror, *put, given.it.slot.index)
                && !given.it.can_write(&self.store, *put)
        })
    }

    fn look_at_all(&mut self, history: &[Entry]) -> Result<(), Refusal> {
        for entry in history {
            self.look(entry)?;
        }
        Ok(())
    }
}

fn has_listed(plan: &Plan, progress: &Progress, history: &[Entry]) -> bool {
    history.iter().any(|entry| match &entry.event {
        Event::ChunkCopy(step, _) => listing_slot(plan, progress, *step).is_some(),
        _ => false,
    })
}

/// Returns slots whose mirrors got puts from listed slots while owners lacked these puts.
///
/// Only unfinished copies count. An owner that was down counts as lacking. Costs one pass over the history, and a
/// replay if there are such copies.
pub(crate) fn find_ahead(
    alloc: Global,
    approved: &Approved,
    history: &[Entry],
) -> Result<Vec<Slot>, Refusal> {
    let progress = Progress::of(alloc, approved.plan(), history)?;
    if !has_listed(approved.plan(), &progress, history) {
        return Ok(Vec::new(alloc));
    }
    let mut it = Looking {
        alloc,
        approved,
        progress: &progress,
        store: World::start(alloc, approved)?,
        puts: PutsByChunk::new(alloc),
        ahead: Vec::new(alloc),
    };
    it.look_at_all(history)?;
    let Looking { ahead, .. } = it;
    Ok(ahead)
}
