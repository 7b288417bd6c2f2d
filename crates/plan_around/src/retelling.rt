//! Runs a history by another plan. That plan's store gives the replies.
//!
//! Writes replace an omitted chunk, since its listed slots hold the same by both plans.

ghost use Rattle.std.specs.Prelude.{IfOk, OnOk};
ghost use Rattle.plan_around.specs.Led.{GoesFarther, IsLed};

use crate::chunks::{Chunk, PutsByChunk};
use crate::led::Led;
use crate::storing::{Mirrored, has_put, mirrored_slot, owner_of};
use history_laws::renamed;
use plan_check::Approved;
use plan_runs::{Entry, Event};
use plan_text::{Plan, Source, Step};
use ring_core::World;
use ring_names::{Refusal, Slot};
use std::alloc::Global;

/// A history by another plan, and its store.
#[derive(Drop)]
pub(crate) struct Retold<'a> {
    pub(crate) led: Led<'a>,
    /// How many new entries replace each old one.
    pub(crate) counts: Vec<u32>,
    /// All puts, by chunk.
    pub(crate) order: Vec<u32>,
}

#[derive(Drop)]
struct Retelling<'a, 'b> {
    alloc: Global,
    approved: &'a Approved,
    numbers: &'a [Option<u32>],
    puts: PutsByChunk,
    led: Led<'b>,
    counts: Vec<u32>,
}

fn copy_at(plan: &Plan, step: u32) -> Option<(Slot, &Source)> {
    if step >= plan.len() {
        return None;
    }
    match plan.step(step) {
        Step::Copy(slot, source) => Some((*slot, source)),
        _ => None,
    }
}

fn has_at_owner(store: &World, put: u32, slot: Slot) -> bool {
    match owner_of(store, slot) {
        Some(owner) => has_put(store, owner, put, slot.index),
        None => false,
    }
}

fn gives(store: &World, it: &Mirrored, source: &Source, put: u32) -> bool {
    match source {
        Source::Owner => has_put(store, it.owner, put, it.slot.index),
        Source::Slots(indices) => indices.as_slice().iter().any(|index| has_at_owner(
            store,
            put,
            it.sibling(u32::from(*index)),
        )),
    }
}

impl Retelling<'_, '_> {
    fn tell(&mut self, entry: &Entry) -> Result<(), Refusal>
        ensures { OnOk result (GoesFarther self.old.led self.new.led) }
    {
        self.puts.note(self.approved.ring(), entry)?;
        let count = self.tell_event(&entry.event)?;
        self.counts.push(count)?;
        Ok(())
    }

    // Applies the event, or what replaces it. Returns the number of entries.
    fn tell_event(&mut self, event: &Event) -> Result<u32, Refusal>
        ensures { OnOk result (GoesFarther self.old.led self.new.led) }
    {
        match renamed(self.numbers, event)? {
            Some(event) => {
                self.led.happen(event)?;
                Ok(1)
            }
            None => self.tell_by_writes(event),
        }
    }

    // Applies what replaces an omitted event. Returns the number of entries.
    fn tell_by_writes(&mut self, event: &Event) -> Result<u32, Refusal>
        ensures { OnOk result (GoesFarther self.old.led self.new.led) }
    {
        let Event::ChunkCopy(step, chunk) = event else {
            return Ok(0);
        };
        let Some((slot, source)) = copy_at(self.approved.plan(), *step) else {
            return Ok(0);
        };
        let Some(it) = mirrored_slot(&self.led.store, slot) else {
            return Ok(0);
        };
        let given = self.given(&it, source, (slot.partition, *chunk))?;
        self.write_latest(&it, given.as_slice())
    }

    // Returns the chunk's puts that the mirror lacks, ascending. No puts if the owner lacks one or is down.
    fn given(&self, it: &Mirrored, source: &Source, chunk: Chunk) -> Result<Vec<u32>, Refusal> {
        let store = &self.led.store;
        let mut given = Vec::new(self.alloc);
        for put in self.puts.of(chunk) {
            if gives(store, it, source, *put) && !has_put(store, it.mirror, *put, it.slot.index) {
                if !it.can_write(store, *put) {
                    return Ok(Vec::new(self.alloc));
                }
                given.push(*put)?;
            }
        }
        Ok(given)
    }

    // Writes the newest puts, and counts them. A put has a greater number than those it succeeds.
    fn write_latest(&mut self, it: &Mirrored, given: &[u32]) -> Result<u32, Refusal>
        ensures { OnOk result (GoesFarther self.old.led self.new.led) }
    {
        let mut count = 0u32;
        for put in given.iter().rev() {
            if !has_put(&self.led.store, it.mirror, *put, it.slot.index) {
                self.led.happen(Event::Write(*put, it.slot.index))?;
                count = count.saturating_add(1);
            }
        }
        Ok(count)
    }

    fn tell_all(&mut self, history: &[Entry]) -> Result<(), Refusal>
        ensures { OnOk result (GoesFarther self.old.led self.new.led) }
    {
        for entry in history {
            self.tell(entry)?;
        }
        Ok(())
    }
}

/// Runs the old history by the new plan. Fails as the new store does.
///
/// Writes replace an omitted chunk only if the slot is still mirrored and its owner has all puts.
///
/// Costs one run, and for each omitted chunk a look-up for each put of its keys.
pub(crate) fn retell<'a>(
    alloc: Global,
    old: &Approved,
    new: &'a Approved,
    numbers: &[Option<u32>],
    history: &[Entry],
) -> Result<Retold<'a>, Refusal>
    ensures { IfOk result (λ v. IsLed new.now.ring new.now.plan v.led) }
{
    let mut it = Retelling {
        alloc,
        approved: old,
        numbers,
        puts: PutsByChunk::new(alloc),
        led: Led::start(alloc, new)?,
        counts: Vec::new(alloc),
    };
    it.tell_all(history)?;
    let order = it.puts.in_order()?;
    let Retelling { led, counts, .. } = it;
    Ok(Retold { led, counts, order })
}
