//! How puts came that differ in a wrong reply.

use crate::after::{earlier, slot_of};
use plan_runs::{Entry, Event, Key, Reply};
use plan_text::{Plan, Step};
use ring_names::{Refusal, Slot};
use ring_space::place;
use ring_table::Ring;
use show_why::Said;
use std::alloc::Global;

// At most twelve lines: three puts with two entries each, and three steps of the slot.
const PUTS: usize = 3;

const ENTRIES: usize = 2;

const STEPS: usize = 3;

/// The history before a wrong reply, its first line, and its plan.
#[derive(Clone, Copy)]
pub(crate) struct Trail<'a> {
    pub ring: &'a Ring,
    pub plan: &'a Plan,
    pub history: &'a [Entry],
    pub line: u32,
}

// A put of one reply only. It is missing if only the due reply has it.
#[derive(Clone, Copy)]
struct Differing {
    put: u32,
    is_missing: bool,
}

// What a get reads: a slot and the key's chunk, or all its reads.
#[derive(Clone, Copy)]
enum Looked {
    Slot(Slot, u32),
    Reads(u32),
}

fn puts_of(reply: &Reply) -> Option<&[u32]> {
    match reply {
        Reply::Found(puts) | Reply::Answer(puts) => Some(puts.as_slice()),
        Reply::Plain | Reply::Put(_) | Reply::Ticket(_, _) | Reply::Get(_) => None,
    }
}

fn differences(alloc: Global, due: &[u32], told: &[u32]) -> Result<Vec<Differing>, Refusal> {
    let mut found = Vec::new(alloc);
    let (mut in_due, mut in_told) = (0usize, 0usize);
    for turn in 0..due.len().saturating_add(told.len()) {
        let (one, other) = (due.get(in_due).copied(), told.get(in_told).copied());
        let Some(put) = earlier(one, other) else {
            break;
        };
        let is_due = one == Some(put);
        let is_told = other == Some(put);
        in_due = in_due.saturating_add(usize::from(is_due));
        in_told = in_told.saturating_add(usize::from(is_told));
        if is_due != is_told && found.len() < PUTS {
            found.push(Differing {
                put,
                is_missing: is_due,
            })?;
        }
    }
    Ok(found)
}

fn key_of(history: &[Entry], get: u32) -> Option<&Key> {
    let mut left = get;
    for entry in history {
        if let Event::StartGet(key) = &entry.event {
            if left == 0 {
                return Some(key);
            }
            left -= 1;
        }
    }
    None
}

fn start_of(history: &[Entry], put: u32) -> Option<usize> {
    let mut left = put;
    for (place, entry) in history.iter().enumerate() {
        if let Event::StartPut(_, _, _, _) = &entry.event {
            if left == 0 {
                return Some(place);
            }
            left -= 1;
        }
    }
    None
}

fn is_find(entry: &Entry, get: u32, put: u32) -> bool {
    match &entry.event {
        Event::Read(other, _) if *other == get => match puts_of(&entry.reply) {
            Some(puts) => puts.contains(&put),
            None => false,
        },
        _ => false,
    }
}

impl<'a> Trail<'a> {
    fn source_of(&self, event: &Event) -> Option<Looked> {
        match event {
            Event::EndGet(get) => Some(Looked::Reads(*get)),
            Event::Read(get, index) => {
                let key = key_of(self.history, *get)?;
                let at = place(self.ring.q(), key.as_slice());
                let partition = at.partition;
                let slot = Slot {
                    partition,
                    index: *index,
                };
                Some(Looked::Slot(slot, at.chunk))
            }
            _ => None,
        }
    }

    // Whether the entry brought the put where the get looked.
    fn brings(&self, entry: &Entry, source: Looked, put: u32) -> bool {
        match source {
            Looked::Reads(get) => is_find(entry, get, put),
            Looked::Slot(slot, _) => match &entry.event {
                Event::Write(other, index) | Event::Hint(other, index, _) => {
                    *other == put && *index == slot.index
                }
                _ => false,
            },
        }
    }

    // Whether the entry is the slot's step, a copy of its chunk, or a handoff to it.
    fn is_of_slot(&self, event: &Event, slot: Slot, chunk: u32) -> bool {
        match event {
            Event::Do(step) | Event::CloseCopy(step) => slot_of(self.plan, *step) == Some(slot),
            Event::ChunkCopy(step, copied) => {
                *copied == chunk && slot_of(self.plan, *step) == Some(slot)
            }
            Event::Handoff(_, other) => *other == slot,
            _ => false,
        }
    }

    fn deed(&self, event: &Event) -> &'static [u8] {
        match event {
            Event::Handoff(_, _) => b"hints of the slot go to its owner",
            Event::ChunkCopy(_, _) => b"the mirror is given the key's chunk",
            Event::CloseCopy(_) => b"the copy of the slot ends",
            Event::Do(step) => self.deed_of(*step),
            _ => b"",
        }
    }

    fn deed_of(&self, step: u32) -> &'static [u8] {
        if step >= self.plan.len() {
            return b"";
        }
        match self.plan.step(step) {
            Step::Mirror(_, _) => b"from here on writes of the slot go to a mirror too",
            Step::Switch(_) => b"the mirror becomes the owner of the slot",
            Step::Drop(_, _) => b"a former owner drops the slot",
            Step::Copy(_, _) | Step::Join(_) | Step::Retire(_) => b"",
        }
    }

    fn line_of(&self, place: usize) -> u32 {
        self.line
            .saturating_add(u32::try_from(place).unwrap_or(u32::MAX))
    }

    fn tell_bringers(&self, said: &mut Said, source: Looked, put: u32) {
        let mut shown = 0usize;
        for turn in 0..self.history.len() {
            let place = self.history.len() - 1 - turn;
            if self.brings(&self.history[place], source, put) {
                said.beside_with(self.line_of(place), b"put # came by this", &[], &[put]);
                shown = shown.saturating_add(1);
            }
            if shown == ENTRIES {
                break;
            }
        }
    }

    fn tell_put(&self, said: &mut Said, source: Looked, one: Differing) {
        self.tell_bringers(said, source, one.put);
        let Some(place) = start_of(self.history, one.put) else {
            said.note_with(b"There is no put # yet.", &[], &[one.put]);
            return;
        };
        let words: &[u8] = if one.is_missing {
            b"put # is missing in the reply"
        } else {
            b"put # should not be in the reply"
        };
        said.beside_with(self.line_of(place), words, &[], &[one.put]);
    }

    fn tell_steps(&self, said: &mut Said, slot: Slot, chunk: u32) {
        let mut shown = 0usize;
        for turn in 0..self.history.len() {
            let place = self.history.len() - 1 - turn;
            let event = &self.history[place].event;
            if self.is_of_slot(event, slot, chunk) {
                said.beside(self.line_of(place), self.deed(event));
                shown = shown.saturating_add(1);
            }
            if shown == STEPS {
                break;
            }
        }
    }

    /// Shows the puts that differ in a read, or in a get's end.
    ///
    /// Each put has its line, and the entries that brought it. A read also has the slot's last entries.
    pub(crate) fn tell(
        &self,
        alloc: Global,
        said: &mut Said,
        wrong: &Entry,
        due: &Reply,
    ) -> Result<(), Refusal> {
        let (Some(due), Some(told)) = (puts_of(due), puts_of(&wrong.reply)) else {
            return Ok(());
        };
        let Some(source) = self.source_of(&wrong.event) else {
            return Ok(());
        };
        if let Looked::Slot(slot, chunk) = source {
            self.tell_steps(said, slot, chunk);
        }
        let puts = differences(alloc, due, told)?;
        for one in puts.as_slice() {
            self.tell_put(said, source, *one);
        }
        Ok(())
    }
}
