//! Cuts a history to some partitions.

ghost use Rattle.std.specs.Prelude.{◌≡◌, ◌<◌, [], length, IfOk, OnOk, Some, None, if◌then◌else◌};
ghost use Rattle.history_laws.specs.Parts.{is_key_in, all_renumbered, is_kept, puts_after, gets_after, event_in, reply_in, or_none, is_marked, part_of};
ghost use Rattle.history_laws.specs.Cuts.{entry_next, after_event, first_cut};

use crate::marks::Marks;
use plan_runs::{Entry, Event, Reply, Seen};
use ring_names::Listed;
use ring_space::place;
use ring_table::Ring;
use std::alloc::{AllocError, Global};
use std::marker::Model;

/// Cuts a history to some partitions, entry by entry. Keeps eight bytes for each put and get.
#[derive(Drop)]
pub struct Cut<'a> {
    ring: &'a Ring,
    // by partition
    partitions: &'a [bool],
    puts: Marks,
    gets: Marks,
}

impl<'a> Model for Cut<'a> {
    ghost use Rattle.history_laws.specs.Cuts.{CutValue};

    ghost Value = { CutValue };

    ghost view = { λ a. record { ring = a.ring.now; partitions = a.partitions.now; puts = a.puts; gets = a.gets } };
}

// A put's gets, by their numbers in the part.
fn seen_in(alloc: Global, gets: &Marks, seen: &Seen) -> Result<Seen, AllocError>
    ensures { IfOk result (λ named. named ≡ all_renumbered gets.now seen.now) }
{
    let named = Seen::of(alloc, gets.all(alloc, seen.as_slice())?)?;
    match named {
        Some(named) => Ok(named),
        None => unreachable!(),
    }
}

impl<'a> Cut<'a> {
    /// Starts before any put or get.
    pub fn new(alloc: Global, ring: &'a Ring, partitions: &'a [bool]) -> Cut<'a>
        ensures { result ≡ first_cut ring.now partitions.now }
    {
        Cut {
            ring,
            partitions,
            puts: Marks::new(alloc),
            gets: Marks::new(alloc),
        }
    }

    // Whether the partition is in the part, or does not exist.
    fn is_in(&self, partition: u32) -> bool
        ensures { result ≡ or_none self.now.ring (is_marked self.now.partitions) partition }
    {
        let at = partition as usize;
        (at < self.partitions.len() && self.partitions[at]) || self.ring.q() <= partition
    }

    fn is_key_in(&self, key: &[u8]) -> bool
        ensures { result ≡ is_key_in self.now.ring (or_none self.now.ring (is_marked self.now.partitions)) key.now }
    {
        self.is_in(place(self.ring.q(), key).partition)
    }

    fn is_kept(&self, event: &Event) -> bool
        ensures { result ≡ is_kept self.now.ring (or_none self.now.ring (is_marked self.now.partitions)) self.now.puts self.now.gets event.now }
    {
        match event {
            Event::StartPut(_, key, _, _) => self.is_key_in(key.as_slice()),
            Event::Write(put, _) => self.puts.is_seen(*put),
            Event::Hint(put, _, _) => self.puts.is_seen(*put),
            Event::Ack(put) => self.puts.is_seen(*put),
            Event::StartGet(key) => self.is_key_in(key.as_slice()),
            Event::Read(get, _) => self.gets.is_seen(*get),
            Event::EndGet(get) => self.gets.is_seen(*get),
            Event::Handoff(_, slot) => self.is_in(slot.partition),
            Event::Do(_)
            | Event::OpenCopy(_)
            | Event::ChunkCopy(_, _)
            | Event::CloseCopy(_)
            | Event::AbortCopy(_)
            | Event::Down(_)
            | Event::Up(_)
            | Event::Lose(_) => true,
        }
    }

    fn event_in(&self, alloc: Global, event: &Event) -> Result<Event, AllocError>
        ensures { IfOk result (λ cut. cut ≡ event_in self.now.puts self.now.gets event.now) }
    {
        Ok(match event {
            Event::StartPut(writer, key, value, seen) => {
                let key = key.try_copy()?;
                let value = value.try_copy()?;
                let seen = seen_in(alloc, &self.gets, seen)?;
                Event::StartPut(*writer, key, value, seen)
            }
            Event::Write(put, index) => Event::Write(self.puts.renumbered(*put), *index),
            Event::Hint(put, index, node) => Event::Hint(self.puts.renumbered(*put), *index, *node),
            Event::Ack(put) => Event::Ack(self.puts.renumbered(*put)),
            Event::Read(get, index) => Event::Read(self.gets.renumbered(*get), *index),
            Event::EndGet(get) => Event::EndGet(self.gets.renumbered(*get)),
            _ => return event.try_copy(),
        })
    }

    fn reply_in(&self, alloc: Global, reply: &Reply) -> Result<Reply, AllocError>
        ensures { IfOk result (λ cut. cut ≡ reply_in self.now.puts self.now.gets reply.now) }
    {
        Ok(match reply {
            Reply::Plain => Reply::Plain,
            Reply::Put(put) => Reply::Put(self.puts.renumbered(*put)),
            Reply::Ticket(slot, generation) => Reply::Ticket(*slot, *generation),
            Reply::Get(get) => Reply::Get(self.gets.renumbered(*get)),
            Reply::Found(puts) => Reply::Found(Listed::from_vec(
                self.puts.all(alloc, puts.as_slice())?,
            )),
            Reply::Answer(puts) => Reply::Answer(Listed::from_vec(
                self.puts.all(alloc, puts.as_slice())?,
            )),
        })
    }

    // Notes whether a started put or get is in the part.
    fn note(&mut self, event: &Event, is_mine: bool) -> Result<(), AllocError>
        requires puts { length self.now.puts < 4294967295 }
        requires gets { length self.now.gets < 4294967295 }
        requires kept { is_mine ≡ is_kept self.now.ring (or_none self.now.ring (is_marked self.now.partitions)) self.now.puts self.now.gets event.now }
        ensures { OnOk result (self.new ≡ after_event self.old event.now) }
    {
        match event {
            Event::StartPut(_, _, _, _) => self.puts.add(is_mine),
            Event::StartGet(_) => self.gets.add(is_mine),
            _ => Ok(()),
        }
    }

    /// Returns the entry of the part, if the part has one. After an error `self` is not usable.
    pub fn entry(&mut self, alloc: Global, entry: &Entry) -> Result<Option<Entry>, AllocError>
        requires puts { length self.now.puts < 4294967295 }
        requires gets { length self.now.gets < 4294967295 }
        ensures entry { IfOk result (λ cut. cut ≡ entry_next self.old entry.now) }
        ensures after { OnOk result (self.new ≡ after_event self.old entry.now.event) }
    {
        let is_mine = self.is_kept(&entry.event);
        if !is_mine {
            self.note(&entry.event, is_mine)?;
            return Ok(None);
        }
        let event = self.event_in(alloc, &entry.event)?;
        self.note(&entry.event, is_mine)?;
        let reply = self.reply_in(alloc, &entry.reply)?;
        Ok(Some(Entry { event, reply }))
    }
}

/// Returns the part that these partitions see: all entries of steps, copies and nodes, and of their own puts, gets and
/// handoffs. Renumbers puts and gets.
pub fn part(
    alloc: Global,
    ring: &Ring,
    partitions: &[bool],
    entries: &[Entry],
) -> Result<Vec<Entry>, AllocError>
    requires { length entries.now < 4294967295 }
    ensures { IfOk result (λ part. part.items ≡ part_of ring.now (is_marked partitions.now) entries.now) }
{
    let mut cut = Cut::new(alloc, ring, partitions);
    let mut part = Vec::new(alloc);
    'entries: for entry in entries {
        if let Some(entry) = cut.entry(alloc, entry)? {
            part.push(entry)?;
        }
    }
    Ok(part)
}
