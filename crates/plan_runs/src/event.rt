//! Events of a store, and their replies.

ghost use Rattle.std.specs.Prelude.{◌≡◌, ◌++◌, IfOk, OnOk, map};
ghost use Rattle.std.specs.Fmt.{decimal};
ghost use Rattle.texts.specs.Parts.{spaced};
ghost use Rattle.plan_runs.specs.Replies.{reply_text};
ghost use Rattle.plan_runs.specs.declared.event.Event.TheVariants.{StartPut};

use crate::words::{Key, Seen};
use ring_names::{Listed, NodeId, Slot, Value, WriterId};
use std::alloc::AllocError;
use texts::push_numbers;

/// One event. A number names a step, or a put or get in order of start.
#[derive(Debug)]
pub enum Event {
    /// A step other than a copy is done.
    Do(u32),
    /// A copy begins, or continues after an abort.
    OpenCopy(u32),
    /// The mirror gets a chunk of an open copy.
    ChunkCopy(u32, u32),
    /// An open copy ends with all chunks marked.
    CloseCopy(u32),
    /// An open copy is aborted; its chunks stay marked.
    AbortCopy(u32),
    /// A writer that knows these gets' replies starts a put.
    StartPut(WriterId, Key, Value, Seen),
    /// A put is written to the indexed slot.
    Write(u32, u32),
    /// A stand-in keeps a put as a hint for the indexed slot.
    Hint(u32, u32, NodeId),
    /// A put is acknowledged.
    Ack(u32),
    /// A get starts.
    StartGet(Key),
    /// A get reads the indexed slot.
    Read(u32, u32),
    /// A get ends with its reply.
    EndGet(u32),
    /// A node goes down, with its data.
    Down(NodeId),
    /// A node is up again.
    Up(NodeId),
    /// A stand-in hands a slot's hints to the owner and mirror.
    Handoff(NodeId, Slot),
    /// A node loses its data and hints, and stays up or down.
    Lose(NodeId),
}

// Saves dependent crates from checking all sixteen kinds.
impl Drop for Event {
    fn drop(self) {
        match self {
            Event::StartPut(_, key, value, seen) => {
                drop(key);
                drop(value);
                drop(seen);
            }
            Event::StartGet(key) => drop(key),
            Event::Do(_)
            | Event::OpenCopy(_)
            | Event::ChunkCopy(_, _)
            | Event::CloseCopy(_)
            | Event::AbortCopy(_)
            | Event::Write(_, _)
            | Event::Hint(_, _, _)
            | Event::Ack(_)
            | Event::Read(_, _)
            | Event::EndGet(_)
            | Event::Down(_)
            | Event::Up(_)
            | Event::Handoff(_, _)
            | Event::Lose(_) => {}
        }
    }
}

/// The reply to an event.
#[derive(Debug)]
pub enum Reply {
    /// Done.
    Plain,
    /// The new put's number.
    Put(u32),
    /// The put's slot, and the slot's generation.
    Ticket(Slot, u32),
    /// The new get's number.
    Get(u32),
    /// The puts that a read found, ascending.
    Found(Listed<u32>),
    /// The puts that a get returns, ascending.
    Answer(Listed<u32>),
}

impl Drop for Reply {
    fn drop(self) {
        match self {
            Reply::Found(puts) | Reply::Answer(puts) => drop(puts),
            Reply::Plain | Reply::Put(_) | Reply::Ticket(_, _) | Reply::Get(_) => {}
        }
    }
}

/// An event with its reply.
#[derive(Debug, Drop)]
pub struct Entry {
    pub event: Event,
    pub reply: Reply,
}

impl Event {
    /// Copies the event without taking memory: shares key, value and gets. Fails only at 2^64 copies.
    pub fn try_copy(&self) -> Result<Event, AllocError>
        ensures { IfOk result (λ event. event ≡ self.now) }
    {
        Ok(match self {
            Event::Do(step) => Event::Do(*step),
            Event::OpenCopy(step) => Event::OpenCopy(*step),
            Event::ChunkCopy(step, chunk) => Event::ChunkCopy(*step, *chunk),
            Event::CloseCopy(step) => Event::CloseCopy(*step),
            Event::AbortCopy(step) => Event::AbortCopy(*step),
            Event::StartPut(writer, key, value, seen) => {
                return copied_put(*writer, key, value, seen);
            }
            Event::Write(put, index) => Event::Write(*put, *index),
            Event::Hint(put, index, node) => Event::Hint(*put, *index, *node),
            Event::Ack(put) => Event::Ack(*put),
            Event::StartGet(key) => Event::StartGet(key.try_copy()?),
            Event::Read(get, index) => Event::Read(*get, *index),
            Event::EndGet(get) => Event::EndGet(*get),
            Event::Down(node) => Event::Down(*node),
            Event::Up(node) => Event::Up(*node),
            Event::Handoff(node, slot) => Event::Handoff(*node, *slot),
            Event::Lose(node) => Event::Lose(*node),
        })
    }
}

fn copied_put(writer: WriterId, key: &Key, value: &Value, seen: &Seen) -> Result<Event, AllocError>
    ensures { IfOk result (λ event. event ≡ StartPut writer key.now value.now seen.now) }
{
    let key = key.try_copy()?;
    let value = value.try_copy()?;
    let seen = seen.try_copy()?;
    Ok(Event::StartPut(writer, key, value, seen))
}

impl Reply {
    /// Adds the reply's text, such as `ticket 0 1 2`; a reply without numbers is only its word.
    pub fn write_text(&self, out: &mut Vec<u8>) -> Result<(), AllocError>
        ensures { OnOk result (out.new.items ≡ out.old.items ++ reply_text self.now) }
    {
        match self {
            Reply::Plain => out.extend_from_slice(b"ok"),
            Reply::Put(number) => push_words(out, b"put", &[*number]),
            Reply::Ticket(slot, generation) => push_words(
                out,
                b"ticket",
                &[slot.partition, slot.index, *generation],
            ),
            Reply::Get(number) => push_words(out, b"get", &[*number]),
            Reply::Found(puts) => push_words(out, b"found", puts.as_slice()),
            Reply::Answer(puts) => push_words(out, b"reply", puts.as_slice()),
        }
    }
}

fn push_words(out: &mut Vec<u8>, word: &[u8], numbers: &[u32]) -> Result<(), AllocError>
    ensures { OnOk result (out.new.items ≡ out.old.items ++ word.now ++ spaced (map decimal numbers.now)) }
{
    out.extend_from_slice(word)?;
    push_numbers(out, numbers)
}
