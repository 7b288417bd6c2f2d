//! Events, by a line's first word and other fields.

ghost use Rattle.std.specs.Prelude.{◌≡◌, Some};
ghost use Rattle.std.specs.Map.{lookup};
ghost use Rattle.std.specs.Str.{bytes_eq};
ghost use Rattle.texts.specs.Judging.{Does};
ghost use Rattle.script_text.specs.Reading.{kind_at, shape_at};
ghost use Rattle.script_text.specs.Shapes.{words, shape_of};

use crate::items::{count, handoff, hint, key, pair, put};
use crate::said::SaidEvent::{self, Plain};
use plan_runs::Event;
use ring_names::{Names, Refusal, Slot};
use ring_table::{Ring, node_field};
use texts::Fields;

#[derive(Clone, Copy)]
enum EventWord {
    Do,
    Open,
    Chunk,
    Close,
    Abort,
    Put,
    Write,
    Hint,
    Ack,
    Get,
    Read,
    EndGet,
    Down,
    Up,
    Handoff,
    Lose,
}

impl EventWord {
    fn of(word: &[u8]) -> Option<EventWord>
        ensures { result ≡ lookup (bytes_eq word.now) words }
    {
        match word {
            b"do" => Some(EventWord::Do),
            b"open" => Some(EventWord::Open),
            b"chunk" => Some(EventWord::Chunk),
            b"close" => Some(EventWord::Close),
            b"abort" => Some(EventWord::Abort),
            b"put" => Some(EventWord::Put),
            b"write" => Some(EventWord::Write),
            b"hint" => Some(EventWord::Hint),
            b"ack" => Some(EventWord::Ack),
            b"get" => Some(EventWord::Get),
            b"read" => Some(EventWord::Read),
            b"endget" => Some(EventWord::EndGet),
            b"down" => Some(EventWord::Down),
            b"up" => Some(EventWord::Up),
            b"handoff" => Some(EventWord::Handoff),
            b"lose" => Some(EventWord::Lose),
            _ => None,
        }
    }
}

// Reads the fields after the first word. Inlined into readers of scripts and histories: a call for each line would cost
// more.
#[inline(always)]
fn said_behind<'a>(
    word: EventWord,
    ring: &Ring,
    names: &Names,
    fields: &mut Fields<'a>,
) -> Result<SaidEvent<'a>, Refusal>
    ensures { Does (λ k. shape_at ring.now names.now k (Some (shape_of word))) fields.old result fields.new }
{
    match word {
        EventWord::Do => count(fields).map(|step| Plain(Event::Do(step))),
        EventWord::Open => count(fields).map(|step| Plain(Event::OpenCopy(step))),
        EventWord::Chunk => pair(fields).map(|(step, chunk)| Plain(Event::ChunkCopy(step, chunk))),
        EventWord::Close => count(fields).map(|step| Plain(Event::CloseCopy(step))),
        EventWord::Abort => count(fields).map(|step| Plain(Event::AbortCopy(step))),
        EventWord::Put => {
            let put = put(names, fields)?;
            Ok(SaidEvent::Put(put))
        }
        EventWord::Write => pair(fields).map(|(put, index)| Plain(Event::Write(put, index))),
        EventWord::Hint => {
            hint(ring, fields).map(|((put, index), node)| Plain(Event::Hint(put, index, node)))
        }
        EventWord::Ack => count(fields).map(|put| Plain(Event::Ack(put))),
        EventWord::Get => key(fields).map(|key| SaidEvent::Get(key)),
        EventWord::Read => pair(fields).map(|(get, index)| Plain(Event::Read(get, index))),
        EventWord::EndGet => count(fields).map(|get| Plain(Event::EndGet(get))),
        EventWord::Down => node_field(ring, None, fields).map(|node| Plain(Event::Down(node))),
        EventWord::Up => node_field(ring, None, fields).map(|node| Plain(Event::Up(node))),
        EventWord::Handoff => handoff(ring, fields).map(|(node, (partition, index))| {
            Plain(Event::Handoff(node, Slot { partition, index }))
        }),
        EventWord::Lose => node_field(ring, None, fields).map(|node| Plain(Event::Lose(node))),
    }
}

/// Reads an event's line.
///
/// A wrong field is `BadLine`. A number above 4,294,967,295, more than 16 gets and a writer after 1,024 are `TooLarge`.
/// `BadLine` comes first.
#[inline(always)]
#[tactic(auto, unfolding(crate::specs::Reading::kind_at))]
pub fn said_event<'a>(
    ring: &Ring,
    names: &Names,
    fields: &mut Fields<'a>,
) -> Result<SaidEvent<'a>, Refusal>
    ensures { Does (kind_at ring.now names.now) fields.old result fields.new }
{
    let line = fields.line();
    let Some(word) = fields.next() else {
        return Err(Refusal::BadLine(line));
    };
    let Some(word) = EventWord::of(word) else {
        return Err(Refusal::BadLine(line));
    };
    said_behind(word, ring, names, fields)
}
