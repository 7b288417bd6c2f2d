//! Cuts a bundle while reading it.

ghost use Rattle.std.specs.Prelude.{◌≡◌, ◌++◌, ℕ, List, codes, IfOk};
ghost use Rattle.ring_table.specs.Valid.{IsRing};
ghost use Rattle.history_laws.specs.Choices.{IsChoice};
ghost use Rattle.history_text.specs.Input.{Tells};
ghost use Rattle.history_text.specs.Room.{Holds};
ghost use Rattle.history_text.specs.Cutter.{HasRoom};
ghost use Rattle.history_text.specs.Cutting.{refusal_of, ReadsAll, CutsRest, CutsAll};
ghost use Rattle.history_text.specs.Cutting.{IsPartOf, IsCut};

use crate::cutter::{Cutter, Kept};
use crate::front::FrontText;
use crate::input::{CHUNK, read_some};
use crate::opening::{Opened, open};
use crate::place::Place;
use crate::reader::Reader;
use crate::room::PartText;
use history_laws::{Cut, mark_chosen};
use ring_names::{Choice, Refusal};
use std::alloc::Global;
use std::io::Read;

/// A part's bundle.
#[derive(Drop)]
pub struct Part {
    /// Its text, at most `MAX_INPUT` bytes.
    pub text: Vec<u8>,
    /// Its history's number of entries, at most 1,000,000.
    pub entries: u32,
    /// The wanted entry's place in the whole history, from 0, if the part has it.
    pub place: Option<u64>,
}

/// Why a part has no bundle.
#[derive(Clone, Copy, Debug, PartialEq, Eq)]
pub enum NoPart {
    /// The input is refused, or reading or memory failed.
    Refused(Refusal),
    /// The part would have so many entries and bytes: more than a replay takes.
    Large { entries: u64, bytes: u64 },
}

impl NoPart {
    /// Returns the refusal: `TooLarge(0)` for a part that is too large.
    pub fn refusal(&self) -> Refusal
        ensures { result ≡ refusal_of self.now }
    {
        match self {
            NoPart::Refused(refusal) => *refusal,
            NoPart::Large { .. } => Refusal::TooLarge(0),
        }
    }
}

// Reads the input to its end. A line of more than `MAX_INPUT` bytes is `TooLarge`.
fn read_history<R: Read + Drop>(
    alloc: Global,
    cutter: &mut Cutter,
    first: Vec<u8>,
    input: &mut R,
) -> Result<(), Refusal>
    requires { HasRoom cutter.old }
    ensures { (more : List ℕ) × Tells (R.remaining input.old) more × ReadsAll cutter.old cutter.new (first.items ++ more) result }
{
    let mut left = Vec::new(alloc);
    cutter.cut_some(alloc, &mut left, first.as_slice())?;
    drop(first);
    'reads: for turn in 0..u64::MAX {
        let more = read_some(alloc, input, CHUNK)?;
        if more.is_empty() {
            return cutter.reader.end(left.as_slice());
        }
        cutter.cut_some(alloc, &mut left, more.as_slice())?;
    }
    Err(Refusal::ReadFailed)
}

// The partitions of a part, and its entry whose place in the whole is asked for.
#[derive(Clone, Copy)]
struct PartChoice {
    choice: Choice,
    entry: u32,
}

#[derive(Drop)]
struct Unended {
    text: PartText,
    place: Option<u64>,
}

fn cut_history<R: Read + Drop>(
    alloc: Global,
    wanted: PartChoice,
    front: FrontText,
    first: Vec<u8>,
    input: &mut R,
) -> Result<Unended, Refusal>
    requires choice { IsChoice wanted.choice }
    requires valid { IsRing front.ring }
    ensures { (more : List ℕ) × Tells (R.remaining input.old) more × CutsRest wanted.choice wanted.entry front (first.items ++ more) result }
{
    let FrontText { ring, text, line } = front;
    let marks = mark_chosen(alloc, wanted.choice, ring.q())?;
    let mut part = PartText::of(text);
    part.push_text(b"history 1\n")?;
    let mut cutter = Cutter {
        reader: Reader::of(alloc, &ring, line),
        kept: Kept {
            cut: Cut::new(alloc, &ring, marks.as_slice()),
            part,
            place: Place::of(wanted.entry),
        },
    };
    read_history(alloc, &mut cutter, first, input)?;
    let Cutter { kept, .. } = cutter;
    Ok(Unended {
        text: kept.part,
        place: kept.place.found,
    })
}

fn read_part<R: Read + Drop>(
    alloc: Global,
    wanted: PartChoice,
    input: &mut R,
) -> Result<Unended, Refusal>
    requires { IsChoice wanted.choice }
    ensures { (bytes : List ℕ) × Tells (R.remaining input.old) bytes × CutsAll wanted.choice wanted.entry bytes result }
{
    let Opened { head, front } = open(alloc, input)?;
    let first = Vec::from_slice(alloc, &head.bytes.as_slice()[front.text.len()..])?;
    drop(head);
    cut_history(alloc, wanted, front, first, input)
}

fn end_part(unended: Unended) -> Result<Part, NoPart>
    ensures text { (t : List ℕ) (n : ℕ) → Holds unended.text t n → IsPartOf (t ++ codes "end\n") n result }
    ensures place { IfOk result (λ part. part.place ≡ unended.place) }
{
    let Unended {
        text: mut part,
        place,
    } = unended;
    match part.push_text(b"end\n") {
        Ok(()) => {
            if part.is_small() {
                Ok(Part {
                    entries: part.entries as u32,
                    text: part.text,
                    place,
                })
            } else {
                Err(NoPart::Large {
                    entries: part.entries,
                    bytes: part.bytes,
                })
            }
        }
        Err(_) => Err(NoPart::Refused(Refusal::OutOfMemory)),
    }
}

/// Reads a bundle to its end, and cuts it to what the chosen partitions see. Returns the part's bundle, and where its
/// entry `wanted` is in the whole.
///
/// Writers keep their numbers. The history may have any length. The front, a line and the part have at most `MAX_INPUT`
/// bytes.
///
/// Fails at the first faulty line, as `read_replay`. A longer line, and the 4,294,967,295th put or get, are `TooLarge`.
/// A front not whole within `MAX_INPUT` bytes is `TooLarge(0)`.
///
/// Keeps the front, the part and eight bytes for each put and get.
pub fn cut_stream<R: Read + Drop>(
    alloc: Global,
    choice: Choice,
    wanted: u32,
    input: &mut R,
) -> Result<Part, NoPart>
    requires { IsChoice choice }
    ensures { (bytes : List ℕ) × Tells (R.remaining input.old) bytes × IsCut choice wanted bytes result }
{
    let entry = wanted;
    match read_part(alloc, PartChoice { choice, entry }, input) {
        Ok(part) => end_part(part),
        Err(refusal) => Err(NoPart::Refused(refusal)),
    }
}
