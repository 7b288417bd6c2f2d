//! Bundles cut to a part while they are read. Read sizes do not change the part. Other inputs are refused.

ghost use Rattle.std.specs.Prelude.{◌<◌, Some};
ghost use Rattle.history_laws.specs.Choices.{IsChoice};

use crate::answering::{CHAINS, MOVE_STEPS, RING};
use history_laws::{mark_chosen, part};
use history_text::{NoPart, Part, cut_stream, push_entry, read_replay};
use ring_names::{Choice, Refusal};
use std::alloc::Global;
use std::io;
use std::io::Read;
use std::process::Abort;
use std::test::Fail;

// Gives the bytes, at most `step` a call.
#[derive(Drop)]
struct Steps<'a> {
    rest: &'a [u8],
    step: usize,
    ghost some: { 0 < step },
}

impl<'a> Read for Steps<'a> {
    ghost remaining = { λ r. Some r.rest.now };

    fn read(&mut self, buf: &mut [u8]) -> io::Result<usize> {
        let count = self.rest.len().min(buf.len()).min(self.step);
        let (front, rest) = self.rest.split_at(count);
        buf[..count].copy_from_slice(front);
        self.rest = rest;
        Ok(count)
    }
}

// Gives the bytes, then fails.
#[derive(Drop)]
struct Fails<'a> {
    rest: &'a [u8],
}

impl<'a> Read for Fails<'a> {
    ghost remaining = { λ r. Some r.rest.now };

    fn read(&mut self, buf: &mut [u8]) -> io::Result<usize> {
        if self.rest.is_empty() {
            return Err(io::Error::from(io::ErrorKind::TimedOut));
        }
        let count = self.rest.len().min(buf.len());
        let (front, rest) = self.rest.split_at(count);
        buf[..count].copy_from_slice(front);
        self.rest = rest;
        Ok(count)
    }
}

// Gives the front, several turns, and the end.
#[derive(Drop)]
struct Turns<'a> {
    front: &'a [u8],
    turn: &'a [u8],
    left: u32,
    end: &'a [u8],
    at: usize,
}

impl<'a> Read for Turns<'a> {
    fn read(&mut self, buf: &mut [u8]) -> io::Result<usize> {
        if self.at >= self.front.len() && self.left > 0 {
            self.front = self.turn;
            self.left -= 1;
            self.at = 0;
        }
        if self.at >= self.front.len() {
            self.front = self.end;
            self.end = b"";
            self.at = 0;
        }
        let rest = &self.front[self.at..];
        let count = rest.len().min(buf.len());
        buf[..count].copy_from_slice(&rest[..count]);
        self.at += count;
        Ok(count)
    }
}

// A history over keys of partitions 0 and 2.
const HISTORY: &[u8] = b"\
history 1
put w1 a x31 = put 0
put w1 b x32 = put 1
do 0 = ok
down c = ok
write 1 0 = ticket 2 0 0
write 0 0 = ticket 0 0 0
hint 0 2 d = ticket 0 2 0
ack 1 = ok
up c = ok
get b = get 0
get a = get 1
read 0 0 = found 1
read 1 2 = found 0
endget 0 = reply 1
endget 1 = reply 0
handoff d 0 2 = ok
put w2 b x33 seen 0 = put 2
write 2 1 = ticket 2 1 0
put w2 a x34 seen 1 = put 3
ack 9 = ok
end
";

// That history as partition 0 sees it.
const OF_ZERO: &[u8] = b"\
history 1
put w1 a x31 = put 0
do 0 = ok
down c = ok
write 0 0 = ticket 0 0 0
hint 0 2 d = ticket 0 2 0
up c = ok
get a = get 0
read 0 2 = found 0
endget 0 = reply 0
handoff d 0 2 = ok
put w2 a x34 seen 0 = put 1
ack 2 = ok
end
";

fn bundle(alloc: Global, history: &[u8]) -> Result<Vec<u8>, Fail> {
    let mut text = Vec::from_slice(alloc, RING)?;
    text.extend_from_slice(MOVE_STEPS)?;
    text.extend_from_slice(CHAINS)?;
    text.extend_from_slice(history)?;
    Ok(text)
}

fn cut(alloc: Global, choice: Choice, bytes: &[u8], step: usize) -> Result<Part, NoPart>
    requires step { 0 < step }
    requires choice { IsChoice choice }
{
    let mut input = Steps { rest: bytes, step };
    cut_stream(alloc, choice, 0, &mut input)
}

fn refused<RT: AllocGlobal + Abort>(rt: &RT, bytes: &[u8], wanted: Refusal) -> Result<(), Fail> {
    for step in [100usize, 65_536] {
        match cut(rt.alloc(), Choice::Share { of: 4, part: 0 }, bytes, step) {
            Ok(_) => assert!(rt; false),
            Err(found) => assert!(rt; found.refusal() == wanted),
        }
    }
    Ok(())
}

fn text_of<RT: AllocGlobal + Abort>(rt: &RT, found: Result<Part, NoPart>) -> Result<Vec<u8>, Fail> {
    match found {
        Ok(part) => Ok(part.text),
        Err(found) => Err(Fail::from(found.refusal())),
    }
}

// The part cut from the whole history in memory.
fn wanted<RT: AllocGlobal + Abort>(rt: &RT, choice: Choice, bytes: &[u8]) -> Result<Vec<u8>, Fail>
    requires { IsChoice choice }
{
    let whole = read_replay(rt.alloc(), bytes)?;
    assert!(rt; whole.history.len() <= 1000);
    let marks = mark_chosen(rt.alloc(), choice, whole.ring.q())?;
    let entries = part(
        rt.alloc(),
        &whole.ring,
        marks.as_slice(),
        whole.history.as_slice(),
    )?;
    let mut text = bundle(rt.alloc(), b"history 1\n")?;
    for entry in entries.as_slice() {
        push_entry(&mut text, &whole.ring, &whole.writers, entry)?;
    }
    text.extend_from_slice(b"end\n")?;
    Ok(text)
}

#[test]
fn a_part_is_the_same_whatever_the_reads_give(rt: HostRuntime) -> Result<(), Fail> {
    let whole = bundle(rt.alloc(), HISTORY)?;
    let of_zero = bundle(rt.alloc(), OF_ZERO)?;
    for step in [1usize, 7, 65_536] {
        let found = cut(
            rt.alloc(),
            Choice::Share { of: 4, part: 0 },
            whole.as_slice(),
            step,
        );
        let text = text_of(&rt, found)?;
        assert!(rt; text.as_slice() == of_zero.as_slice());
    }
    Ok(())
}

#[test]
fn a_part_is_that_of_the_whole(rt: HostRuntime) -> Result<(), Fail> {
    let whole = bundle(rt.alloc(), HISTORY)?;
    for choice in [
        Choice::Share { of: 1, part: 0 },
        Choice::Share { of: 4, part: 2 },
        Choice::Share { of: 4, part: 3 },
        Choice::Range { first: 0, last: 2 },
        Choice::Range { first: 3, last: 9 },
    ] {
        let found = cut(rt.alloc(), choice, whole.as_slice(), 7);
        let text = text_of(&rt, found)?;
        let same = wanted(&rt, choice, whole.as_slice())?;
        assert!(rt; text.as_slice() == same.as_slice());
    }
    Ok(())
}

#[test]
fn entries_are_mapped_back(rt: HostRuntime) -> Result<(), Fail> {
    let whole = bundle(rt.alloc(), HISTORY)?;
    for (entry, wanted) in [
        (0u32, Some(0u64)),
        (1, Some(2)),
        (3, Some(5)),
        (7, Some(12)),
        (11, Some(19)),
        (12, None),
    ] {
        let mut input = Steps {
            rest: whole.as_slice(),
            step: 7,
        };
        match cut_stream(
            rt.alloc(),
            Choice::Share { of: 4, part: 0 },
            entry,
            &mut input,
        ) {
            Ok(part) => assert!(rt; part.place == wanted),
            Err(_) => assert!(rt; false),
        }
    }
    Ok(())
}

// 1,000,001 entries are too many, one fewer is not.
#[test]
fn a_part_has_a_million_entries_at_most(rt: HostRuntime) -> Result<(), Fail> {
    let front = bundle(rt.alloc(), b"history 1\n")?;
    for (left, wanted) in [(1_000_000u32, None), (1_000_001, Some(1_000_001u64))] {
        let mut input = Turns {
            front: front.as_slice(),
            turn: b"up a = ok\n",
            left,
            end: b"end\n",
            at: 0,
        };
        match cut_stream(
            rt.alloc(),
            Choice::Share { of: 4, part: 0 },
            999_999,
            &mut input,
        ) {
            Ok(part) => {
                assert!(rt; wanted.is_none());
                assert!(rt; part.entries == 1_000_000);
                assert!(rt; part.place == Some(999_999));
            }
            Err(NoPart::Large { entries, bytes }) => {
                assert!(rt; wanted == Some(entries));
                assert!(rt; bytes == (front.len() as u64).saturating_add(10_000_014));
            }
            Err(_) => assert!(rt; false),
        }
    }
    Ok(())
}

// The front has 23 lines, so `history 1` is line 24.
#[test]
fn faults_are_at_their_lines(rt: HostRuntime) -> Result<(), Fail> {
    for (history, wanted) in [
        (b"history 2\nend\n".as_slice(), Refusal::BadLine(24)),
        (b"history 1\n".as_slice(), Refusal::BadLine(25)),
        (b"history 1\ndown c = ok\n".as_slice(), Refusal::BadLine(26)),
        (
            b"history 1\ndown c = ok\nend".as_slice(),
            Refusal::BadLine(26),
        ),
        (
            b"history 1\ndown e = ok\nend\n".as_slice(),
            Refusal::UnknownNode(25),
        ),
        (b"history 1\ndown c\nend\n".as_slice(), Refusal::BadLine(25)),
        (
            b"history 1\nack 4294967296 = ok\nend\n".as_slice(),
            Refusal::TooLarge(25),
        ),
        (b"history 1\nend 1\n".as_slice(), Refusal::BadLine(25)),
        (b"history 1\nend\nend\n".as_slice(), Refusal::BadLine(26)),
        (b"history 1\nend\ne".as_slice(), Refusal::BadLine(26)),
    ] {
        let whole = bundle(rt.alloc(), history)?;
        refused(&rt, whole.as_slice(), wanted)?;
    }
    refused(&rt, b"ring 4\n", Refusal::BadLine(1))?;
    refused(&rt, RING, Refusal::BadLine(13))
}

#[test]
fn a_read_may_fail(rt: HostRuntime) -> Result<(), Fail> {
    let whole = bundle(rt.alloc(), HISTORY)?;
    let mut input = Fails {
        rest: whole.as_slice(),
    };
    match cut_stream(rt.alloc(), Choice::Share { of: 4, part: 0 }, 0, &mut input) {
        Ok(_) => assert!(rt; false),
        Err(found) => assert!(rt; found == NoPart::Refused(Refusal::ReadFailed)),
    }
    Ok(())
}
