//! Exceeded limits.

use crate::forms::Part;
use crate::line::{Line, line_of};
use crate::order::mend_space;
use crate::page::{Page, count_fields, field, number, place_of};
use crate::said::Said;

// A field beyond a limit, and the limit in words. `#` is the number.
#[derive(Clone, Copy)]
struct OverLimit {
    place: usize,
    words: &'static [u8],
    number: u32,
}

/// Reports the exceeded limit.
pub fn too_large(said: &mut Said, page: Page, number: u32) {
    if number == 0 {
        return said.title(b"the bundle is larger than 67,108,864 bytes");
    }
    let line = line_of(page, number);
    said.title_with(
        b"a number or a count in line # is above its limit",
        &[],
        &[number],
    );
    let found = match line.part {
        Part::Ring => in_ring(line),
        Part::Plan => in_plan(line),
        Part::Cert => in_cert(line),
        Part::Change | Part::Behind | Part::Layout => large_number(line, 0),
    };
    match found {
        Some(excess) => {
            let at = page.at(number, excess.place, excess.place);
            said.fault_at_with(at, excess.words, &[], &[excess.number])
        }
        None => line.whole(said, crowd(line)),
    }
    if line.word() == b"space".as_slice() {
        mend_space(line, said)
    }
}

/// Whether the word is a number above the limit.
pub fn is_above(word: &[u8], limit: u32) -> bool {
    match number(word) {
        Some(value) => value > limit,
        None => !word.is_empty() && word.iter().all(|byte| byte.is_ascii_digit()),
    }
}

fn above(line: Line, place: usize, limit: u32, words: &'static [u8]) -> Option<OverLimit> {
    if is_above(field(line.text, place), limit) {
        let number = limit;
        return Some(OverLimit {
            place,
            words,
            number,
        });
    }
    None
}

fn large_number(line: Line, first: usize) -> Option<OverLimit> {
    for (place, word) in line.text.split(|byte| *byte == b' ').enumerate() {
        if place >= first && number(word).is_none() && is_above(word, 0) {
            return Some(OverLimit {
                place,
                words: b"a number is at most 4,294,967,295",
                number: 0,
            });
        }
    }
    None
}

fn in_ring(line: Line) -> Option<OverLimit> {
    let word = line.word();
    if word == b"space".as_slice() {
        return above(line, 1, 4096, b"a ring has at most # partitions");
    }
    if word == b"quorum".as_slice() {
        let slots: &[u8] = b"a partition has at most # slots";
        let read: &[u8] = b"a read asks for at most # slots";
        let write: &[u8] = b"a write asks for at most # slots";
        return above(line, 1, 7, slots)
            .or(above(line, 2, 7, read))
            .or(above(line, 3, 7, write))
            .or(above(line, 4, 6, b"at most # stores may be lost"));
    }
    let words: &[u8] = b"an allowance is 1 to #";
    above(line, 2, 64, words).or(above(line, 3, 64, words))
}

fn in_plan(line: Line) -> Option<OverLimit> {
    let word = line.word();
    if word == b"join".as_slice() || word == b"retire".as_slice() {
        return large_number(line, 2);
    }
    let partitions = number(field(line.page.text(2), 1)).unwrap_or(1);
    let slots = number(field(line.page.text(3), 1)).unwrap_or(1);
    let words: &[u8] = b"slots are 0 to #";
    let last = slots.saturating_sub(1);
    above(
        line,
        1,
        partitions.saturating_sub(1),
        b"partitions are 0 to #",
    )
    .or(above(line, 2, last, words))
    .or(listed(line, last, words))
    .or(large_number(line, 3))
}

// A slot that the ring lacks, or the eighth slot.
fn listed(line: Line, last: u32, words: &'static [u8]) -> Option<OverLimit> {
    if field(line.text, 3) != b"slots".as_slice() {
        return None;
    }
    let after = place_of(line.text, b"after").unwrap_or(usize::MAX);
    for (place, word) in line.text.split(|byte| *byte == b' ').enumerate() {
        if place >= after {
            return None;
        }
        if place > 10 {
            let words: &[u8] = b"a copy lists at most # slots";
            let number = 7;
            return Some(OverLimit {
                place,
                words,
                number,
            });
        }
        if place > 3 && is_above(word, last) {
            let number = last;
            return Some(OverLimit {
                place,
                words,
                number,
            });
        }
    }
    None
}

fn in_cert(line: Line) -> Option<OverLimit> {
    let first = if line.word() == b"fact".as_slice() {
        1
    } else {
        2
    };
    large_number(line, first)
}

// The exceeded limit, if no number is too large.
fn crowd(line: Line) -> &'static [u8] {
    let before = line.number.saturating_sub(line.start).saturating_sub(1);
    match line.part {
        Part::Ring => b"a ring has at most 1,024 nodes",
        Part::Plan if before >= 131_072 => b"a plan has at most 131,072 steps",
        Part::Plan if count_fields(line.text) > 4096 => b"a step waits for at most 4,096 steps",
        Part::Plan => b"the steps of a plan wait for at most 524,288 steps in all",
        Part::Cert if line.word() != b"fact".as_slice() =>
            b"a certificate has at most 65,536 chains",
        Part::Cert if before >= 262_144 => b"a certificate has at most 262,144 facts",
        Part::Cert => b"a fact has at most 1,024 steps",
        Part::Change | Part::Layout => b"here",
        Part::Behind =>
            b"a put names at most 16 gets; a text has at most 1,000,000 events and 1,024 writers",
    }
}
