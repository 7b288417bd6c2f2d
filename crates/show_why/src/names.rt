//! Undeclared names.

use crate::forms::{Part, part_of};
use crate::line::{Line, line_of, move_up};
use crate::near::Nearest;
use crate::page::{Page, field};
use crate::said::Said;
use ring_names::Refusal;
use std::alloc::Global;
use texts::Lines;

/// The ring's line that declares the name.
pub fn declared(page: Page, name: &[u8]) -> Option<u32> {
    let mut lines = Lines::of(page.after(3));
    for line in 4..1029u32 {
        let Ok(mut fields) = lines.next() else {
            return None;
        };
        if !fields.takes(b"node") {
            return None;
        }
        if fields.takes(name) {
            return Some(line);
        }
    }
    None
}

/// The place of a line's first node.
pub fn first_node(text: &[u8]) -> usize {
    let word = field(text, 0);
    let is_slot = word == b"mirror".as_slice() || word == b"drop".as_slice();
    if is_slot || word == b"hint".as_slice() {
        return 3;
    }
    if word == b"slots".as_slice() {
        return 2;
    }
    1
}

fn undeclared(page: Page, text: &[u8]) -> Option<usize> {
    let fields = text.split(|byte| *byte == b' ').enumerate();
    for (place, name) in fields.skip(first_node(text)) {
        if declared(page, name).is_none() {
            return Some(place);
        }
    }
    None
}

#[derive(Clone, Copy, PartialEq, Eq)]
enum WantedState {
    In,
    Out,
    Any,
}

impl WantedState {
    fn by(word: &[u8]) -> WantedState {
        if word == b"join".as_slice() {
            return WantedState::Out;
        }
        if word == b"leave".as_slice() || word == b"slots".as_slice() {
            return WantedState::In;
        }
        WantedState::Any
    }

    fn is_met(self, last: &[u8]) -> bool {
        match self {
            WantedState::In => last == b"in".as_slice(),
            WantedState::Out => last == b"out".as_slice(),
            WantedState::Any => true,
        }
    }
}

fn node_line(text: &[u8]) -> Option<(&[u8], &[u8])> {
    if field(text, 0) != b"node".as_slice() {
        return None;
    }
    let last = text
        .rsplit(|byte| *byte == b' ')
        .next()
        .unwrap_or(b"".as_slice());
    Some((field(text, 1), last))
}

fn nearest_name<'a>(
    alloc: Global,
    page: Page<'a>,
    name: &[u8],
    wanted: WantedState,
) -> Result<&'a [u8], Refusal> {
    let mut nearest = Nearest::new(name);
    for text in page.after(3).split(|byte| *byte == b'\n') {
        let Some((other, last)) = node_line(text) else {
            break;
        };
        if wanted.is_met(last) {
            nearest.look(alloc, name, other)?;
        }
    }
    Ok(nearest.word)
}

/// Reports an undeclared name, and a similar declared name.
pub fn unknown_node(
    alloc: Global,
    said: &mut Said,
    page: Page,
    number: u32,
) -> Result<(), Refusal> {
    let line = line_of(page, number);
    let place = undeclared(page, line.text).unwrap_or(first_node(line.text));
    let name = field(line.text, place);
    said.title_with(b"no node `@` is declared", &[name], &[]);
    line.part(said, place, b"not among the ring's `node` lines");
    if let Some(late) = declared_late(page, number, name) {
        said.beside(late, b"declared here, too late: nodes come before `slots`");
        move_up(page, said, late, first_row(page, number));
        return Ok(());
    }
    let wanted = WantedState::by(line.word());
    let near = nearest_name(alloc, page, name, wanted)?;
    if near.is_empty() {
        tell_choice(line, said, place, wanted);
        return Ok(());
    }
    said.mend_with(b"`@` was meant?", &[near], &[]);
    line.replace(said, place, near);
    Ok(())
}

// None unless the line is in the ring.
fn declared_late(page: Page, number: u32, name: &[u8]) -> Option<u32> {
    if part_of(page, number).0 != Part::Ring {
        return None;
    }
    let mut found = number;
    for text in page
        .after(number.saturating_sub(1))
        .split(|byte| *byte == b'\n')
    {
        match node_line(text) {
            Some((other, _)) if other == name => return Some(found),
            _ => {}
        }
        if text == b"end".as_slice() {
            return None;
        }
        found = found.saturating_add(1);
    }
    None
}

fn first_row(page: Page, number: u32) -> u32 {
    line_of(page, number).find(b"slots", 1).unwrap_or(number)
}

// If only one node can join, mends the name.
fn tell_choice(line: Line, said: &mut Said, place: usize, wanted: WantedState) {
    let (count, name) = push_choice(line.page, said, wanted);
    if count == 0 {
        return said.note(
            b"No node is declared `out`: give the ring a line `node <name> <allowance> out`.",
        );
    }
    said.add_note(b".\n");
    if count == 1 && wanted == WantedState::Out {
        said.mend_with(b"`@` was meant? No other can join.", &[name], &[]);
        line.replace(said, place, name);
    }
}

// Notes up to six nodes. Returns their number and the last.
fn push_choice<'a>(page: Page<'a>, said: &mut Said, wanted: WantedState) -> (u32, &'a [u8]) {
    let mut words: &[u8] = match wanted {
        WantedState::In => b"  Members are `@`",
        WantedState::Out => b"  Declared `out` are `@`",
        WantedState::Any => b"  Declared are `@`",
    };
    let (mut count, mut found) = (0u32, b"".as_slice());
    for text in page.after(3).split(|byte| *byte == b'\n') {
        let Some((name, last)) = node_line(text) else {
            break;
        };
        if wanted.is_met(last) {
            if count == 6 {
                said.add_note(b", ..");
                break;
            }
            said.add_note_with(words, &[name], &[]);
            (words, found) = (b", `@`", name);
            count = count.saturating_add(1);
        }
    }
    (count, found)
}
