//! Misplaced lines.

use crate::forms::{Part, called, form_of, forms};
use crate::line::{Line, move_up};
use crate::page::{field, number};
use crate::said::Said;

fn partitions(line: Line) -> u32 {
    number(field(line.page.text(2), 1)).unwrap_or(0)
}

/// Counts the `slots` lines before this line.
pub fn rows_before(line: Line) -> u32 {
    line.count(b"slots", line.number.saturating_sub(1))
}

// The words allowed here, mostly one.
fn due_in_ring(line: Line) -> [&'static [u8]; 2] {
    match line.number {
        0 | 1 => [b"ring", b"ring"],
        2 => [b"space", b"space"],
        3 => [b"quorum", b"quorum"],
        4 => [b"node", b"node"],
        _ => {
            let rows = rows_before(line);
            if rows == 0 {
                [b"slots", b"node"]
            } else if rows < partitions(line) {
                [b"slots", b"slots"]
            } else {
                [b"end", b"end"]
            }
        }
    }
}

fn is_due_in_cert(line: Line, word: &[u8]) -> bool {
    if word == b"fact".as_slice() {
        return !is_after_chains(line);
    }
    let is_split = word == b"take".as_slice() || word == b"give".as_slice();
    !is_split || line.page.line(1) != Some(b"ring 1".as_slice())
}

fn is_after_chains(line: Line) -> bool {
    first_chain(line) < line.number
}

fn first_chain(line: Line) -> u32 {
    let mut first = u32::MAX;
    for word in [b"chain".as_slice(), b"take".as_slice(), b"give".as_slice()] {
        first = first.min(line.find(word, line.start).unwrap_or(u32::MAX));
    }
    first
}

/// Whether a line with this word may stand here.
pub fn is_due(line: Line, word: &[u8]) -> bool {
    match line.part {
        Part::Ring => due_in_ring(line).contains(&word),
        Part::Change => word != b"join".as_slice() || !line.is_after(b"leave"),
        Part::Cert => is_due_in_cert(line, word),
        Part::Plan | Part::Behind | Part::Layout => true,
    }
}

/// Reports a known but misplaced line.
pub fn tell_order(line: Line, said: &mut Said) -> bool {
    if is_due(line, line.word()) {
        return false;
    }
    match line.part {
        Part::Ring => tell_in_ring(line, said),
        Part::Change => {
            line.whole(said, b"it stands too late: joins come first");
            if let Some(first) = line.find(b"leave", line.start) {
                move_up(line.page, said, line.number, first);
            }
        }
        _ if line.word() == b"fact".as_slice() => {
            line.whole(said, b"it stands too late: facts come first");
            move_up(line.page, said, line.number, first_chain(line));
        }
        _ => {
            line.part(said, 0, b"a ring of format 1 has only chains");
            said.mend(b"`chain` here");
            line.replace(said, 0, b"chain");
        }
    }
    true
}

fn tell_in_ring(line: Line, said: &mut Said) {
    let (word, due) = (line.word(), due_in_ring(line)[0]);
    if word == b"node".as_slice() && line.number > 4 {
        line.whole(said, b"it stands too late: nodes come before `slots`");
        if let Some(first) = line.find(b"slots", line.start) {
            move_up(line.page, said, line.number, first);
        }
        return;
    }
    if word == b"space".as_slice() && line.number > 2 {
        return tell_second(line, said, 2);
    }
    if word == b"quorum".as_slice() && line.number > 3 {
        return tell_second(line, said, 3);
    }
    if due == b"end".as_slice() || due == b"slots".as_slice() {
        return tell_count(line, said);
    }
    tell_early(line, said, due)
}

fn tell_second(line: Line, said: &mut Said, first: u32) {
    said.beside(first, b"the first");
    line.whole(said, b"a second one");
    line.take_out(said)
}

// Moves up the due line, if any.
fn tell_early(line: Line, said: &mut Said, due: &[u8]) {
    said.fault_with(
        line.number,
        b"it stands too early: `@` comes before it",
        &[due],
        &[],
    );
    if let Some(found) = line.find(due, line.number) {
        return move_up(line.page, said, found, line.number);
    }
    match count_rows(line) {
        Some(rows) if due == b"space".as_slice() => {
            said.mend_with(
                b"`space #` before it, as there are lines `slots`",
                &[],
                &[rows],
            );
            said.put(line.number);
            said.add_with(b"space #\n@\n", &[line.text], &[rows])
        }
        _ => {
            let form = form_of(Part::Ring, due).unwrap_or(b"".as_slice());
            said.note_with(b"Here must stand `@`.", &[form], &[])
        }
    }
}

fn tell_count(line: Line, said: &mut Said) {
    let (seen, wanted) = (rows_before(line), partitions(line));
    said.beside_with(2, b"# partitions", &[], &[wanted]);
    if seen < wanted {
        said.fault_with(line.number, b"`slots #` must come here", &[], &[seen]);
    } else {
        line.whole(said, b"one more than there are partitions");
    }
    mend_space(line, said)
}

/// Mends the line `space` by the number of lines `slots`.
pub fn mend_space(line: Line, said: &mut Said) {
    if let Some(rows) = count_rows(line) {
        said.mend_with(b"# partitions, as there are lines `slots`", &[], &[rows]);
        said.put(2);
        said.add_with(b"space #\n", &[], &[rows])
    }
}

fn count_rows(line: Line) -> Option<u32> {
    let rows = line.count(b"slots", u32::MAX);
    match rows {
        1 | 2 | 4 | 8 | 16 | 32 | 64 | 128 | 256 | 512 | 1024 | 2048 | 4096 => Some(rows),
        _ => None,
    }
}

/// Reports what may stand here. Mends the text if only `end` may.
pub fn tell_due(line: Line, said: &mut Said) {
    if line.part == Part::Ring && due_in_ring(line)[0] == b"end".as_slice() {
        return tell_end(line, said);
    }
    let mut words: &[u8] = b"  Here may stand: `@`";
    for form in forms(line.part) {
        if is_due(line, field(form, 0)) {
            said.add_note_with(words, &[form], &[]);
            words = b", `@`";
        }
    }
    said.add_note(b"\n")
}

/// Reports that `end` is missing before this line.
pub fn tell_end(line: Line, said: &mut Said) {
    said.note_with(
        b"The @ has no line `end` before it.",
        &[called(line.part)],
        &[],
    );
    said.mend(b"`end` before it");
    line.insert(said, b"end")
}

/// Whether this line begins the next part without an `end`.
pub fn begins_next(line: Line) -> bool {
    match line.part {
        Part::Ring => is_due(line, b"end") && is_head(line.text, b"change 1", b"plan 1"),
        Part::Plan => is_head(line.text, b"cert 1", b"cert 2"),
        Part::Cert => is_head(line.text, b"history 1", b"script 1"),
        Part::Change | Part::Behind | Part::Layout => false,
    }
}

fn is_head(text: &[u8], one: &[u8], other: &[u8]) -> bool {
    text == one || text == other
}
