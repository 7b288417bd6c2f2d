//! Faults in a line's fields.

use crate::forms::Part;
use crate::line::{Line, move_up};
use crate::names::declared;
use crate::near::Nearest;
use crate::order::{mend_space, rows_before};
use crate::page::{count_fields, field, number, place_of};
use crate::quorum::mend_slots;
use crate::said::Said;
use ring_names::Refusal;
use std::alloc::Global;
use texts::{are_name_bytes, is_name};

/// Reports which field departs from the line's form.
pub fn tell_fields(alloc: Global, line: Line, said: &mut Said, form: &[u8]) -> Result<(), Refusal> {
    if tell_name(line, said) {
        return Ok(());
    }
    if tell_node(alloc, line, said)? {
        return Ok(());
    }
    match wrong_field(line.text, form) {
        Some((place, fault)) => {
            tell_fault(line, said, place, fault);
            if field(form, place) == b"owner".as_slice() {
                guess(alloc, line, said, place, &[b"owner", b"slots"])?;
            }
        }
        None if tell_of_part(line, said) => return Ok(()),
        None => tell_count(alloc, line, said, form)?,
    }
    said.note_with(b"It is written `@`.", &[form], &[]);
    Ok(())
}

/// Reports a faulty field. Mends leading zeros.
pub fn tell_fault(line: Line, said: &mut Said, place: usize, fault: &[u8]) {
    line.part(said, place, fault);
    let word = field(line.text, place);
    let first = word.iter().position(|byte| *byte != b'0').unwrap_or(0);
    if 0 < first && first < word.len() && word.iter().all(|byte| byte.is_ascii_digit()) {
        said.mend(b"without it");
        line.replace(said, place, &word[first..]);
    }
}

fn tell_of_part(line: Line, said: &mut Said) -> bool {
    match line.part {
        Part::Ring => tell_space(line, said) || tell_loss(line, said) || tell_row(line, said),
        Part::Plan => tell_after(line, said),
        Part::Cert => tell_side(line, said),
        _ => false,
    }
}

fn guess(
    alloc: Global,
    line: Line,
    said: &mut Said,
    place: usize,
    choice: &[&'static [u8]],
) -> Result<(), Refusal> {
    let word = field(line.text, place);
    let mut nearest = Nearest::new(word);
    for other in choice {
        nearest.look(alloc, word, other)?;
    }
    if !nearest.word.is_empty() && nearest.word != word {
        said.mend_with(b"`@` was meant?", &[nearest.word], &[]);
        line.replace(said, place, nearest.word);
    }
    Ok(())
}

/// A number's fault.
pub fn number_fault(word: &[u8]) -> Option<&'static [u8]> {
    if word.is_empty() || !word.iter().all(|byte| byte.is_ascii_digit()) {
        return Some(b"no number");
    }
    if word.len() > 1 && word.first() == Some(&b'0') {
        return Some(b"a number has no zero in front");
    }
    None
}

/// A name's fault.
pub fn name_fault(word: &[u8]) -> Option<&'static [u8]> {
    if is_name(word) {
        return None;
    }
    if are_name_bytes(word) {
        return Some(b"too long: a name has 1 to 32 bytes");
    }
    Some(b"no name: 1 to 32 of a-z 0-9 _ . : -")
}

fn tell_name(line: Line, said: &mut Said) -> bool {
    let word = field(line.text, 1);
    let is_node = line.part == Part::Ring && line.word() == b"node".as_slice();
    let Some(fault) = name_fault(word) else {
        return false;
    };
    if !is_node || word.is_empty() {
        return false;
    }
    line.part(said, 1, fault);
    tell_alias(said, word);
    true
}

fn field_fault(word: &[u8], wanted: &[u8]) -> Option<&'static [u8]> {
    let is_name_wanted = wanted == b"<node>".as_slice() || wanted == b"<name>".as_slice();
    if is_name_wanted || wanted == b"<owner>".as_slice() {
        return name_fault(word);
    }
    if wanted == b"owner".as_slice() {
        if word != b"owner".as_slice() && word != b"slots".as_slice() {
            return Some(b"`owner`, or `slots` and slots of the partition");
        }
        return None;
    }
    if wanted.first() == Some(&b'<') {
        return number_fault(word);
    }
    None
}

fn wrong_field(text: &[u8], form: &[u8]) -> Option<(usize, &'static [u8])> {
    let is_row = field(form, 0) == b"slots".as_slice();
    let mut last: &[u8] = b"";
    let mut forms = form.split(|byte| *byte == b' ');
    for (place, word) in text.split(|byte| *byte == b' ').enumerate() {
        match forms.next() {
            Some(wanted) if wanted != b"..".as_slice() => last = wanted,
            Some(_) => {}
            None if is_row => {}
            None => return None,
        }
        if place > 0 {
            if let Some(fault) = field_fault(word, last) {
                return Some((place, fault));
            }
        }
    }
    None
}

fn tell_count(alloc: Global, line: Line, said: &mut Said, form: &[u8]) -> Result<(), Refusal> {
    let wanted = count_fields(form);
    let after = place_of(line.text, b"after").unwrap_or(usize::MAX);
    let count = count_fields(line.text).min(after);
    if count < wanted {
        line.whole(said, b"it has too few fields");
    } else if count > wanted && place_of(form, b"..").is_none() {
        line.part(said, wanted, b"more than the line has");
        if line.part == Part::Plan {
            guess(alloc, line, said, wanted, &[b"after"])?;
        }
    } else {
        line.whole(said, b"it does not end so");
    }
    Ok(())
}

fn after_fault(text: &[u8], after: usize) -> Option<(usize, &'static [u8])> {
    let mut last: Option<u32> = None;
    let steps = text.split(|byte| *byte == b' ').enumerate();
    for (at, word) in steps.skip(after.saturating_add(1)) {
        let Some(step) = number(word) else {
            return Some((at, b"no number of a step"));
        };
        if let Some(before) = last {
            if step <= before {
                return Some((at, b"the steps behind `after` rise, and each stands once"));
            }
        }
        last = Some(step);
    }
    if last.is_none() {
        return Some((after, b"no step stands behind it"));
    }
    None
}

fn tell_after(line: Line, said: &mut Said) -> bool {
    let Some(after) = place_of(line.text, b"after") else {
        return false;
    };
    let Some((place, fault)) = after_fault(line.text, after) else {
        return false;
    };
    line.part(said, place, fault);
    said.note(b"A step may end in `after` and the numbers of earlier steps, from low to high.");
    true
}

fn tell_space(line: Line, said: &mut Said) -> bool {
    let is_number = number(field(line.text, 1)).is_some() && count_fields(line.text) == 2;
    if line.word() != b"space".as_slice() || !is_number {
        return false;
    }
    line.part(said, 1, b"no power of two");
    said.note(b"A ring has 1, 2, 4, .. or 4096 partitions.");
    mend_space(line, said);
    true
}

fn tell_loss(line: Line, said: &mut Said) -> bool {
    let is_format_3 = line.page.line(1) == Some(b"ring 3".as_slice());
    if line.word() != b"quorum".as_slice() || count_fields(line.text) != 5 || is_format_3 {
        return false;
    }
    line.part(
        said,
        4,
        b"how many stores may be lost: a ring of format 3 says it",
    );
    said.note(b"Write `ring 3` in line 1 and `cert 2` in the certificate, or take the number out.");
    true
}

fn tell_other_row(line: Line, said: &mut Said, next: u32) {
    let at = line.page.at(line.number, 1, 1);
    said.fault_at_with(at, b"the next one is partition #", &[], &[next]);
    if let Some(row) = row_after(line, next) {
        move_up(line.page, said, row, line.number);
    }
}

fn tell_row(line: Line, said: &mut Said) -> bool {
    if line.word() != b"slots".as_slice() {
        return false;
    }
    let next = rows_before(line);
    match number(field(line.text, 1)) {
        Some(partition) if partition == next => {}
        Some(partition) if partition < next => {
            tell_row_again(line, said, partition, next);
            return true;
        }
        _ => {
            tell_other_row(line, said, next);
            return true;
        }
    }
    let wanted = number(field(line.page.text(3), 1)).unwrap_or(0);
    if count_fields(line.text).saturating_sub(2) == wanted as usize {
        return false;
    }
    if next == 0 && tell_rows(line, said, wanted) {
        return true;
    }
    said.fault_with(
        line.number,
        b"each partition has # slots, and so many owners",
        &[],
        &[wanted],
    );
    true
}

// Removes the line if the next partition's line follows. Otherwise renumbers it.
fn tell_row_again(line: Line, said: &mut Said, partition: u32, next: u32) {
    let first = line.number.saturating_sub(next.saturating_sub(partition));
    said.beside_with(first, b"partition #", &[], &[partition]);
    let at = line.page.at(line.number, 1, 1);
    said.fault_at_with(at, b"partition # a second time", &[], &[partition]);
    if row_after(line, next).is_some() {
        return line.take_out(said);
    }
    let (front, rest) = line.page.around(line.number, 1);
    said.mend_with(b"`slots #` here", &[], &[next]);
    said.put(line.number);
    said.add_with(b"@#@\n", &[front, rest], &[next])
}

// None if the lines differ.
fn owners_of_all(line: Line) -> Option<usize> {
    let count = count_fields(line.text).saturating_sub(2);
    let rest = line.page.after(line.number.saturating_sub(1));
    for text in rest.split(|byte| *byte == b'\n') {
        if field(text, 0) != b"slots".as_slice() {
            break;
        }
        if count_fields(text).saturating_sub(2) != count {
            return None;
        }
    }
    Some(count)
}

// For rows that all have another number of owners than the line `quorum`.
fn tell_rows(line: Line, said: &mut Said, wanted: u32) -> bool {
    let count = match owners_of_all(line) {
        Some(count) if 1 <= count && count <= 7 => texts::small(count),
        _ => return false,
    };
    said.title_with(
        b"partitions have # slots by the line `quorum`, and # owners each",
        &[],
        &[wanted, count],
    );
    said.fault_at_with(line.page.at(3, 1, 1), b"here # slots", &[], &[wanted]);
    said.beside_with(
        line.number,
        b"# owners, as in each line below",
        &[],
        &[count],
    );
    mend_slots(line.page, said, count);
    true
}

/// Notes that an alias can keep the name.
pub fn tell_alias(said: &mut Said, word: &[u8]) {
    said.note(b"A name has 1 to 32 of a-z 0-9 _ . : - and stands so wherever the node is named.");
    said.note_with(
        b"A layout keeps the name by which people know the node: `alias NAME @`.",
        &[word],
        &[],
    );
}

fn row_after(line: Line, partition: u32) -> Option<u32> {
    let mut found = line.number;
    let rest = line.page.after(line.number.saturating_sub(1));
    for text in rest.split(|byte| *byte == b'\n') {
        if field(text, 0) != b"slots".as_slice() {
            return None;
        }
        if number(field(text, 1)) == Some(partition) {
            return Some(found);
        }
        found = found.saturating_add(1);
    }
    None
}

fn tell_node(alloc: Global, line: Line, said: &mut Said) -> Result<bool, Refusal> {
    if line.part != Part::Ring || line.word() != b"node".as_slice() {
        return Ok(false);
    }
    if name_fault(field(line.text, 1)).is_some() || count_fields(line.text) < 4 {
        return Ok(false);
    }
    let count = count_fields(line.text);
    let last = if count > 4 && number(field(line.text, 3)).is_some() {
        4
    } else {
        3
    };
    for place in 2..last {
        if let Some(fault) = allowance_fault(field(line.text, place)) {
            tell_fault(line, said, place, fault);
            return Ok(true);
        }
    }
    if last == 4 && line.page.line(1) == Some(b"ring 1".as_slice()) {
        tell_second(line, said);
        return Ok(true);
    }
    tell_membership(alloc, line, said, last)
}

fn tell_second(line: Line, said: &mut Said) {
    line.part(
        said,
        3,
        b"a second allowance: a ring of format 2 or 3 gives one",
    );
    said.note(b"Write `ring 2` in line 1 and `cert 2` in the certificate, or take the number out.")
}

// Limits are checked elsewhere.
fn allowance_fault(word: &[u8]) -> Option<&'static [u8]> {
    if word == b"0".as_slice() {
        return Some(b"an allowance is 1 to 64");
    }
    number_fault(word)
}

fn tell_membership(
    alloc: Global,
    line: Line,
    said: &mut Said,
    place: usize,
) -> Result<bool, Refusal> {
    let word = field(line.text, place);
    if word == b"in".as_slice() || word == b"out".as_slice() {
        return Ok(false);
    }
    line.part(
        said,
        place,
        b"`in` for a member, or `out` for a node that may join",
    );
    guess(alloc, line, said, place, &[b"in", b"out"])?;
    Ok(true)
}

// Reports a split chain of a node that is not split, or the reverse.
fn tell_side(line: Line, said: &mut Said) -> bool {
    let Some(node) = declared(line.page, field(line.text, 1)) else {
        return false;
    };
    let is_split = number(field(line.page.text(node), 3)).is_some();
    let is_chain = line.word() == b"chain".as_slice();
    if line.word() == b"fact".as_slice() || is_chain != is_split {
        return false;
    }
    said.beside(node, b"");
    if is_split {
        line.part(
            said,
            0,
            b"the node has two allowances: it has chains `take` and `give`",
        );
        return true;
    }
    line.part(
        said,
        0,
        b"the node has one allowance: it has chains `chain`",
    );
    said.mend(b"`chain` here");
    line.replace(said, 0, b"chain");
    true
}
