//! Faults in layouts.

use crate::amounts::{Manner, manner_of, push_digits, push_long, value_of};
use crate::fields::{name_fault, number_fault, tell_fault};
use crate::foreign::{is_binary, tell_coded};
use crate::forms::{Part, form_of};
use crate::limits::is_above;
use crate::line::Line;
use crate::lines::{tell_unfinished, tell_unknown};
use crate::page::{Page, count_fields, field, number};
use crate::said::Said;
use crate::spacing::tell_blanks;
use ring_names::Refusal;
use std::alloc::Global;
use std::str;
use texts::{Words, are_name_bytes};

const MOST: u64 = 281_474_976_710_655;

const LONGEST: usize = 255;

/// Reports why a layout is refused. The title follows file and line number.
pub fn tell_layout(
    alloc: Global,
    said: &mut Said,
    bytes: &[u8],
    refusal: &Refusal,
) -> Result<(), Refusal> {
    let page = Page { bytes };
    match refusal {
        Refusal::BadLine(number) => return bad_line(alloc, said, line_of(page, *number)),
        Refusal::TooLarge(0) => said.title(b"it is larger than 67,108,864 bytes"),
        Refusal::TooLarge(number) => too_large(said, line_of(page, *number)),
        Refusal::Repeated(number) => repeated(said, line_of(page, *number)),
        _ => said.title(b"it cannot be read"),
    }
    Ok(())
}

fn line_of(page: Page, number: u32) -> Line {
    Line {
        page,
        number,
        text: page.text(number),
        part: Part::Layout,
        start: 1,
    }
}

fn bad_line(alloc: Global, said: &mut Said, line: Line) -> Result<(), Refusal> {
    let is_told = line.number == 1 && tell_other_kind(line, said)
        || tell_end_of_text(line, said)
        || tell_more(line, said)
        || tell_blanks(line, said)
        || line.number == 1 && tell_head(line, said);
    if is_told {
        return Ok(());
    }
    match form_of(Part::Layout, line.word()) {
        Some(form) => {
            tell_fields(alloc, line, said, form);
            Ok(())
        }
        None => {
            said.title(b"no line of a layout begins so");
            tell_unknown(alloc, line, said)
        }
    }
}

fn tell_other_kind(line: Line, said: &mut Said) -> bool {
    if tell_coded(line.page, said, b"it") {
        return true;
    }
    let is_text = str::from_utf8(line.page.bytes).is_ok() || !is_binary(line.page);
    if !is_text {
        said.title(b"it is not a text");
    }
    !is_text
}

fn tell_end_of_text(line: Line, said: &mut Said) -> bool {
    if line.page.line(line.number).is_some() {
        let is_unfinished = line.page.is_unfinished(line.number);
        if is_unfinished {
            tell_unfinished(line, said);
        }
        return is_unfinished;
    }
    if line.number <= 1 {
        said.title(b"it is empty");
        said.note(b"A layout is `layout 1`, lines of what is known, and `end`.");
        return true;
    }
    let last = line.number.saturating_sub(1);
    said.title(b"its line `end` is missing");
    said.beside(last, b"the last line");
    said.mend(b"`end` after the last line");
    said.put(last);
    said.add_with(b"@\nend\n", &[line.page.text(last)], &[]);
    true
}

fn tell_more(line: Line, said: &mut Said) -> bool {
    if line.page.section(line.number).number == 0 {
        return false;
    }
    said.title(b"it stands after the line `end`, which is the last");
    line.whole(said, b"more than a layout");
    true
}

fn tell_head(line: Line, said: &mut Said) -> bool {
    said.title(b"a layout begins with `layout 1`");
    let word = line.word();
    let format = number(field(line.text, 1)).unwrap_or(0);
    if word == b"layout".as_slice() && format > 1 {
        said.title_with(
            b"the layout has format #, and this program reads 1",
            &[],
            &[format],
        );
        line.part(said, 1, b"no such format is known here");
        said.note(b"Is it of a newer ringplan? `ringplan --version` says which one this is.");
    } else if is_head(word) {
        line.part(said, 0, b"another text begins so");
        said.note(b"Is it the right file?");
    } else if word.is_empty()
        || word.first() == Some(&b'#')
        || form_of(Part::Layout, word).is_some()
    {
        line.whole(said, b"`layout 1` comes first");
        said.mend(b"`layout 1` before it");
        line.insert(said, b"layout 1");
    } else {
        line.whole(said, b"no first line of a layout");
        said.mend(b"with `layout 1` here");
        said.put(1);
        said.add(b"layout 1\n");
    }
    true
}

fn is_head(word: &[u8]) -> bool {
    matches!(
        word,
        b"ring" | b"change" | b"plan" | b"cert" | b"history" | b"script"
    )
}

fn tell_fields(alloc: Global, line: Line, said: &mut Said, form: &[u8]) {
    let (count, wanted) = (count_fields(line.text), count_fields(form));
    let mut is_told = false;
    for place in 1..wanted.min(count) {
        if !is_told {
            is_told = tell_field(alloc, line, said, place, field(form, place));
        }
    }
    if !is_told && count < wanted {
        said.title(b"it has too few fields");
        line.whole(said, b"it ends too early");
    } else if !is_told {
        tell_others(alloc, line, said, wanted);
    }
    said.note_with(b"It is written `@`.", &[form], &[]);
}

fn tell_others(alloc: Global, line: Line, said: &mut Said, place: usize) {
    let last = count_fields(line.text).saturating_sub(1);
    let at = line.page.at(line.number, place, last);
    if line.word() == b"alias".as_slice() {
        said.title(b"an alias has no spaces");
        return said.fault_at(at, b"after the space");
    }
    said.title(b"it has too many fields");
    said.fault_at(at, b"more than the line has");
    let mut whole = Words::new(alloc);
    whole.text(field(line.text, 2));
    whole.text(field(line.text, 3));
    if line.word() == b"size".as_slice() && count_fields(line.text) == 4 {
        if let Manner::Unit(bytes) = manner_of(whole.as_slice()) {
            said.title(b"a size has no unit");
            tell_bytes(alloc, said, bytes);
        }
    }
}

fn tell_field(alloc: Global, line: Line, said: &mut Said, place: usize, wanted: &[u8]) -> bool {
    match wanted {
        b"<node>" | b"<name>" => tell_name(line, said, place),
        b"<text>" => tell_alias(line, said, place),
        b"<size>" => tell_number(alloc, line, said, place, b"a size is a whole number"),
        b"<parts>" => {
            tell_zero(line, said, place)
                || tell_number(alloc, line, said, place, b"a weight is a whole number")
        }
        _ => tell_number(alloc, line, said, place, b"a partition is a whole number"),
    }
}

fn tell_name(line: Line, said: &mut Said, place: usize) -> bool {
    let word = field(line.text, place);
    let Some(fault) = name_fault(word) else {
        return false;
    };
    if are_name_bytes(word) {
        said.title_with(
            b"the name has # bytes, and may have 32",
            &[],
            &[texts::small(word.len())],
        );
    } else {
        said.title(b"the name has a letter that names do not have");
    }
    line.part(said, place, fault);
    if place == 1 {
        said.note(b"A node has the name that the ring declares. What people call it is its alias.");
    }
    true
}

fn tell_alias(line: Line, said: &mut Said, place: usize) -> bool {
    let word = field(line.text, place);
    if word.len() > LONGEST {
        said.title_with(
            b"the alias has # bytes, and may have 255",
            &[],
            &[texts::small(word.len())],
        );
        line.part(said, place, b"too long");
        return true;
    }
    let Ok(text) = str::from_utf8(word) else {
        said.title(b"the alias is not UTF-8");
        line.part(said, place, b"bytes of another encoding");
        said.note(b"`iconv -f LATIN1 -t UTF-8 FILE > MENDED` mends it if that is Latin-1.");
        return true;
    };
    let is_controlling = text.chars().any(|letter| letter.is_control());
    if is_controlling {
        said.title(b"the alias has a control character");
        line.part(said, place, b"a byte or character that no one sees");
    }
    is_controlling
}

fn tell_zero(line: Line, said: &mut Said, place: usize) -> bool {
    let is_zero = field(line.text, place) == b"0".as_slice();
    if is_zero {
        said.title(b"a weight is 1 to 1,000");
        line.part(said, place, b"too small");
        said.note(b"A node without slots is not a member: let the change leave it out.");
    }
    is_zero
}

fn tell_number(alloc: Global, line: Line, said: &mut Said, place: usize, title: &[u8]) -> bool {
    let word = field(line.text, place);
    let Some(fault) = number_fault(word) else {
        return false;
    };
    said.title(title);
    match manner_of(word) {
        Manner::Fraction => line.part(said, place, b"a fraction"),
        Manner::Unit(bytes) if line.word() == b"size".as_slice() && place == 2 => {
            line.part(said, place, b"a unit: write it without");
            if let Some(words) = tell_bytes(alloc, said, bytes) {
                line.replace(said, place, words.as_slice());
            }
        }
        Manner::Groups => {
            line.part(said, place, b"digits stand without points and commas");
            let mut digits = Words::new(alloc);
            push_digits(&mut digits, word);
            said.mend_with(b"`@` was meant?", &[digits.as_slice()], &[]);
            line.replace(said, place, digits.as_slice());
        }
        _ => tell_fault(line, said, place, fault),
    }
    true
}

fn tell_bytes(alloc: Global, said: &mut Said, bytes: u64) -> Option<Words> {
    if bytes > MOST {
        return None;
    }
    let mut words = Words::new(alloc);
    push_long(&mut words, bytes);
    said.note_with(
        b"Sizes may count bytes: this is @. All are of one unit, which is not written.",
        &[words.as_slice()],
        &[],
    );
    said.mend_with(b"`@` bytes", &[words.as_slice()], &[]);
    Some(words)
}

fn too_large(said: &mut Said, line: Line) {
    let second = value_of(field(line.text, 2)).unwrap_or(u64::MAX);
    if line.word() == b"weight".as_slice() && second > 1000 {
        said.title(b"a weight is 1 to 1,000");
        line.part(said, 2, b"too large");
        said.note(
            b"A weight is a share: a node with weight 2 has twice the slots of a node with weight 1.",
        );
    } else if line.word() == b"size".as_slice() && is_above(field(line.text, 1), 4095) {
        said.title(b"partitions are 0 to 4,095");
        line.part(said, 1, b"too large");
    } else if line.word() == b"size".as_slice() && second > MOST {
        said.title(b"a size is at most 281,474,976,710,655");
        line.part(said, 2, b"too large");
        said.note(b"Write all sizes in a larger unit, such as KiB: the unit is not written.");
    } else {
        said.title(b"a layout says at most 8,192 things");
        line.whole(said, b"one more");
    }
}

fn repeated(said: &mut Said, line: Line) {
    let (word, about) = (line.word(), field(line.text, 1));
    said.title_with(b"`@ @` stands a second time", &[word, about], &[]);
    line.whole(said, b"the second time");
    if let Some(first) = earlier(line) {
        said.beside(first, b"the first time");
    }
    said.note(b"Take one of the two out.");
    line.take_out(said)
}

fn earlier(line: Line) -> Option<u32> {
    let (word, about) = (line.word(), field(line.text, 1));
    let mut number = 1u32;
    for text in line.page.bytes.split(|byte| *byte == b'\n') {
        if number >= line.number {
            return None;
        }
        if field(text, 0) == word && field(text, 1) == about {
            return Some(number);
        }
        number = number.saturating_add(1);
    }
    None
}
