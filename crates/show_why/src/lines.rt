//! Lines of a wrong form.

use crate::events::tell_event;
use crate::fields::tell_fields;
use crate::foreign::tell_foreign;
use crate::forms::{Part, called, first_line, form_of, forms};
use crate::line::{Line, line_of};
use crate::near::Nearest;
use crate::order::{begins_next, is_due, tell_due, tell_end, tell_order};
use crate::page::{Page, field};
use crate::said::Said;
use crate::spacing::tell_spacing;
use ring_names::Refusal;
use std::alloc::Global;

/// Reports why the line does not belong here.
pub fn bad_line(alloc: Global, said: &mut Said, page: Page, number: u32) -> Result<(), Refusal> {
    let line = line_of(page, number);
    if number == 1 && tell_foreign(page, said) {
        return Ok(());
    }
    if tell_end_of_text(line, said) || tell_event(line, said) {
        return Ok(());
    }
    said.title_with(
        b"line # is not a line of a @",
        &[called(line.part)],
        &[number],
    );
    if tell_spacing(line, said) {
        return Ok(());
    }
    tell_form(alloc, said, line)
}

fn tell_form(alloc: Global, said: &mut Said, line: Line) -> Result<(), Refusal> {
    if line.part == Part::Behind {
        tell_more(line, said);
        return Ok(());
    }
    if line.number == line.start {
        return tell_first(alloc, line, said);
    }
    if begins_next(line) {
        line.whole(said, b"the first line of the next part");
        tell_end(line, said);
        return Ok(());
    }
    match form_of(line.part, line.word()) {
        None => tell_unknown(alloc, line, said),
        Some(_) if tell_order(line, said) => Ok(()),
        Some(form) => tell_fields(alloc, line, said, form),
    }
}

fn tell_end_of_text(line: Line, said: &mut Said) -> bool {
    if line.page.line(line.number).is_none() {
        tell_missing(line, said);
        return true;
    }
    if line.page.is_unfinished(line.number) {
        tell_unfinished(line, said);
        return true;
    }
    false
}

fn tell_missing(line: Line, said: &mut Said) {
    if line.number <= 1 {
        said.title(b"the input is empty");
        said.note(
            b"A bundle begins with a ring, whose first line is `ring 1`, `ring 2` or `ring 3`.",
        );
        return;
    }
    said.beside(line.number - 1, b"the last line");
    match line.part {
        Part::Plan if line.start == line.number => {
            said.title(b"a change or a plan is missing after the ring");
            said.note(
                b"A change is `change 1`, lines `join <node>`, then lines `leave <node>`, and `end`.",
            )
        }
        Part::Cert if line.start == line.number => tell_no_cert(line, said),
        Part::Behind if line.start == line.number => {
            said.title(b"the bundle has no history");
            said.note(b"A history is `history 1`, a line for each event with its reply, and `end`.")
        }
        Part::Behind => {
            said.title(b"the bundle stops before its history does");
            said.note(b"The last line of a history is `end`.")
        }
        _ => tell_stop(line, said),
    }
}

fn tell_no_cert(line: Line, said: &mut Said) {
    let first = first_line(line.page, line.part);
    said.title(b"the bundle has no certificate");
    said.note(b"`ringplan cert < FILE > MENDED` looks for one.");
    said.note_with(
        b"Without facts and chains it is the lines `@` and `end`.",
        &[first],
        &[],
    )
}

fn tell_stop(line: Line, said: &mut Said) {
    said.title_with(
        b"the bundle stops before its @ does",
        &[called(line.part)],
        &[],
    );
    if !is_due(line, b"end") {
        return tell_due(line, said);
    }
    said.note_with(
        b"The @ begins in line #, and has no line `end`.",
        &[called(line.part)],
        &[line.start],
    );
    let last = line.number.saturating_sub(1);
    said.mend(b"`end` after the last line");
    said.put(last);
    said.add_with(b"@\nend\n", &[line.page.text(last)], &[])
}

/// Reports a text that ends inside the line, or without a newline.
pub fn tell_unfinished(line: Line, said: &mut Said) {
    if line.text == b"end".as_slice() {
        said.title(b"the text ends without a newline after `end`");
    } else {
        said.title_with(
            b"the text ends in line #, which has no newline",
            &[],
            &[line.number],
        );
        said.note(b"Is the text cut off? The last line of each part is `end`.");
    }
    line.whole(said, b"no newline at its end");
    said.mend(b"with a newline at its end, as `echo >> FILE` puts it there");
    said.put(line.number);
    said.add_with(b"@\n", &[line.text], &[])
}

fn tell_more(line: Line, said: &mut Said) {
    line.whole(said, b"no line of a history");
    if line.number != line.start && line.page.text(line.start) == b"history 1".as_slice() {
        return said.title_with(b"line # is not a line of a history", &[], &[line.number]);
    }
    said.title(b"there is more than a plan and its certificate, and it is not a history");
    said.note(
        b"After a certificate may stand a history: `history 1`, a line for each event with its reply, `end`.",
    )
}

fn tell_first(alloc: Global, line: Line, said: &mut Said) -> Result<(), Refusal> {
    if line.part == Part::Plan {
        said.title_with(b"line # begins no change and no plan", &[], &[line.number]);
    }
    let (part, wanted) = if line.part == Part::Plan && is_change(alloc, line)? {
        (b"change".as_slice(), b"change 1".as_slice())
    } else {
        (called(line.part), first_line(line.page, line.part))
    };
    said.fault_with(line.number, b"the @ begins with `@`", &[part, wanted], &[]);
    if line.text == b"end".as_slice() {
        line.take_out(said);
    } else if is_other_head(line.word(), part) {
        if !tell_late_ring(line, said) {
            said.note_with(b"The @ is missing here.", &[part], &[]);
        }
    } else if is_headless(line) {
        said.mend_with(b"`@` before it", &[wanted], &[]);
        line.insert(said, wanted);
    } else {
        said.mend_with(b"with `@` here", &[wanted], &[]);
        said.put(line.number);
        said.add_with(b"@\n", &[wanted], &[]);
    }
    Ok(())
}

fn tell_late_ring(line: Line, said: &mut Said) -> bool {
    if line.part != Part::Ring {
        return false;
    }
    let mut lines = line.page.bytes.split(|byte| *byte == b'\n');
    let Some(place) = lines.position(|text| text.starts_with(b"ring ")) else {
        return false;
    };
    let number = texts::small(place).saturating_add(1);
    said.title_with(
        b"the ring comes first, and begins in line #",
        &[],
        &[number],
    );
    said.fault_with(
        line.number,
        b"a @ stands after the ring",
        &[line.word()],
        &[],
    );
    said.beside(number, b"the ring");
    said.note(b"Put the part that begins here after the ring.");
    true
}

// Whether the first line looks like another of the part.
fn is_headless(line: Line) -> bool {
    let word = line.word();
    let is_leave = line.part == Part::Plan && word == b"leave".as_slice();
    is_leave || form_of(line.part, word).is_some()
}

fn is_other_head(word: &[u8], part: &[u8]) -> bool {
    let is_cert = part == b"certificate".as_slice();
    word != part && [b"change".as_slice(), b"plan", b"history", b"script"].contains(&word)
        || word == b"cert".as_slice() && !is_cert
}

fn is_change(alloc: Global, line: Line) -> Result<bool, Refusal> {
    let word = line.word();
    let mut nearest = Nearest::new(word);
    nearest.look(alloc, word, b"change")?;
    let is_one = word == b"join".as_slice() || word == b"leave".as_slice();
    let has_steps = line.find(b"mirror", line.number).is_some();
    Ok(!nearest.word.is_empty() || is_one && !has_steps)
}

/// Reports an unknown first word, and a similar known word.
pub fn tell_unknown(alloc: Global, line: Line, said: &mut Said) -> Result<(), Refusal> {
    let word = line.word();
    let at = line.page.at(line.number, 0, 0);
    said.fault_at_with(at, b"no word of a @", &[called(line.part)], &[]);
    let mut nearest = Nearest::new(word);
    for form in forms(line.part) {
        if is_due(line, field(form, 0)) {
            nearest.look(alloc, word, field(form, 0))?;
        }
    }
    if nearest.word.is_empty() {
        tell_due(line, said);
        return Ok(());
    }
    said.mend_with(b"`@` was meant?", &[nearest.word], &[]);
    line.replace(said, 0, nearest.word);
    Ok(())
}
