//! Faulty spacing or letters.

use crate::fields::tell_alias;
use crate::forms::Part;
use crate::habit::{Habit, is_blank};
use crate::line::Line;
use crate::page::{Place, field};
use crate::said::Said;

// UTF-8's byte order mark.
const MARK: &[u8; 3] = b"\xEF\xBB\xBF";

/// Reports how the line is wrongly written.
pub fn tell_spacing(line: Line, said: &mut Said) -> bool {
    if line.number == 1 && line.text.starts_with(MARK) {
        tell_mark(line, said);
        return true;
    }
    if let Some(habit) = habit_of(line.text) {
        tell_habit(line, said, habit);
        return true;
    }
    if let Some(words) = parting_fault(line.text) {
        line.whole(said, words);
        respace(line, said, line.text, b"one space between fields");
        return true;
    }
    if Habit::Capitals.is_in(line.text) {
        tell_habit(line, said, Habit::Capitals);
        return true;
    }
    false
}

/// Reports wrong blanks in a layout's line.
pub fn tell_blanks(line: Line, said: &mut Said) -> bool {
    if line.number == 1 && line.text.starts_with(MARK) {
        tell_mark(line, said);
        return true;
    }
    said.title(b"its blanks are wrong");
    for habit in [Habit::CarriageReturn, Habit::Indent, Habit::Tail] {
        if habit.is_in(line.text) {
            if habit == Habit::CarriageReturn {
                said.title(b"its line end is that of Windows");
            }
            tell_habit(line, said, habit);
            return true;
        }
    }
    // An alias may have commas.
    let fault = if is_unparted(line.text) {
        parting_fault(line.text)
    } else {
        blank_fault(line.text)
    };
    let Some(words) = fault else {
        return false;
    };
    line.whole(said, words);
    respace(line, said, line.text, b"one space between fields");
    true
}

fn is_unparted(text: &[u8]) -> bool {
    !text.contains(&b' ')
}

fn parting_fault(text: &[u8]) -> Option<&'static [u8]> {
    if text.contains(&b',') && !text.contains(&b'\t') {
        return Some(b"it has a comma");
    }
    blank_fault(text)
}

fn blank_fault(text: &[u8]) -> Option<&'static [u8]> {
    if text.contains(&b'\t') {
        return Some(b"it has a tab");
    }
    let has_gap = text
        .split(|byte| *byte == b' ')
        .any(|field| field.is_empty());
    if has_gap {
        return Some(b"more than one space between fields");
    }
    None
}

fn habit_of(text: &[u8]) -> Option<Habit> {
    let habits = [
        Habit::CarriageReturn,
        Habit::Empty,
        Habit::Comment,
        Habit::Indent,
        Habit::Tail,
    ];
    for habit in habits {
        if habit.is_in(text) {
            return Some(habit);
        }
    }
    None
}

fn tell_mark(line: Line, said: &mut Said) {
    let place = Place {
        line: 1,
        from: 0,
        to: MARK.len(),
    };
    said.title(b"the text begins with a byte order mark");
    said.fault_at(place, b"three bytes that some editors put first");
    said.note(b"`sed '1s/^\\xEF\\xBB\\xBF//' FILE > MENDED` takes it out (GNU sed).");
    let rest = line.text.get(MARK.len()..).unwrap_or(b"".as_slice());
    respace(line, said, rest, b"without the mark");
}

fn tell_habit(line: Line, said: &mut Said, habit: Habit) {
    if habit == Habit::Capitals {
        let place = first_capital(line.text);
        line.part(said, place, habit.words());
        if line.part == Part::Ring && line.word() == b"node".as_slice() && place == 1 {
            tell_alias(said, field(line.text, 1));
        }
    } else {
        line.whole(said, habit.words());
    }
    let (count, lines) = habit.count(line.page);
    if count <= 1 {
        return mend_one(line, said, habit);
    }
    let (command, numbers) = (habit.command(), [count, lines]);
    if count == lines {
        said.note_with(b"All # lines are so: `@` mends them.", &[command], &[lines]);
    } else {
        said.note_with(
            b"# of the # lines are so: `@` mends them.",
            &[command],
            &numbers,
        );
    }
    said.rewrite(habit, b"all of them, by that command")
}

fn first_capital(text: &[u8]) -> usize {
    for (place, word) in text.split(|byte| *byte == b' ').enumerate() {
        if Habit::Capitals.is_in(word) {
            return place;
        }
    }
    0
}

fn mend_one(line: Line, said: &mut Said, habit: Habit) {
    match habit {
        Habit::Empty | Habit::Comment => line.take_out(said),
        Habit::CarriageReturn => respace(line, said, line.text, b"without it"),
        Habit::Indent | Habit::Tail => respace(
            line,
            said,
            line.text,
            b"without blanks at its ends",
        ),
        Habit::Capitals => lower(line, said),
    }
}

fn respace(line: Line, said: &mut Said, text: &[u8], words: &[u8]) {
    said.mend(words);
    said.put(line.number);
    let mut gap: &[u8] = b"";
    let has_commas = line.part != Part::Layout || is_unparted(text);
    for word in text.split(|byte| {
        is_blank(*byte) || *byte == b'\r' || has_commas && *byte == b','
    }) {
        if !word.is_empty() {
            said.add(gap);
            said.add(word);
            gap = b" ";
        }
    }
    said.add(b"\n")
}

fn lower(line: Line, said: &mut Said) {
    said.mend(b"in lower case");
    said.put(line.number);
    for byte in line.text {
        said.add(&[byte.to_ascii_lowercase()]);
    }
    said.add(b"\n")
}
