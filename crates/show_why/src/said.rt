//! A refusal's report.

use crate::habit::Habit;
use crate::page::{Page, Place, cut_line};
use std::alloc::{AllocError, Global};
use texts::Words;

#[derive(Clone, Copy)]
struct LineMark {
    place: Place,
    // False if the line is only related.
    is_fault: bool,
    // Without words, nothing is marked.
    begin: usize,
    end: usize,
}

#[derive(Clone, Copy)]
struct LineChange {
    line: u32,
    begin: usize,
    end: usize,
}

/// A refusal's report. If memory runs out, all words are lost.
///
/// A call `.._with` has a template: `@` is the next name, `#` the next number.
#[derive(Drop)]
pub struct Said {
    title: Words,
    marks: Vec<LineMark>,
    words: Words,
    notes: Words,
    says: Words,
    changes: Vec<LineChange>,
    // The new lines, with newlines.
    news: Words,
    // If set, the mend removes this habit.
    habit: Option<Habit>,
}

// The most bytes shown of a line.
const SHOWN: usize = 90;

fn cut_out(text: &[u8], begin: usize, end: usize) -> &[u8] {
    if begin <= end && end <= text.len() {
        return &text[begin..end];
    }
    b""
}

impl Said {
    /// An empty report.
    pub fn new(alloc: Global) -> Said {
        Said {
            title: Words::new(alloc),
            marks: Vec::new(alloc),
            words: Words::new(alloc),
            notes: Words::new(alloc),
            says: Words::new(alloc),
            changes: Vec::new(alloc),
            news: Words::new(alloc),
            habit: None,
        }
    }

    /// Replaces the title.
    pub fn title(&mut self, words: &[u8]) {
        self.title.clear();
        self.title.text(words);
    }

    /// Replaces the title.
    pub fn title_with(&mut self, words: &[u8], names: &[&[u8]], numbers: &[u32]) {
        self.title.clear();
        self.title.fill(words, names, numbers);
    }

    fn mark(&mut self, place: Place, is_fault: bool, begin: usize) {
        let end = self.words.len();
        let mark = LineMark {
            place,
            is_fault,
            begin,
            end,
        };
        if self.marks.push(mark).is_err() {
            self.words.lose();
        }
    }

    /// Marks a faulty part of a line. Only a line's last mark is shown.
    pub fn fault_at(&mut self, place: Place, words: &[u8]) {
        let begin = self.words.len();
        self.words.text(words);
        self.mark(place, true, begin)
    }

    /// Marks a faulty part.
    pub fn fault_at_with(&mut self, place: Place, words: &[u8], names: &[&[u8]], numbers: &[u32]) {
        let begin = self.words.len();
        self.words.fill(words, names, numbers);
        self.mark(place, true, begin)
    }

    /// Marks a faulty line.
    pub fn fault(&mut self, line: u32, words: &[u8]) {
        self.fault_at(Place::whole(line), words)
    }

    /// Marks a faulty line.
    pub fn fault_with(&mut self, line: u32, words: &[u8], names: &[&[u8]], numbers: &[u32]) {
        self.fault_at_with(Place::whole(line), words, names, numbers)
    }

    /// Marks a related line.
    pub fn beside(&mut self, line: u32, words: &[u8]) {
        let begin = self.words.len();
        self.words.text(words);
        self.mark(Place::whole(line), false, begin)
    }

    /// Marks a related line.
    pub fn beside_with(&mut self, line: u32, words: &[u8], names: &[&[u8]], numbers: &[u32]) {
        let begin = self.words.len();
        self.words.fill(words, names, numbers);
        self.mark(Place::whole(line), false, begin)
    }

    /// Adds a note.
    pub fn note(&mut self, words: &[u8]) {
        self.notes.text(b"  ");
        self.notes.text(words);
        self.notes.byte(b'\n');
    }

    /// Adds a note.
    pub fn note_with(&mut self, words: &[u8], names: &[&[u8]], numbers: &[u32]) {
        self.notes.text(b"  ");
        self.notes.fill(words, names, numbers);
        self.notes.byte(b'\n');
    }

    /// Adds text to the notes: two spaces first, a newline last.
    pub fn add_note(&mut self, words: &[u8]) {
        self.notes.text(words);
    }

    /// Continues the last note.
    pub fn add_note_with(&mut self, words: &[u8], names: &[&[u8]], numbers: &[u32]) {
        self.notes.fill(words, names, numbers);
    }

    /// Counts the bytes of all notes.
    pub fn noted(&self) -> usize {
        self.notes.len()
    }

    /// Says what a mend does. `put` and `add` give its lines.
    pub fn mend(&mut self, words: &[u8]) {
        self.says.clear();
        self.says.text(words);
    }

    /// Says what a mend does.
    pub fn mend_with(&mut self, words: &[u8], names: &[&[u8]], numbers: &[u32]) {
        self.says.clear();
        self.says.fill(words, names, numbers);
    }

    /// Mends the text by removing the habit.
    pub fn rewrite(&mut self, habit: Habit, words: &[u8]) {
        self.mend(words);
        self.habit = Some(habit);
    }

    /// Whether a mend exists that a terminal can print.
    pub fn has_mend(&self) -> bool {
        let is_set = !self.changes.is_empty() || self.habit.is_some();
        is_set && is_clean(self.says.as_slice()) && is_clean(self.news.as_slice())
    }

    /// The faulty lines, ascending.
    pub fn faults(&self, alloc: Global) -> Result<Vec<u32>, AllocError> {
        let mut lines = Vec::new(alloc);
        for mark in self.marks.as_slice() {
            if mark.is_fault && !lines.as_slice().contains(&mark.place.line) {
                lines.push(mark.place.line)?;
            }
        }
        lines.sort_unstable();
        Ok(lines)
    }

    /// A changed line's number, and its new text.
    pub fn change(&self, place: usize) -> Option<(u32, &[u8])> {
        let change = self.changes.get(place)?;
        let new = cut_out(self.news.as_slice(), change.begin, change.end);
        Some((change.line, new))
    }

    /// Counts changed lines.
    pub fn changes(&self) -> usize {
        self.changes.len()
    }

    /// Begins a line's replacement. An empty replacement removes the line.
    pub fn put(&mut self, line: u32) {
        let end = self.news.len();
        let change = LineChange {
            line,
            begin: end,
            end,
        };
        if self.changes.push(change).is_err() {
            self.news.lose();
        }
    }

    /// Adds a mend's lines, with newlines.
    pub fn add(&mut self, words: &[u8]) {
        self.news.text(words);
        self.end_change();
    }

    /// Adds a mend's line.
    pub fn add_with(&mut self, words: &[u8], names: &[&[u8]], numbers: &[u32]) {
        self.news.fill(words, names, numbers);
        self.end_change();
    }

    fn end_change(&mut self) {
        if let Some(change) = self.changes.last_mut() {
            change.end = self.news.len();
        }
    }

    // The last mark of the next line to show.
    fn next(&self, behind: u32) -> Option<LineMark> {
        let mut found: Option<LineMark> = None;
        for mark in self.marks.as_slice() {
            if mark.place.line > behind {
                let is_first = match found {
                    Some(best) => mark.place.line <= best.place.line,
                    None => true,
                };
                if is_first {
                    found = Some(*mark);
                }
            }
        }
        found
    }

    /// Writes `refused:`, title, lines and notes.
    pub fn push(&self, out: &mut Words, page: Page) {
        if self.title.len() > 0 {
            out.text(b"refused: ");
        }
        self.push_on(out, page)
    }

    /// Writes title, lines and notes, if there is a title.
    pub fn push_on(&self, out: &mut Words, page: Page) {
        self.tell_losses(out);
        if self.title.len() == 0 {
            return;
        }
        push_printed(out, self.title.as_slice());
        out.byte(b'\n');
        if !self.marks.is_empty() {
            self.push_marks(out, page);
        }
        push_printed(out, self.notes.as_slice());
    }

    // If memory ran out for one part, all are lost.
    fn tell_losses(&self, out: &mut Words) {
        for part in [
            &self.title,
            &self.words,
            &self.notes,
            &self.says,
            &self.news,
        ] {
            out.heed(part);
        }
    }

    fn push_marks(&self, out: &mut Words, page: Page) {
        let width = self.width();
        push_margin(out, b' ', width);
        out.byte(b'\n');
        let mut behind = 0u32;
        for turn in 0..self.marks.len() {
            let Some(mark) = self.next(behind) else {
                break;
            };
            if behind > 0 && mark.place.line > behind.saturating_add(1) {
                push_margin(out, b'.', width);
                out.byte(b'\n');
            }
            self.push_mark(out, page, mark, width);
            behind = mark.place.line;
        }
        push_margin(out, b' ', width);
        out.byte(b'\n');
    }

    fn width(&self) -> usize {
        let mut width = 1usize;
        for mark in self.marks.as_slice() {
            width = width.max(count_digits(mark.place.line));
        }
        width
    }

    fn push_mark(&self, out: &mut Words, page: Page, mark: LineMark, width: usize) {
        push_number(out, mark.place.line, width);
        out.text(b" | ");
        let line = page.text(mark.place.line);
        let shown = line.len().min(SHOWN);
        push_printed(out, &line[..shown]);
        if shown < line.len() {
            out.text(b"...");
        }
        out.byte(b'\n');
        let note = cut_out(self.words.as_slice(), mark.begin, mark.end);
        if note.is_empty() {
            return;
        }
        push_margin(out, b' ', width);
        out.byte(b' ');
        push_under(out, mark, shown);
        out.byte(b' ');
        push_printed(out, note);
        out.byte(b'\n')
    }

    /// Writes the whole mended text.
    pub fn mended(&self, out: &mut Words, page: Page) {
        match self.habit {
            Some(habit) => habit.push_without(out, page),
            None => self.push_changed(out, page),
        }
        self.tell_losses(out);
    }

    fn push_changed(&self, out: &mut Words, page: Page) {
        let mut line = 0u32;
        let mut rest = page.bytes;
        for turn in 0..page.bytes.len() {
            if rest.is_empty() {
                break;
            }
            let (one, behind) = cut_line(rest);
            line = line.saturating_add(1);
            out.text(self.changed(line).unwrap_or(one));
            rest = behind;
        }
    }

    fn changed(&self, line: u32) -> Option<&[u8]> {
        for change in self.changes.as_slice() {
            if change.line == line {
                return Some(cut_out(self.news.as_slice(), change.begin, change.end));
            }
        }
        None
    }

    /// Writes `mend:`, what it does, and new lines with old numbers.
    pub fn push_mend(&self, out: &mut Words) {
        out.fill(b"  mend: @\n", &[self.says.as_slice()], &[]);
        for change in self.changes.as_slice() {
            let new = cut_out(self.news.as_slice(), change.begin, change.end);
            push_new(out, new, change.line);
        }
    }
}

/// Counts the digits.
pub fn count_digits(number: u32) -> usize {
    let mut count = 1usize;
    let mut least = 10u64;
    for turn in 0..9 {
        if u64::from(number) >= least {
            count = count.saturating_add(1);
        }
        least = least.saturating_mul(10);
    }
    count
}

fn push_number(out: &mut Words, number: u32, width: usize) {
    out.times(b' ', width.saturating_sub(count_digits(number)));
    out.number(number);
}

fn push_margin(out: &mut Words, byte: u8, width: usize) {
    out.times(byte, width);
    out.text(b" |");
}

fn push_under(out: &mut Words, mark: LineMark, shown: usize) {
    let Place { from, to, .. } = mark.place;
    let (from, to) = if from < to {
        (from.min(shown), to.min(shown))
    } else {
        (0, shown)
    };
    out.times(b' ', from);
    let byte = if mark.is_fault { b'^' } else { b'-' };
    out.times(byte, to.saturating_sub(from).max(1))
}

fn is_printed(byte: u8) -> bool {
    (b' ' <= byte && byte <= b'~') || byte == b'\n'
}

fn is_clean(text: &[u8]) -> bool {
    for byte in text {
        if !is_printed(*byte) {
            return false;
        }
    }
    true
}

/// Adds the bytes, with `?` for each that a terminal cannot print.
pub fn push_printed(out: &mut Words, text: &[u8]) {
    for byte in text {
        out.byte(if is_printed(*byte) { *byte } else { b'?' });
    }
}

fn push_new(out: &mut Words, new: &[u8], line: u32) {
    let mut rest = new;
    for turn in 0..new.len() {
        if rest.is_empty() {
            break;
        }
        let (one, behind) = cut_line(rest);
        push_number(out, line, 8);
        out.fill(b" + @", &[one], &[]);
        rest = behind;
    }
}
