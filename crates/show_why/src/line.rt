//! A line and its part.

use crate::forms::{Part, part_of};
use crate::page::{Page, field};
use crate::said::Said;

/// A line and its part.
#[derive(Clone, Copy)]
pub struct Line<'a> {
    pub page: Page<'a>,
    pub number: u32,
    pub text: &'a [u8],
    pub part: Part,
    /// The part's first line.
    pub start: u32,
}

/// The numbered line.
pub fn line_of(page: Page, number: u32) -> Line {
    let (part, start) = part_of(page, number);
    Line {
        page,
        number,
        text: page.text(number),
        part,
        start,
    }
}

impl<'a> Line<'a> {
    /// The first field.
    pub fn word(&self) -> &'a [u8] {
        field(self.text, 0)
    }

    /// Finds the part's next line, from `from`, with this first word.
    pub fn find(&self, word: &[u8], from: u32) -> Option<u32> {
        let mut number = from;
        let rest = self.page.after(from.saturating_sub(1));
        for text in rest.split(|byte| *byte == b'\n') {
            if field(text, 0) == word {
                return Some(number);
            }
            if text == b"end".as_slice() {
                return None;
            }
            number = number.saturating_add(1);
        }
        None
    }

    /// Counts the part's lines up to `last` with this first word.
    pub fn count(&self, word: &[u8], last: u32) -> u32 {
        let (mut number, mut count) = (self.start, 0u32);
        let rest = self.page.after(self.start.saturating_sub(1));
        for text in rest.split(|byte| *byte == b'\n') {
            if number > last || text == b"end".as_slice() {
                break;
            }
            if field(text, 0) == word {
                count = count.saturating_add(1);
            }
            number = number.saturating_add(1);
        }
        count
    }

    /// Whether an earlier line of the part has this first word.
    pub fn is_after(&self, word: &[u8]) -> bool {
        match self.find(word, self.start) {
            Some(first) => first < self.number,
            None => false,
        }
    }

    /// Marks the whole line as faulty.
    pub fn whole(&self, said: &mut Said, words: &[u8]) {
        said.fault(self.number, words)
    }

    /// Marks a field as faulty.
    pub fn part(&self, said: &mut Said, place: usize, words: &[u8]) {
        said.fault_at(self.page.at(self.number, place, place), words)
    }

    /// Mends a field by another word.
    pub fn replace(&self, said: &mut Said, place: usize, word: &[u8]) {
        let (front, rest) = self.page.around(self.number, place);
        said.put(self.number);
        said.add_with(b"@@@\n", &[front, word, rest], &[]);
    }

    /// Mends the text by a line before this one.
    pub fn insert(&self, said: &mut Said, new: &[u8]) {
        said.put(self.number);
        said.add_with(b"@\n@\n", &[new, self.text], &[]);
    }

    /// Mends the text by removing the line.
    pub fn take_out(&self, said: &mut Said) {
        said.mend_with(b"line # goes", &[], &[self.number]);
        said.put(self.number);
    }
}

/// Mends the text by moving a line up.
pub fn move_up(page: Page, said: &mut Said, line: u32, before: u32) {
    said.mend_with(
        b"move line # before line #; line # goes",
        &[],
        &[line, before, line],
    );
    said.put(before);
    said.add_with(b"@\n@\n", &[page.text(line), page.text(before)], &[]);
    said.put(line);
}
