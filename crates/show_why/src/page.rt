//! Numbered lines.

use memchr::memchr;
use texts::Fields;

/// A bundle's text. Lines count from 1.
#[derive(Clone, Copy)]
pub struct Page<'a> {
    pub bytes: &'a [u8],
}

/// A part: how many lines `end` are before it, and its first line.
#[derive(Clone, Copy, Debug)]
pub struct Section {
    pub number: u32,
    pub start: u32,
}

// Without a newline, the rest is None.
fn cut(text: &[u8]) -> (&[u8], Option<&[u8]>) {
    match memchr(b'\n', text) {
        Some(at) if at < text.len() => (&text[..at], Some(&text[at + 1..])),
        _ => (text, None),
    }
}

/// Splits off the first line, with its newline.
pub fn cut_line(text: &[u8]) -> (&[u8], &[u8]) {
    match memchr(b'\n', text) {
        Some(at) if at < text.len() => (&text[..at + 1], &text[at + 1..]),
        _ => (text, &[]),
    }
}

impl<'a> Page<'a> {
    /// What follows the first lines.
    pub fn after(&self, lines: u32) -> &'a [u8] {
        let mut rest = self.bytes;
        for turn in 0..lines {
            match cut(rest).1 {
                Some(behind) => rest = behind,
                None => return b"",
            }
        }
        rest
    }

    /// The line without its newline, if any.
    pub fn line(&self, number: u32) -> Option<&'a [u8]> {
        let rest = self.after(number.checked_sub(1)?);
        if rest.is_empty() {
            return None;
        }
        Some(cut(rest).0)
    }

    /// The line, or nothing.
    pub fn text(&self, number: u32) -> &'a [u8] {
        self.line(number).unwrap_or(b"".as_slice())
    }

    /// Whether the line has no newline.
    pub fn is_unfinished(&self, number: u32) -> bool {
        let rest = self.after(number.saturating_sub(1));
        !rest.is_empty() && memchr(b'\n', rest).is_none()
    }

    /// The place of these fields, or of the whole line.
    pub fn at(&self, line: u32, first: usize, last: usize) -> Place {
        let text = self.text(line);
        match (span_of(text, first), span_of(text, last)) {
            (Some(first), Some(last)) => Place {
                line,
                from: first.from,
                to: last.to,
            },
            _ => Place::whole(line),
        }
    }

    /// The line before and after a field. Without the field, all is before.
    pub fn around(&self, line: u32, place: usize) -> (&'a [u8], &'a [u8]) {
        let text = self.text(line);
        match span_of(text, place) {
            Some(Span { from, to }) if from <= to && to <= text.len() => {
                (&text[..from], &text[to..])
            }
            _ => (text, b""),
        }
    }

    /// The line's part.
    pub fn section(&self, number: u32) -> Section {
        let mut found = Section {
            number: 0,
            start: 1,
        };
        let mut rest = self.bytes;
        for line in 1..number {
            let (first, behind) = cut(rest);
            if first == b"end".as_slice() {
                found.number = found.number.saturating_add(1);
                found.start = line.saturating_add(1);
            }
            match behind {
                Some(behind) => rest = behind,
                None => return found,
            }
        }
        found
    }

    /// The first line after the ring.
    pub fn behind_ring(&self) -> Option<&'a [u8]> {
        let mut rest = self.bytes;
        for turn in 0..self.bytes.len() {
            let (first, behind) = cut(rest);
            let behind = behind?;
            if first == b"end".as_slice() {
                return Some(cut(behind).0);
            }
            rest = behind;
        }
        None
    }

    /// Counts the lines, also an unfinished one.
    pub fn count(&self) -> u32 {
        let mut rest = self.bytes;
        let mut count = 0u32;
        for turn in 0..self.bytes.len() {
            if rest.is_empty() {
                break;
            }
            count = count.saturating_add(1);
            match cut(rest).1 {
                Some(behind) => rest = behind,
                None => break,
            }
        }
        count
    }
}

/// A field's bytes.
#[derive(Clone, Copy, Debug)]
pub struct Span {
    pub from: usize,
    pub to: usize,
}

/// A field's bytes. Single spaces separate fields.
pub fn span_of(line: &[u8], place: usize) -> Option<Span> {
    let mut from = 0usize;
    let mut left = place;
    for at in 0..line.len() {
        if line[at] == b' ' {
            if left == 0 {
                return Some(Span { from, to: at });
            }
            left -= 1;
            from = at + 1;
        }
    }
    if left == 0 {
        return Some(Span {
            from,
            to: line.len(),
        });
    }
    None
}

/// Bytes of a line. The whole line if `from` is not below `to`.
#[derive(Clone, Copy, Debug)]
pub struct Place {
    pub line: u32,
    pub from: usize,
    pub to: usize,
}

impl Place {
    /// The whole line's place.
    pub fn whole(line: u32) -> Place {
        Place {
            line,
            from: 0,
            to: 0,
        }
    }
}

/// A field, or nothing.
pub fn field(line: &[u8], place: usize) -> &[u8] {
    match span_of(line, place) {
        Some(Span { from, to }) if from <= to && to <= line.len() => &line[from..to],
        _ => &[],
    }
}

/// Counts the line's fields.
pub fn count_fields(line: &[u8]) -> usize {
    let mut count = 1usize;
    for byte in line {
        if *byte == b' ' {
            count = count.saturating_add(1);
        }
    }
    count
}

/// The place of the first such field.
pub fn place_of(line: &[u8], word: &[u8]) -> Option<usize> {
    line.split(|byte| *byte == b' ')
        .position(|field| field == word)
}

/// The field's number.
pub fn number(word: &[u8]) -> Option<u32> {
    let mut fields = Fields::of(0, word);
    let value = fields.value()?;
    match u32::try_from(value) {
        Ok(number) => Some(number),
        Err(_) => None,
    }
}
