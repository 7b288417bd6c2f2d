//! Writing habits, often of many lines.

use crate::page::{Page, cut_line};
use texts::Words;

/// A refused habit.
#[derive(Clone, Copy, Debug, PartialEq, Eq)]
pub enum Habit {
    /// Windows' line ends.
    CarriageReturn,
    Empty,
    Comment,
    Indent,
    Tail,
    Capitals,
}

/// Whether the byte is a space or a tab.
pub fn is_blank(byte: u8) -> bool {
    byte == b' ' || byte == b'\t'
}

fn unindented(line: &[u8]) -> &[u8] {
    match line.iter().position(|byte| !is_blank(*byte)) {
        Some(first) if first <= line.len() => &line[first..],
        _ => b"",
    }
}

fn without_tail(line: &[u8]) -> &[u8] {
    match line.iter().rposition(|byte| !is_blank(*byte)) {
        Some(last) if last < line.len() => &line[..last + 1],
        _ => b"",
    }
}

impl Habit {
    /// Whether the line, without newline, has the habit.
    pub fn is_in(self, line: &[u8]) -> bool {
        match self {
            Habit::CarriageReturn => line.contains(&b'\r'),
            Habit::Empty => unindented(line).is_empty(),
            Habit::Comment => matches!(unindented(line).first(), Some(b'#') | Some(b'/')),
            Habit::Indent => matches!(line.first(), Some(b' ') | Some(b'\t')),
            Habit::Tail => matches!(line.last(), Some(b' ') | Some(b'\t')),
            Habit::Capitals => line.iter().any(|byte| byte.is_ascii_uppercase()),
        }
    }

    /// Describes the habit.
    pub fn words(self) -> &'static [u8] {
        match self {
            Habit::CarriageReturn => b"it has a carriage return, as texts of Windows do",
            Habit::Empty => b"an empty line",
            Habit::Comment => b"a comment: texts have none",
            Habit::Indent => b"it begins with a blank",
            Habit::Tail => b"it ends in a blank",
            Habit::Capitals => b"upper case: texts have only lower-case letters",
        }
    }

    /// A command that removes the habit.
    pub fn command(self) -> &'static [u8] {
        match self {
            Habit::CarriageReturn => b"tr -d '\\r' < FILE > MENDED",
            Habit::Empty => b"grep -v '^[[:blank:]]*$' FILE > MENDED",
            Habit::Comment => b"grep -v '^[[:blank:]]*[#/]' FILE > MENDED",
            Habit::Indent => b"sed 's/^[[:blank:]]*//' FILE > MENDED",
            Habit::Tail => b"sed 's/[[:blank:]]*$//' FILE > MENDED",
            Habit::Capitals => b"tr A-Z a-z < FILE > MENDED",
        }
    }

    /// Counts lines with the habit, and all.
    pub fn count(self, page: Page) -> (u32, u32) {
        let (mut count, mut lines) = (0u32, 0u32);
        let mut rest = page.bytes;
        for turn in 0..page.bytes.len() {
            if rest.is_empty() {
                break;
            }
            let (line, others) = cut_line(rest);
            lines = lines.saturating_add(1);
            if self.is_in(split_line(line).0) {
                count = count.saturating_add(1);
            }
            rest = others;
        }
        (count, lines)
    }

    /// Adds the page without the habit, as the command does.
    pub fn push_without(self, out: &mut Words, page: Page) {
        let mut rest = page.bytes;
        for turn in 0..page.bytes.len() {
            if rest.is_empty() {
                break;
            }
            let (line, others) = cut_line(rest);
            self.push_line(out, line);
            rest = others;
        }
    }

    fn push_line(self, out: &mut Words, line: &[u8]) {
        let (text, end) = split_line(line);
        match self {
            Habit::CarriageReturn => {
                for piece in text.split(|byte| *byte == b'\r') {
                    out.text(piece);
                }
            }
            Habit::Empty | Habit::Comment if self.is_in(text) => return,
            Habit::Empty | Habit::Comment => out.text(text),
            Habit::Indent => out.text(unindented(text)),
            Habit::Tail => out.text(without_tail(text)),
            Habit::Capitals => push_lower(out, text),
        }
        out.text(end)
    }
}

fn split_line(line: &[u8]) -> (&[u8], &[u8]) {
    match line.split_last() {
        Some((b'\n', text)) => (text, b"\n"),
        _ => (line, b""),
    }
}

fn push_lower(out: &mut Words, text: &[u8]) {
    for byte in text {
        out.byte(byte.to_ascii_lowercase());
    }
}
