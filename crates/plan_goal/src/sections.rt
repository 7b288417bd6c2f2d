//! Finds a bundle's sections by their `end` lines.

ghost use Rattle.std.specs.Prelude.{◌≤◌, length};

use memchr::memchr;

/// What follows a bundle's ring.
#[derive(Clone, Copy, Debug, PartialEq, Eq)]
pub enum Kind {
    Change,
    /// A plan and its certificate.
    Plan,
    /// A plan, its certificate and more, which should be a history.
    History,
}

fn line_end(text: &[u8], start: usize) -> usize {
    if start >= text.len() {
        return text.len();
    }
    match memchr(b'\n', &text[start..]) {
        Some(place) => start.saturating_add(place).saturating_add(1),
        None => text.len(),
    }
}

fn is_end(text: &[u8], start: usize, end: usize) -> bool {
    start <= end && end <= text.len() && &text[start..end] == b"end\n".as_slice()
}

/// Returns how many bytes the first `sections` sections have, or all if fewer.
pub fn front(text: &[u8], sections: u32) -> usize
    ensures { result ≤ length text.now }
{
    let mut start = 0usize;
    let mut left = sections;
    for turn in 0..text.len() {
        if left == 0 || start >= text.len() {
            break;
        }
        let end = line_end(text, start);
        if is_end(text, start, end) {
            left = left.saturating_sub(1);
        }
        start = end;
    }
    start.min(text.len())
}

fn begins(text: &[u8], word: &[u8]) -> bool {
    word.len() <= text.len() && &text[..word.len()] == word
}

/// Tells what follows the ring, by the next word and the number of sections.
pub fn kind_of(text: &[u8]) -> Kind {
    if begins(&text[front(text, 1)..], b"change ") {
        return Kind::Change;
    }
    if front(text, 3) < text.len() {
        return Kind::History;
    }
    Kind::Plan
}
