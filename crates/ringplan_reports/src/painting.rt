//! Colours, by the escape sequences of ECMA-48 (SGR).

use ring_names::Refusal;
use ringplan_request::Color;
use show_why::cut_line;
use std::alloc::Global;
use texts::Words;

#[derive(Clone, Copy)]
enum Paint {
    Nothing,
    Title,
    Fault,
    Beside,
    Good,
}

fn begin_of(paint: Paint) -> &'static [u8] {
    match paint {
        Paint::Nothing => b"",
        Paint::Title => b"\x1b[1m",
        Paint::Fault => b"\x1b[31m",
        Paint::Beside => b"\x1b[36m",
        Paint::Good => b"\x1b[32m",
    }
}

const END: &[u8; 4] = b"\x1b[0m";

// The first byte after an empty margin.
fn mark_of(line: &[u8]) -> Option<u8> {
    let mut has_margin = false;
    for byte in line {
        if *byte == b'|' {
            has_margin = true;
        } else if *byte != b' ' {
            return if has_margin { Some(*byte) } else { None };
        }
    }
    None
}

// Whether the line begins with a number and a plus.
fn is_new(line: &[u8]) -> bool {
    let mut has_digit = false;
    for place in 0..line.len() {
        let byte = line[place];
        if byte.is_ascii_digit() {
            has_digit = true;
        } else if byte != b' ' {
            return has_digit && byte == b'+';
        }
    }
    false
}

fn paint_of(line: &[u8]) -> Paint {
    if line.starts_with(b"refused: ") || line.starts_with(b"Plan: ") {
        return Paint::Title;
    }
    if line.starts_with(b"accepted: ") || line.starts_with(b"  mend: ") || is_new(line) {
        return Paint::Good;
    }
    if line.starts_with(b"  down ")
        || line.starts_with(b"  dead ")
        || line.ends_with(b"   WORSE\n")
    {
        return Paint::Fault;
    }
    match mark_of(line) {
        Some(b'^') => Paint::Fault,
        Some(b'-') => Paint::Beside,
        _ => Paint::Nothing,
    }
}

fn push_line(out: &mut Words, line: &[u8]) {
    let begin = begin_of(paint_of(line));
    if begin.is_empty() || !line.ends_with(b"\n") {
        out.text(line);
        return;
    }
    out.text(begin);
    out.text(&line[..line.len().saturating_sub(1)]);
    out.text(END.as_slice());
    out.byte(b'\n');
}

/// Colours the words if `color` asks for it.
///
/// Titles are bold, faults red, lines concerned cyan, mends and a yes green.
pub(crate) fn painted(alloc: Global, words: Vec<u8>, color: Color) -> Result<Vec<u8>, Refusal> {
    if color != Color::Always {
        return Ok(words);
    }
    let mut out = Words::new(alloc);
    let mut rest = words.as_slice();
    for turn in 0..words.len() {
        if rest.is_empty() {
            break;
        }
        let (line, more) = cut_line(rest);
        push_line(&mut out, line);
        rest = more;
    }
    out.end()
}
