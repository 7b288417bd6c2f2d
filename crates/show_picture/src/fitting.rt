//! Fitting words.

use crate::svg::{Point, push_begin, push_escaped, push_measure};
use crate::widths::width;
use texts::Words;

// In pixels.
const LEAST: u32 = 10;

/// A class, a font size, and more attributes, each after a space.
#[derive(Clone, Copy)]
pub struct TextLook<'a> {
    pub class: &'a [u8],
    pub size: u32,
    pub more: &'a [u8],
}

impl<'a> TextLook<'a> {
    /// A look.
    pub fn new(class: &'a [u8], size: u32, more: &'a [u8]) -> TextLook<'a> {
        TextLook { class, size, more }
    }
}

// The greatest font size that fits, from 10 pixels on.
fn size_for(look: TextLook, words: &[u8], room: u32) -> Option<u32> {
    let mut found = None;
    for size in LEAST..look.size.saturating_add(1) {
        if width(words, size) <= room {
            found = Some(size);
        }
    }
    found
}

fn push_size(out: &mut Words, size: u32) {
    out.text(b" style=\"font-size:");
    out.number(size);
    out.text(b"px\"");
}

/// Writes words into a room: if need be smaller, down to 10 pixels, or narrowed.
pub fn push_fitting(out: &mut Words, at: Point, look: TextLook, words: &Words, room: u32) {
    push_begin(out, at);
    out.text(b" class=\"");
    out.text(look.class);
    out.byte(b'"');
    out.text(look.more);
    match size_for(look, words.as_slice(), room) {
        Some(size) => {
            if size < look.size {
                push_size(out, size);
            }
        }
        None => push_narrow(out, LEAST, room),
    }
    out.byte(b'>');
    push_escaped(out, words);
    out.text(b"</text>\n");
}

fn push_narrow(out: &mut Words, size: u32, room: u32) {
    push_size(out, size);
    push_measure(out, b"textLength", room);
    out.text(b" lengthAdjust=\"spacingAndGlyphs\"");
}

/// Whether the words fit at the least size, narrowed by at most a fifth.
pub fn can_fit(words: &[u8], room: u32) -> bool {
    width(words, LEAST).saturating_mul(4) <= room.saturating_mul(5)
}
