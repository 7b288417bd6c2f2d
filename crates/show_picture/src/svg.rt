//! Shapes as SVG. Coordinates are whole pixels, so equal pictures have equal bytes.

use crate::style::{PAGE, STYLE};
use texts::Words;

/// Each picture's width, about that of a repository's page.
pub const WIDE: u32 = 900;

/// Words' margin at the edges.
pub const MARGIN: u32 = 24;

/// A rectangle.
#[derive(Clone, Copy, Debug)]
pub struct Area {
    pub x: u32,
    pub y: u32,
    pub width: u32,
    pub height: u32,
}

/// A place.
#[derive(Clone, Copy, Debug)]
pub struct Point {
    pub x: u32,
    pub y: u32,
}

impl Point {
    /// A place.
    pub fn at(x: u32, y: u32) -> Point {
        Point { x, y }
    }
}

/// The title, and the words below.
#[derive(Drop)]
pub struct Caption {
    pub title: Words,
    pub about: Words,
}

/// Adds an attribute, such as ` x="12"`.
pub fn push_measure(out: &mut Words, name: &[u8], number: u32) {
    out.byte(b' ');
    out.text(name);
    out.text(b"=\"");
    out.number(number);
    out.byte(b'"');
}

fn push_open(out: &mut Words, area: Area, class: &[u8], more: &[u8]) {
    out.text(b"<rect");
    push_measure(out, b"x", area.x);
    push_measure(out, b"y", area.y);
    push_measure(out, b"width", area.width);
    push_measure(out, b"height", area.height);
    out.text(b" class=\"");
    out.text(class);
    out.byte(b'"');
    out.text(more);
}

/// Writes a rectangle. Each attribute follows a space.
pub fn push_area(out: &mut Words, area: Area, class: &[u8], more: &[u8]) {
    push_open(out, area, class, more);
    out.text(b"/>\n");
}

/// Writes text, escaped: an alias may have SVG's special characters.
pub fn push_text(out: &mut Words, text: &[u8]) {
    for byte in text {
        match *byte {
            b'&' => out.text(b"&amp;"),
            b'<' => out.text(b"&lt;"),
            b'>' => out.text(b"&gt;"),
            b'"' => out.text(b"&quot;"),
            other => out.byte(other),
        }
    }
}

/// Writes a buffer's text, escaped.
pub fn push_escaped(out: &mut Words, words: &Words) {
    push_text(out, words.as_slice());
    out.heed(words);
}

/// Writes a rectangle with a tooltip.
pub fn push_titled(out: &mut Words, area: Area, class: &[u8], more: &[u8], title: &Words) {
    push_open(out, area, class, more);
    out.text(b"><title>");
    push_escaped(out, title);
    out.text(b"</title></rect>\n");
}

/// Begins words at a place, up to their attributes.
pub fn push_begin(out: &mut Words, at: Point) {
    out.text(b"<text");
    push_measure(out, b"x", at.x);
    push_measure(out, b"y", at.y);
}

/// Writes words at a place. Each attribute follows a space.
pub fn push_words(out: &mut Words, at: Point, attributes: &[u8], words: &[u8]) {
    push_begin(out, at);
    out.text(attributes);
    out.byte(b'>');
    push_text(out, words);
    out.text(b"</text>\n");
}

/// Writes a buffer's words at a place.
pub fn push_said(out: &mut Words, at: Point, attributes: &[u8], words: &Words) {
    push_words(out, at, attributes, words.as_slice());
    out.heed(words);
}

/// Writes a thin line.
pub fn push_rule(out: &mut Words, from: Point, to: Point) {
    out.text(b"<line");
    push_measure(out, b"x1", from.x);
    push_measure(out, b"y1", from.y);
    push_measure(out, b"x2", to.x);
    push_measure(out, b"y2", to.y);
    out.text(b" class=\"rule\"/>\n");
}

/// Writes a picture. Screen readers read the caption.
pub fn push_picture(out: &mut Words, height: u32, caption: &Caption, shapes: &Words) {
    out.text(b"<svg xmlns=\"http://www.w3.org/2000/svg\" viewBox=\"0 0 ");
    out.number(WIDE);
    out.byte(b' ');
    out.number(height);
    out.byte(b'"');
    push_measure(out, b"width", WIDE);
    push_measure(out, b"height", height);
    out.text(b" role=\"img\" aria-labelledby=\"title about\">\n<title id=\"title\">");
    push_escaped(out, &caption.title);
    out.text(b"</title>\n<desc id=\"about\">");
    push_escaped(out, &caption.about);
    out.text(b"</desc>\n");
    out.text(STYLE);
    let whole = Area {
        x: 0,
        y: 0,
        width: WIDE,
        height,
    };
    push_area(out, whole, PAGE, b"");
    out.words(shapes);
    out.text(b"</svg>\n");
}
