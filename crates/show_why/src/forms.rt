//! Each part's lines.

use crate::page::{Page, field};

/// A part of a bundle.
#[derive(Clone, Copy, Debug, PartialEq, Eq)]
pub enum Part {
    Ring,
    Change,
    Plan,
    Cert,
    /// What follows a certificate or a change.
    Behind,
    /// Not part of a bundle.
    Layout,
}

/// The line's part, and the part's first line.
pub fn part_of(page: Page, line: u32) -> (Part, u32) {
    let section = page.section(line);
    let second = field(page.behind_ring().unwrap_or(b"".as_slice()), 0);
    let has_change = second == b"change".as_slice();
    let part = match section.number {
        0 => Part::Ring,
        1 if has_change => Part::Change,
        1 => Part::Plan,
        2 if !has_change => Part::Cert,
        _ => Part::Behind,
    };
    (part, section.start)
}

/// The part's name.
pub fn called(part: Part) -> &'static [u8] {
    match part {
        Part::Ring => b"ring",
        Part::Change => b"change",
        Part::Plan => b"plan",
        Part::Cert => b"certificate",
        Part::Behind => b"bundle",
        Part::Layout => b"layout",
    }
}

/// The forms of all lines but the first.
pub fn forms(part: Part) -> &'static [&'static [u8]] {
    match part {
        Part::Ring => &[
            b"space <partitions>",
            b"quorum <slots> <read> <write>",
            b"node <name> <allowance> in|out",
            b"slots <partition> <owner> ..",
            b"end",
        ],
        Part::Change => &[b"join <node>", b"leave <node>", b"end"],
        Part::Plan => &[
            b"join <node>",
            b"mirror <partition> <slot> <node>",
            b"copy <partition> <slot> owner",
            b"copy <partition> <slot> slots <slot> ..",
            b"switch <partition> <slot>",
            b"drop <partition> <slot> <node>",
            b"retire <node>",
            b"end",
        ],
        Part::Cert => &[
            b"fact <step> <step> ..",
            b"chain <node> <step> ..",
            b"take <node> <step> ..",
            b"give <node> <step> ..",
            b"end",
        ],
        Part::Behind => &[],
        Part::Layout => &[
            b"rack <node> <name>",
            b"weight <node> <parts>",
            b"size <partition> <size>",
            b"alias <node> <text>",
            b"dead <node>",
            b"end",
        ],
    }
}

/// The first form that begins with the word.
pub fn form_of(part: Part, word: &[u8]) -> Option<&'static [u8]> {
    for form in forms(part) {
        if field(form, 0) == word {
            return Some(*form);
        }
    }
    None
}

/// A part's first line.
pub fn first_line(page: Page, part: Part) -> &'static [u8] {
    match part {
        Part::Ring => b"ring 1",
        Part::Change => b"change 1",
        Part::Plan => b"plan 1",
        Part::Cert => {
            if page.line(1) == Some(b"ring 1".as_slice()) {
                b"cert 1"
            } else {
                b"cert 2"
            }
        }
        Part::Behind => b"",
        Part::Layout => b"layout 1",
    }
}
