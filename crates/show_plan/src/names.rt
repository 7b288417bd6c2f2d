//! Names and counts.

use ring_names::Refusal;
use ring_table::Ring;
use std::alloc::Global;
use std::str;
use texts::{Labels, Words};

// The most characters, and how many a longer name keeps at each end.
const MOST: usize = 32;

const KEPT: usize = 15;

/// The nodes' names, or their aliases.
#[derive(Clone, Copy)]
pub struct NodeNames<'a> {
    ring: &'a Ring,
    aliases: Option<&'a Labels>,
}

impl<'a> NodeNames<'a> {
    /// Takes aliases from `short_labels`.
    pub fn new(ring: &'a Ring, aliases: Option<&'a Labels>) -> NodeNames<'a> {
        NodeNames { ring, aliases }
    }

    pub fn ring(&self) -> &'a Ring {
        self.ring
    }

    /// The node's alias, or its name.
    pub fn name(&self, node: u32) -> &'a [u8] {
        match self.aliases {
            Some(aliases) if !aliases.name(node).is_empty() => aliases.name(node),
            _ => self.ring.name(node),
        }
    }
}

/// Shortens labels to 32 characters, with `..` in the middle.
pub fn short_labels(alloc: Global, labels: &Labels) -> Result<Labels, Refusal> {
    let mut short = Labels::new(alloc);
    for node in 0..texts::small(labels.numbers().len()) {
        match str::from_utf8(labels.name(node)) {
            Ok(label) if !label.is_empty() => {
                short.add(short_of(alloc, label)?.as_str().as_bytes())?;
            }
            _ => short.add_alone()?,
        }
    }
    Ok(short)
}

fn short_of(alloc: Global, label: &str) -> Result<String, Refusal> {
    let count = label.chars().count();
    let mut short = String::new(alloc);
    for (place, letter) in label.chars().enumerate() {
        if count <= MOST || place < KEPT || place >= count.saturating_sub(KEPT) {
            short.push(shown(letter))?;
        } else if place == KEPT {
            short.push_str("..")?;
        }
    }
    Ok(short)
}

// Replaces characters that XML forbids.
fn shown(letter: char) -> char {
    match letter {
        '\u{fffe}' | '\u{ffff}' => '?',
        other => other,
    }
}

/// Writes `a`, `a and b`, `a, b and c`. Above `most` nodes: `a, b and 7 others`.
pub fn push_names(out: &mut Words, names: NodeNames, nodes: &[u32], most: usize) {
    let shown = if nodes.len() > most {
        most.saturating_sub(1)
    } else {
        nodes.len()
    };
    let others = texts::small(nodes.len().saturating_sub(shown));
    let mut place = 0usize;
    for node in nodes {
        if place >= shown {
            break;
        }
        if place > 0 {
            let is_last = others == 0 && place.saturating_add(1) == shown;
            out.text(if is_last { b" and " } else { b", " });
        }
        out.text(names.name(*node));
        place = place.saturating_add(1);
    }
    if others > 0 {
        out.text(b" and ");
        push_many(out, others, b"other", b"others");
    }
}

/// Writes the number, with the word for one or for more.
pub fn push_many(out: &mut Words, number: u32, one: &[u8], more: &[u8]) {
    out.number(number);
    out.byte(b' ');
    out.text(if number == 1 { one } else { more });
}

/// Writes partitions and slots, then the quorums after `first` and `second`.
pub fn push_quorum(out: &mut Words, ring: &Ring, first: &[u8], second: &[u8]) {
    push_many(out, ring.q(), b"partition of ", b"partitions of ");
    push_many(out, ring.n(), b"slot", b"slots");
    out.text(first);
    push_many(out, ring.r(), b"answers a read", b"answer a read");
    out.text(second);
    push_many(out, ring.w(), b"takes a write", b"take a write");
    if ring.loss() > 0 {
        out.text(b", ");
        push_many(
            out,
            ring.loss(),
            b"store may be lost",
            b"stores may be lost",
        );
    }
}
