//! Nodes that do not answer.

use crate::failing::kept;
use crate::names::{NodeNames, push_many, push_names};
use crate::present::PresentRing;
use crate::writing::columns;
use ring_names::Refusal;
use ring_table::Ring;
use std::alloc::Global;
use texts::{Words, small};

fn silent_by(alloc: Global, present: &PresentRing, is_dead: bool) -> Result<Vec<u32>, Refusal> {
    let mut nodes = Vec::new(alloc);
    for node in present.silent.as_slice() {
        if present.is_dead(*node) == is_dead {
            nodes.push(*node)?;
        }
    }
    Ok(nodes)
}

/// Writes which nodes are dead or down, and how many partitions answer. Needs a silent node.
pub fn tell_silent(
    alloc: Global,
    names: NodeNames,
    present: &PresentRing,
    line: &mut Words,
) -> Result<(), Refusal> {
    let dead = silent_by(alloc, present, true)?;
    let down = silent_by(alloc, present, false)?;
    if !dead.is_empty() {
        line.text(b"  dead      ");
        push_names(line, names, dead.as_slice(), 6);
    }
    if !down.is_empty() {
        line.text(if dead.is_empty() {
            b"  down      ".as_slice()
        } else {
            b"; down ".as_slice()
        });
        push_names(line, names, down.as_slice(), 6);
    }
    line.text(if present.silent.len() == 1 {
        b"; without it ".as_slice()
    } else {
        b"; without them ".as_slice()
    });
    line.number(kept(names.ring(), present.rows.as_slice(), present));
    line.text(b" of ");
    push_many(
        line,
        names.ring().q(),
        b"partition answers",
        b"partitions answer",
    );
    line.text(b" reads and writes");
    Ok(())
}

/// Writes the words, then the silent nodes.
pub fn push_failing(line: &mut Words, names: NodeNames, present: &PresentRing, words: &[u8]) {
    line.text(words);
    if !present.silent.is_empty() {
        line.text(b"beside ");
        push_names(line, names, present.silent.as_slice(), 3);
        line.text(b": ");
    }
}

/// Writes `n07`, or `n07 dead`. Returns its columns.
pub fn push_node(out: &mut Words, names: NodeNames, present: &PresentRing, node: u32) -> usize {
    let name = names.name(node);
    out.text(name);
    if !present.is_silent(node) {
        return columns(name);
    }
    out.byte(b' ');
    out.text(present.silence(node));
    let silence = present.silence(node).len();
    columns(name).saturating_add(silence).saturating_add(1)
}

/// Counts members that answer.
pub fn count_answering(ring: &Ring, present: &PresentRing) -> u32 {
    let mut count = 0u32;
    for node in 0..small(ring.nodes().len()) {
        if present.is_member(node) && !present.is_silent(node) {
            count = count.saturating_add(1);
        }
    }
    count
}
