//! Known racks, and options that do not fit.

use change_text::{Entry, Fact, Options, RackRule, read_wanted};
use plan_check::Approved;
use plan_goal::{
    Kind, Racking, front, kind_of, members_by, members_with, misfit, racks_of, unracked,
};
use ring_names::Refusal;
use ring_table::{Ring, read_ring};
use show_why::{Nearest, push_printed};
use std::alloc::Global;
use texts::Words;

pub(crate) fn racking_of(
    alloc: Global,
    approved: &Approved,
    options: &Options,
) -> Result<Racking, Refusal> {
    let (ring, plan) = (approved.ring(), approved.plan());
    let members = members_by(alloc, ring, plan)?;
    racks_of(alloc, ring, members.as_slice(), options)
}

/// Adds by which racks a change was planned.
pub(crate) fn push_racks(
    alloc: Global,
    out: &mut Words,
    bytes: &[u8],
    approved: &Approved,
    options: &Options,
) -> Result<(), Refusal> {
    if kind_of(bytes) == Kind::Change {
        racking_of(alloc, approved, options)?.push(out);
    }
    Ok(())
}

fn push_undeclared(
    alloc: Global,
    out: &mut Words,
    ring: &Ring,
    name: &[u8],
) -> Result<(), Refusal> {
    push_printed(out, name);
    out.text(b", and the ring declares no such node\n");
    let mut nearest = Nearest::new(name);
    for node in ring.nodes() {
        nearest.look(alloc, name, node.name.as_slice())?;
    }
    if nearest.word.is_empty() {
        push_declared(out, ring);
    } else {
        out.fill(b"  `@` was meant?\n", &[nearest.word], &[]);
    }
    Ok(())
}

const NAMED: usize = 6;

fn push_declared(out: &mut Words, ring: &Ring) {
    let mut words: &[u8] = b"  It declares `@`";
    for (place, node) in ring.nodes().iter().enumerate() {
        if place < NAMED {
            out.fill(words, &[node.name.as_slice()], &[]);
            words = b", `@`";
        }
    }
    out.text(if ring.nodes().len() > NAMED {
        b", ..\n"
    } else {
        b".\n"
    });
}

fn push_misfit(alloc: Global, out: &mut Words, ring: &Ring, entry: &Entry) -> Result<(), Refusal> {
    let node = match &entry.fact {
        Fact::Rack { node, rack: _ }
        | Fact::Weight { node, parts: _ }
        | Fact::Alias { node, alias: _ }
        | Fact::Dead { node } => node.as_slice(),
        Fact::Size { partition, size: _ } => {
            out.fill(
                b"refused: line # of the layout names partition #, and the ring has # partitions\n",
                &[],
                &[entry.line, *partition, ring.q()],
            );
            return Ok(());
        }
    };
    out.fill(b"refused: line # of the layout names ", &[], &[entry.line]);
    push_undeclared(alloc, out, ring, node)
}

fn push_unracked(
    alloc: Global,
    out: &mut Words,
    bytes: &[u8],
    ring: &Ring,
    options: &Options,
) -> Result<bool, Refusal> {
    let members = match read_wanted(alloc, bytes) {
        Ok(wanted) => members_with(alloc, ring, wanted.change.joins.as_slice())?,
        Err(refusal) => {
            if let Refusal::OutOfMemory = refusal {
                return Err(refusal);
            }
            members_with(alloc, ring, &[])?
        }
    };
    let Some(node) = unracked(alloc, ring, members.as_slice(), options)? else {
        return Ok(false);
    };
    match options.racks {
        RackRule::Behind(byte) => push_unparted(out, ring.name(node), byte),
        _ => out.fill(
            b"refused: the rack of @ is not known, and each member needs one\n",
            &[ring.name(node)],
            &[],
        ),
    }
    Ok(true)
}

fn fill_two<'a>(out: &mut Words, words: &[u8], first: &'a [u8], second: &'a [u8]) {
    out.fill(words, &[first, second], &[]);
}

fn push_unparted(out: &mut Words, name: &[u8], byte: u8) {
    let separator = [if byte.is_ascii_graphic() { byte } else { b'?' }];
    let words: &[u8] = if name.contains(&byte) {
        b"refused: nothing follows the last `@` in the name of the node @, and each member needs a rack\n"
    } else {
        b"refused: there is no `@` in the name of the node @, and each member needs a rack\n"
    };
    fill_two(out, words, &separator, name);
    out.text(b"  `--racks-behind none` plans without racks, and a layout names them.\n");
}

/// Whether the options may be at fault: an unknown name or partition.
pub(crate) fn is_of_options(refusal: &Refusal) -> bool {
    matches!(refusal, Refusal::UnknownNode(0) | Refusal::TooLarge(_))
}

/// Reports an unfit name or partition, or a missing rack. Returns whether there is one.
pub(crate) fn push_misfits(
    alloc: Global,
    out: &mut Words,
    bytes: &[u8],
    options: &Options,
) -> Result<bool, Refusal> {
    let ring = match read_ring(alloc, &bytes[..front(bytes, 1)]) {
        Ok(ring) => ring,
        Err(Refusal::OutOfMemory) => return Err(Refusal::OutOfMemory),
        Err(_) => return Ok(false),
    };
    if let Some(entry) = misfit(&ring, &options.layout) {
        push_misfit(alloc, out, &ring, entry)?;
        return Ok(true);
    }
    for name in options.dead.as_slice() {
        if ring.number_of(name.as_slice()).is_none() {
            out.text(b"refused: the command line names ");
            push_undeclared(alloc, out, &ring, name.as_slice())?;
            return Ok(true);
        }
    }
    push_unracked(alloc, out, bytes, &ring, options)
}
