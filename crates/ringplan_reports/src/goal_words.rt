//! Why goal rings are unreachable.

use crate::history_words::unless_memory;
use crate::why::{push_few, push_too_few, push_words_of};
use change_text::{Options, Unreadable, Wanted, read_wanted};
use plan_goal::{
    Aim, Goal, Kind, Unfit, dead_by, front, goal_of, is_among, kind_of, nodes_of, why_unfit,
};
use ring_names::{NodeId, Refusal};
use ring_table::Ring;
use show_why::{Page, Said, push_printed, tell_text};
use std::alloc::Global;
use texts::{Words, small};

const NAMED: usize = 20;

// Adds which partitions cannot be read, and why that matters.
fn push_unread(out: &mut Words, ring: &Ring, unread: &[u32], most: usize) {
    out.text(if unread.len() == 1 {
        b"partition "
    } else {
        b"partitions "
    });
    for (place, partition) in unread.iter().enumerate() {
        if place < most {
            out.text(if place > 0 { b", " } else { b"" });
            out.number(*partition);
        }
    }
    let others = small(unread.len().saturating_sub(most));
    if others > 0 {
        out.fill(b" and # others", &[], &[others]);
    }
    out.fill(
        b" cannot be read: a slot of a dead node is copied from # live owners, and fewer are left",
        &[],
        &[ring.r()],
    );
}

fn push_other_node(out: &mut Words, goal: &Goal, node: u32) {
    let declared = if (node as usize) < goal.ring.nodes().len() {
        &goal.ring
    } else {
        &goal.wanted
    };
    out.fill(
        b"refused: the rings do not declare node @ alike: name, allowance and place among the `node` lines must be the same\n",
        &[declared.name(node)],
        &[],
    )
}

fn push_unfit(out: &mut Words, goal: &Goal, unread: &[u32], unfit: Unfit) {
    let ring = &goal.ring;
    match unfit {
        Unfit::Space => out.text(
            b"refused: the rings have other `space` or `quorum` lines, and no plan changes these\n",
        ),
        Unfit::Node(node) => push_other_node(out, goal, node),
        Unfit::DeadJoiner(node) => out.fill(
            b"refused: @ is dead and cannot join: let the change not join it\n",
            &[ring.name(node)],
            &[],
        ),
        Unfit::DeadOwner(slot) => out.fill(
            b"refused: slot #.# is to go to a node that is named dead\n",
            &[],
            &[slot.partition, slot.index],
        ),
        Unfit::Unread(_) => {
            out.text(b"refused: ");
            push_unread(out, ring, unread, NAMED);
            out.text(b"\n  `goal --partial` plans the rest, and leaves these as they are.\n");
        }
    }
}

fn push_no_plan(
    alloc: Global,
    out: &mut Words,
    goal: &Goal,
    unread: &[u32],
    options: &Options,
) -> Result<(), Refusal> {
    let names = dead_by(alloc, options)?;
    let dead = nodes_of(alloc, &goal.ring, names.as_slice())?;
    let unfit = why_unfit(&Aim {
        alloc,
        ring: &goal.ring,
        wanted: &goal.wanted,
        dead: dead.as_slice(),
    });
    let left = count_living(&goal.wanted, dead.as_slice());
    match unfit {
        Some(Unfit::DeadOwner(_) | Unfit::Unread(_)) if left < goal.wanted.n() => {
            push_too_few(alloc, out, left, goal.wanted.n())
        }
        Some(unfit) => push_unfit(out, goal, unread, unfit),
        None => out.text(b"refused: the planner found no plan\n"),
    }
    Ok(())
}

fn count_living(ring: &Ring, dead: &[NodeId]) -> u32 {
    let mut count = 0u32;
    for node in 0..small(ring.nodes().len()) {
        let node = NodeId(node);
        count = count.saturating_add(u32::from(ring.is_member(node) && !is_among(dead, node)));
    }
    count
}

fn behind(refusal: &Refusal, lines: u32) -> Option<Refusal> {
    match refusal {
        Refusal::BadLine(line) => Some(Refusal::BadLine(line.checked_sub(lines)?)),
        Refusal::TooLarge(line) => Some(Refusal::TooLarge(line.checked_sub(lines)?)),
        Refusal::UnknownNode(line) => Some(Refusal::UnknownNode(line.checked_sub(lines)?)),
        Refusal::Repeated(line) => Some(Refusal::Repeated(line.checked_sub(lines)?)),
        Refusal::QuorumTooSmall(line) => Some(Refusal::QuorumTooSmall(line.checked_sub(lines)?)),
        Refusal::SharedNode(line) => Some(Refusal::SharedNode(line.checked_sub(lines)?)),
        Refusal::NotMember(line) => Some(Refusal::NotMember(line.checked_sub(lines)?)),
        _ => None,
    }
}

const NO_CHANGE: &[u8; 160] =
    b"refused: a change is missing after the ring\n  A change is `change 1`, lines `join <node>`, then lines `leave <node>`, and `end`. Or the goal ring stands there.\n";

const HAS_PLAN: &[u8; 141] =
    b"refused: the bundle has a plan already\n  `ringplan show` says what the plan does. For another plan put a change or a goal ring in its place.\n";

fn begins_a_ring(text: &[u8]) -> bool {
    let line = &text[..text.len().min(7)];
    line == b"ring 1\n".as_slice()
        || line == b"ring 2\n".as_slice()
        || line == b"ring 3\n".as_slice()
}

// Numbers the second ring's lines from its own first line.
fn push_fault(
    alloc: Global,
    out: &mut Words,
    bytes: &[u8],
    refusal: &Refusal,
) -> Result<(), Refusal> {
    let first = &bytes[..front(bytes, 1)];
    let second = &bytes[front(bytes, 1)..];
    let lines = Page { bytes: first }.count();
    match behind(refusal, lines) {
        Some(Refusal::BadLine(1)) if second.is_empty() && !first.is_empty() => {
            out.text(NO_CHANGE);
            Ok(())
        }
        Some(Refusal::BadLine(1)) if second.starts_with(b"plan ") => {
            out.text(HAS_PLAN);
            Ok(())
        }
        Some(Refusal::BadLine(1)) if begins_a_ring(second) => {
            out.text(b"refused: behind the ring stands another one, and a change is wanted\n");
            Ok(())
        }
        Some(inside) if kind_of(bytes) != Kind::Change && is_behind(&inside) => {
            let mut said = Said::new(alloc);
            let _ = tell_text(alloc, &mut said, second, &inside)?;
            said.push(out, Page { bytes: second });
            out.fill(
                b"  Lines are counted from the first of the second ring, which is line # of the bundle.\n",
                &[],
                &[lines.saturating_add(1)],
            );
            Ok(())
        }
        _ => push_words_of(alloc, out, bytes, refusal),
    }
}

fn is_behind(inside: &Refusal) -> bool {
    !matches!(
        inside,
        Refusal::BadLine(0)
            | Refusal::TooLarge(0)
            | Refusal::UnknownNode(0)
            | Refusal::Repeated(0)
            | Refusal::QuorumTooSmall(0)
            | Refusal::SharedNode(0)
            | Refusal::NotMember(0)
    )
}

// Says why there is no plan, or which name is unknown.
fn push_by_goal(
    alloc: Global,
    out: &mut Words,
    bytes: &[u8],
    options: &Options,
    refusal: &Refusal,
) -> Result<(), Refusal> {
    if push_few_left(alloc, out, bytes, options)? {
        return Ok(());
    }
    match goal_of(alloc, bytes, options) {
        Ok((goal, unread)) => push_no_plan(alloc, out, &goal, unread.as_slice(), options),
        Err(Refusal::OutOfMemory) => Err(Refusal::OutOfMemory),
        Err(_) => push_words_of(alloc, out, bytes, refusal),
    }
}

// Reports if too few members would be left. Returns whether so.
fn push_few_left(
    alloc: Global,
    out: &mut Words,
    bytes: &[u8],
    options: &Options,
) -> Result<bool, Refusal> {
    if kind_of(bytes) != Kind::Change {
        return Ok(false);
    }
    match wanted_with(alloc, bytes, options) {
        Ok((wanted, dead)) => push_few(alloc, out, &wanted, dead.as_slice()),
        Err(refusal) => {
            unless_memory(refusal)?;
            Ok(false)
        }
    }
}

fn wanted_with(
    alloc: Global,
    bytes: &[u8],
    options: &Options,
) -> Result<(Wanted, Vec<NodeId>), Refusal> {
    let wanted = read_wanted(alloc, bytes)?;
    let names = dead_by(alloc, options)?;
    let dead = nodes_of(alloc, &wanted.ring, names.as_slice())?;
    Ok((wanted, dead))
}

/// Adds which dead nodes leave though not asked to.
pub fn push_dead_leavers(
    alloc: Global,
    out: &mut Words,
    bytes: &[u8],
    options: &Options,
) -> Result<(), Refusal> {
    let names = dead_by(alloc, options)?;
    if names.is_empty() || kind_of(bytes) != Kind::Change {
        return Ok(());
    }
    let Wanted { ring, change } = read_wanted(alloc, bytes)?;
    for node in nodes_of(alloc, &ring, names.as_slice())?.as_slice() {
        if ring.is_member(*node) && !is_among(change.leaves.as_slice(), *node) {
            out.fill(
                b"ringplan: @ is dead, so it leaves, though the change does not say so\n",
                &[ring.name(node.0)],
                &[],
            );
        }
    }
    Ok(())
}

/// Adds which unread partitions stay.
pub fn push_left(
    alloc: Global,
    out: &mut Words,
    bytes: &[u8],
    options: &Options,
) -> Result<(), Refusal> {
    if options.unreadable == Unreadable::Refused {
        return Ok(());
    }
    let (goal, unread) = goal_of(alloc, bytes, options)?;
    if !unread.is_empty() {
        out.text(b"ringplan: ");
        push_unread(out, &goal.ring, unread.as_slice(), usize::MAX);
        out.text(b": so no slot of these moves\n");
    }
    Ok(())
}

/// Adds why no plan leads to the goal ring.
pub fn push_goal_words(
    alloc: Global,
    out: &mut Words,
    bytes: &[u8],
    options: &Options,
    refusal: &Refusal,
) -> Result<(), Refusal> {
    match refusal {
        Refusal::NoPlan => push_by_goal(alloc, out, bytes, options, refusal),
        _ => push_fault(alloc, out, bytes, refusal),
    }
}
