//! The rounds of copies.

use crate::names::push_many;
use crate::overview::{Overview, Sized, SummaryShape};
use crate::pieces::Flow;
use crate::shown::ShownMove;
use crate::writing::{push_long_right, push_number_right, push_right, push_spaces};
use ring_names::Refusal;
use std::alloc::Global;
use texts::{Words, at, small};

// The most rounds of a short list, and how many a shortened list shows.
const SHORT: u32 = 12;

const SHOWN: u32 = 10;

// In a short list, a round's most pairs, and a pair's most slots.
const ENTRIES: usize = 6;

// The indent of copies without sizes.
const INDENT: usize = 18;

fn size_column(view: &Overview) -> usize {
    match view.sized {
        Some(Sized { volumes, .. }) => volumes.rounds_width.saturating_add(2),
        None => 0,
    }
}

// In the list's order: by round, nodes read, target. A copy of listed slots is its own entry.
#[derive(Clone, Copy, PartialEq, Eq, PartialOrd, Ord)]
struct Placed {
    round: u32,
    reads: u64,
    to: u32,
    place: u32,
}

fn in_order(alloc: Global, moves: &[ShownMove]) -> Result<Vec<Placed>, Refusal> {
    let mut order = Vec::new(alloc);
    let mut place = 0u32;
    for shown in moves {
        if shown.round > 0 {
            let apart = u64::from(u32::MAX).saturating_add(u64::from(place));
            order.push(Placed {
                round: shown.round,
                reads: if shown.is_listed {
                    apart
                } else {
                    u64::from(shown.from)
                },
                to: shown.to,
                place,
            })?;
        }
        place = place.saturating_add(1);
    }
    order.sort_unstable();
    Ok(order)
}

fn are_alike(one: &Placed, other: &Placed) -> bool {
    one.round == other.round && one.reads == other.reads && one.to == other.to
}

fn alike_in_front(order: &[Placed]) -> usize {
    let mut count = 0usize;
    let Some(first) = order.first() else {
        return 0;
    };
    for one in order {
        if !are_alike(first, one) {
            break;
        }
        count = count.saturating_add(1);
    }
    count
}

fn cut(order: &[Placed], count: usize) -> (&[Placed], &[Placed]) {
    if count <= order.len() {
        return (&order[..count], &order[count..]);
    }
    (order, &[])
}

fn push_slot(out: &mut Words, shown: &ShownMove) {
    out.number(shown.slot.partition);
    out.byte(b'.');
    out.number(shown.slot.index);
}

fn push_read(view: &Overview, out: &mut Words, shown: &ShownMove) {
    let nodes = view.scene.shown.read_by(shown);
    if nodes.len() > 2 {
        return push_many(out, small(nodes.len()), b"node", b"nodes");
    }
    let mut is_first = true;
    for node in nodes {
        if !is_first {
            out.byte(b'+');
        }
        out.text(view.names.name(*node));
        is_first = false;
    }
}

// An entry's first copy begins with the nodes.
fn tell_copy(view: &Overview, word: &mut Words, shown: &ShownMove, is_first: bool) {
    word.clear();
    if is_first {
        push_read(view, word, shown);
        word.text(b" > ");
        word.text(view.names.name(shown.to));
        word.text(b": ");
    }
    push_slot(word, shown)
}

fn tell_more(word: &mut Words, count: usize, what: &[u8]) {
    word.clear();
    word.text(b"and ");
    word.number(small(count));
    word.byte(b' ');
    word.text(what);
}

fn push_entry(
    view: &Overview,
    out: &mut Words,
    flow: &mut Flow,
    entry: &[Placed],
    word: &mut Words,
) {
    let most = match view.shape {
        SummaryShape::Short if entry.len() > ENTRIES => ENTRIES - 1,
        _ => entry.len(),
    };
    let (these, others) = cut(entry, most);
    let mut gap = 3usize;
    for one in these {
        if let Some(shown) = view.scene.shown.moves.as_slice().get(one.place as usize) {
            tell_copy(view, word, shown, gap == 3);
            flow.push(out, word.as_slice(), gap);
        }
        gap = 1;
    }
    if others.is_empty() {
        return;
    }
    tell_more(word, others.len(), b"more");
    flow.push(out, word.as_slice(), 1)
}

fn entries(round: &[Placed]) -> usize {
    let mut count = 0usize;
    let mut rest = round;
    for turn in 0..round.len() {
        let alike = alike_in_front(rest);
        if alike == 0 {
            break;
        }
        count = count.saturating_add(1);
        rest = cut(rest, alike).1;
    }
    count
}

fn push_round(view: &Overview, out: &mut Words, round: &[Placed], word: &mut Words) {
    let Some(first) = round.first() else {
        return;
    };
    push_spaces(out, 2);
    push_number_right(out, first.round, 5);
    push_spaces(out, 2);
    push_number_right(out, small(round.len()), 6);
    if let Some(Sized { volumes, .. }) = view.sized {
        let place = (first.round as usize).saturating_sub(1);
        push_long_right(
            out,
            texts::word(volumes.rounds.as_slice(), place),
            size_column(view),
        );
    }
    push_spaces(out, 3);
    let most = match view.shape {
        SummaryShape::Short if entries(round) > ENTRIES => ENTRIES - 1,
        _ => round.len(),
    };
    push_entries(view, out, round, most, word);
    out.byte(b'\n');
}

fn push_entries(view: &Overview, out: &mut Words, round: &[Placed], most: usize, word: &mut Words) {
    let mut flow = Flow::new(INDENT.saturating_add(size_column(view)));
    let mut rest = round;
    for turn in 0..most {
        if rest.is_empty() {
            break;
        }
        let (entry, others) = cut(rest, alike_in_front(rest));
        push_entry(view, out, &mut flow, entry, word);
        rest = others;
    }
    if rest.is_empty() {
        return;
    }
    tell_more(word, rest.len(), b"copies more");
    flow.push(out, word.as_slice(), 3)
}

fn push_in_order(view: &Overview, out: &mut Words, word: &mut Words, order: &[Placed]) {
    let count = view.scene.round_count();
    let most = match view.shape {
        SummaryShape::Short if count > SHORT => SHOWN,
        _ => count,
    };
    let mut rest = order;
    for round in 0..most {
        let width = at(view.scene.widths.as_slice(), round as usize) as usize;
        let (these, others) = cut(rest, width);
        push_round(view, out, these, word);
        rest = others;
    }
    if rest.is_empty() {
        return;
    }
    out.text(b"     ..  ");
    push_number_right(out, small(rest.len()), 6);
    out.text(b"   in ");
    push_many(
        out,
        count.saturating_sub(most),
        b"round more",
        b"rounds more",
    );
    out.text(b" (--all)\n");
}

/// Writes rounds and their copies. `word` is an empty buffer.
pub fn push_rounds(view: &Overview, out: &mut Words, word: &mut Words) -> Result<(), Refusal> {
    out.text(b"  round  copies");
    if view.sized.is_some() {
        push_right(out, b"size", size_column(view));
    }
    out.text(b"   from > to: partition.slot\n");
    let order = in_order(view.alloc, view.scene.shown.moves.as_slice())?;
    push_in_order(view, out, word, order.as_slice());
    word.clear();
    Ok(())
}
