//! The table of nodes.

use crate::names::{push_many, push_names};
use crate::overview::{Overview, Sized, SummaryShape};
use crate::scene::Scene;
use crate::silent::push_node;
use crate::volumes::Volumes;
use crate::writing::{
    WIDTH, columns, push_left, push_long, push_long_right, push_number_left, push_number_right,
    push_right, push_spaces, push_times, push_trimmed, width_of,
};
use ring_names::Refusal;
use ring_table::Node;
use std::alloc::Global;
use texts::{Words, at, parts_of, small, word};

const SHORT: usize = 24;

const BAR: usize = 24;

#[derive(Drop)]
struct Table {
    // ascending
    rows: Vec<u32>,
    // nodes that take part without a row
    hidden: Vec<u32>,
    names: usize,
    at_once: usize,
    // a size's width
    sizes: usize,
    // the most slots of a row's node, before or after
    top: u32,
}

fn taking_part(view: &Overview) -> Result<Vec<u32>, Refusal> {
    let mut nodes = Vec::new(view.alloc);
    for node in 0..small(view.ring.nodes().len()) {
        if view.scene.takes_part(node) || view.present.is_silent(node) {
            nodes.push(node)?;
        }
    }
    Ok(nodes)
}

// Ranks a role, silent nodes first.
fn kind(view: &Overview, node: u32) -> usize {
    if view.present.is_silent(node) {
        0
    } else if view.scene.leaves.as_slice().contains(&node) {
        1
    } else if view.scene.joins.as_slice().contains(&node) {
        2
    } else {
        3
    }
}

fn work(scene: &Scene, node: u32) -> u32 {
    let gives = at(scene.loads.gives.as_slice(), node as usize);
    gives.saturating_add(at(scene.loads.takes.as_slice(), node as usize))
}

// By kind, then the busiest first.
fn ranked(view: &Overview, nodes: &[u32]) -> Result<Vec<(usize, u32, u32)>, Refusal> {
    let mut order = Vec::new(view.alloc);
    for node in nodes {
        let rank = u32::MAX - work(view.scene, *node);
        order.push((kind(view, *node), rank, *node))?;
    }
    order.sort_unstable();
    Ok(order)
}

// Each kind's first node, then its second, and so on.
fn in_turns(
    alloc: Global,
    ranked: &[(usize, u32, u32)],
) -> Result<Vec<(usize, usize, u32)>, Refusal> {
    let mut turns = Vec::new(alloc);
    let (mut kind, mut place) = (0usize, 0usize);
    for (of, _, node) in ranked {
        place = if *of == kind { place } else { 0 };
        kind = *of;
        turns.push((place, kind, *node))?;
        place = place.saturating_add(1);
    }
    turns.sort_unstable();
    Ok(turns)
}

fn first_of(
    alloc: Global,
    turns: &[(usize, usize, u32)],
    most: usize,
) -> Result<Vec<u32>, Refusal> {
    let mut found = Vec::new(alloc);
    for (_, _, node) in &turns[..turns.len().min(most)] {
        found.push(*node)?;
    }
    found.sort_unstable();
    Ok(found)
}

fn chosen(view: &Overview, nodes: &[u32], most: usize) -> Result<Vec<u32>, Refusal> {
    let order = ranked(view, nodes)?;
    let turns = in_turns(view.alloc, order.as_slice())?;
    first_of(view.alloc, turns.as_slice(), most)
}

fn without(alloc: Global, nodes: &[u32], others: &[u32]) -> Result<Vec<u32>, Refusal> {
    let mut found = Vec::new(alloc);
    for node in nodes {
        if !others.contains(node) {
            found.push(*node)?;
        }
    }
    Ok(found)
}

impl Table {
    fn of(view: &Overview) -> Result<Table, Refusal> {
        let nodes = taking_part(view)?;
        let most = match view.shape {
            SummaryShape::Short => SHORT,
            SummaryShape::Whole => nodes.len(),
        };
        let rows = chosen(view, nodes.as_slice(), most)?;
        let hidden = without(view.alloc, nodes.as_slice(), rows.as_slice())?;
        Ok(Table {
            rows,
            hidden,
            names: 4,
            at_once: 15,
            sizes: match view.sized {
                Some(Sized { volumes, .. }) => width_of(
                    volumes.gives.as_slice(),
                    width_of(volumes.takes.as_slice(), 10),
                ),
                None => 0,
            },
            top: 1,
        })
    }

    fn measure(&mut self, view: &Overview, line: &mut Words) {
        let loads = &view.scene.loads;
        for node in self.rows.as_slice() {
            let place = *node as usize;
            let wide = push_node(line, view.names, view.present, *node);
            self.names = self.names.max(wide);
            line.clear();
            self.at_once = self.at_once.max(push_at_once(view, line, *node));
            line.clear();
            self.top = self.top.max(at(loads.before.as_slice(), place));
            self.top = self.top.max(at(loads.after.as_slice(), place));
        }
    }

    fn tell_row(&self, view: &Overview, line: &mut Words, node: u32) {
        let (scene, place) = (view.scene, node as usize);
        line.text(b"  ");
        line.byte(sign(view, node));
        line.byte(b' ');
        let wide = push_node(line, view.names, view.present, node);
        push_spaces(line, self.names.saturating_sub(wide).saturating_add(2));
        let wide = push_at_once(view, line, node);
        push_spaces(line, self.at_once.saturating_sub(wide).saturating_add(2));
        push_count(line, at(scene.loads.gives.as_slice(), place));
        push_spaces(line, 2);
        push_count(line, at(scene.loads.takes.as_slice(), place));
        if let Some(Sized { volumes, .. }) = view.sized {
            push_spaces(line, 2);
            push_long_right(line, word(volumes.gives.as_slice(), place), self.sizes);
            push_spaces(line, 2);
            push_long_right(line, word(volumes.takes.as_slice(), place), self.sizes);
        }
        if view.progress.is_some() {
            return push_three(view, line, node);
        }
        push_two(view, line, node)
    }

    fn push_row(&self, view: &Overview, out: &mut Words, line: &mut Words, node: u32) {
        let loads = &view.scene.loads;
        self.tell_row(view, line, node);
        let before = at(loads.before.as_slice(), node as usize);
        self.push_bar(line, before, at(loads.after.as_slice(), node as usize));
        push_trimmed(out, line.as_slice());
        line.clear();
    }

    // Writes `=` for kept slots, `-` for given, `+` for taken.
    fn push_bar(&self, line: &mut Words, before: u32, after: u32) {
        let room = WIDTH.saturating_sub(columns(line.as_slice())).min(BAR);
        let scale = small(room).min(self.top);
        let start = parts_of(before, self.top, scale) as usize;
        let end = parts_of(after, self.top, scale) as usize;
        push_times(line, b'=', start.min(end));
        push_times(line, b'+', end.saturating_sub(start));
        push_times(line, b'-', start.saturating_sub(end))
    }

    fn push_all(&self, view: &Overview, out: &mut Words, line: &mut Words) {
        push_spaces(out, 4);
        push_left(out, b"node", self.names);
        push_spaces(out, 2);
        push_left(out, b"never more than", self.at_once);
        out.text(b"  gives  takes");
        if view.sized.is_some() {
            push_spaces(out, 2);
            push_right(out, b"gives size", self.sizes);
            push_spaces(out, 2);
            push_right(out, b"takes size", self.sizes);
        }
        out.text(if view.progress.is_some() {
            b"  begun    now    end\n"
        } else {
            b"   slots\n"
        });
        for node in self.rows.as_slice() {
            self.push_row(view, out, line, *node);
        }
        self.push_hidden(view, out)
    }

    fn push_hidden(&self, view: &Overview, out: &mut Words) {
        if self.hidden.is_empty() {
            return;
        }
        let loads = &view.scene.loads;
        let (mut gives, mut takes) = (0u32, 0u32);
        for node in self.hidden.as_slice() {
            gives = gives.saturating_add(at(loads.gives.as_slice(), *node as usize));
            takes = takes.saturating_add(at(loads.takes.as_slice(), *node as usize));
        }
        push_spaces(out, 4);
        push_many(
            out,
            small(self.hidden.len()),
            b"node more: gives ",
            b"nodes more: give ",
        );
        out.number(gives);
        out.text(b", take ");
        out.number(takes);
        out.text(b" slots");
        if let Some(Sized { volumes, .. }) = view.sized {
            self.push_hidden_sizes(out, volumes);
        }
        out.text(b" (--all)\n");
    }

    fn push_hidden_sizes(&self, out: &mut Words, volumes: &Volumes) {
        let (mut gives, mut takes) = (0u64, 0u64);
        for node in self.hidden.as_slice() {
            gives = gives.saturating_add(word(volumes.gives.as_slice(), *node as usize));
            takes = takes.saturating_add(word(volumes.takes.as_slice(), *node as usize));
        }
        out.text(b", sizes ");
        push_long(out, gives);
        out.text(b" and ");
        push_long(out, takes);
    }
}

fn push_two(view: &Overview, line: &mut Words, node: u32) {
    let (loads, place) = (&view.scene.loads, node as usize);
    push_spaces(line, 3);
    push_number_right(line, at(loads.before.as_slice(), place), 4);
    line.text(b" -> ");
    if view.scene.leaves.as_slice().contains(&node) {
        return line.text(b"gone ");
    }
    push_number_left(line, at(loads.after.as_slice(), place), 4);
    line.byte(b' ');
}

fn push_three(view: &Overview, line: &mut Words, node: u32) {
    let (loads, place) = (&view.scene.loads, node as usize);
    push_spaces(line, 2);
    push_number_right(line, at(loads.before.as_slice(), place), 5);
    push_spaces(line, 2);
    push_number_right(line, at(view.present.owned.as_slice(), place), 5);
    push_spaces(line, 2);
    if view.scene.leaves.as_slice().contains(&node) {
        push_right(line, b"gone", 5);
    } else {
        push_number_right(line, at(loads.after.as_slice(), place), 5);
    }
    push_spaces(line, 2)
}

// Writes a point for none. Returns the bytes used.
fn push_at_once(view: &Overview, line: &mut Words, node: u32) -> usize {
    let begin = line.len();
    if let Some(Node { allowance, .. }) = view.ring.nodes().get(node as usize) {
        view.scene.loads.push_at_once(line, *allowance, node);
    }
    if line.len() == begin {
        line.byte(b'.');
    }
    line.len().saturating_sub(begin)
}

fn sign(view: &Overview, node: u32) -> u8 {
    match kind(view, node) {
        0 => b'x',
        1 => b'-',
        2 => b'+',
        _ => b'~',
    }
}

fn push_count(line: &mut Words, count: u32) {
    if count == 0 {
        return push_right(line, b".", 5);
    }
    push_number_right(line, count, 5)
}

fn push_idle(view: &Overview, out: &mut Words) -> Result<(), Refusal> {
    let mut idle = Vec::new(view.alloc);
    for node in 0..small(view.ring.nodes().len()) {
        let has_row = view.scene.takes_part(node) || view.present.is_silent(node);
        if view.present.is_member(node) && !has_row {
            idle.push(node)?;
        }
    }
    if idle.is_empty() {
        return Ok(());
    }
    push_spaces(out, 4);
    if idle.len() < 6 {
        push_names(out, view.names, idle.as_slice(), 6);
    } else {
        push_many(out, small(idle.len()), b"other member", b"other members");
    }
    out.text(b": no part\n");
    Ok(())
}

/// Writes the table. `line` is a buffer.
///
/// Columns: transfers at once, moves, and slots before, now and finally.
pub fn push_table(view: &Overview, out: &mut Words, line: &mut Words) -> Result<(), Refusal> {
    let mut table = Table::of(view)?;
    table.measure(view, line);
    table.push_all(view, out, line);
    push_idle(view, out)
}
