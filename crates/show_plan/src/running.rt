//! A run's progress.

use crate::names::push_many;
use crate::overview::Overview;
use crate::writing::{end_line, push_times};
use plan_moves::Progress;
use plan_text::Step;
use ring_names::Slot;
use texts::Words;

const INDENT: usize = 12;

fn push_step(view: &Overview, out: &mut Words, number: u32) {
    if number >= view.plan.len() {
        return;
    }
    match view.plan.step(number) {
        Step::Join(node) => push_words(view, out, b"join", None, Some(node.0)),
        Step::Mirror(slot, node) => push_words(view, out, b"mirror", Some(*slot), Some(node.0)),
        Step::Copy(slot, _) => push_words(view, out, b"copy", Some(*slot), None),
        Step::Switch(slot) => push_words(view, out, b"switch", Some(*slot), None),
        Step::Drop(slot, node) => push_words(view, out, b"drop", Some(*slot), Some(node.0)),
        Step::Retire(node) => push_words(view, out, b"retire", None, Some(node.0)),
    }
}

fn push_words(
    view: &Overview,
    out: &mut Words,
    word: &[u8],
    slot: Option<Slot>,
    node: Option<u32>,
) {
    out.text(word);
    if let Some(slot) = slot {
        out.byte(b' ');
        out.number(slot.partition);
        out.byte(b'.');
        out.number(slot.index);
    }
    if let Some(node) = node {
        out.byte(b' ');
        out.text(view.names.name(node));
    }
}

/// Writes what a history has done.
pub fn push_progress(view: &Overview, out: &mut Words, line: &mut Words, progress: &Progress) {
    push_done(view, out, progress);
    push_open(view, out, progress);
    tell_next(view, line, progress);
    end_line(out, line, INDENT);
    out.byte(b'\n');
}

fn push_done(view: &Overview, out: &mut Words, progress: &Progress) {
    let steps = view.plan.len();
    let done = progress.count();
    let full = match done.saturating_mul(40).checked_div(steps) {
        Some(full) => full.min(40) as usize,
        None => 40,
    };
    let (mut copies, mut copied) = (0u32, 0u32);
    for number in 0..steps {
        if let Step::Copy(_, _) = view.plan.step(number) {
            copies = copies.saturating_add(1);
            if progress.is_done(number) {
                copied = copied.saturating_add(1);
            }
        }
    }
    out.text(b"  done      [");
    push_times(out, b'#', full);
    push_times(out, b'.', 40 - full);
    out.text(b"] ");
    out.number(done);
    out.text(b" of ");
    push_many(out, steps, b"step, ", b"steps, ");
    out.number(copied);
    out.text(b" of ");
    push_many(out, copies, b"copy\n", b"copies\n")
}

fn push_open(view: &Overview, out: &mut Words, progress: &Progress) {
    for number in 0..view.plan.len() {
        if progress.is_open(number) {
            out.text(b"  open      step ");
            out.number(number);
            out.byte(b' ');
            push_step(view, out, number);
            out.text(b": ");
            out.number(progress.chunks(number));
            out.text(b" of 16 chunks\n");
        }
    }
}

fn tell_next(view: &Overview, line: &mut Words, progress: &Progress) {
    line.text(b"  next      ");
    let mut count = 0u32;
    for number in 0..view.plan.len() {
        if !progress.is_ready(view.plan, number) {
            continue;
        }
        if count < 4 {
            line.text(if count > 0 { b"; step " } else { b"step " });
            line.number(number);
            line.byte(b' ');
            push_step(view, line, number);
        }
        count = count.saturating_add(1);
    }
    if count == 0 {
        line.text(b"nothing");
    }
    if count > 4 {
        line.text(b"; ");
        line.number(count - 4);
        line.text(b" more");
    }
}
