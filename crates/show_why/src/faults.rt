//! Faults within the grammar.

use crate::forms::Part;
use crate::line::{Line, line_of};
use crate::names::{declared, first_node};
use crate::page::{Page, count_fields, field, number, place_of};
use crate::said::Said;
use texts::Lines;

fn last_field(text: &[u8]) -> &[u8] {
    field(text, count_fields(text).saturating_sub(1))
}

/// Reports a node that is named twice, or a member that joins.
pub fn repeated(said: &mut Said, page: Page, number: u32) {
    let line = line_of(page, number);
    let name = field(line.text, 1);
    said.title_with(b"`@` is named a second time", &[name], &[]);
    let declared = declared(page, name);
    if line.part == Part::Ring {
        line.whole(said, b"the second declaration");
        tell_first(said, declared);
        said.note(b"Take one of the two out, or give the second another name.");
        return line.take_out(said);
    }
    line.whole(said, b"here");
    if let Some(node) = declared {
        let is_member = last_field(page.text(node)) == b"in".as_slice();
        if is_member && line.word() == b"join".as_slice() {
            return tell_member(said, line, node);
        }
    }
    tell_first(said, earlier(page, number, line.start));
    tell_once(said, line)
}

fn tell_member(said: &mut Said, line: Line, node: u32) {
    said.title_with(
        b"`@` should join and is a member already",
        &[field(line.text, 1)],
        &[],
    );
    said.beside(node, b"declared `in`");
    said.note(b"Only a node that is declared `out` joins.");
    if line.part == Part::Change {
        line.take_out(said)
    }
}

fn tell_once(said: &mut Said, line: Line) {
    if line.part == Part::Change {
        said.note(b"A change names a node once.");
        return line.take_out(said);
    }
    said.note(
        b"A plan joins a node once, and retires it once. Take one of the steps out: later ones then count one less.",
    )
}

fn tell_first(said: &mut Said, first: Option<u32>) {
    if let Some(first) = first {
        said.beside(first, b"the first time");
    }
}

// The first line with this step. In a change, the first that names the node.
fn earlier(page: Page, line: u32, start: u32) -> Option<u32> {
    let text = page.text(line);
    let (word, node) = (field(text, 0), field(text, 1));
    let mut lines = Lines::of(page.after(start.saturating_sub(1)));
    let is_change = lines.begins(b"change");
    for at in start..line.min(start.saturating_add(4097)) {
        let Ok(mut fields) = lines.next() else {
            return None;
        };
        let same_word = fields.next() == Some(word) || is_change;
        if same_word && fields.takes(node) {
            return Some(at);
        }
    }
    None
}

fn owner_again(text: &[u8]) -> Option<usize> {
    for place in 3..count_fields(text) {
        for before in 2..place {
            if field(text, before) == field(text, place) {
                return Some(place);
            }
        }
    }
    None
}

/// Reports a node with two slots of a partition.
pub fn shared_node(said: &mut Said, page: Page, line: u32) {
    let text = page.text(line);
    let Some(place) = owner_again(text) else {
        said.title(b"a node owns two slots of a partition");
        return said.fault(line, b"");
    };
    said.title_with(
        b"`@` owns two slots of partition @",
        &[field(text, place), field(text, 1)],
        &[],
    );
    said.fault_at(
        page.at(line, place, place),
        b"each slot of a partition has an owner of its own",
    )
}

// A field with a node declared `out`, and the node's line.
fn outsider(page: Page, text: &[u8]) -> Option<(usize, u32)> {
    let fields = text.split(|byte| *byte == b' ').enumerate();
    for (place, name) in fields.skip(first_node(text)) {
        if let Some(node) = declared(page, name) {
            if last_field(page.text(node)) == b"out".as_slice() {
                return Some((place, node));
            }
        }
    }
    None
}

/// Reports an owner or leaver that is not a member.
pub fn not_member(said: &mut Said, page: Page, line: u32) {
    let text = page.text(line);
    let Some((place, node)) = outsider(page, text) else {
        said.title(b"a node that is not a member is named as one");
        return said.fault(line, b"");
    };
    let what: &[u8] = if field(text, 0) == b"leave".as_slice() {
        b"`@` should leave and is not a member"
    } else {
        b"`@` owns a slot and is not a member"
    };
    said.title_with(what, &[field(text, place)], &[]);
    said.beside(node, b"declared `out`");
    said.fault_at(page.at(line, place, place), b"here");
    said.note(
        b"A node that is `out` owns slots only once a plan has joined it and moved them to it.",
    )
}

fn later(text: &[u8], step: u32) -> Option<usize> {
    let first = place_of(text, b"after").unwrap_or(0).saturating_add(1);
    let fields = text.split(|byte| *byte == b' ').enumerate();
    for (place, word) in fields.skip(first) {
        if let Some(other) = number(word) {
            if other >= step {
                return Some(place);
            }
        }
    }
    None
}

/// Reports a step that waits for itself or a later one.
pub fn later_dependency(said: &mut Said, page: Page, line: u32) {
    let text = page.text(line);
    let start = page.section(line).start;
    let step = line.saturating_sub(start).saturating_sub(1);
    if let Some(place) = later(text, step) {
        said.title_with(
            b"step # waits for step @, which is not in front of it",
            &[field(text, place)],
            &[step],
        );
        said.fault_at_with(page.at(line, place, place), b"this is step #", &[], &[step]);
    } else {
        said.title(b"a step waits for one that is not in front of it");
    }
    said.note_with(
        b"Steps count from 0 in the order of their lines: step n stands in line # + n.",
        &[],
        &[start.saturating_add(1)],
    )
}
