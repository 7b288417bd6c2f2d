//! A picture's frame.

use crate::fitting::{TextLook, push_fitting};
use crate::sheet::Sheet;
use crate::style::DONE;
use crate::svg::{Area, Caption, MARGIN, Point, WIDE, push_area, push_said, push_words};
use crate::widths::width;
use ring_names::Refusal;
use show_plan::{
    fewest_moves, push_change, push_many, push_moves, push_names, push_quorum, push_short,
};
use texts::{Words, parts_of, small};

const BAR: u32 = 210;

/// Words' greatest width.
pub const ROOM: u32 = WIDE - 2 * MARGIN;

fn tell_change(sheet: &Sheet, out: &mut Words) {
    let scene = sheet.scene;
    push_change(out, sheet.names, scene);
    out.text(b": ");
    push_moves(out, scene, b"slot moves", b"slots move");
    out.text(b" in ");
    push_many(out, scene.round_count(), b"round", b"rounds")
}

fn tell_ring(sheet: &Sheet, out: &mut Words) {
    let scene = sheet.scene;
    push_quorum(out, sheet.ring, b", any ", b" and any ");
    out.text(b". The widest round has ");
    push_many(out, scene.widest(), b"copy.", b"copies.");
    if scene.move_count() > 0
        && scene.move_count() == fewest_moves(sheet.ring, scene, sheet.present)
    {
        out.text(b" No plan moves fewer.");
    }
}

/// The title, and the words below.
pub fn caption_of(sheet: &Sheet) -> Caption {
    let mut caption = Caption {
        title: Words::new(sheet.alloc),
        about: Words::new(sheet.alloc),
    };
    tell_change(sheet, &mut caption.title);
    tell_ring(sheet, &mut caption.about);
    caption
}

/// Writes title, words below, and progress.
pub fn push_frame(sheet: &Sheet, out: &mut Words, caption: &Caption) {
    // Bold words are about an eighth wider.
    let title = TextLook::new(b"t", 19, b"");
    push_fitting(
        out,
        Point::at(MARGIN, 34),
        title,
        &caption.title,
        ROOM / 9 * 8,
    );
    let about = TextLook::new(b"s", 12, b"");
    push_fitting(out, Point::at(MARGIN, 55), about, &caption.about, ROOM);
    push_sizes(sheet, out);
    push_progress(sheet, out)
}

fn push_sizes(sheet: &Sheet, out: &mut Words) {
    let Some(volumes) = sheet.volumes else {
        return;
    };
    let mut words = Words::new(sheet.alloc);
    match &volumes.left {
        Some(left) => {
            push_short(&mut words, left.moved);
            words.text(b" of ");
            push_short(&mut words, volumes.moved);
            words.text(b" left to move");
        }
        None => {
            push_short(&mut words, volumes.moved);
            words.text(b" to move in all");
        }
    }
    let look = TextLook::new(b"s", 12, b"");
    push_fitting(out, Point::at(MARGIN, 75), look, &words, ROOM / 2)
}

fn push_progress(sheet: &Sheet, out: &mut Words) {
    let Some(progress) = sheet.progress else {
        return;
    };
    let steps = sheet.plan.len();
    let done = progress.count();
    let mut bar = Area {
        x: WIDE - MARGIN - BAR,
        y: 64,
        width: BAR,
        height: 12,
    };
    push_area(out, bar, b"track", b" rx=\"3\"");
    bar.width = parts_of(done, steps, BAR);
    push_area(out, bar, DONE, b" rx=\"3\"");
    let mut words = Words::new(sheet.alloc);
    words.number(done);
    words.text(b" of ");
    push_many(&mut words, steps, b"step done", b"steps done");
    let right = Point::at(bar.x.saturating_sub(8), 75);
    push_said(out, right, b" class=\"s\" text-anchor=\"end\"", &words)
}

/// Writes an entry of the legend. Returns the next entry's place.
pub fn push_key(out: &mut Words, at: Point, class: &[u8], more: &[u8], words: &[u8]) -> Point {
    let patch = Area {
        x: at.x,
        y: at.y.saturating_sub(9),
        width: 20,
        height: 11,
    };
    push_area(out, patch, class, more);
    let x = at.x.saturating_add(26);
    push_words(out, Point::at(x, at.y), b" class=\"h\"", words);
    Point::at(x.saturating_add(width(words, 11)).saturating_add(20), at.y)
}

/// A name's class. Colour and weight show the role; silent nodes are crossed out.
pub fn name_class(sheet: &Sheet, node: u32) -> &'static [u8] {
    match (sheet.is_silent(node), sheet.leaves(node), sheet.joins(node)) {
        (false, true, _) => b"n leaves",
        (false, _, true) => b"n joins",
        (false, _, _) => b"n",
        (true, true, _) => b"n leaves down",
        (true, _, true) => b"n joins down",
        (true, _, _) => b"n down",
    }
}

/// Writes a node's name, ending at the place.
pub fn push_name(sheet: &Sheet, out: &mut Words, at: Point, node: u32, room: u32) {
    let look = TextLook::new(name_class(sheet, node), 12, b" text-anchor=\"end\"");
    let mut words = Words::new(sheet.alloc);
    words.text(sheet.names.name(node));
    let is_bold = sheet.leaves(node) || sheet.joins(node);
    let room = if is_bold {
        (room / 9).saturating_mul(8)
    } else {
        room
    };
    push_fitting(out, at, look, &words, room)
}

/// Writes which members do nothing.
pub fn push_idle(sheet: &Sheet, out: &mut Words, at: Point) -> Result<(), Refusal> {
    let mut idle = Vec::new(sheet.alloc);
    for node in 0..small(sheet.ring.nodes().len()) {
        let has_row = sheet.scene.takes_part(node) || sheet.is_silent(node);
        if sheet.present.is_member(node) && !has_row {
            idle.push(node)?;
        }
    }
    if idle.is_empty() {
        return Ok(());
    }
    let mut words = Words::new(sheet.alloc);
    words.text(b"No part in it: ");
    push_names(&mut words, sheet.names, idle.as_slice(), 6);
    words.byte(b'.');
    let room = WIDE.saturating_sub(MARGIN).saturating_sub(at.x);
    push_fitting(out, at, TextLook::new(b"h", 11, b""), &words, room);
    Ok(())
}
