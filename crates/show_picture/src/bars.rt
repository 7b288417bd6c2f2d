//! Bars of copies.

use crate::fitting::{TextLook, can_fit, push_fitting};
use crate::sheet::Sheet;
use crate::state::{BarState, state_of};
use crate::style::{GIVE, TAKE};
use crate::svg::{Area, Point, push_area, push_titled};
use show_plan::ShownMove;
use texts::{Words, small};

// Classes of words on filled and bare bars.
const LIGHT: &[u8] = b"b on";

const DARK: &[u8] = b"b";

const ROUND: &[u8] = b" rx=\"3\"";

// A bar's pixels free of words.
const RIM: u32 = 2;

fn slot_word(sheet: &Sheet, shown: &ShownMove) -> Words {
    let mut word = Words::new(sheet.alloc);
    word.number(shown.slot.partition);
    word.byte(b'.');
    word.number(shown.slot.index);
    word
}

// `5.1 ← n04`: the slot and the other node.
fn whole_words(sheet: &Sheet, shown: &ShownMove, takes: bool) -> Words {
    let mut words = slot_word(sheet, shown);
    words.text(if takes {
        b" \xe2\x86\x90 "
    } else {
        b" \xe2\x86\x92 "
    });
    let reads = sheet.scene.shown.read_by(shown);
    if !takes {
        words.text(sheet.names.name(shown.to));
    } else if reads.len() == 1 {
        words.text(sheet.names.name(reads[0]));
    } else {
        words.number(small(reads.len()));
        words.text(b" nodes");
    }
    words
}

// By room: slot and other node, only the slot, or only the partition.
fn label(sheet: &Sheet, shown: &ShownMove, takes: bool, room: u32) -> Words {
    let whole = whole_words(sheet, shown, takes);
    if can_fit(whole.as_slice(), room) {
        return whole;
    }
    let slot = slot_word(sheet, shown);
    if can_fit(slot.as_slice(), room) {
        return slot;
    }
    let mut partition = Words::new(sheet.alloc);
    partition.number(shown.slot.partition);
    partition
}

/// Whether each moving partition's number fits into a bar so wide.
pub fn have_room(sheet: &Sheet, wide: u32) -> bool {
    let mut most = 0u32;
    for shown in sheet.scene.shown.moves.as_slice() {
        most = most.max(shown.slot.partition);
    }
    // All digits are equally wide.
    let digits: &[u8] = match most {
        0..=9 => b"0",
        10..=99 => b"00",
        100..=999 => b"000",
        _ => b"0000",
    };
    can_fit(digits, wide.saturating_sub(RIM))
}

fn title(sheet: &Sheet, shown: &ShownMove) -> Words {
    let mut words = Words::new(sheet.alloc);
    words.text(b"step ");
    words.number(shown.copy.unwrap_or(0));
    words.text(b": copy of slot ");
    words.number(shown.slot.index);
    words.text(b" of partition ");
    words.number(shown.slot.partition);
    words.text(b" from ");
    show_plan::push_names(&mut words, sheet.names, sheet.scene.shown.read_by(shown), 7);
    words.text(b" to ");
    words.text(sheet.names.name(shown.to));
    words
}

/// Writes a copy's bar at one of its nodes.
///
/// Bars of open and remaining copies are bare. An open copy's bar has a part for copied chunks.
pub fn push_bar(sheet: &Sheet, out: &mut Words, area: Area, shown: &ShownMove, takes: bool) {
    let (fill, outline) = if takes {
        (TAKE, b"bare taker".as_slice())
    } else {
        (GIVE, b"bare giver".as_slice())
    };
    let about = title(sheet, shown);
    let state = state_of(sheet, shown);
    let ink = match state {
        BarState::Planned | BarState::Copied => {
            push_titled(out, area, fill, ROUND, &about);
            LIGHT
        }
        BarState::Open(_) | BarState::Left => {
            push_titled(out, area, outline, ROUND, &about);
            DARK
        }
    };
    if let BarState::Open(chunks) = state {
        let mut part = area;
        part.width = texts::parts_of(chunks, 16, area.width);
        push_area(out, part, fill, b" rx=\"3\" opacity=\"0.4\"");
    }
    let room = area.width.saturating_sub(RIM);
    let words = label(sheet, shown, takes, room);
    let look = TextLook::new(ink, 11, b" text-anchor=\"middle\"");
    let middle = Point::at(
        area.x.saturating_add(area.width / 2),
        area.y.saturating_add(12),
    );
    push_fitting(out, middle, look, &words, room)
}
