//! Bars of slots.

use crate::fitting::{TextLook, push_fitting};
use crate::sheet::Sheet;
use crate::style::{INK, KEPT, TAKE};
use crate::svg::{Area, Point, push_area};
use texts::{Words, at, parts_of};

// The longest bar.
const BAR: u32 = 70;

// The widest numbers.
const NUMBERS: u32 = 86;

/// The greatest width of bar and numbers.
pub const SLOTS: u32 = BAR + 8 + NUMBERS;

/// The most slots that a node owns at first or in the end, at least 1.
pub fn most_owned(sheet: &Sheet, nodes: &[u32]) -> u32 {
    let loads = &sheet.scene.loads;
    let mut most = 1u32;
    for node in nodes {
        most = most.max(at(loads.before.as_slice(), *node as usize));
        most = most.max(at(loads.after.as_slice(), *node as usize));
    }
    most
}

const ARROW: &[u8] = b" \xe2\x86\x92 ";

/// The words over the bars.
pub fn slots_head(sheet: &Sheet) -> &'static [u8] {
    if sheet.progress.is_some() {
        return b"slots: begun \xe2\x86\x92 now \xe2\x86\x92 end";
    }
    b"slots owned, now \xe2\x86\x92 then"
}

/// Writes a bar and `16 → 13`, with a history `16 → 14 → 13`.
///
/// Kept slots are grey, taken ones coloured, given ones outlined. With a history, a line shows the slots owned now.
pub fn push_slots(sheet: &Sheet, out: &mut Words, node: u32, at_place: Point, most: u32) {
    let loads = &sheet.scene.loads;
    let before = at(loads.before.as_slice(), node as usize);
    let after = at(loads.after.as_slice(), node as usize);
    let (start, end) = (parts_of(before, most, BAR), parts_of(after, most, BAR));
    let mut bar = Area {
        x: at_place.x,
        y: at_place.y,
        width: start.min(end),
        height: 10,
    };
    push_area(out, bar, KEPT, b"");
    bar.x = at_place.x.saturating_add(start.min(end));
    if end > start {
        bar.width = end - start;
        push_area(out, bar, TAKE, b"");
    }
    if start > end {
        bar.width = start - end;
        push_area(out, bar, b"lost", b"");
    }
    push_now(sheet, out, node, at_place, most);
    push_numbers(sheet, out, at_place, node)
}

fn push_now(sheet: &Sheet, out: &mut Words, node: u32, at_place: Point, most: u32) {
    let loads = &sheet.scene.loads;
    let before = at(loads.before.as_slice(), node as usize);
    let after = at(loads.after.as_slice(), node as usize);
    if sheet.progress.is_none() || before == after {
        return;
    }
    let now = parts_of(at(sheet.present.owned.as_slice(), node as usize), most, BAR);
    let line = Area {
        x: at_place.x.saturating_add(now).saturating_sub(1),
        y: at_place.y.saturating_sub(2),
        width: 2,
        height: 14,
    };
    push_area(out, line, INK, b"")
}

fn push_numbers(sheet: &Sheet, out: &mut Words, place: Point, node: u32) {
    let loads = &sheet.scene.loads;
    let before = at(loads.before.as_slice(), node as usize);
    let now = at(sheet.present.owned.as_slice(), node as usize);
    let after = at(loads.after.as_slice(), node as usize);
    let mut words = Words::new(sheet.alloc);
    words.number(before);
    if sheet.progress.is_some() && (before != now || now != after) {
        words.text(ARROW);
        words.number(now);
    }
    if before != after || before != now {
        words.text(ARROW);
        words.number(after);
    }
    let behind = Point::at(place.x.saturating_add(BAR + 8), place.y.saturating_add(9));
    push_fitting(out, behind, TextLook::new(b"b", 11, b""), &words, NUMBERS)
}
