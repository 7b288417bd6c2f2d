//! A picture with every copy.

use crate::bars::{have_room, push_bar};
use crate::fitting::{TextLook, push_fitting};
use crate::frame::{caption_of, push_frame, push_idle, push_key, push_name};
use crate::lanes::Lanes;
use crate::order::by_copy;
use crate::sheet::Sheet;
use crate::slots::{SLOTS, most_owned, push_slots, slots_head};
use crate::style::{GIVE, SOME, TAKE};
use crate::svg::{
    Area, MARGIN, Point, WIDE, push_area, push_picture, push_rule, push_said, push_words,
};
use crate::widths::width;
use ring_names::Refusal;
use show_plan::ShownMove;
use texts::Words;

// A lane's height, and a row's least.
const LANE: u32 = 19;

const ROW: u32 = 44;

// A row's least height with sizes.
const SIZED_ROW: u32 = 56;

// The first row's top, and the gap before the slots.
const TOP: u32 = 112;

const GAP: u32 = 16;

// The least and greatest width before the rows.
const NARROW: u32 = 100;

const BROAD: u32 = 190;

#[derive(Clone, Copy)]
struct Row {
    node: u32,
    y: u32,
    height: u32,
    lanes: u32,
}

/// The places of rows and columns.
#[derive(Drop)]
pub struct Plot {
    rows: Vec<Row>,
    left: u32,
    column: u32,
    right: u32,
    bottom: u32,
    most: u32,
}

impl Plot {
    /// Places nodes in rows, as high as their most copies in a round.
    pub fn of(sheet: &Sheet, nodes: &[u32], lanes: &Lanes) -> Result<Plot, Refusal> {
        let left = words_before(sheet, nodes)?.saturating_add(MARGIN + 12);
        let rounds = sheet.scene.round_count().max(1);
        let room = (WIDE - MARGIN - SLOTS - GAP).saturating_sub(left);
        let column = match room.checked_div(rounds) {
            Some(column) => column.min(190).max(12),
            None => 12,
        };
        let mut plot = Plot {
            rows: Vec::new(sheet.alloc),
            left,
            column,
            right: left.saturating_add(column.saturating_mul(rounds)),
            bottom: TOP,
            most: most_owned(sheet, nodes),
        };
        let least = match sheet.volumes {
            Some(_) => SIZED_ROW,
            None => ROW,
        };
        plot.place(nodes, lanes, least)?;
        Ok(plot)
    }

    /// Whether each bar has room for words.
    pub fn has_room(&self, sheet: &Sheet) -> bool {
        have_room(sheet, self.column.saturating_sub(4))
    }

    fn place(&mut self, nodes: &[u32], lanes: &Lanes, least: u32) -> Result<(), Refusal> {
        for place in 0..nodes.len() {
            let needed = lanes.needed(place);
            let height = needed.saturating_mul(LANE).max(least);
            self.rows.push(Row {
                node: nodes[place],
                y: self.bottom,
                height,
                lanes: needed,
            })?;
            self.bottom = self.bottom.saturating_add(height).saturating_add(9);
        }
        Ok(())
    }

    fn start(&self, round: u32) -> u32 {
        let before = round.saturating_sub(1);
        self.left.saturating_add(self.column.saturating_mul(before))
    }

    fn push_columns(&self, sheet: &Sheet, out: &mut Words) {
        let rounds = sheet.scene.round_count();
        for round in 1..=rounds {
            let column = Area {
                x: self.start(round),
                y: TOP - 6,
                width: self.column,
                height: self.bottom.saturating_sub(TOP).saturating_add(2),
            };
            push_area(
                out,
                column,
                if round % 2 == 1 { b"odd" } else { b"even" },
                b"",
            );
            if rounds <= 24 || round % 5 == 1 {
                self.push_round(sheet, out, round);
            }
        }
        let head = Point::at(self.right.saturating_add(GAP), TOP - 13);
        push_words(out, head, b" class=\"h\"", slots_head(sheet))
    }

    fn push_round(&self, sheet: &Sheet, out: &mut Words, round: u32) {
        let mut words = Words::new(sheet.alloc);
        if self.column > 56 {
            words.text(b"round ");
        }
        words.number(round);
        let middle = self.start(round).saturating_add(self.column / 2);
        let place = Point::at(middle, TOP - 13);
        push_said(out, place, b" class=\"h\" text-anchor=\"middle\"", &words);
    }

    fn push_ends(&self, sheet: &Sheet, out: &mut Words, row: &Row) {
        let middle = row.y.saturating_add(row.height / 2);
        self.push_role(sheet, out, row.node, middle);
        let panel = Point::at(self.right.saturating_add(GAP), middle.saturating_sub(5));
        push_slots(sheet, out, row.node, panel, self.most);
        let line = row.y.saturating_add(row.height).saturating_add(4);
        let from = Point::at(self.left, line);
        push_rule(out, from, Point::at(self.right, line))
    }

    fn push_role(&self, sheet: &Sheet, out: &mut Words, node: u32, middle: u32) {
        let (role, at_once, sizes) = sides_of(sheet, node);
        let first = match count_said(&role, &at_once, &sizes) {
            0 | 1 => middle.saturating_sub(1),
            2 => middle.saturating_sub(8),
            _ => middle.saturating_sub(14),
        };
        let x = self.left.saturating_sub(12);
        let room = self.left.saturating_sub(MARGIN + 12);
        push_name(sheet, out, Point::at(x, first), node, room);
        let y = self.push_side(out, first.saturating_add(13), &role);
        let y = self.push_side(out, y, &at_once);
        let _ = self.push_side(out, y, &sizes);
    }

    fn push_side(&self, out: &mut Words, y: u32, words: &Words) -> u32 {
        out.heed(words);
        if words.len() == 0 {
            return y;
        }
        let look = TextLook::new(b"k", 10, b" text-anchor=\"end\"");
        let place = Point::at(self.left.saturating_sub(12), y);
        let room = self.left.saturating_sub(MARGIN + 12);
        push_fitting(out, place, look, words, room);
        y.saturating_add(12)
    }

    fn area(&self, row: &Row, round: u32, lane: u32) -> Area {
        let spare = row.height.saturating_sub(row.lanes.saturating_mul(LANE)) / 2;
        Area {
            x: self.start(round).saturating_add(2),
            y: row
                .y
                .saturating_add(lane.saturating_mul(LANE))
                .saturating_add(spare)
                .saturating_add(2),
            width: self.column.saturating_sub(4),
            height: LANE - 4,
        }
    }

    // Returns the height.
    fn push_notes(&self, sheet: &Sheet, out: &mut Words) -> Result<u32, Refusal> {
        let y = self.bottom.saturating_add(18);
        let start = Point::at(self.left, y);
        if sheet.progress.is_some() {
            push_done_keys(out, start);
        } else {
            push_plan_keys(out, start);
        }
        let mut below = y.saturating_add(20);
        for line in LINES {
            let mut words = Words::new(sheet.alloc);
            words.text(line);
            let look = TextLook::new(b"h", 11, b"");
            let room = (WIDE - MARGIN).saturating_sub(self.left);
            push_fitting(out, Point::at(self.left, below), look, &words, room);
            below = below.saturating_add(15);
        }
        push_idle(sheet, out, Point::at(self.left, below.saturating_add(5)))?;
        Ok(below.saturating_add(20))
    }
}

const LINES: [&[u8]; 2] = [
    b"In a round stand the copies that wait only for copies to their left. Nothing stops between rounds:",
    b"a copy begins as soon as the steps are done that it waits for.",
];

fn push_done_keys(out: &mut Words, start: Point) {
    let round = b" rx=\"2\"";
    let next = push_key(out, start, SOME, round, b"copied");
    let next = push_key(out, next, b"pale edge", round, b"open, as far as it is");
    push_key(out, next, b"bare edge", round, b"still to do");
}

fn push_plan_keys(out: &mut Words, start: Point) {
    let round = b" rx=\"2\"";
    let next = push_key(out, start, GIVE, round, b"gives a slot");
    let takes = b"takes a slot; 5.1 is slot 1 of partition 5";
    push_key(out, next, TAKE, round, takes);
}

fn words_before(sheet: &Sheet, nodes: &[u32]) -> Result<u32, Refusal> {
    let mut wide = NARROW;
    for node in nodes {
        let (role, at_once, sizes) = sides_of(sheet, *node);
        wide = wide.max(width(sheet.names.name(*node), 12).saturating_mul(9) / 8);
        wide = wide.max(width(role.end()?.as_slice(), 10));
        wide = wide.max(width(at_once.end()?.as_slice(), 10));
        wide = wide.max(width(sizes.end()?.as_slice(), 10));
    }
    Ok(wide.min(BROAD))
}

fn sides_of(sheet: &Sheet, node: u32) -> (Words, Words, Words) {
    let at_once = sheet.at_once(node);
    let role = role_of(sheet, node, at_once.len() > 0);
    (role, at_once, sheet.sizes(node))
}

fn count_said(role: &Words, at_once: &Words, sizes: &Words) -> u32 {
    u32::from(role.len() > 0)
        .saturating_add(u32::from(at_once.len() > 0))
        .saturating_add(u32::from(sizes.len() > 0))
}

fn role_of(sheet: &Sheet, node: u32, has_bound: bool) -> Words {
    let parts = [
        (sheet.is_silent(node), sheet.present.silence(node)),
        (sheet.joins(node), b"joins".as_slice()),
        (sheet.leaves(node), b"leaves".as_slice()),
        (has_bound, b"never more than".as_slice()),
    ];
    let mut words = Words::new(sheet.alloc);
    for (is_said, part) in parts {
        if is_said && words.len() > 0 {
            words.text(b", ");
        }
        if is_said {
            words.text(part);
        }
    }
    words
}

fn push_copy(sheet: &Sheet, out: &mut Words, plot: &Plot, lanes: &mut Lanes, shown: &ShownMove) {
    push_part(sheet, out, plot, lanes, (shown, shown.to));
    for node in sheet.scene.shown.read_by(shown) {
        push_part(sheet, out, plot, lanes, (shown, *node));
    }
}

fn push_part(
    sheet: &Sheet,
    out: &mut Words,
    plot: &Plot,
    lanes: &mut Lanes,
    part: (&ShownMove, u32),
) {
    let (shown, node) = part;
    let Some(place) = lanes.row(node) else {
        return;
    };
    let Some(row) = plot.rows.as_slice().get(place) else {
        return;
    };
    let lane = lanes.take(place, shown.round);
    let area = plot.area(row, shown.round, lane);
    push_bar(sheet, out, area, shown, node == shown.to)
}

/// Draws every copy. Each bar must have room for words.
pub fn full_picture(sheet: &Sheet, nodes: &[u32], plot: &Plot) -> Result<Vec<u8>, Refusal> {
    let caption = caption_of(sheet);
    let mut shapes = Words::new(sheet.alloc);
    push_frame(sheet, &mut shapes, &caption);
    plot.push_columns(sheet, &mut shapes);
    for row in plot.rows.as_slice() {
        plot.push_ends(sheet, &mut shapes, row);
    }
    let mut lanes = Lanes::new(sheet, nodes)?;
    for place in by_copy(sheet)?.as_slice() {
        if let Some(shown) = sheet.shown(*place) {
            push_copy(sheet, &mut shapes, plot, &mut lanes, shown);
        }
    }
    let height = plot.push_notes(sheet, &mut shapes)?;
    let mut out = Words::new(sheet.alloc);
    push_picture(&mut out, height, &caption, &shapes);
    out.end()
}
