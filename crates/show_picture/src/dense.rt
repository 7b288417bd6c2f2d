//! A picture with sums, of several rounds or nodes.

use crate::bands::{Band, Bands};
use crate::fitting::{TextLook, push_fitting};
use crate::frame::{caption_of, name_class, push_frame, push_key};
use crate::sheet::Sheet;
use crate::slots::{SLOTS, most_owned, push_slots, slots_head};
use crate::state::{BarState, state_of};
use crate::style::{DONE, GIVE, PALE, SOME, TAKE};
use crate::svg::{
    Area, MARGIN, Point, WIDE, push_area, push_picture, push_rule, push_said, push_titled,
    push_words,
};
use crate::widths::width;
use ring_names::Refusal;
use show_plan::{ShownMove, push_many};
use texts::{Words, at, parts_of, raise, small};

const COLUMNS: u32 = 60;

// The bars of all copies: top and height. Then the first row's top.
const TOP: u32 = 96;

const ALL: u32 = 74;

const FIRST: u32 = 204;

// The gap after the columns, the width of transfers at once, and the panel behind.
const GAP: u32 = 8;

const AT_ONCE: u32 = 118;

const PANEL: u32 = GAP + AT_ONCE + SLOTS + MARGIN;

// The least and greatest width before the rows.
const NARROW: u32 = 90;

const BROAD: u32 = 160;

// Copies by row and column.
#[derive(Drop)]
struct Tally {
    rounds: u32,
    columns: usize,
    takes: Vec<u32>,
    gives: Vec<u32>,
    took: Vec<u32>,
    gave: Vec<u32>,
    all: Vec<u32>,
    done: Vec<u32>,
}

impl Tally {
    fn of(sheet: &Sheet, bands: &Bands) -> Result<Tally, Refusal> {
        let count = sheet.scene.round_count().max(1);
        let rounds = count.saturating_add(COLUMNS - 1) / COLUMNS;
        let columns = match count
            .saturating_add(rounds)
            .saturating_sub(1)
            .checked_div(rounds)
        {
            Some(columns) => columns as usize,
            None => 1,
        };
        let cells = bands.bands.len().saturating_mul(columns);
        let mut tally = Tally {
            rounds,
            columns,
            takes: vec![in sheet.alloc; 0u32; cells]?,
            gives: vec![in sheet.alloc; 0u32; cells]?,
            took: vec![in sheet.alloc; 0u32; cells]?,
            gave: vec![in sheet.alloc; 0u32; cells]?,
            all: vec![in sheet.alloc; 0u32; columns]?,
            done: vec![in sheet.alloc; 0u32; columns]?,
        };
        for shown in sheet.scene.shown.moves.as_slice() {
            if shown.round > 0 {
                tally.count(sheet, bands, shown);
            }
        }
        Ok(tally)
    }

    fn column(&self, round: u32) -> usize {
        match round.saturating_sub(1).checked_div(self.rounds) {
            Some(column) => column as usize,
            None => 0,
        }
    }

    fn cell(&self, row: usize, column: usize) -> usize {
        row.saturating_mul(self.columns).saturating_add(column)
    }

    fn count(&mut self, sheet: &Sheet, bands: &Bands, shown: &ShownMove) {
        let column = self.column(shown.round);
        let is_done = state_of(sheet, shown) == BarState::Copied;
        raise(self.all.as_mut_slice(), column);
        if is_done {
            raise(self.done.as_mut_slice(), column);
        }
        if let Some(row) = bands.row(shown.to) {
            let cell = self.cell(row, column);
            raise(self.takes.as_mut_slice(), cell);
            if is_done {
                raise(self.took.as_mut_slice(), cell);
            }
        }
        for node in sheet.scene.shown.read_by(shown) {
            if let Some(row) = bands.row(*node) {
                let cell = self.cell(row, column);
                raise(self.gives.as_mut_slice(), cell);
                if is_done {
                    raise(self.gave.as_mut_slice(), cell);
                }
            }
        }
    }

    // The most copies in a cell of named or summed rows, at least 1.
    fn most(&self, bands: &Bands, is_named: bool) -> u32 {
        let mut most = 1u32;
        let mut row = 0usize;
        for band in bands.bands.as_slice() {
            if band.node.is_some() == is_named {
                for column in 0..self.columns {
                    let cell = self.cell(row, column);
                    most = most.max(at(self.takes.as_slice(), cell));
                    most = most.max(at(self.gives.as_slice(), cell));
                }
            }
            row = row.saturating_add(1);
        }
        most
    }
}

#[derive(Drop)]
struct CopyGrid {
    left: u32,
    column: u32,
    right: u32,
    row: u32,
    bottom: u32,
    // the copies at full height in named and in summed rows, or 0
    scale: u32,
    sum_scale: u32,
    most: u32,
}

fn sign(kind: u32) -> &'static [u8] {
    match kind {
        0 => b"x ",
        1 => b"- ",
        2 => b"+ ",
        _ => b"",
    }
}

fn label(sheet: &Sheet, band: &Band) -> Words {
    let mut words = Words::new(sheet.alloc);
    match band.node {
        Some(node) => {
            words.text(sign(band.kind));
            words.text(sheet.names.name(node));
            if sheet.is_silent(node) {
                words.byte(b' ');
                words.text(sheet.present.silence(node));
            }
        }
        None => match band.kind {
            0 => push_many(
                &mut words,
                band.count,
                b"more does not answer",
                b"more do not answer",
            ),
            1 => push_many(&mut words, band.count, b"more leaves", b"more leave"),
            2 => push_many(&mut words, band.count, b"more joins", b"more join"),
            _ => push_many(&mut words, band.count, b"more node", b"more nodes"),
        },
    }
    words
}

impl CopyGrid {
    fn of(sheet: &Sheet, nodes: &[u32], bands: &Bands, tally: &Tally) -> Result<CopyGrid, Refusal> {
        let mut words = NARROW;
        for band in bands.bands.as_slice() {
            let wide = width(label(sheet, band).end()?.as_slice(), 12);
            words = words.max((wide.saturating_mul(9) / 8).saturating_add(1));
        }
        let left = words.min(BROAD).saturating_add(MARGIN + 12);
        let columns = small(tally.columns).max(1);
        let room = (WIDE - PANEL).saturating_sub(left);
        let column = room.checked_div(columns).unwrap_or(6).min(150).max(6);
        let right = left.saturating_add(column.saturating_mul(columns));
        let rows = small(bands.bands.len());
        let row = match (sheet.volumes, rows) {
            (Some(_), _) => 28,
            (None, 0..=18) => 24,
            (None, _) => 20,
        };
        Ok(CopyGrid {
            left,
            column,
            right,
            row,
            bottom: FIRST.saturating_add(rows.saturating_mul(row)),
            scale: tally.most(bands, true),
            sum_scale: if bands.have_sums() {
                tally.most(bands, false)
            } else {
                0
            },
            most: most_owned(sheet, nodes),
        })
    }

    fn start(&self, column: usize) -> u32 {
        self.left
            .saturating_add(self.column.saturating_mul(small(column)))
    }

    fn push_sum(&self, sheet: &Sheet, out: &mut Words, tally: &Tally, sum: (usize, u32)) {
        let (column, most) = sum;
        let floor = TOP + ALL;
        let count = at(tally.all.as_slice(), column);
        let high = parts_of(count, most, ALL);
        let mut bar = Area {
            x: self.start(column),
            y: floor.saturating_sub(high),
            width: self.column.saturating_sub(1),
            height: high,
        };
        let about = rounds_words(sheet, tally, column, b": copies ", count);
        let fill = if sheet.progress.is_some() { PALE } else { SOME };
        push_titled(out, bar, fill, b"", &about);
        let done = parts_of(at(tally.done.as_slice(), column), most, ALL);
        if done > 0 {
            bar.y = floor.saturating_sub(done);
            bar.height = done;
            push_area(out, bar, DONE, b"");
        }
    }

    fn push_all(&self, sheet: &Sheet, out: &mut Words, tally: &Tally) {
        let mut most = 1u32;
        for count in tally.all.as_slice() {
            most = most.max(*count);
        }
        for column in 0..tally.columns {
            self.push_sum(sheet, out, tally, (column, most));
        }
        let mut words = Words::new(sheet.alloc);
        push_many(&mut words, most, b"copy", b"copies");
        let right = Point::at(self.right.saturating_add(GAP), TOP + 9);
        push_said(out, right, b" class=\"h\"", &words);
        let before = Point::at(self.left.saturating_sub(12), TOP + ALL - 4);
        push_words(
            out,
            before,
            b" class=\"n\" text-anchor=\"end\" font-weight=\"bold\"",
            b"all copies",
        )
    }

    // Writes each column's first round, and the heads at the right.
    fn push_heads(&self, sheet: &Sheet, out: &mut Words, tally: &Tally) {
        let every = (tally.columns / 12).max(1);
        for column in 0..tally.columns {
            if column % every == 0 {
                let mut words = Words::new(sheet.alloc);
                let first = small(column).saturating_mul(tally.rounds).saturating_add(1);
                words.number(first);
                let place = Point::at(self.start(column), FIRST - 14);
                push_said(out, place, b" class=\"h\"", &words);
            }
        }
        let once = Point::at(self.right.saturating_add(GAP), FIRST - 14);
        push_words(out, once, b" class=\"h\"", b"never more than");
        let owned = Point::at(self.right.saturating_add(GAP + AT_ONCE), FIRST - 14);
        push_words(out, owned, b" class=\"h\"", slots_head(sheet))
    }

    fn middle(&self, number: usize) -> u32 {
        let above = self.row.saturating_mul(small(number));
        FIRST.saturating_add(above).saturating_add(self.row / 2)
    }

    fn push_ends(&self, sheet: &Sheet, out: &mut Words, number: usize, band: &Band) {
        let middle = self.middle(number);
        let from = Point::at(self.left, middle);
        push_rule(out, from, Point::at(self.right, middle));
        let y = middle.saturating_add(4);
        let before = Point::at(self.left.saturating_sub(12), y);
        let room = self.left.saturating_sub(MARGIN + 12);
        let class = match band.node {
            Some(node) => name_class(sheet, node),
            None => b"s",
        };
        let look = TextLook::new(class, 12, b" text-anchor=\"end\"");
        push_fitting(
            out,
            before,
            look,
            &label(sheet, band),
            (room / 9).saturating_mul(8),
        );
        let Some(node) = band.node else {
            return;
        };
        self.push_work(sheet, out, node, y);
        let owned = Point::at(
            self.right.saturating_add(GAP + AT_ONCE),
            middle.saturating_sub(5),
        );
        push_slots(sheet, out, node, owned, self.most)
    }

    fn push_work(&self, sheet: &Sheet, out: &mut Words, node: u32, y: u32) {
        let look = TextLook::new(b"k", 10, b"");
        let x = self.right.saturating_add(GAP);
        let sizes = sheet.sizes(node);
        out.heed(&sizes);
        let lift = if sizes.len() > 0 { 6 } else { 0 };
        let once = Point::at(x, y.saturating_sub(lift));
        push_fitting(out, once, look, &sheet.at_once(node), AT_ONCE - GAP);
        if sizes.len() > 0 {
            let below = Point::at(x, y.saturating_add(6));
            push_fitting(out, below, look, &sizes, AT_ONCE - GAP)
        }
    }

    // Takes go upwards, gives downwards.
    fn push_bars(&self, sheet: &Sheet, out: &mut Words, tally: &Tally, numbered: (usize, &Band)) {
        let (number, band) = numbered;
        let scale = if band.node.is_some() {
            self.scale
        } else {
            self.sum_scale
        };
        let room = (self.row / 2).saturating_sub(1);
        for column in 0..tally.columns {
            let cell = tally.cell(number, column);
            let takes = at(tally.takes.as_slice(), cell);
            let gives = at(tally.gives.as_slice(), cell);
            let mut bar = Bar {
                x: self.start(column),
                width: self.column.saturating_sub(1),
                middle: self.middle(number),
                high: parts_of(takes, scale, room).max(1),
            };
            bar.push(sheet, out, (takes, at(tally.took.as_slice(), cell)), true);
            bar.high = parts_of(gives, scale, room).max(1);
            bar.push(sheet, out, (gives, at(tally.gave.as_slice(), cell)), false);
        }
    }

    // Returns the height.
    fn push_notes(&self, sheet: &Sheet, out: &mut Words, tally: &Tally) -> u32 {
        let y = self.bottom.saturating_add(24);
        let next = push_key(out, Point::at(self.left, y), TAKE, b"", b"takes, upwards");
        let mut next = push_key(out, next, GIVE, b"", b"gives, downwards");
        if sheet.progress.is_some() {
            next = push_key(out, next, DONE, b"", b"done; pale: still to do");
        }
        let mut words = Words::new(sheet.alloc);
        words.text(b"full height: ");
        push_many(&mut words, self.scale, b"copy", b"copies");
        if self.sum_scale > 0 {
            words.text(b", in a row of many ");
            words.number(self.sum_scale);
        }
        let room = (WIDE - MARGIN).saturating_sub(next.x);
        push_fitting(out, next, TextLook::new(b"h", 11, b""), &words, room);
        let mut words = Words::new(sheet.alloc);
        push_many(
            &mut words,
            tally.rounds,
            b"round a column.",
            b"rounds a column.",
        );
        words.text(
            b" In a round stand the copies that wait only for copies to their left; nothing stops between rounds.",
        );
        let below = Point::at(self.left, y.saturating_add(20));
        let room = (WIDE - MARGIN).saturating_sub(self.left);
        push_fitting(out, below, TextLook::new(b"h", 11, b""), &words, room);
        y.saturating_add(36)
    }
}

// A bar up or down from a row's middle.
#[derive(Clone, Copy)]
struct Bar {
    x: u32,
    width: u32,
    middle: u32,
    high: u32,
}

impl Bar {
    fn push(&self, sheet: &Sheet, out: &mut Words, counts: (u32, u32), is_upwards: bool) {
        let (count, done) = counts;
        if count == 0 {
            return;
        }
        let fill = if is_upwards { TAKE } else { GIVE };
        let mut area = Area {
            x: self.x,
            y: if is_upwards {
                self.middle.saturating_sub(self.high)
            } else {
                self.middle
            },
            width: self.width,
            height: self.high,
        };
        if sheet.progress.is_none() || done >= count {
            return push_area(out, area, fill, b"");
        }
        push_area(out, area, fill, b" opacity=\"0.28\"");
        area.width = parts_of(done, count, self.width);
        if area.width > 0 {
            push_area(out, area, fill, b"");
        }
    }
}

fn rounds_words(sheet: &Sheet, tally: &Tally, column: usize, what: &[u8], count: u32) -> Words {
    let first = small(column).saturating_mul(tally.rounds);
    let mut words = Words::new(sheet.alloc);
    words.text(b"rounds ");
    words.number(first.saturating_add(1));
    words.text(b" to ");
    words.number(
        first
            .saturating_add(tally.rounds)
            .min(sheet.scene.round_count()),
    );
    words.text(what);
    words.number(count);
    words
}

/// Draws many rounds or nodes.
pub fn dense_picture(sheet: &Sheet, nodes: &[u32]) -> Result<Vec<u8>, Refusal> {
    let bands = Bands::of(sheet, nodes)?;
    let tally = Tally::of(sheet, &bands)?;
    let grid = CopyGrid::of(sheet, nodes, &bands, &tally)?;
    let mut shapes = Words::new(sheet.alloc);
    let caption = caption_of(sheet);
    push_frame(sheet, &mut shapes, &caption);
    grid.push_all(sheet, &mut shapes, &tally);
    grid.push_heads(sheet, &mut shapes, &tally);
    let mut number = 0usize;
    for band in bands.bands.as_slice() {
        grid.push_ends(sheet, &mut shapes, number, band);
        grid.push_bars(sheet, &mut shapes, &tally, (number, band));
        number = number.saturating_add(1);
    }
    let height = grid.push_notes(sheet, &mut shapes, &tally);
    let mut out = Words::new(sheet.alloc);
    push_picture(&mut out, height, &caption, &shapes);
    out.end()
}
