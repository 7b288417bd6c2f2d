//! A map of owners: rows for partitions, columns for nodes.

use crate::cells::{Cells, DUE, GIVEN, GONE, KEPT, MARKS, TAKEN, joined};
use crate::columns::{Column, Columns, Sharing};
use crate::fitting::{TextLook, push_fitting};
use crate::frame::{caption_of, name_class, push_frame, push_key};
use crate::sheet::Sheet;
use crate::svg::{Area, MARGIN, Point, WIDE, push_area, push_picture, push_said};
use crate::widths::width;
use ring_names::Refusal;
use show_plan::push_many;
use texts::{Labels, Words, at, parts_of, small};

// The place of rack names. Columns' names begin below.
const HEAD: u32 = 98;

const NAMES: u32 = 120;

const WIDEST: u32 = 58;

// Narrower columns have small names.
const NARROW: u32 = 18;

const LEFT: u32 = MARGIN + 42;

fn class_of_mark(mark: usize) -> &'static [u8] {
    match mark {
        KEPT => b"kept",
        GIVEN => b"give",
        GONE => b"bare giver",
        TAKEN => b"take",
        _ => b"bare taker",
    }
}

#[derive(Clone, Copy)]
struct SlotGrid {
    top: u32,
    row: u32,
    column: u32,
    bottom: u32,
    // slots that fill a cell
    most: u32,
}

impl SlotGrid {
    fn of(sheet: &Sheet, columns: &Columns, cells: &Cells) -> Result<SlotGrid, Refusal> {
        let mut names = 0u32;
        for column in columns.columns.as_slice() {
            let wide = width(label(sheet, columns, column).end()?.as_slice(), 12);
            names = names.max((wide.saturating_mul(9) / 8).saturating_add(1));
        }
        let rows = small(cells.rows);
        let row = match rows {
            0..=32 => 16,
            33..=64 => 10,
            _ => 6,
        };
        let room = WIDE - MARGIN - LEFT;
        let column = match room.checked_div(small(columns.columns.len())) {
            Some(column) => column.min(WIDEST),
            None => WIDEST,
        };
        let top = names.min(NAMES).saturating_add(HEAD + 12);
        Ok(SlotGrid {
            top,
            row,
            column,
            bottom: top.saturating_add(rows.saturating_mul(row)),
            most: cells.most(),
        })
    }

    fn x(&self, column: usize) -> u32 {
        LEFT.saturating_add(self.column.saturating_mul(small(column)))
    }

    fn y(&self, row: usize) -> u32 {
        self.top.saturating_add(self.row.saturating_mul(small(row)))
    }

    fn push_ground(&self, out: &mut Words, place: usize, column: &Column) {
        let ground = Area {
            x: self.x(place),
            y: self.top.saturating_sub(4),
            width: self.column,
            height: self.bottom.saturating_sub(self.top).saturating_add(8),
        };
        let class = if column.is_joining {
            b"new".as_slice()
        } else if column.rack % 2 == 0 {
            b"odd".as_slice()
        } else {
            b"even".as_slice()
        };
        push_area(out, ground, class, b"")
    }

    fn push_label(&self, sheet: &Sheet, out: &mut Words, place: usize, named: (&Column, &Words)) {
        let (column, words) = named;
        let is_small = self.column < NARROW;
        let middle = self.x(place).saturating_add(self.column / 2);
        let (x, y) = (middle.saturating_add(4), self.top.saturating_sub(9));
        let mut more = Words::new(sheet.alloc);
        more.text(b" transform=\"rotate(-90 ");
        more.number(x);
        more.byte(b' ');
        more.number(y);
        more.text(b")\"");
        let class = class_of(sheet, column, is_small);
        out.heed(&more);
        out.heed(&class);
        let size = if is_small { 10 } else { 12 };
        let look = TextLook::new(class.as_slice(), size, more.as_slice());
        push_fitting(out, Point::at(x, y), look, words, NAMES / 9 * 8)
    }

    // A rack's name is over its first column.
    fn push_columns(&self, sheet: &Sheet, out: &mut Words, columns: &Columns) {
        let mut place = 0usize;
        let mut last = None;
        for column in columns.columns.as_slice() {
            self.push_ground(out, place, column);
            self.push_label(sheet, out, place, (column, &label(sheet, columns, column)));
            if let (Some(racks), Sharing::Nobody) = (columns.racks, columns.sharing) {
                if last != Some(column.rack) {
                    let mut words = Words::new(sheet.alloc);
                    words.text(racks.name(column.node));
                    let room = self.column.saturating_mul(2).max(30);
                    let start = Point::at(self.x(place), HEAD);
                    push_fitting(out, start, TextLook::new(b"h", 11, b""), &words, room);
                }
            }
            last = Some(column.rack);
            place = place.saturating_add(1);
        }
    }

    fn push_numbers(&self, sheet: &Sheet, out: &mut Words, cells: &Cells) {
        for row in 0..cells.rows {
            if self.row >= 12 || row % 4 == 0 {
                let mut words = Words::new(sheet.alloc);
                words.number(small(row).saturating_mul(cells.shared));
                let y = self.y(row).saturating_add(self.row / 2).saturating_add(4);
                let place = Point::at(LEFT - 8, y);
                push_said(out, place, b" class=\"k\" text-anchor=\"end\"", &words);
            }
        }
    }

    // A column's cells of one mark are one shape.
    fn push_cells(&self, out: &mut Words, cells: &Cells, column: usize, mark: usize) {
        let mut is_open = false;
        for row in 0..cells.rows {
            let count = cells.at(mark, row, column);
            if count == 0 {
                continue;
            }
            if !is_open {
                out.text(b"<path class=\"");
                out.text(class_of_mark(mark));
                out.text(b"\" d=\"");
            }
            is_open = true;
            let mut before = 0u32;
            for other in 0..mark {
                before = before.saturating_add(cells.at(other, row, column));
            }
            self.push_cell(out, (row, column), (before, before.saturating_add(count)));
        }
        if is_open {
            out.text(b"\"/>\n");
        }
    }

    // Writes a cell's part between two numbers of slots.
    fn push_cell(&self, out: &mut Words, place: (usize, usize), slots: (u32, u32)) {
        let (row, column) = place;
        let (from, to) = slots;
        let room = self.column.saturating_sub(1);
        let start = parts_of(from, self.most, room);
        let end = parts_of(to, self.most, room)
            .max(start.saturating_add(1))
            .min(room);
        let start = start.min(end.saturating_sub(1));
        out.byte(b'M');
        out.number(self.x(column).saturating_add(start));
        out.byte(b' ');
        out.number(self.y(row));
        out.byte(b'h');
        out.number(end.saturating_sub(start));
        out.byte(b'v');
        out.number(self.row.saturating_sub(1));
        out.byte(b'H');
        out.number(self.x(column).saturating_add(start));
        out.byte(b'z');
    }

    // Returns the height.
    fn push_notes(&self, sheet: &Sheet, out: &mut Words, columns: &Columns, cells: &Cells) -> u32 {
        let y = self.bottom.saturating_add(26);
        push_keys(sheet, out, Point::at(MARGIN, y));
        let look = TextLook::new(b"h", 11, b"");
        let room = WIDE - 2 * MARGIN;
        let below = y.saturating_add(20);
        let words = parts_words(sheet, columns, cells);
        push_fitting(out, Point::at(MARGIN, below), look, &words, room);
        if sheet.scene.joins.is_empty() {
            return below.saturating_add(20);
        }
        let last = below.saturating_add(16);
        push_fitting(
            out,
            Point::at(MARGIN, last),
            look,
            &joiners_words(sheet),
            room,
        );
        last.saturating_add(20)
    }
}

fn label(sheet: &Sheet, columns: &Columns, column: &Column) -> Words {
    let own = sheet.names.name(column.node);
    let mut words = Words::new(sheet.alloc);
    match (columns.sharing, columns.racks) {
        (Sharing::Racks, Some(racks)) => words.text(racks.name(column.node)),
        (Sharing::Counts(_), _) => {
            words.text(own);
            words.text(b" ..");
        }
        _ => {
            words.text(own);
            if sheet.is_silent(column.node) {
                words.byte(b' ');
                words.text(sheet.present.silence(column.node));
            }
        }
    }
    words
}

fn class_of(sheet: &Sheet, column: &Column, is_small: bool) -> Words {
    let mut class = Words::new(sheet.alloc);
    if column.count == 1 {
        class.text(name_class(sheet, column.node));
    } else if column.is_joining {
        class.text(b"n joins");
    } else {
        class.text(b"n");
    }
    if is_small {
        class.text(b" c");
    }
    class
}

fn push_keys(sheet: &Sheet, out: &mut Words, start: Point) {
    let next = push_key(
        out,
        start,
        class_of_mark(KEPT),
        b"",
        b"owned before and after",
    );
    if sheet.progress.is_none() {
        let next = push_key(out, next, class_of_mark(GIVEN), b"", b"given");
        push_key(out, next, class_of_mark(TAKEN), b"", b"taken");
        return;
    }
    let next = push_key(out, next, class_of_mark(GIVEN), b"", b"still to give");
    let next = push_key(out, next, class_of_mark(GONE), b"", b"given");
    let next = push_key(out, next, class_of_mark(TAKEN), b"", b"taken");
    push_key(out, next, class_of_mark(DUE), b"", b"still to take");
}

fn parts_words(sheet: &Sheet, columns: &Columns, cells: &Cells) -> Words {
    let mut words = Words::new(sheet.alloc);
    words.text(b"Who owns what before and after. A row is ");
    push_many(&mut words, cells.shared, b"partition", b"partitions");
    words.text(match columns.sharing {
        Sharing::Nobody => b", a column a node".as_slice(),
        Sharing::Racks => b", a column a rack or its joiners".as_slice(),
        Sharing::Counts(_) => b", a column some nodes, from the named one on".as_slice(),
    });
    let most = cells.most();
    if most > 1 {
        words.text(b"; a full cell has ");
        words.number(most);
        words.text(b" slots");
    }
    words.byte(b'.');
    if !sheet.scene.joins.is_empty() {
        words.text(b" Joiners stand on blue.");
    }
    words
}

fn joiners_words(sheet: &Sheet) -> Words {
    let counts = joined(sheet);
    let mut words = Words::new(sheet.alloc);
    words.text(b"In the end joiners own ");
    for turn in 1..8usize {
        let own = 8 - turn;
        let count = at(counts.as_slice(), own);
        if count > 0 {
            push_many(&mut words, small(own), b"slot of ", b"slots of ");
            push_many(&mut words, count, b"partition", b"partitions");
            words.text(b", ");
        }
    }
    words.text(b"none of ");
    words.number(counts[0]);
    words.byte(b'.');
    words
}

/// Draws owners before and after the plan as SVG. Fails only with `OutOfMemory`.
///
/// Groups nodes by rack if asked for. Above 128 partitions, rows are shared; above 60 nodes, columns are.
pub fn map_picture(sheet: &Sheet, racks: Option<&Labels>) -> Result<Vec<u8>, Refusal> {
    let columns = Columns::of(sheet, racks)?;
    let cells = Cells::of(sheet, &columns)?;
    let grid = SlotGrid::of(sheet, &columns, &cells)?;
    let caption = caption_of(sheet);
    let mut shapes = Words::new(sheet.alloc);
    push_frame(sheet, &mut shapes, &caption);
    grid.push_columns(sheet, &mut shapes, &columns);
    grid.push_numbers(sheet, &mut shapes, &cells);
    for column in 0..columns.columns.len() {
        for mark in 0..MARKS {
            grid.push_cells(&mut shapes, &cells, column, mark);
        }
    }
    let height = grid.push_notes(sheet, &mut shapes, &columns, &cells);
    let mut out = Words::new(sheet.alloc);
    push_picture(&mut out, height, &caption, &shapes);
    out.end()
}
