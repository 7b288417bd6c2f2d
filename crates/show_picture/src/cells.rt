//! A map's cells: slots, by rows of partitions and columns of owners.

use crate::columns::Columns;
use crate::sheet::Sheet;
use ring_names::{NodeId, Refusal};
use texts::{at, raise};

const MOST: u32 = 128;

/// The number of marks.
pub const MARKS: usize = 5;

/// Slots owned before and after.
pub const KEPT: usize = 0;

/// Slots to give. With a history, those still owned.
pub const GIVEN: usize = 1;

/// Slots already given.
pub const GONE: usize = 2;

/// Slots to take. With a history, those already owned.
pub const TAKEN: usize = 3;

/// Slots still to take.
pub const DUE: usize = 4;

/// Each mark's slots, by cell.
#[derive(Drop)]
pub struct Cells {
    /// How many partitions share a row.
    pub shared: u32,
    pub rows: usize,
    columns: usize,
    // by mark, row, column
    counts: Vec<u32>,
}

impl Cells {
    pub fn of(sheet: &Sheet, columns: &Columns) -> Result<Cells, Refusal> {
        let shared = sheet.ring.q().saturating_add(MOST - 1) / MOST;
        let shared = shared.max(1);
        let rows = match sheet
            .ring
            .q()
            .saturating_add(shared - 1)
            .checked_div(shared)
        {
            Some(rows) => rows as usize,
            None => 0,
        };
        let count = columns.columns.len();
        let all = rows.saturating_mul(count).saturating_mul(MARKS);
        let mut cells = Cells {
            shared,
            rows,
            columns: count,
            counts: vec![in sheet.alloc; 0u32; all]?,
        };
        for partition in 0..sheet.ring.q() {
            cells.count(sheet, columns, partition);
        }
        Ok(cells)
    }

    fn place(&self, mark: usize, row: usize, column: usize) -> usize {
        mark.saturating_mul(self.rows)
            .saturating_add(row)
            .saturating_mul(self.columns)
            .saturating_add(column)
    }

    /// The cell's slots of the mark.
    pub fn at(&self, mark: usize, row: usize, column: usize) -> u32 {
        at(self.counts.as_slice(), self.place(mark, row, column))
    }

    fn count(&mut self, sheet: &Sheet, columns: &Columns, partition: u32) {
        let before = owners_of(sheet, partition, Time::Before);
        let after = owners_of(sheet, partition, Time::After);
        let now = owners_of(sheet, partition, Time::Now);
        for node in before {
            let is_there = sheet.progress.is_none() || now.contains(node);
            let mark = if after.contains(node) {
                KEPT
            } else if is_there {
                GIVEN
            } else {
                GONE
            };
            self.add(columns, partition, *node, mark);
        }
        for node in after {
            if !before.contains(node) {
                let is_there = sheet.progress.is_none() || now.contains(node);
                let mark = if is_there { TAKEN } else { DUE };
                self.add(columns, partition, *node, mark);
            }
        }
    }

    fn add(&mut self, columns: &Columns, partition: u32, node: NodeId, mark: usize) {
        let row = partition.checked_div(self.shared);
        if let (Some(row), Some(column)) = (row, columns.column(node.0)) {
            let place = self.place(mark, row as usize, column);
            raise(self.counts.as_mut_slice(), place);
        }
    }

    /// A cell's most slots, at least 1.
    pub fn most(&self) -> u32 {
        let mut most = 1u32;
        for row in 0..self.rows {
            for column in 0..self.columns {
                let mut all = 0u32;
                for mark in 0..MARKS {
                    all = all.saturating_add(self.at(mark, row, column));
                }
                most = most.max(all);
            }
        }
        most
    }
}

#[derive(Clone, Copy)]
enum Time {
    Before,
    Now,
    After,
}

fn owners_of<'a>(sheet: &Sheet<'a>, partition: u32, time: Time) -> &'a [NodeId] {
    let rows = match time {
        Time::Before => sheet.ring.rows(),
        Time::Now => sheet.present.rows.as_slice(),
        Time::After => sheet.scene.last_rows.as_slice(),
    };
    match rows.get(partition as usize) {
        Some(row) => row.as_slice(),
        None => &[],
    }
}

/// Counts partitions by their final slots on joiners, at most 7.
pub fn joined(sheet: &Sheet) -> [u32; 8] {
    let mut counts = [0u32; 8];
    for row in sheet.scene.last_rows.as_slice() {
        let mut own = 0usize;
        for node in row.as_slice() {
            if sheet.joins(node.0) {
                own = own.saturating_add(1);
            }
        }
        if own < 8 {
            counts[own] = counts[own].saturating_add(1);
        }
    }
    counts
}
