//! Lanes: one for each copy in a round.

use crate::sheet::Sheet;
use ring_names::Refusal;
use show_plan::ShownMove;
use texts::{at, raise};

/// Copies counted so far, by row and round.
#[derive(Drop)]
pub struct Lanes {
    // by row, round
    busy: Vec<u32>,
    rounds: usize,
    // by node, 1 plus its row, or 0
    rows: Vec<u32>,
}

impl Lanes {
    /// Starts empty.
    pub fn new(sheet: &Sheet, nodes: &[u32]) -> Result<Lanes, Refusal> {
        let rounds = sheet.scene.widths.len().saturating_add(1);
        let mut rows = vec![in sheet.alloc; 0u32; sheet.ring.nodes().len()]?;
        let mut number = 0u32;
        for node in nodes {
            number = number.saturating_add(1);
            if let Some(row) = rows.get_mut(*node as usize) {
                *row = number;
            }
        }
        Ok(Lanes {
            busy: vec![in sheet.alloc; 0u32; nodes.len().saturating_mul(rounds)]?,
            rounds,
            rows,
        })
    }

    /// The node's row.
    pub fn row(&self, node: u32) -> Option<usize> {
        match at(self.rows.as_slice(), node as usize) {
            0 => None,
            number => Some(number as usize - 1),
        }
    }

    fn place(&self, row: usize, round: u32) -> usize {
        row.saturating_mul(self.rounds)
            .saturating_add(round as usize)
    }

    /// Counts a copy. Returns its lane: the count before.
    pub fn take(&mut self, row: usize, round: u32) -> u32 {
        let place = self.place(row, round);
        let lane = at(self.busy.as_slice(), place);
        raise(self.busy.as_mut_slice(), place);
        lane
    }

    /// Counts a move's copy at all its nodes.
    pub fn count(&mut self, sheet: &Sheet, shown: &ShownMove) {
        if let Some(row) = self.row(shown.to) {
            self.take(row, shown.round);
        }
        for node in sheet.scene.shown.read_by(shown) {
            if let Some(row) = self.row(*node) {
                self.take(row, shown.round);
            }
        }
    }

    /// The row's number of lanes.
    pub fn needed(&self, row: usize) -> u32 {
        let mut most = 0u32;
        for round in 0..self.rounds {
            let place = row.saturating_mul(self.rounds).saturating_add(round);
            most = most.max(at(self.busy.as_slice(), place));
        }
        most
    }
}
