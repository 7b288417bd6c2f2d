//! Rows for many nodes.

use crate::order::{KINDS, kind};
use crate::sheet::Sheet;
use ring_names::Refusal;
use texts::{at, small};

const NAMED: usize = 27;

/// A row for one node, or several of one kind.
#[derive(Clone, Copy)]
pub struct Band {
    pub node: Option<u32>,
    pub kind: u32,
    pub count: u32,
}

/// The rows, and each node's row.
#[derive(Drop)]
pub struct Bands {
    pub bands: Vec<Band>,
    // by node, 1 plus its row, or 0
    rows: Vec<u32>,
}

// How many rows each kind gets, in turns.
fn rooms(sheet: &Sheet, nodes: &[u32]) -> [usize; KINDS] {
    let mut counts = [0usize; KINDS];
    for node in nodes {
        let place = kind(sheet, *node) as usize;
        if place < KINDS {
            counts[place] = counts[place].saturating_add(1);
        }
    }
    let mut rooms = [0usize; KINDS];
    let mut left = NAMED;
    for turn in 0..NAMED {
        for place in 0..KINDS {
            if left > 0 && rooms[place] < counts[place] {
                rooms[place] = rooms[place].saturating_add(1);
                left -= 1;
            }
        }
    }
    rooms
}

impl Bands {
    /// Takes nodes by kind, the busiest first.
    pub fn of(sheet: &Sheet, nodes: &[u32]) -> Result<Bands, Refusal> {
        let mut bands = Bands {
            bands: Vec::new(sheet.alloc),
            rows: vec![in sheet.alloc; 0u32; sheet.ring.nodes().len()]?,
        };
        let rooms = rooms(sheet, nodes);
        for wanted in 0..4u32 {
            let mut seen = 0usize;
            for node in nodes {
                if kind(sheet, *node) == wanted {
                    bands.add(
                        *node,
                        wanted,
                        seen < rooms[wanted as usize],
                        seen == rooms[wanted as usize],
                    )?;
                    seen = seen.saturating_add(1);
                }
            }
        }
        Ok(bands)
    }

    fn add(&mut self, node: u32, kind: u32, is_named: bool, is_first: bool) -> Result<(), Refusal> {
        if is_named || is_first {
            self.bands.push(Band {
                node: if is_named { Some(node) } else { None },
                kind,
                count: 0,
            })?;
        }
        let row = self.bands.len();
        if let Some(band) = self.bands.as_mut_slice().last_mut() {
            band.count = band.count.saturating_add(1);
        }
        if let Some(place) = self.rows.get_mut(node as usize) {
            *place = small(row);
        }
        Ok(())
    }

    /// Whether some row has several nodes.
    pub fn have_sums(&self) -> bool {
        for band in self.bands.as_slice() {
            if band.node.is_none() {
                return true;
            }
        }
        false
    }

    /// The node's row.
    pub fn row(&self, node: u32) -> Option<usize> {
        match at(self.rows.as_slice(), node as usize) {
            0 => None,
            number => Some(number as usize - 1),
        }
    }
}
