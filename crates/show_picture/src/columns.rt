//! A map's columns.

use crate::sheet::Sheet;
use ring_names::{NodeId, Refusal};
use texts::{Labels, at, small};

const MOST: usize = 60;

/// A column of one node, or of several. If racks group the nodes, a column's nodes share a rack.
#[derive(Clone, Copy)]
pub struct Column {
    /// Its first node.
    pub node: u32,
    pub count: u32,
    /// Its rack; 0 without racks.
    pub rack: u32,
    pub is_joining: bool,
}

/// Columns of the nodes that are members before or after.
#[derive(Drop)]
pub struct Columns<'a> {
    pub columns: Vec<Column>,
    pub sharing: Sharing,
    pub racks: Option<&'a Labels>,
    // by node, 1 plus its column, or 0
    places: Vec<u32>,
}

/// Which nodes share a column.
#[derive(Clone, Copy, Debug, PartialEq, Eq)]
pub enum Sharing {
    Nobody,
    /// A rack's nodes, joiners apart.
    Racks,
    /// Up to this many nodes, joiners apart.
    Counts(u32),
}

// Ordered by rack, joiners last. If nodes share columns by number, all joiners are last.
#[derive(Clone, Copy, PartialEq, Eq, PartialOrd, Ord)]
struct PlacedNode {
    is_last: bool,
    rack: u32,
    is_joining: bool,
    node: u32,
}

fn place_nodes(sheet: &Sheet, racks: Option<&Labels>) -> Result<Vec<PlacedNode>, Refusal> {
    let mut placed = Vec::new(sheet.alloc);
    for node in 0..small(sheet.ring.nodes().len()) {
        let is_joining = sheet.joins(node);
        if is_joining || sheet.ring.is_member(NodeId(node)) {
            let rack = match racks {
                Some(racks) => racks.of(node),
                None => 0,
            };
            placed.push(PlacedNode {
                is_last: false,
                rack,
                is_joining,
                node,
            })?;
        }
    }
    placed.sort_unstable();
    Ok(placed)
}

// Racks with joiners count twice.
fn count_racks(placed: &[PlacedNode]) -> usize {
    let mut count = 0usize;
    let mut last = None;
    for one in placed {
        if last != Some((one.rack, one.is_joining)) {
            count = count.saturating_add(1);
        }
        last = Some((one.rack, one.is_joining));
    }
    count
}

fn choose_sharing(placed: &[PlacedNode], has_racks: bool) -> Sharing {
    if placed.len() <= MOST {
        return Sharing::Nobody;
    }
    if has_racks && count_racks(placed) <= MOST {
        return Sharing::Racks;
    }
    let shared = placed.len().saturating_add(MOST - 2) / (MOST - 1);
    Sharing::Counts(small(shared))
}

impl<'a> Columns<'a> {
    /// Makes a column for each of at most 60 nodes.
    ///
    /// Above that, a column has a rack's nodes if racks are asked for and few enough, otherwise several nodes. Joiners
    /// are apart.
    pub fn of(sheet: &Sheet, racks: Option<&'a Labels>) -> Result<Columns<'a>, Refusal> {
        let mut placed = place_nodes(sheet, racks)?;
        let sharing = choose_sharing(placed.as_slice(), racks.is_some());
        if matches!(sharing, Sharing::Counts(_)) {
            for place in 0..placed.len() {
                if let Some(one) = placed.get_mut(place) {
                    one.is_last = one.is_joining;
                }
            }
            placed.sort_unstable();
        }
        let mut columns = Columns {
            columns: Vec::new(sheet.alloc),
            sharing,
            racks,
            places: vec![in sheet.alloc; 0u32; sheet.ring.nodes().len()]?,
        };
        for one in placed.as_slice() {
            columns.add(one)?;
        }
        Ok(columns)
    }

    fn add(&mut self, one: &PlacedNode) -> Result<(), Refusal> {
        if !self.last_takes(one) {
            self.columns.push(Column {
                node: one.node,
                count: 0,
                rack: one.rack,
                is_joining: one.is_joining,
            })?;
        }
        let number = small(self.columns.len());
        if let Some(column) = self.columns.as_mut_slice().last_mut() {
            column.count = column.count.saturating_add(1);
        }
        if let Some(place) = self.places.get_mut(one.node as usize) {
            *place = number;
        }
        Ok(())
    }

    fn last_takes(&self, one: &PlacedNode) -> bool {
        let Some(last) = self.columns.as_slice().last() else {
            return false;
        };
        match self.sharing {
            Sharing::Nobody => false,
            Sharing::Racks => last.rack == one.rack && last.is_joining == one.is_joining,
            Sharing::Counts(most) => last.is_joining == one.is_joining && last.count < most,
        }
    }

    /// The node's column.
    pub fn column(&self, node: u32) -> Option<usize> {
        match at(self.places.as_slice(), node as usize) {
            0 => None,
            number => Some(number as usize - 1),
        }
    }
}
