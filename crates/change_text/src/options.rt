//! Facts on nodes and partitions.

use crate::layout::Layout;
use ring_names::Slot;
use std::alloc::Global;

/// The source of the nodes' racks.
#[derive(Clone, Copy, Debug, PartialEq, Eq)]
pub enum RackRule {
    /// The layout if it names racks, otherwise node names if they show racks.
    Auto,
    /// No source.
    Off,
    /// The rack follows the last such byte of a node's name.
    Behind(u8),
}

/// The fate of partitions with fewer than R live owners.
#[derive(Clone, Copy, Debug, PartialEq, Eq)]
pub enum Unreadable {
    /// No plan is made.
    Refused,
    /// Their slots stay with their owners.
    Left,
}

/// What planners and summaries know of nodes and partitions.
#[derive(Debug, Drop)]
pub struct Options {
    /// The names of dead nodes, besides the layout's.
    pub dead: Vec<Vec<u8>>,
    pub racks: RackRule,
    pub layout: Layout,
    /// The layout's file, before it is read.
    pub layout_file: Option<String>,
    pub unreadable: Unreadable,
    /// Slots that stay with their owners.
    pub left: Vec<Slot>,
}

impl Options {
    /// Starts without facts.
    pub fn new(alloc: Global) -> Options {
        Options {
            dead: Vec::new(alloc),
            racks: RackRule::Auto,
            layout: Layout::new(alloc),
            layout_file: None,
            unreadable: Unreadable::Refused,
            left: Vec::new(alloc),
        }
    }
}
