//! The input.

use crate::groups::Groups;
use crate::layout::Layout;
use crate::moving::SlotMove;
use std::alloc::Global;

/// Moves, their copies' groups, and how many slots a copy may list.
#[derive(Clone, Copy)]
pub struct Task<'a> {
    pub alloc: Global,
    pub layout: &'a Layout,
    pub groups: &'a Groups,
    pub moves: &'a [SlotMove],
    pub reads: u32,
}
