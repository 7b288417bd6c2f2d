//! Slots that move.

use ring_names::Slot;

/// A slot's move from its owner to another node.
#[derive(Clone, Copy, Drop)]
pub struct SlotMove {
    pub slot: Slot,
    pub from: u32,
    pub to: u32,
}
