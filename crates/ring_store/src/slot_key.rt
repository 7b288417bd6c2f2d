//! A key of a slot.

use ring_names::Slot;
use store_maps::KeyId;

/// A key of a slot.
#[derive(Clone, Copy)]
pub struct SlotKey {
    pub slot: Slot,
    pub key: KeyId,
}
