//! The stores of all nodes.

ghost use Rattle.std.specs.Prelude.{◌≡◌, ◌*◌, length};

use crate::row::Row;
use crate::seat::Seat;
use crate::slot_key::SlotKey;
use ring_names::{NodeId, Refusal, Slot};
use ring_versions::Versions;
use std::alloc::Global;
use store_maps::KeyMap;

/// The nodes' versions, by node, slot and key. Refused calls change nothing visible.
///
/// A look-up costs a binary search among the chunk's maps, and one in a map.
#[derive(Drop)]
pub struct Stores {
    pub(crate) alloc: Global,
    pub(crate) q: u32,
    // A partition's chunk has row 16 * partition + chunk.
    pub(crate) rows: Vec<Row>,
    ghost whole: { length rows.items ≡ 16 * q },
}

impl Stores {
    ghost use Rattle.std.specs.Prelude.{◌≢◌, ◌<◌, ℕ, [], IfSome, IfNone, IfOk, IfErr};
    ghost use Rattle.ring_names.specs.declared.ids.Slot.{Slot};
    ghost use Rattle.ring_names.specs.declared.refusal.Refusal.TheVariants.{OutOfMemory};
    ghost use Rattle.store_maps.specs.Held.{held};
    ghost use Rattle.store_maps.specs.Ids.{id};
    ghost use Rattle.store_maps.specs.declared.key_id.KeyId.{KeyId};
    ghost use Rattle.ring_store.specs.Stores.{shared_space, held_at};

    /// Returns empty stores, for q partitions.
    pub fn start(alloc: Global, q: u32) -> Result<Stores, Refusal>
        ensures space { IfOk result (λ a. shared_space a ≡ q) }
        ensures versions { IfOk result (λ a. (x : ℕ) (s : Slot) (k : KeyId) → held_at a x s k ≡ []) }
        ensures memory { IfErr result (λ e. e ≡ OutOfMemory) }
    {
        let mut rows = Vec::with_capacity(alloc, 16 * q as usize)?;
        'rows: for _row in 0..16 * q as usize {
            rows.push(Row::new(alloc))?;
        }
        Ok(Stores { alloc, q, rows })
    }

    /// Returns a key's versions in a slot at a node.
    pub fn key_versions_in(&self, node: NodeId, at: &SlotKey) -> Option<&Versions>
        ensures some { IfSome result
            (λ v. (v.now ≡ held_at self.now node.0 at.now.slot at.now.key) × (v.now ≢ [])) }
        ensures none { IfNone result (held_at self.now node.0 at.now.slot at.now.key ≡ []) }
    {
        if at.key.chunk >= 16 {
            return None;
        }
        let map = self.chunk_map(node, at.slot, at.key.chunk)?;
        map.key_versions(at.key.number)
    }

    /// Returns the map of a slot's chunk at a node.
    pub fn chunk_map(&self, node: NodeId, slot: Slot, chunk: u32) -> Option<&KeyMap>
        requires { chunk < 16 }
        ensures some { IfSome result (λ m. (n : ℕ) → held m.now n ≡ held_at self.now node.0 slot (id chunk n)) }
        ensures none { IfNone result ((n : ℕ) → held_at self.now node.0 slot (id chunk n) ≡ []) }
    {
        let row = 16 * slot.partition as usize + chunk as usize;
        let index = slot.index;
        let seat = Seat { index, node };
        self.rows.get(row)?.map(seat)
    }
}
