//! What nodes get, and what they drop.

use crate::seat::Seat;
use crate::slot_key::SlotKey;
use crate::stores::Stores;
use ring_names::{NodeId, Refusal, Slot};
use ring_versions::Versions;
use store_maps::{KeyMap, SlotMap};

impl Stores {
    ghost use Rattle.std.specs.Prelude.{◌≡◌, ◌≢◌, ◌⊎◌, ◌+◌, ◌*◌, ◌<◌, ◌≤◌, ℕ, [], Some, IfSome, IfErr, OnOk, OnErr};
    ghost use Rattle.ring_names.specs.declared.ids.Slot.{Slot};
    ghost use Rattle.ring_names.specs.declared.refusal.Refusal.TheVariants.{OutOfMemory};
    ghost use Rattle.ring_versions.specs.Versions.{IsMerge};
    ghost use Rattle.store_maps.specs.Held.{held};
    ghost use Rattle.store_maps.specs.Ids.{id, of_chunk};
    ghost use Rattle.store_maps.specs.Merges.{at_key};
    ghost use Rattle.store_maps.specs.Slots.{held_for};
    ghost use Rattle.store_maps.specs.declared.key_id.KeyId.{KeyId};
    ghost use Rattle.ring_store.specs.Nodes.{MergesAtAll, at_node, at_nodes};
    ghost use Rattle.ring_store.specs.Slots.{at_slot};
    ghost use Rattle.ring_store.specs.Stores.{shared_space, held_at, map_on};
    ghost use Rattle.ring_store.specs.declared.seat.Seat.{Seat};

    /// Merges versions of a key into the slot's owner, and its mirror.
    pub fn give(
        &mut self,
        at: &SlotKey,
        owner: NodeId,
        mirror: Option<NodeId>,
        more: &Versions,
    ) -> Result<(), Refusal>
        requires partition { at.now.slot.partition < shared_space self.old }
        requires chunk { at.now.key.chunk < 16 }
        requires mirror { IfSome mirror (λ x. x.0 ≢ owner.0) }
        ensures space { shared_space self.new ≡ shared_space self.old }
        ensures ok { OnOk result (MergesAtAll (held_at self.old)
            (at_nodes owner mirror (at_slot at.now.slot (at_key at.now.key more.now))) (held_at self.new)) }
        ensures err { OnErr result ((x : ℕ) (s : Slot) (k : KeyId) → held_at self.new x s k ≡ held_at self.old x s k) }
        ensures memory { IfErr result (λ e. e ≡ OutOfMemory) }
    {
        match mirror {
            Some(node) => self.give_both(at, owner, node, more),
            None => self.give_one(at, owner, more),
        }
    }

    fn give_one(&mut self, at: &SlotKey, node: NodeId, more: &Versions) -> Result<(), Refusal>
        requires partition { at.now.slot.partition < shared_space self.old }
        requires chunk { at.now.key.chunk < 16 }
        ensures space { shared_space self.new ≡ shared_space self.old }
        ensures ok { OnOk result (MergesAtAll (held_at self.old)
            (at_node node.0 (at_slot at.now.slot (at_key at.now.key more.now))) (held_at self.new)) }
        ensures err { OnErr result ((x : ℕ) (s : Slot) (k : KeyId) → held_at self.new x s k ≡ held_at self.old x s k) }
        ensures memory { IfErr result (λ e. e ≡ OutOfMemory) }
    {
        let row = 16 * at.slot.partition as usize + at.key.chunk as usize;
        let index = at.slot.index;
        let seat = Seat { index, node };
        self.merge(row, seat, at.key.number, more)
    }

    // Prepares the mirror's merge, which may fail, merges at the owner, then completes the mirror's.
    fn give_both(
        &mut self,
        at: &SlotKey,
        owner: NodeId,
        mirror: NodeId,
        more: &Versions,
    ) -> Result<(), Refusal>
        requires partition { at.now.slot.partition < shared_space self.old }
        requires chunk { at.now.key.chunk < 16 }
        requires apart { mirror.0 ≢ owner.0 }
        ensures space { shared_space self.new ≡ shared_space self.old }
        ensures ok { OnOk result (MergesAtAll (held_at self.old)
            (at_nodes owner (Some mirror) (at_slot at.now.slot (at_key at.now.key more.now))) (held_at self.new)) }
        ensures err { OnErr result ((x : ℕ) (s : Slot) (k : KeyId) → held_at self.new x s k ≡ held_at self.old x s k) }
        ensures memory { IfErr result (λ e. e ≡ OutOfMemory) }
    {
        let row = 16 * at.slot.partition as usize + at.key.chunk as usize;
        let index = at.slot.index;
        let seat = Seat {
            index,
            node: mirror,
        };
        let fresh = self.prepare(row, seat, at.key.number, more)?;
        let own = Seat { index, node: owner };
        self.merge(row, own, at.key.number, more)?;
        self.settle(row, seat, at.key.number, fresh);
        Ok(())
    }

    /// Merges a map of the chunk's keys into a node's slot. Costs `KeyMap::take_in`.
    pub fn give_chunk(
        &mut self,
        node: NodeId,
        slot: Slot,
        chunk: u32,
        other: &KeyMap,
    ) -> Result<(), Refusal>
        requires partition { slot.partition < shared_space self.old }
        requires chunk { chunk < 16 }
        ensures space { shared_space self.new ≡ shared_space self.old }
        ensures ok { OnOk result (MergesAtAll (held_at self.old)
            (at_node node.0 (at_slot slot (of_chunk chunk (held other.now)))) (held_at self.new)) }
        ensures err { OnErr result ((x : ℕ) (s : Slot) (k : KeyId) → held_at self.new x s k ≡ held_at self.old x s k) }
        ensures memory { IfErr result (λ e. e ≡ OutOfMemory) }
    {
        if other.is_empty() {
            return Ok(());
        }
        let row = 16 * slot.partition as usize + chunk as usize;
        let index = slot.index;
        let seat = Seat { index, node };
        self.take_in(row, seat, other)
    }

    /// Merges one node's chunk into another's. Costs `KeyMap::share`, `KeyMap::try_copy` and `KeyMap::take_in`.
    ///
    /// If the target has no key of the chunk, both then share the map, and the first write to a key copies it.
    pub fn copy_chunk(
        &mut self,
        from: NodeId,
        to: NodeId,
        slot: Slot,
        chunk: u32,
    ) -> Result<(), Refusal>
        requires partition { slot.partition < shared_space self.old }
        requires apart { to.0 ≢ from.0 }
        requires chunk { chunk < 16 }
        ensures space { shared_space self.new ≡ shared_space self.old }
        ensures ok { OnOk result (MergesAtAll (held_at self.old)
            (at_node to.0 (at_slot slot (of_chunk chunk (λ n. held_at self.old from.0 slot (id chunk n)))))
            (held_at self.new)) }
        ensures err { OnErr result ((x : ℕ) (s : Slot) (k : KeyId) → held_at self.new x s k ≡ held_at self.old x s k) }
        ensures memory { IfErr result (λ e. e ≡ OutOfMemory) }
    {
        let row = 16 * slot.partition as usize + chunk as usize;
        let index = slot.index;
        let seat = Seat { index, node: from };
        let copy = self.copy_of(row, seat)?;
        self.give_chunk(to, slot, chunk, &copy)
    }

    /// Merges all maps of a slot into its owner, and its mirror.
    pub fn give_slot(
        &mut self,
        slot: Slot,
        owner: NodeId,
        mirror: Option<NodeId>,
        other: &SlotMap,
    ) -> Result<(), Refusal>
        requires partition { slot.partition < shared_space self.old }
        requires mirror { IfSome mirror (λ x. x.0 ≢ owner.0) }
        ensures space { shared_space self.new ≡ shared_space self.old }
        ensures ok { OnOk result (MergesAtAll (held_at self.old)
            (at_nodes owner mirror (at_slot slot (held_for other.now))) (held_at self.new)) }
        ensures err { OnErr result ((x : ℕ) (s : Slot) (k : KeyId) → held_at self.new x s k ≡ held_at self.old x s k) }
        ensures memory { IfErr result (λ e. e ≡ OutOfMemory) }
    {
        self.give_from(0, slot, owner, mirror, other)
    }

    // Merges a slot's maps into a node, then its mirror, from this chunk on. Completes a chunk's merge only after all
    // later ones.
    fn give_from(
        &mut self,
        chunk: u32,
        slot: Slot,
        node: NodeId,
        mirror: Option<NodeId>,
        other: &SlotMap,
    ) -> Result<(), Refusal>
        requires partition { slot.partition < shared_space self.old }
        requires chunk { chunk ≤ 16 }
        requires mirror { IfSome mirror (λ x. x.0 ≢ node.0) }
        ensures space { shared_space self.new ≡ shared_space self.old }
        ensures others { (i : ℕ) (t : Seat) → (t.node.0 ≢ node.0) ⊎ (i < 16 * slot.partition + chunk)
            → IfSome mirror (λ x. t.node.0 ≢ x.0) → map_on self.new i t ≡ map_on self.old i t }
        ensures ok { OnOk result ((x : ℕ) (s : Slot) (k : KeyId) → (x ≡ node.0 → s ≡ slot → chunk ≤ k.chunk)
            → IsMerge (held_at self.old x s k) (at_nodes node mirror (at_slot slot (held_for other.now)) x s k)
            (held_at self.new x s k)) }
        ensures err { OnErr result ((x : ℕ) (s : Slot) (k : KeyId) → held_at self.new x s k ≡ held_at self.old x s k) }
        ensures memory { IfErr result (λ e. e ≡ OutOfMemory) }
    {
        if chunk >= 16 {
            return match mirror {
                Some(mirror) => self.give_from(0, slot, mirror, None, other),
                None => Ok(()),
            };
        }
        let map = other.chunk(chunk);
        if map.is_empty() {
            return self.give_from(chunk + 1, slot, node, mirror, other);
        }
        let row = 16 * slot.partition as usize + chunk as usize;
        let index = slot.index;
        let seat = Seat { index, node };
        let fresh = self.prepare_all(row, seat, map)?;
        self.give_from(chunk + 1, slot, node, mirror, other)?;
        self.settle_all(row, seat, fresh);
        Ok(())
    }

    /// Removes a slot's keys at a node.
    pub fn drop_slot(&mut self, node: NodeId, slot: Slot)
        ensures space { shared_space self.new ≡ shared_space self.old }
        ensures gone { (k : KeyId) → held_at self.new node.0 slot k ≡ [] }
        ensures others { (x : ℕ) (s : Slot) (k : KeyId) → (x ≢ node.0) ⊎ (s ≢ slot)
            → held_at self.new x s k ≡ held_at self.old x s k }
    {
        if slot.partition >= self.q {
            return;
        }
        let index = slot.index;
        let seat = Seat { index, node };
        'chunks: for chunk in 0..16u32 {
            let row = 16 * slot.partition as usize + chunk as usize;
            let maps = &mut self.rows[row];
            maps.drop_seat(seat);
        }
    }

    /// Removes all that a node stores. Walks all rows.
    pub fn clear(&mut self, node: NodeId)
        ensures space { shared_space self.new ≡ shared_space self.old }
        ensures gone { (s : Slot) (k : KeyId) → held_at self.new node.0 s k ≡ [] }
        ensures others { (x : ℕ) (s : Slot) (k : KeyId) → x ≢ node.0
            → held_at self.new x s k ≡ held_at self.old x s k }
    {
        'rows: for row in 0..self.rows.len() {
            let maps = &mut self.rows[row];
            maps.drop_node(node);
        }
    }
}
