//! A slot's group: owner, mirror, and keepers of hints.

ghost use Rattle.std.specs.Prelude.{◌≡◌, ◌==◌, ◌&&◌, ◌<◌, nat_lt, IfSome};
ghost use Rattle.ring_names.specs.declared.ids.Slot.{Slot as TheSlot};
ghost use Rattle.plan_text.specs.Steps.{is_slot};
ghost use Rattle.plan_text.specs.Valid.{is_ring_slot};
ghost use Rattle.ring_hints.specs.Hints.{hinted_at};
ghost use Rattle.store_events.specs.Groups.{RaisesGroups};
ghost use Rattle.store_parts.specs.Slots.{slot_now};

use crate::served::is_served;
use ring_hints::Hints;
use ring_names::{NodeId, Slot};
use ring_table::Ring;
use store_parts::Slots;

fn raise_group(slots: &mut Slots, hints: &Hints, slot: Slot, node: NodeId)
    requires { IfSome (slot_now slots.old slot) (λ x. x.generation < 4294967295) }
    ensures { RaisesGroups (hinted_at hints.now) node.0 (λ t. is_slot slot t) slots.old slots.new }
{
    if hints.keeps(node, slot) || is_served(slots, slot, node) {
        slots.raise(slot);
    }
}

fn raise_partition(slots: &mut Slots, hints: &Hints, n: u32, partition: u32, node: NodeId)
    requires { (t : TheSlot) → t.partition ≡ partition
        → IfSome (slot_now slots.old t) (λ x. x.generation < 4294967295) }
    ensures { RaisesGroups (hinted_at hints.now) node.0
        (λ t. (t.partition == partition) && nat_lt t.index n) slots.old slots.new }
{
    'indexes: for index in 0..n {
        raise_group(slots, hints, Slot { partition, index }, node);
    }
}

// Raises the generation of each slot whose group has the node.
pub(crate) fn raise_groups(slots: &mut Slots, hints: &Hints, ring: &Ring, node: NodeId)
    requires { (t : TheSlot) → IfSome (slot_now slots.old t) (λ x. x.generation < 4294967295) }
    ensures { RaisesGroups (hinted_at hints.now) node.0 (λ t. is_ring_slot ring.now t) slots.old slots.new }
{
    let n = ring.n();
    'partitions: for partition in 0..ring.q() {
        raise_partition(slots, hints, n, partition, node);
    }
}
