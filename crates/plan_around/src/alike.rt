//! Compares two stores.

ghost use Rattle.std.specs.Prelude.{◌≡◌, ℕ, ◌<◌, true, IfOk, IsTrue, Some};
ghost use Rattle.plan_text.specs.Valid.{is_ring_slot};
ghost use Rattle.plan_runs.specs.World.{World as TheWorld, slot_at};
ghost use Rattle.ring_core.specs.World.{ring_of, plan_of, put_count, Meets};
ghost use Rattle.plan_around.specs.Alike.{last_step, AreAlike, AreAlikeIn, HeldAlike, InBoth, MirrorAlike, MirroredAlike, NodesAlike, PutAlike, StoredAlike};

use crate::marking::{are_marked, mark, unmarked};
use crate::over::is_step_done;
use crate::returns::Returns;
use crate::storing::{is_node, mirror_of};
use plan_text::Plan;
use ring_core::World;
use ring_names::{NodeId, Refusal, Slot};
use ring_table::Ring;
use std::alloc::Global;

fn is_mirror_alike(a: &World, b: &World, returns: &Returns, slot: Slot) -> bool
    requires old { is_ring_slot (ring_of a.now) slot ≡ true }
    requires new { is_ring_slot (ring_of b.now) slot ≡ true }
    ensures { IsTrue result → InBoth a.now b.now (λ r old w s new u. MirrorAlike returns.now.back returns.now.left.now r old w s new u slot) }
{
    let mine = mirror_of(a, slot);
    match mirror_of(b, slot) {
        Some(theirs) => is_node(mine, theirs),
        None => mine.is_none() || returns.allow(slot),
    }
}

fn is_slot_alike(a: &World, b: &World, returns: &Returns, slot: Slot) -> bool
    requires old { is_ring_slot (ring_of a.now) slot ≡ true }
    requires new { is_ring_slot (ring_of b.now) slot ≡ true }
    ensures { IsTrue result → InBoth a.now b.now (λ r old w s new u. NodesAlike returns.now.back returns.now.left.now r old w s new u slot) }
{
    let owner = a.owner(slot);
    let other = b.owner(slot);
    if owner.0 != other.0 {
        return false;
    }
    is_mirror_alike(a, b, returns, slot)
}

fn is_row_alike(a: &World, b: &World, returns: &Returns, partition: u32, slots: u32) -> bool
    requires same { ring_of b.now ≡ ring_of a.now }
    requires slots { slots ≡ (ring_of b.now).n }
    requires partition { partition < (ring_of b.now).q }
    ensures { IsTrue result → (i : ℕ) → i < slots
        → InBoth a.now b.now (λ r old w s new u. NodesAlike returns.now.back returns.now.left.now r old w s new u (slot_at partition i)) }
{
    for index in 0..slots {
        if !is_slot_alike(a, b, returns, Slot { partition, index }) {
            return false;
        }
    }
    true
}

fn are_nodes_alike(ring: &Ring, a: &World, b: &World, returns: &Returns) -> bool
    requires same { ring_of b.now ≡ ring_of a.now }
    requires ring { ring_of b.now ≡ ring.now }
    ensures { IsTrue result → (p : ℕ) → p < ring.now.q → (i : ℕ) → i < ring.now.n
        → InBoth a.now b.now (λ r old w s new u. NodesAlike returns.now.back returns.now.left.now r old w s new u (slot_at p i)) }
{
    let q = ring.q();
    let slots = ring.n();
    for partition in 0..q {
        if !is_row_alike(a, b, returns, partition, slots) {
            return false;
        }
    }
    true
}

fn is_held_alike(a: &World, b: &World, put: u32) -> bool
    requires same { ring_of b.now ≡ ring_of a.now }
    requires old { put < put_count a.now }
    requires new { put < put_count b.now }
    ensures { IsTrue result → InBoth a.now b.now (λ r old w s new u. (i : ℕ) → i < s.n → HeldAlike r old w s new u put i) }
{
    a.held_slots(put) == b.held_slots(put)
}

fn is_last_done(store: &World, plan: &Plan, slot: Slot) -> bool
    ensures { IsTrue result → (u : TheWorld) → Meets store.now u → (n : ℕ) → last_step plan.now slot ≡ Some n → u.done n ≡ true }
{
    let steps = plan.slot_steps(slot);
    match steps.last() {
        Some(number) => is_step_done(store, plan, *number),
        None => true,
    }
}

fn is_same(one: bool, other: bool) -> bool
    ensures { IsTrue result → one ≡ other }
{
    if one { other } else { !other }
}

fn is_stored_alike(a: &World, b: &World, node: NodeId, put: u32, index: u32) -> bool
    requires old { put < put_count a.now }
    requires new { put < put_count b.now }
    requires index { index < (ring_of a.now).n }
    ensures { IsTrue result → InBoth a.now b.now (λ r old w s new u. StoredAlike r w s u put index node) }
{
    let mine = a.is_stored(node, put, index);
    let theirs = b.is_stored(node, put, index);
    is_same(mine, theirs)
}

// Whether both mirrors agree on the put, or the slot's last step in the second plan is done.
fn is_mirrored_alike(a: &World, b: &World, plan: &Plan, put: u32, index: u32) -> bool
    requires same { ring_of b.now ≡ ring_of a.now }
    requires plan { plan_of b.now ≡ plan.now }
    requires old { put < put_count a.now }
    requires new { put < put_count b.now }
    requires index { index < (ring_of b.now).n }
    ensures { IsTrue result → InBoth a.now b.now (λ r old w s new u. MirroredAlike r old w s new u put index) }
{
    let slot = b.put_slot(put, index);
    match mirror_of(b, slot) {
        Some(node) => {
            if is_last_done(b, plan, slot) {
                return true;
            }
            is_stored_alike(a, b, node, put, index)
        }
        None => true,
    }
}

/// Two stores of one ring, the second after another plan.
#[derive(Clone, Copy)]
pub(crate) struct BothStores<'a> {
    pub(crate) ring: &'a Ring,
    pub(crate) a: &'a World<'a>,
    pub(crate) b: &'a World<'a>,
    /// The second store's plan.
    pub(crate) plan: &'a Plan,
}

fn is_put_alike(it: &BothStores, put: u32) -> bool
    requires same { ring_of it.now.b.now ≡ ring_of it.now.a.now }
    requires ring { ring_of it.now.b.now ≡ it.now.ring.now }
    requires plan { plan_of it.now.b.now ≡ it.now.plan.now }
    requires old { put < put_count it.now.a.now }
    requires new { put < put_count it.now.b.now }
    ensures { IsTrue result → InBoth it.now.a.now it.now.b.now (λ r old w s new u. PutAlike r old w s new u put) }
{
    if !is_held_alike(it.a, it.b, put) {
        return false;
    }
    let slots = it.ring.n();
    for index in 0..slots {
        if !is_mirrored_alike(it.a, it.b, it.plan, put, index) {
            return false;
        }
    }
    true
}

fn mark_alike(it: &BothStores, put: u32, marks: &mut Vec<bool>) -> bool
    requires same { ring_of it.now.b.now ≡ ring_of it.now.a.now }
    requires ring { ring_of it.now.b.now ≡ it.now.ring.now }
    requires plan { plan_of it.now.b.now ≡ it.now.plan.now }
    requires puts { put_count it.now.b.now ≡ put_count it.now.a.now }
    requires marks { AreAlikeIn it.now.a.now it.now.b.now marks.old.items }
    ensures { IsTrue result → AreAlikeIn it.now.a.now it.now.b.now marks.new.items }
{
    if put >= it.b.puts() {
        return true;
    }
    if !is_put_alike(it, put) {
        return false;
    }
    mark(marks, put);
    true
}

// `order` must have each put.
fn are_puts_alike(alloc: Global, it: &BothStores, order: &[u32]) -> Result<bool, Refusal>
    requires same { ring_of it.now.b.now ≡ ring_of it.now.a.now }
    requires ring { ring_of it.now.b.now ≡ it.now.ring.now }
    requires plan { plan_of it.now.b.now ≡ it.now.plan.now }
    requires puts { put_count it.now.b.now ≡ put_count it.now.a.now }
    ensures { IfOk result (λ t. IsTrue t → (v : ℕ) → v < put_count it.now.b.now → InBoth it.now.a.now it.now.b.now (λ r old w s new u. PutAlike r old w s new u v)) }
{
    let puts = it.b.puts();
    let mut marks = unmarked(alloc, puts)?;
    for put in order {
        if !mark_alike(it, *put, &mut marks) {
            return Ok(false);
        }
    }
    Ok(are_marked(marks.as_slice(), puts))
}

/// Whether both stores are alike; `order` has each put.
///
/// Costs a few look-ups for each slot, and for each put and slot of its partition.
pub(crate) fn are_alike(
    alloc: Global,
    it: &BothStores,
    returns: &Returns,
    order: &[u32],
) -> Result<bool, Refusal>
    requires same { ring_of it.now.b.now ≡ ring_of it.now.a.now }
    requires ring { ring_of it.now.b.now ≡ it.now.ring.now }
    requires plan { plan_of it.now.b.now ≡ it.now.plan.now }
    ensures { IfOk result (λ t. IsTrue t → InBoth it.now.a.now it.now.b.now (AreAlike returns.now.back returns.now.left.now)) }
{
    if it.a.puts() != it.b.puts() {
        return Ok(false);
    }
    if !are_nodes_alike(it.ring, it.a, it.b, returns) {
        return Ok(false);
    }
    are_puts_alike(alloc, it, order)
}
