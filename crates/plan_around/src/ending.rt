//! Checks how a new plan ends.

ghost use Rattle.std.specs.Prelude.{◌≡◌, ◌⊎◌, ℕ, ◌<◌, ◌||◌, true, false, length, Some, slice_get, IsTrue, IfOk};
ghost use Rattle.std.specs.List.{list_any};
ghost use Rattle.ring_names.specs.Lists.{has};
ghost use Rattle.ring_names.specs.declared.ids.Slot.{Slot as TheSlot};
ghost use Rattle.ring_table.specs.Value.{RingValue};
ghost use Rattle.plan_text.specs.Changes.{numbers};
ghost use Rattle.plan_text.specs.Valid.{is_ring_slot, Suits};
ghost use Rattle.plan_text.specs.declared.step.Source.{Source};
ghost use Rattle.plan_text.specs.declared.step.Step.TheVariants.{Copy, Switch};
ghost use Rattle.plan_stage.specs.Each.{step_at};
ghost use Rattle.plan_runs.specs.World.{World as TheWorld};
ghost use Rattle.plan_goal.specs.Reached.{member_after};
ghost use Rattle.plan_moves.specs.Owners.{IsPast};
ghost use Rattle.plan_goal.specs.Sized.{is_flagged, row_at};
ghost use Rattle.ring_core.specs.World.{ring_of, plan_of, Meets};
ghost use Rattle.plan_around.specs.Apart.{is_whole};
ghost use Rattle.plan_around.specs.Ends.{AreToCome, EndsWell, HasGiven, IsExcused, IsGiven, IsUnswitched, IsTouched, MayKeep, ShouldOwn};
ghost use Rattle.plan_around.specs.Ending.{AreEnds, HintsIn, HoldsIn, MirrorsAt, MirrorsIn, NodeEnds, SlotEnds, SlotStays, StaysIn};

use crate::marking::mark;
use crate::over::{is_over, is_to_come};
use crate::storing::is_node;
use history_laws::is_slot;
use plan_cover::Present;
use plan_goal::{Dead, is_flagged, row_at};
use plan_moves::present_after;
use plan_runs::Back;
use plan_text::{Plan, Step};
use ring_core::World;
use ring_names::{NodeId, Refusal, Slot};
use ring_table::Ring;
use ringplan_request::Extent;
use std::alloc::Global;

#[derive(Clone, Copy)]
pub(crate) struct Endings<'a> {
    pub(crate) ring: &'a Ring,
    pub(crate) old: &'a Plan,
    pub(crate) new: &'a Plan,
    pub(crate) before: &'a World<'a>,
    pub(crate) dead: &'a [NodeId],
    pub(crate) left: &'a [Slot],
    pub(crate) back: Back,
    pub(crate) extent: Extent,
}

// Both plans' final owners, partitions with hints on dead nodes, and partitions with staying slots.
#[derive(Drop)]
struct Ended<'a> {
    dead: Dead<'a>,
    old: Present,
    new: Present,
    hinted: Vec<bool>,
    left: Vec<bool>,
}

fn mark_if_dead(marks: &mut Vec<bool>, dead: &Dead, node: NodeId, place: u32)
    ensures { (p : ℕ) → is_flagged marks.new.items p ≡ true
        → ((p ≡ place) × (has node.0 (numbers dead.now.nodes.now) ≡ true)) ⊎ (is_flagged marks.old.items p ≡ true) }
{
    if dead.has(node) {
        mark(marks, place);
    }
}

fn hinted(alloc: Global, it: &Endings, dead: &Dead) -> Result<Vec<bool>, Refusal>
    ensures { IfOk result (λ marks. HintsIn it.now.before.now dead.now.nodes.now marks.items) }
{
    let mut marks = vec![in alloc; false; it.ring.q() as usize]?;
    for number in 0..u32::MAX {
        let Some((node, slot)) = it.before.hint_at(number) else {
            break;
        };
        mark_if_dead(&mut marks, dead, node, slot.partition);
    }
    Ok(marks)
}

fn has_dead_owner(ring: &Ring, dead: &Dead, partition: u32) -> bool
    ensures { result ≡ list_any (λ x. has x.0 (numbers dead.now.nodes.now)) (row_at ring.now.owners partition) }
{
    row_at(ring.rows(), partition as usize)
        .iter()
        .any(|node| dead.has(*node))
}

fn is_mirror_at_dead(step: &Step, dead: &Dead, partition: u32) -> bool
    ensures { IsTrue result → MirrorsIn step.now dead.now.nodes.now partition }
{
    match step {
        Step::Mirror(slot, node) => slot.partition == partition && dead.has(*node),
        _ => false,
    }
}

fn is_dead_target(plan: &Plan, dead: &Dead, number: u32, partition: u32) -> bool
    ensures { IsTrue result → (ring : RingValue) (w : TheWorld) → IsTouched ring plan.now w dead.now.nodes.now partition }
{
    if number >= plan.len() {
        return false;
    }
    is_mirror_at_dead(plan.step(number), dead, partition)
}

fn has_dead_target(plan: &Plan, dead: &Dead, slot: Slot) -> bool
    ensures { IsTrue result → (ring : RingValue) (w : TheWorld) → IsTouched ring plan.now w dead.now.nodes.now slot.partition }
{
    for number in plan.slot_steps(slot) {
        if is_dead_target(plan, dead, *number, slot.partition) {
            return true;
        }
    }
    false
}

fn has_dead_targets(it: &Endings, dead: &Dead, partition: u32) -> bool
    ensures { IsTrue result → (ring : RingValue) (w : TheWorld) → IsTouched ring it.now.old.now w dead.now.nodes.now partition }
{
    let slots = it.ring.n();
    for index in 0..slots {
        if has_dead_target(it.old, dead, Slot { partition, index }) {
            return true;
        }
    }
    false
}

fn mark_at(marks: &mut Vec<bool>, left: &[Slot], place: usize)
    requires { StaysIn left.now marks.old.items }
    ensures { StaysIn left.now marks.new.items }
{
    match left.get(place) {
        Some(slot) => mark(marks, slot.partition),
        None => {}
    }
}

fn left_in(alloc: Global, it: &Endings) -> Result<Vec<bool>, Refusal>
    ensures { IfOk result (λ marks. StaysIn it.now.left.now marks.items) }
{
    let mut marks = vec![in alloc; false; it.ring.q() as usize]?;
    for place in 0..it.left.len() {
        mark_at(&mut marks, it.left, place);
    }
    Ok(marks)
}

fn is_excused(it: &Endings, ended: &Ended, partition: u32) -> bool
    requires { AreEnds it.now ended.now }
    ensures { IsTrue result → (w : TheWorld) → Meets it.now.before.now w
        → IsExcused it.now.ring.now it.now.old.now w ended.now.dead.nodes.now it.now.left.now partition }
{
    let dead = &ended.dead;
    if has_dead_owner(it.ring, dead, partition) {
        return true;
    }
    if is_flagged(ended.hinted.as_slice(), partition as usize) {
        return true;
    }
    if has_dead_targets(it, dead, partition) {
        return true;
    }
    is_flagged(ended.left.as_slice(), partition as usize)
}

// Whether the node mirrors the slot, or owns it and may keep it.
fn serves(before: &World, back: Back, slot: Slot, node: NodeId) -> bool
    requires { is_ring_slot (ring_of before.now) slot ≡ true }
    ensures { IsTrue result → (w : TheWorld) → Meets before.now w
        → ShouldOwn Extent.Begun back (ring_of before.now) (plan_of before.now) w slot node }
{
    match before.nodes_of(slot) {
        Some((owner, None)) => owner.0 == node.0,
        Some((owner, Some(mirror))) => {
            mirror.0 == node.0 || (back == Back::Allowed && owner.0 == node.0)
        }
        None => false,
    }
}

fn should_own(it: &Endings, old: &Present, slot: Slot, node: NodeId) -> bool
    requires past { IsPast it.now.ring.now it.now.old.now old.now }
    requires partition { slot.partition < it.now.ring.now.q }
    requires index { slot.index < it.now.ring.now.n }
    requires ring { ring_of it.now.before.now ≡ it.now.ring.now }
    requires plan { plan_of it.now.before.now ≡ it.now.old.now }
    ensures { IsTrue result → (w : TheWorld) → Meets it.now.before.now w
        → ShouldOwn it.now.extent it.now.back it.now.ring.now it.now.old.now w slot node }
{
    match it.extent {
        Extent::Whole => old.at(it.ring, slot).owner.0 == node.0,
        Extent::Begun => serves(it.before, it.back, slot, node),
    }
}

fn is_given_by(before: &World, step: &Step, slot: Slot, number: u32) -> bool
    ensures same { IsTrue result → (from : Source) × (step.now ≡ Copy slot from) }
    ensures over { IsTrue result → (w : TheWorld) → Meets before.now w → (w.done number || is_whole w number) ≡ true }
{
    match step {
        Step::Copy(copied, _) => is_slot(*copied, slot) && is_over(before, step, number),
        _ => false,
    }
}

fn is_given_step(before: &World, plan: &Plan, slot: Slot, number: u32) -> bool
    ensures { IsTrue result → (w : TheWorld) → Meets before.now w → HasGiven plan.now w slot number }
{
    if number >= plan.len() {
        return false;
    }
    is_given_by(before, plan.step(number), slot, number)
}

fn is_unswitched(before: &World, step: &Step, number: u32) -> bool
    ensures { IsTrue result → (w : TheWorld) → Meets before.now w → (s : TheSlot) → step.now ≡ Switch s → w.done number ≡ false }
{
    match step {
        Step::Switch(_) => is_to_come(before, number),
        Step::Join(_)
        | Step::Mirror(_, _)
        | Step::Copy(_, _)
        | Step::Drop(_, _)
        | Step::Retire(_) => true,
    }
}

fn is_unswitched_step(before: &World, plan: &Plan, number: u32) -> bool
    ensures { IsTrue result → (w : TheWorld) → Meets before.now w → (s : TheSlot) → step_at plan.now number ≡ Some (Switch s) → w.done number ≡ false }
{
    if number >= plan.len() {
        return false;
    }
    is_unswitched(before, plan.step(number), number)
}

fn is_unswitched_at(before: &World, plan: &Plan, slot: Slot, place: usize) -> bool
    ensures { IsTrue result → (w : TheWorld) → Meets before.now w → IsUnswitched plan.now w slot place }
{
    match plan.slot_steps(slot).get(place) {
        Some(number) => is_unswitched_step(before, plan, *number),
        None => true,
    }
}

fn are_to_come(before: &World, plan: &Plan, slot: Slot, place: usize) -> bool
    ensures { IsTrue result → (w : TheWorld) → Meets before.now w → AreToCome plan.now w slot place }
{
    let count = plan.slot_steps(slot).len();
    for later in place..count {
        if !is_unswitched_at(before, plan, slot, later) {
            return false;
        }
    }
    true
}

fn is_given_at(before: &World, plan: &Plan, slot: Slot, place: usize) -> bool
    ensures { IsTrue result → (w : TheWorld) → Meets before.now w → IsGiven plan.now w slot }
{
    match plan.slot_steps(slot).get(place) {
        Some(number) => {
            is_given_step(before, plan, slot, *number) && are_to_come(before, plan, slot, place)
        }
        None => false,
    }
}

fn is_given(before: &World, plan: &Plan, slot: Slot) -> bool
    ensures { IsTrue result → (w : TheWorld) → Meets before.now w → IsGiven plan.now w slot }
{
    for place in 0..plan.slot_steps(slot).len() {
        if is_given_at(before, plan, slot, place) {
            return true;
        }
    }
    false
}

fn may_keep(before: &World, plan: &Plan, slot: Slot, node: NodeId) -> bool
    requires slot { is_ring_slot (ring_of before.now) slot ≡ true }
    requires plan { plan_of before.now ≡ plan.now }
    ensures { IsTrue result → (w : TheWorld) → Meets before.now w → MayKeep (ring_of before.now) plan.now w slot node }
{
    match before.nodes_of(slot) {
        Some((owner, mirror)) => {
            owner.0 == node.0 || (is_node(mirror, node) && is_given(before, plan, slot))
        }
        None => false,
    }
}

fn ends_at(it: &Endings, ended: &Ended, partition: u32, index: u32) -> bool
    requires ended { AreEnds it.now ended.now }
    requires partition { partition < it.now.ring.now.q }
    requires index { index < it.now.ring.now.n }
    ensures { IsTrue result → SlotEnds it.now partition index }
{
    let slot = Slot { partition, index };
    let node = ended.new.at(it.ring, slot).owner;
    should_own(it, &ended.old, slot, node) || is_excused(it, ended, partition)
}

fn row_ends(it: &Endings, ended: &Ended, partition: u32) -> bool
    requires ended { AreEnds it.now ended.now }
    requires partition { partition < it.now.ring.now.q }
    ensures { IsTrue result → (i : ℕ) → i < it.now.ring.now.n → SlotEnds it.now partition i }
{
    let slots = it.ring.n();
    for index in 0..slots {
        if !ends_at(it, ended, partition, index) {
            return false;
        }
    }
    true
}

fn slots_end(it: &Endings, ended: &Ended) -> bool
    requires { AreEnds it.now ended.now }
    ensures { IsTrue result → (p : ℕ) → p < it.now.ring.now.q → (i : ℕ) → i < it.now.ring.now.n → SlotEnds it.now p i }
{
    let q = it.ring.q();
    for partition in 0..q {
        if !row_ends(it, ended, partition) {
            return false;
        }
    }
    true
}

fn slot_stays(it: &Endings, ended: &Ended, slot: Slot) -> bool
    requires { AreEnds it.now ended.now }
    ensures { IsTrue result → SlotStays it.now slot }
{
    if slot.partition >= it.ring.q() || slot.index >= it.ring.n() {
        return false;
    }
    let node = ended.new.at(it.ring, slot).owner;
    may_keep(it.before, it.old, slot, node)
}

fn stays_at(it: &Endings, ended: &Ended, place: usize) -> bool
    requires { AreEnds it.now ended.now }
    ensures { IsTrue result → (s : Slot) → slice_get it.now.left.now place ≡ Some s → SlotStays it.now s }
{
    match it.left.get(place) {
        Some(slot) => slot_stays(it, ended, *slot),
        None => true,
    }
}

fn slots_stay(it: &Endings, ended: &Ended) -> bool
    requires { AreEnds it.now ended.now }
    ensures { IsTrue result → (i : ℕ) (s : Slot) → slice_get it.now.left.now i ≡ Some s → SlotStays it.now s }
{
    for place in 0..it.left.len() {
        if !stays_at(it, ended, place) {
            return false;
        }
    }
    true
}

fn mark_owners(it: &Endings, ended: &Ended, partition: u32, marks: &mut Vec<bool>)
    requires ended { AreEnds it.now ended.now }
    requires partition { partition < it.now.ring.now.q }
    requires marks { HoldsIn it.now marks.old.items }
    ensures { HoldsIn it.now marks.new.items }
{
    let slots = it.ring.n();
    for index in 0..slots {
        let slot = Slot { partition, index };
        let node = ended.new.at(it.ring, slot).owner;
        mark(marks, node.0);
    }
}

fn mark_target(marks: &mut Vec<bool>, step: &Step)
    ensures { (x : ℕ) → is_flagged marks.new.items x ≡ true → MirrorsAt step.now x ⊎ (is_flagged marks.old.items x ≡ true) }
{
    match step {
        Step::Mirror(_, node) => mark(marks, node.0),
        _ => {}
    }
}

fn mark_targets(it: &Endings, marks: &mut Vec<bool>)
    requires { HoldsIn it.now marks.old.items }
    ensures { HoldsIn it.now marks.new.items }
{
    for number in 0..it.new.len() {
        mark_target(marks, it.new.step(number));
    }
}

fn mark_keepers(it: &Endings, marks: &mut Vec<bool>)
    requires { HoldsIn it.now marks.old.items }
    ensures { HoldsIn it.now marks.new.items }
{
    for number in 0..u32::MAX {
        let Some((node, _)) = it.before.hint_at(number) else {
            break;
        };
        mark(marks, node.0);
    }
}

// Marks nodes that may hold something after the new plan.
fn holders(alloc: Global, it: &Endings, ended: &Ended) -> Result<Vec<bool>, Refusal>
    requires { AreEnds it.now ended.now }
    ensures { IfOk result (λ marks. HoldsIn it.now marks.items) }
{
    let mut marks = vec![in alloc; false; it.ring.nodes().len()]?;
    let q = it.ring.q();
    for partition in 0..q {
        mark_owners(it, ended, partition, &mut marks);
    }
    mark_targets(it, &mut marks);
    mark_keepers(it, &mut marks);
    Ok(marks)
}

fn is_member_after(ring: &Ring, plan: &Plan, node: NodeId) -> bool
    ensures { result ≡ member_after ring.now plan.now node.0 }
{
    (ring.is_member(node) || plan.is_joined(node)) && !plan.is_retired(node)
}

fn node_ends(it: &Endings, ended: &Ended, holders: &[bool], node: NodeId) -> bool
    requires ended { AreEnds it.now ended.now }
    requires holders { HoldsIn it.now holders.now }
    ensures { IsTrue result → NodeEnds it.now node.0 }
{
    if is_member_after(it.ring, it.new, node) == is_member_after(it.ring, it.old, node) {
        return true;
    }
    if it.extent == Extent::Begun {
        return true;
    }
    if ended.dead.has(node) {
        return true;
    }
    is_flagged(holders, node.0 as usize)
}

fn nodes_end(it: &Endings, ended: &Ended, holders: &[bool]) -> bool
    requires ended { AreEnds it.now ended.now }
    requires holders { HoldsIn it.now holders.now }
    ensures { IsTrue result → (x : ℕ) → x < length it.now.ring.now.nodes → NodeEnds it.now x }
{
    let count = it.ring.nodes().len() as u32;
    for node in 0..count {
        if !node_ends(it, ended, holders, NodeId(node)) {
            return false;
        }
    }
    true
}

/// Whether the new plan ends where it should. Costs a pass over both plans and the hints.
pub(crate) fn ends_well(alloc: Global, it: &Endings) -> Result<bool, Refusal>
    requires old { Suits it.now.ring.now it.now.old.now }
    requires new { Suits it.now.ring.now it.now.new.now }
    requires ring { ring_of it.now.before.now ≡ it.now.ring.now }
    requires plan { plan_of it.now.before.now ≡ it.now.old.now }
    ensures { IfOk result (λ b. IsTrue b → (w : TheWorld) → Meets it.now.before.now w
        → EndsWell it.now.extent it.now.back it.now.ring.now it.now.old.now w it.now.new.now it.now.dead.now it.now.left.now) }
{
    let dead = Dead::of(it.dead);
    let hinted = hinted(alloc, it, &dead)?;
    let left = left_in(alloc, it)?;
    let ended = Ended {
        dead,
        old: present_after(alloc, it.ring, it.old)?,
        new: present_after(alloc, it.ring, it.new)?,
        hinted,
        left,
    };
    let holders = holders(alloc, it, &ended)?;
    if !slots_end(it, &ended) || !slots_stay(it, &ended) {
        return Ok(false);
    }
    Ok(nodes_end(it, &ended, holders.as_slice()))
}
