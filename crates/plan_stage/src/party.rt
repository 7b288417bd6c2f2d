//! A copy's nodes.

ghost use Rattle.std.specs.Prelude.{◌≡◌, ◌<◌, true, nat_lt, count_by, map, IfErr, IfOk, OnOk};
ghost use Rattle.std.specs.List.{list_all};
ghost use Rattle.ring_names.specs.declared.refusal.Refusal.TheVariants.{OutOfMemory};
ghost use Rattle.plan_text.specs.Steps.{steps_of};
ghost use Rattle.plan_text.specs.Valid.{Suits, source_suits};
ghost use Rattle.plan_stage.specs.Parties.{count_below, stage_before, source_slots, owners_before, with_target};
ghost use Rattle.plan_stage.specs.Parties.{on_side, parties_on, parties, sources};
ghost use Rattle.plan_stage.specs.Stage.{with_node};

use crate::check::stage_at;
use crate::leftovers::listed;
use crate::stage::Stage;
use plan_text::{Plan, Source, Step};
use ring_names::{Listed, NodeId, Refusal, Slot};
use ring_table::{Ring, Side};
use std::alloc::Global;
use std::collections::BTreeSet;

/// Returns a copy's nodes by number: the mirror, and the sources' owners just before it. Empty for another step.
pub fn parties(
    alloc: Global,
    ring: &Ring,
    plan: &Plan,
    step: u32,
) -> Result<Listed<NodeId>, Refusal>
    requires suits { Suits ring.now plan.now }
    ensures ok { IfOk result (λ list. list ≡ parties ring.now plan.now step) }
    ensures memory { IfErr result (λ e. e ≡ OutOfMemory) }
{
    parties_on(alloc, ring, plan, Side::Both, step)
}

/// Returns the owners of a copy's sources just before it, by number. Empty for another step.
pub fn sources(
    alloc: Global,
    ring: &Ring,
    plan: &Plan,
    step: u32,
) -> Result<Listed<NodeId>, Refusal>
    requires suits { Suits ring.now plan.now }
    ensures ok { IfOk result (λ list. list ≡ sources ring.now plan.now step) }
    ensures memory { IfErr result (λ e. e ≡ OutOfMemory) }
{
    parties_on(alloc, ring, plan, Side::Give, step)
}

#[derive(Clone, Copy)]
struct Before<'a> {
    alloc: Global,
    ring: &'a Ring,
    plan: &'a Plan,
    step: u32,
}

fn parties_on(
    alloc: Global,
    ring: &Ring,
    plan: &Plan,
    side: Side,
    step: u32,
) -> Result<Listed<NodeId>, Refusal>
    requires suits { Suits ring.now plan.now }
    ensures ok { IfOk result (λ list. list ≡ parties_on ring.now plan.now side step) }
    ensures memory { IfErr result (λ e. e ≡ OutOfMemory) }
{
    let no_one = Listed::from_vec(Vec::new(alloc));
    if step >= plan.len() {
        return Ok(no_one);
    }
    let before = Before {
        alloc,
        ring,
        plan,
        step,
    };
    match plan.step(step) {
        Step::Copy(slot, source) => copy_parties(&before, side, *slot, source),
        Step::Join(_) | Step::Mirror(_, _) | Step::Switch(_) | Step::Drop(_, _) | Step::Retire(_) =>
            Ok(no_one),
    }
}

fn copy_parties(
    before: &Before,
    side: Side,
    slot: Slot,
    source: &Source,
) -> Result<Listed<NodeId>, Refusal>
    requires partition { slot.partition < before.now.ring.now.q }
    requires index { slot.index < before.now.ring.now.n }
    requires suits { source_suits before.now.ring.now source.now ≡ true }
    ensures ok { IfOk result
        (λ list. list ≡ on_side side (stage_before before.now.ring.now before.now.plan.now slot before.now.step).mirror
        (owners_before before.now.ring.now before.now.plan.now before.now.step (source_slots slot source.now))) }
    ensures memory { IfErr result (λ e. e ≡ OutOfMemory) }
{
    let mirror = stage_before(before, slot)?.mirror;
    let party = match side {
        Side::Both => {
            let owners = owners_before(before, slot, source)?;
            with_target(owners, mirror)?
        }
        Side::Take => with_target(BTreeSet::new(before.alloc), mirror)?,
        Side::Give => owners_before(before, slot, source)?,
    };
    Ok(Listed::from_vec(listed(before.alloc, &party)?))
}

fn with_target(
    mut party: BTreeSet<NodeId>,
    target: Option<NodeId>,
) -> Result<BTreeSet<NodeId>, Refusal>
    ensures ok { IfOk result (λ all. all.keys ≡ with_target target party.keys) }
    ensures memory { IfErr result (λ e. e ≡ OutOfMemory) }
{
    if let Some(node) = target {
        add_node(&mut party, node)?;
    }
    Ok(party)
}

fn owners_before(before: &Before, slot: Slot, source: &Source) -> Result<BTreeSet<NodeId>, Refusal>
    requires partition { slot.partition < before.now.ring.now.q }
    requires index { slot.index < before.now.ring.now.n }
    requires suits { source_suits before.now.ring.now source.now ≡ true }
    ensures ok { IfOk result
        (λ party. party.keys ≡ owners_before before.now.ring.now before.now.plan.now before.now.step (source_slots slot source.now)) }
    ensures memory { IfErr result (λ e. e ≡ OutOfMemory) }
{
    match source {
        Source::Owner => {
            let mut party = BTreeSet::new(before.alloc);
            add_owner(before, slot, &mut party)?;
            Ok(party)
        }
        Source::Slots(from) => listed_owners(before, slot.partition, from.as_slice()),
    }
}

fn listed_owners(before: &Before, partition: u32, from: &[u8]) -> Result<BTreeSet<NodeId>, Refusal>
    requires partition { partition < before.now.ring.now.q }
    requires indexes { list_all (λ i. nat_lt i before.now.ring.now.n) from.now ≡ true }
    ensures ok { IfOk result
        (λ party. party.keys ≡ owners_before before.now.ring.now before.now.plan.now before.now.step
        (map (λ i. record { partition = partition; index = i }) from.now)) }
    ensures memory { IfErr result (λ e. e ≡ OutOfMemory) }
{
    let mut party = BTreeSet::new(before.alloc);
    for k in (0..from.len()).rev() {
        let slot = Slot {
            partition,
            index: u32::from(from[k]),
        };
        add_owner(before, slot, &mut party)?;
    }
    Ok(party)
}

fn add_owner(before: &Before, slot: Slot, party: &mut BTreeSet<NodeId>) -> Result<(), Refusal>
    requires partition { slot.partition < before.now.ring.now.q }
    requires index { slot.index < before.now.ring.now.n }
    ensures ok { OnOk result
        (party.new.keys ≡ with_node (stage_before before.now.ring.now before.now.plan.now slot before.now.step).owner party.old.keys) }
    ensures memory { IfErr result (λ e. e ≡ OutOfMemory) }
{
    let stage = stage_before(before, slot)?;
    add_node(party, stage.owner)
}

fn add_node(party: &mut BTreeSet<NodeId>, node: NodeId) -> Result<(), Refusal>
    ensures ok { OnOk result (party.new.keys ≡ with_node node party.old.keys) }
    ensures memory { IfErr result (λ e. e ≡ OutOfMemory) }
{
    party.insert(node)?;
    Ok(())
}

fn stage_before(before: &Before, slot: Slot) -> Result<Stage, Refusal>
    requires partition { slot.partition < before.now.ring.now.q }
    requires index { slot.index < before.now.ring.now.n }
    ensures ok { IfOk result
        (λ stage. stage ≡ stage_before before.now.ring.now before.now.plan.now slot before.now.step) }
    ensures memory { IfErr result (λ e. e ≡ OutOfMemory) }
{
    let count = count_before(before.plan, before.step, slot);
    stage_at(before.alloc, before.ring, before.plan, slot, count)
}

fn count_before(plan: &Plan, step: u32, slot: Slot) -> u32
    ensures { result ≡ count_below step (steps_of plan.now slot) }
{
    count_less(plan.slot_steps(slot), step) as u32
}

fn count_less(numbers: &[u32], limit: u32) -> usize
    ensures { result ≡ count_by (λ number. nat_lt number limit) numbers.now }
{
    numbers.iter().filter(|number| **number < limit).count()
}
