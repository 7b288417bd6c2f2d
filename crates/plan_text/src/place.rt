//! Reads a line's nodes and slots.

ghost use Rattle.std.specs.Prelude.{◌≡◌};
ghost use Rattle.texts.specs.Judging.{field_at, Does};
ghost use Rattle.plan_text.specs.Reading.{judge_below, slot_at, slot_node_at, joining_at, retiring_at};

use crate::plan::Plan;
use ring_names::{NodeId, Refusal, Slot};
use ring_table::{Ring, node_field};
use texts::{Fields, both};

#[inline(always)]
fn below(limit: u32, fields: &mut Fields) -> Result<u32, Refusal>
    ensures { Does (λ k. field_at k (judge_below k limit)) fields.old result fields.new }
{
    let line = fields.line();
    match fields.value() {
        None => Err(Refusal::BadLine(line)),
        Some(value) if value < u64::from(limit) => Ok(value as u32),
        Some(_) => Err(Refusal::TooLarge(line)),
    }
}

/// Reads a slot, or fails with `BadLine` or `TooLarge`.
#[tactic(auto, unfolding(crate::specs::Reading::slot_at))]
#[inline(always)]
pub fn slot(ring: &Ring, fields: &mut Fields) -> Result<Slot, Refusal>
    ensures { Does (slot_at ring.now) fields.old result fields.new }
{
    let partition = below(ring.q(), fields);
    let index = below(ring.n(), fields);
    let (partition, index) = both(partition, index)?;
    Ok(Slot { partition, index })
}

/// Reads a slot, then a declared node.
#[tactic(auto, unfolding(crate::specs::Reading::slot_node_at))]
#[inline(always)]
pub fn slot_node(ring: &Ring, fields: &mut Fields) -> Result<(Slot, NodeId), Refusal>
    ensures { Does (slot_node_at ring.now) fields.old result fields.new }
{
    let slot = slot(ring, fields);
    let node = node_field(ring, None, fields);
    both(slot, node)
}

/// Reads a node that may join. Fails with `Repeated` if it is a member or joined earlier.
#[tactic(auto, unfolding(crate::specs::Reading::joining_at))]
pub fn joining(ring: &Ring, plan: &Plan, fields: &mut Fields) -> Result<NodeId, Refusal>
    ensures { Does (joining_at ring.now plan.now) fields.old result fields.new }
{
    match node_field(ring, None, fields) {
        Ok(node) if ring.is_member(node) || plan.is_joined(node) => Err(Refusal::Repeated(
            fields.line(),
        )),
        other => other,
    }
}

/// Reads a node not yet retired, or fails with `Repeated`.
#[tactic(auto, unfolding(crate::specs::Reading::retiring_at))]
pub fn retiring(ring: &Ring, plan: &Plan, fields: &mut Fields) -> Result<NodeId, Refusal>
    ensures { Does (retiring_at ring.now plan.now) fields.old result fields.new }
{
    match node_field(ring, None, fields) {
        Ok(node) if plan.is_retired(node) => Err(Refusal::Repeated(fields.line())),
        other => other,
    }
}
