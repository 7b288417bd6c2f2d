//! Owners after a plan's last step.

ghost use Rattle.std.specs.Prelude.{◌≡◌, ℕ, ◌<◌, ◌==◌, length, slice_get, count_by, IfOk, IfErr, if◌then◌else◌};
ghost use Rattle.ring_names.specs.declared.refusal.Refusal.TheVariants.{OutOfMemory};
ghost use Rattle.plan_text.specs.Valid.{Suits};
ghost use Rattle.plan_cover.specs.Looking.Serving.{serving_at};
ghost use Rattle.plan_moves.specs.Owners.{row_by, last_owners, IsPast, CountsMore, AreOwned};

use plan_cover::Present;
use plan_text::Plan;
use ring_names::{Listed, NodeId, Refusal, Slot};
use ring_table::Ring;
use std::alloc::Global;

/// Returns each slot's owner and mirror after the last step. Costs a pass over the plan.
pub fn present_after(alloc: Global, ring: &Ring, plan: &Plan) -> Result<Present, Refusal>
    requires { Suits ring.now plan.now }
    ensures ok { IfOk result (IsPast ring.now plan.now) }
    ensures memory { IfErr result (λ e. e ≡ OutOfMemory) }
{
    let mut present = Present::new(alloc, ring)?;
    for number in 0..plan.len() {
        present.act(ring, plan.step(number));
    }
    Ok(present)
}

fn row_of(
    alloc: Global,
    ring: &Ring,
    present: &Present,
    partition: u32,
) -> Result<Listed<NodeId>, Refusal>
    requires partition { partition < ring.now.q }
    ensures ok { IfOk result (λ row. row ≡ row_by (serving_at ring.now present.now) partition ring.now.n) }
    ensures memory { IfErr result (λ e. e ≡ OutOfMemory) }
{
    let mut row = Vec::new(alloc);
    for index in 0..ring.n() {
        let slot = Slot { partition, index };
        row.push(present.at(ring, slot).owner)?;
    }
    Ok(Listed::from_vec(row))
}

/// Returns the owners after the last step, by partition and index. Costs a pass over the plan.
pub fn last_owners(alloc: Global, ring: &Ring, plan: &Plan) -> Result<Vec<Listed<NodeId>>, Refusal>
    requires { Suits ring.now plan.now }
    ensures ok { IfOk result (λ rows. rows.items ≡ last_owners ring.now plan.now) }
    ensures memory { IfErr result (λ e. e ≡ OutOfMemory) }
{
    let present = present_after(alloc, ring, plan)?;
    let mut rows = Vec::new(alloc);
    for partition in 0..ring.q() {
        rows.push(row_of(alloc, ring, &present, partition)?)?;
    }
    Ok(rows)
}

fn raise(counts: &mut Vec<u32>, node: NodeId)
    ensures counts { (x : ℕ)
        → CountsMore (if node.0 == x then 1 else 0) (slice_get counts.old.items x) (slice_get counts.new.items x) }
    ensures len { length counts.new.items ≡ length counts.old.items }
{
    let place = node.0 as usize;
    if place < counts.len() {
        counts[place] = counts[place].saturating_add(1);
    }
}

fn count_row(counts: &mut Vec<u32>, row: &[NodeId])
    ensures counts { (x : ℕ)
        → CountsMore (count_by (λ y. y.0 == x) row.now) (slice_get counts.old.items x) (slice_get counts.new.items x) }
    ensures len { length counts.new.items ≡ length counts.old.items }
{
    for node in row {
        raise(counts, *node);
    }
}

/// Counts each node's slots in rows of owners, at most 4,294,967,295.
pub fn owned(alloc: Global, nodes: usize, rows: &[Listed<NodeId>]) -> Result<Vec<u32>, Refusal>
    ensures ok { IfOk result (λ counts. AreOwned nodes rows.now counts.items) }
    ensures memory { IfErr result (λ e. e ≡ OutOfMemory) }
{
    let mut counts = vec![in alloc; 0u32; nodes]?;
    for row in rows {
        count_row(&mut counts, row.as_slice());
    }
    Ok(counts)
}
