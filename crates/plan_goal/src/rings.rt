//! The ring after a plan.

ghost use Rattle.std.specs.Prelude.{◌≡◌, IfOk, length};
ghost use Rattle.plan_goal.specs.Rings.{member_after, members_after, ring_left};

use plan_check::Approved;
use plan_moves::last_owners;
use plan_text::Plan;
use ring_names::{NodeId, Refusal};
use ring_table::Ring;
use std::alloc::Global;

fn is_member_after(ring: &Ring, plan: &Plan, node: NodeId) -> bool
    ensures { result ≡ member_after ring.now plan.now node }
{
    (ring.is_member(node) || plan.is_joined(node)) && !plan.is_retired(node)
}

fn members_left(alloc: Global, ring: &Ring, plan: &Plan) -> Result<Vec<bool>, Refusal>
    ensures { IfOk result (λ members. members.items ≡ members_after ring.now plan.now (length ring.now.nodes)) }
{
    let mut members = Vec::new(alloc);
    // A ring has few nodes.
    let count = ring.nodes().len() as u32;
    'nodes: for node in 0..count {
        members.push(is_member_after(ring, plan, NodeId(node)))?;
    }
    Ok(members)
}

/// Returns the ring with the plan's final owners and members.
pub fn ring_after(alloc: Global, approved: &Approved) -> Result<Ring, Refusal>
    ensures { IfOk result (λ v. v ≡ ring_left approved.now.ring approved.now.plan) }
{
    let (ring, plan) = (approved.ring(), approved.plan());
    let rows = last_owners(alloc, ring, plan)?;
    let members = members_left(alloc, ring, plan)?;
    ring.with(alloc, rows.as_slice(), members.as_slice())
}
