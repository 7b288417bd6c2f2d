//! Checks that a plan leads to a ring.

ghost use Rattle.std.specs.Prelude.{◌≡◌, true, IsTrue, IfOk, IfErr};
ghost use Rattle.ring_names.specs.declared.refusal.Refusal.TheVariants.{OutOfMemory};
ghost use Rattle.plan_text.specs.Valid.{Suits as PlanSuits};
ghost use Rattle.plan_moves.specs.Owners.{last_owners as the_last_owners};
ghost use Rattle.plan_goal.specs.Reached.{are_among, is_alike, are_alike, member_after, member_wanted, HasMembers, Leads};

use crate::aim::Aim;
use crate::alike::is_like;
use crate::sparing::{is_among, spares};
use plan_cert::Cert;
use plan_moves::last_owners;
use plan_text::Plan;
use ring_names::{Listed, NodeId, Refusal};

fn are_among(nodes: &[NodeId], others: &[NodeId]) -> bool
    ensures { result ≡ are_among nodes.now others.now }
{
    nodes.iter().all(|x| is_among(others, *x))
}

fn is_alike(found: &[NodeId], wanted: &[NodeId]) -> bool
    ensures { result ≡ is_alike found.now wanted.now }
{
    are_among(found, wanted) && are_among(wanted, found)
}

fn are_alike(found: &[Listed<NodeId>], wanted: &[Listed<NodeId>]) -> bool
    ensures { result ≡ are_alike found.now wanted.now }
{
    match (found.split_first(), wanted.split_first()) {
        (Some((one, more)), Some((other, others))) => {
            is_alike(one.as_slice(), other.as_slice()) && are_alike(more, others)
        }
        (None, None) => true,
        (Some(_), None) | (None, Some(_)) => false,
    }
}

fn is_member_after(aim: &Aim, plan: &Plan, node: NodeId) -> bool
    ensures { result ≡ member_after aim.now.ring.now plan.now node.0 }
{
    (aim.ring.is_member(node) || plan.is_joined(node)) && !plan.is_retired(node)
}

// Whether the node should be a member after the plan. A dead member stays one.
fn is_member_wanted(aim: &Aim, node: NodeId) -> bool
    ensures { result ≡ member_wanted aim.now.ring.now aim.now.wanted.now aim.now.dead.now node.0 }
{
    aim.wanted.is_member(node) || (is_among(aim.dead, node) && aim.ring.is_member(node))
}

fn has_members(aim: &Aim, plan: &Plan) -> bool
    ensures { IsTrue result → HasMembers aim.now.ring.now aim.now.wanted.now aim.now.dead.now plan.now }
{
    let count = aim.ring.nodes().len() as u32;
    'nodes: for number in 0..count {
        let node = NodeId(number);
        if is_member_after(aim, plan, node) != is_member_wanted(aim, node) {
            return false;
        }
    }
    true
}

fn has_owners(aim: &Aim, plan: &Plan) -> Result<bool, Refusal>
    requires { PlanSuits aim.now.ring.now plan.now }
    ensures memory { IfErr result (λ e. e ≡ OutOfMemory) }
    ensures ok { IfOk result (λ b. IsTrue b → are_alike (the_last_owners aim.now.ring.now plan.now) aim.now.wanted.now.owners ≡ true) }
{
    let found = last_owners(aim.alloc, aim.ring, plan)?;
    Ok(are_alike(found.as_slice(), aim.wanted.rows()))
}

/// Whether the plan leads to the wanted ring and spares dead nodes.
///
/// False if the rings differ in more than owners and members, or plan or certificate do not suit the ring.
pub fn leads(aim: &Aim, plan: &Plan, cert: &Cert) -> Result<bool, Refusal>
    ensures ok { IfOk result (λ b. IsTrue b → Leads aim.now.ring.now aim.now.wanted.now aim.now.dead.now plan.now cert.now) }
    ensures memory { IfErr result (λ e. e ≡ OutOfMemory) }
{
    if !is_like(aim.ring, aim.wanted) || !plan.suits(aim.ring) || !cert.suits(aim.ring) {
        return Ok(false);
    }
    let owners = has_owners(aim, plan)?;
    let spared = spares(aim.alloc, aim.ring, plan, aim.dead)?;
    Ok(owners && spared && has_members(aim, plan))
}
