//! A plan that only joins nodes.

ghost use Rattle.std.specs.Prelude.{◌≡◌, ◌≤◌, [], length, IfOk, IfErr};
ghost use Rattle.ring_names.specs.declared.refusal.Refusal.TheVariants.{OutOfMemory};
ghost use Rattle.change_text.specs.Valid.{IsChange};
ghost use Rattle.plan_goal.specs.Joins.{joins_alone, no_claims};
ghost use Rattle.plan_goal.specs.Proposals.{IsProposed};

use crate::judging::{Rejected, judge};
use crate::proposed::Proposed;
use change_text::Change;
use plan_cert::{Cert, Chains};
use plan_text::{Plan, Step};
use ring_names::{NodeId, Refusal, Rows};
use ring_table::Ring;
use std::alloc::Global;

fn joins_alone(alloc: Global, nodes: &[NodeId]) -> Result<Plan, Refusal>
    requires { length nodes.now ≤ 131072 }
    ensures plan { IfOk result (λ p. p ≡ joins_alone nodes.now) }
    ensures memory { IfErr result (λ e. e ≡ OutOfMemory) }
{
    let mut plan = Plan::new(alloc);
    for node in nodes {
        plan.push(Step::Join(*node), &[])?;
    }
    Ok(plan)
}

fn no_claims(alloc: Global) -> Cert
    ensures { result ≡ no_claims }
{
    Cert {
        facts: Rows::new(alloc),
        chains: Chains::new(alloc),
    }
}

/// Proposes a plan that only joins nodes, for a change without leaves.
pub fn propose_joins(alloc: Global, ring: Ring, change: &Change) -> Result<Proposed, Refusal>
    requires change { IsChange ring change.now }
    requires nobody { change.now.leaves ≡ [] }
    ensures ring { IfOk result (λ p. p.approved.ring ≡ ring) }
    ensures proposed { IfOk result (λ p. IsProposed ring change.now p.approved.plan p.cert) }
    ensures memory { IfErr result (λ e. e ≡ OutOfMemory) }
{
    // A ring has few nodes, so few can join.
    let _ = ring.n();
    let plan = joins_alone(alloc, change.joins.as_slice())?;
    match judge(alloc, ring, change, plan, no_claims(alloc)) {
        Ok(found) => Ok(found),
        Err(rejected) => {
            let Rejected { refusal, .. } = rejected;
            Err(refusal)
        }
    }
}
