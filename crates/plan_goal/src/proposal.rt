//! Proposes a plan for a change.

ghost use Rattle.std.specs.Prelude.{◌≡◌, ◌⊎◌, [], IfOk, IfErr};
ghost use Rattle.ring_names.specs.declared.refusal.Refusal.TheVariants.{NoPlan, OutOfMemory};
ghost use Rattle.change_text.specs.Valid.{IsChange};
ghost use Rattle.plan_goal.specs.Proposals.{IsProposed, IsTurnedAway};

use crate::alone::propose_joins;
use crate::judging::{Rejected, judge};
use crate::proposed::Proposed;
use crate::reaching::cause;
use change_text::Change;
use find_plan::make;
use ring_names::Refusal;
use ring_table::Ring;
use std::alloc::Global;

fn propose_made(alloc: Global, ring: Ring, change: &Change) -> Result<Proposed, Rejected>
    ensures ring { IfOk result (λ p. p.approved.ring ≡ ring) }
    ensures proposed { IfOk result (λ p. IsProposed ring change.now p.approved.plan p.cert) }
    ensures refused { IfErr result (λ r. IsTurnedAway ring change.now r.refusal) }
    ensures same { IfErr result (λ r. r.ring ≡ ring) }
{
    match make(
        alloc,
        &ring,
        change.joins.as_slice(),
        change.leaves.as_slice(),
    ) {
        Ok((plan, cert)) => judge(alloc, ring, change, plan, cert),
        Err(refusal) => {
            let refusal = cause(refusal);
            Err(Rejected { ring, refusal })
        }
    }
}

/// Proposes a plan that makes the change, with its certificate. If the planner finds none and no node leaves, nodes
/// only join.
///
/// Otherwise fails with `NoPlan` if the planner finds none, then as the checker.
pub fn propose(alloc: Global, ring: Ring, change: &Change) -> Result<Proposed, Refusal>
    requires { IsChange ring change.now }
    ensures ring { IfOk result (λ p. p.approved.ring ≡ ring) }
    ensures proposed { IfOk result (λ p. IsProposed ring change.now p.approved.plan p.cert) }
    ensures refused { IfErr result (IsTurnedAway ring change.now) }
    // Without leaves there is always a plan.
    ensures joins { change.now.leaves ≡ [] → IfErr result (λ e. e ≡ OutOfMemory) }
{
    match propose_made(alloc, ring, change) {
        Ok(found) => Ok(found),
        Err(rejected) => {
            let Rejected { ring, refusal } = rejected;
            if refusal == Refusal::OutOfMemory || !change.leaves.as_slice().is_empty() {
                return Err(refusal);
            }
            propose_joins(alloc, ring, change)
        }
    }
}
