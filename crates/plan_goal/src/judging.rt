//! Checks that a plan may be proposed.

ghost use Rattle.std.specs.Prelude.{◌≡◌, ◌↔◌, IsTrue, IfOk, IfErr};
ghost use Rattle.ring_names.specs.declared.refusal.Refusal.TheVariants.{OutOfMemory};
ghost use Rattle.plan_check.specs.Certified.{IsCertified};
ghost use Rattle.plan_goal.specs.Proposals.{Makes, IsProposed, IsTurnedAway};

use crate::proposed::Proposed;
use change_text::Change;
use plan_cert::Cert;
use plan_check::{Turned, check};
use plan_text::Plan;
use ring_names::Refusal;
use ring_table::Ring;
use std::alloc::Global;

/// A ring, and why its plan is refused.
#[derive(Drop)]
pub struct Rejected {
    pub ring: Ring,
    pub refusal: Refusal,
}

fn makes(ring: &Ring, change: &Change, plan: &Plan, cert: &Cert) -> bool
    ensures { IsTrue result ↔ Makes ring.now change.now plan.now cert.now }
{
    plan.suits(ring)
        && cert.suits(ring)
        && plan.fulfils(change.joins.as_slice(), change.leaves.as_slice())
}

/// Proposes the plan, or returns the ring with a refusal.
///
/// The refusal is `NoPlan` if plan or certificate do not suit the ring, or the plan does not make the change. Otherwise
/// it is the checker's.
pub fn judge(
    alloc: Global,
    ring: Ring,
    change: &Change,
    plan: Plan,
    cert: Cert,
) -> Result<Proposed, Rejected>
    ensures ring { IfOk result (λ p. p.approved.ring ≡ ring) }
    ensures proposed { IfOk result (λ p. IsProposed ring change.now p.approved.plan p.cert) }
    ensures refused { IfErr result (λ r. IsTurnedAway ring change.now r.refusal) }
    ensures same { IfErr result (λ r. r.ring ≡ ring) }
    ensures memory { Makes ring change.now plan cert → IsCertified ring plan cert
        → IfErr result (λ r. r.refusal ≡ OutOfMemory) }
{
    // Every plan is well formed.
    let _ = plan.len();
    if !makes(&ring, change, &plan, &cert) {
        let refusal = Refusal::NoPlan;
        return Err(Rejected { ring, refusal });
    }
    match check(alloc, ring, plan, &cert) {
        Ok(approved) => Ok(Proposed { approved, cert }),
        Err(turned) => {
            let Turned { ring, refusal, .. } = turned;
            Err(Rejected { ring, refusal })
        }
    }
}
