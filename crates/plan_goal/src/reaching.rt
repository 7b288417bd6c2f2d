//! Accepted plans from a ring to another.

ghost use Rattle.std.specs.Prelude.{◌≡◌, ◌⊎◌, Some, IfOk, IfErr, OnOk};
ghost use Rattle.ring_names.specs.declared.refusal.Refusal.TheVariants.{NoPlan, OutOfMemory};
ghost use Rattle.plan_text.specs.Valid.{Suits as PlanSuits};
ghost use Rattle.plan_cert.specs.Valid.{Suits as CertSuits};
ghost use Rattle.plan_check.specs.Certified.{IsCertified};
ghost use Rattle.plan_check.specs.First.{first_refusal};
ghost use Rattle.plan_check.specs.Headline.{KeepsPromises};
ghost use Rattle.plan_goal.specs.Reached.{IsReached, IsUnreached, Leads};

use crate::aim::{Aim, why_unfit};
use crate::finding::find;
use crate::leading::leads;
use crate::proposed::Proposed;
use plan_cert::Cert;
use plan_check::{Turned, check};
use plan_text::Plan;
use ring_names::{NodeId, Refusal};
use ring_table::Ring;
use std::alloc::Global;

/// Maps the planner's refusal to `OutOfMemory` or `NoPlan`.
pub(crate) fn cause(refusal: Refusal) -> Refusal
    ensures { (result ≡ OutOfMemory) ⊎ (result ≡ NoPlan) }
{
    match refusal {
        Refusal::OutOfMemory => Refusal::OutOfMemory,
        _ => Refusal::NoPlan,
    }
}

fn judged(aim: &Aim, plan: Plan, cert: Cert) -> Result<(Plan, Cert), Refusal>
    ensures leads { IfOk result (λ f. Leads aim.now.ring.now aim.now.wanted.now aim.now.dead.now f.0 f.1) }
    ensures refused { IfErr result (λ e. (e ≡ OutOfMemory) ⊎ (e ≡ NoPlan)) }
{
    if leads(aim, &plan, &cert)? {
        return Ok((plan, cert));
    }
    Err(Refusal::NoPlan)
}

fn found_by(aim: &Aim) -> Result<(Plan, Cert), Refusal>
    ensures leads { IfOk result (λ f. Leads aim.now.ring.now aim.now.wanted.now aim.now.dead.now f.0 f.1) }
    ensures refused { IfErr result (λ e. (e ≡ OutOfMemory) ⊎ (e ≡ NoPlan)) }
{
    if why_unfit(aim).is_some() {
        return Err(Refusal::NoPlan);
    }
    match find(aim) {
        Ok((plan, cert)) => judged(aim, plan, cert),
        Err(refusal) => Err(cause(refusal)),
    }
}

fn checked(alloc: Global, ring: Ring, plan: Plan, cert: Cert) -> Result<Proposed, Refusal>
    requires plan_suits { PlanSuits ring plan }
    requires cert_suits { CertSuits ring cert }
    ensures same { IfOk result (λ p. (p.approved.ring ≡ ring) × (p.approved.plan ≡ plan) × (p.cert ≡ cert)) }
    ensures certified { OnOk result (IsCertified ring plan cert) }
    ensures keeps { OnOk result (KeepsPromises ring plan) }
    ensures refused { IfErr result (λ e. (e ≡ OutOfMemory → ⊥) → first_refusal ring plan cert ≡ Some e) }
{
    match check(alloc, ring, plan, &cert) {
        Ok(approved) => Ok(Proposed { approved, cert }),
        Err(Turned { refusal, .. }) => Err(refusal),
    }
}

/// Finds a plan from the ring to the wanted one, with a certificate that the checker accepts.
///
/// Compares a partition's owners as a set, so that slots move only if they must.
///
/// A dead node gives and takes nothing: its slots are read from R others, and it neither drops nor retires.
///
/// Fails with `NoPlan` if no plan is possible or found, then as the checker, or with `OutOfMemory`.
pub fn reach(alloc: Global, ring: Ring, wanted: &Ring, dead: &[NodeId]) -> Result<Proposed, Refusal>
    ensures ring { IfOk result (λ p. p.approved.ring ≡ ring) }
    ensures reached { IfOk result (λ p. IsReached ring wanted.now dead.now p.approved.plan p.cert) }
    ensures refused { IfErr result (IsUnreached ring wanted.now dead.now) }
{
    let found = found_by(&Aim {
        alloc,
        ring: &ring,
        wanted,
        dead,
    });
    match found {
        Ok((plan, cert)) => checked(alloc, ring, plan, cert),
        Err(refusal) => Err(refusal),
    }
}
