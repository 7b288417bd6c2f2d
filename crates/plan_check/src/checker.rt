//! The check.

ghost use Rattle.std.specs.Prelude.{◌≡◌, ◌⊎◌, None, Some, Err, IfOk, IfErr, IfNone, IfSome, OnOk, length};
ghost use Rattle.ring_names.specs.declared.refusal.Refusal.TheVariants.{OutOfMemory, TurnsSpent};
ghost use Rattle.plan_text.specs.Valid.{Suits};
ghost use Rattle.plan_order.specs.Facts.{AreFactsOf, is_ordered};
ghost use Rattle.plan_stage.specs.Clauses.{Gives, below, first_failing};
ghost use Rattle.plan_stage.specs.Partition.{partition_clauses};
ghost use Rattle.plan_check.specs.Approval.{IsApproved};
ghost use Rattle.plan_check.specs.Certified.{IsCertified};
ghost use Rattle.plan_check.specs.First.{fact_clauses, rest_clauses, all_clauses, first_refusal};
ghost use Rattle.plan_check.specs.Shares.{MayStop, MustStop};

use crate::approval::{Approved, Turned};
use crate::gate::Gate;
use crate::laws::{certified_is_sound, first_is_none_where_certified, sound_plans_keep_promises};
use crate::shares::{Workers, check_share, check_shares};
use plan_cert::Cert;
use plan_cover::check_nodes;
use plan_order::{Context, Facts};
use plan_text::Plan;
use ring_names::Refusal;
use ring_table::Ring;
use std::alloc::Global;
use std::sync::Wait;
use std::thread::Threads;

/// Checks a plan by a certificate.
///
/// Facts come first, then partitions, then nodes, each by number.
///
/// In every run of an accepted plan, at every moment:
/// - For each acknowledged put, any R slots of its partition include one whose owner or hint keeper holds it or a
/// causal successor.
/// - No two slots of a partition share a node.
/// - No node has more transfers open than its allowance.
/// - Each slot's owner and mirror are members.
/// - Gets see what was acknowledged before they started.
///
/// Fails with the first failing clause, and returns ring and plan. Out of memory comes after all facts are verified.
/// Costs about as much as reading the texts.
pub fn check(alloc: Global, ring: Ring, plan: Plan, cert: &Cert) -> Result<Approved, Turned>
    requires { Suits ring plan }
    ensures same { IfOk result (λ a. (a.ring ≡ ring) × (a.plan ≡ plan)) }
    ensures approved { OnOk result (IsApproved ring plan) }
    ensures certified { OnOk result (IsCertified ring plan cert.now) }
    ensures accepted { OnOk result (first_refusal ring plan cert.now ≡ None) }
    ensures refused { IfErr result
        (λ t. (t.refusal ≡ OutOfMemory → ⊥) → first_refusal ring plan cert.now ≡ Some t.refusal) }
    ensures unchanged { IfErr result (λ t. (t.ring ≡ ring) × (t.plan ≡ plan)) }
    ensures memory { IsCertified ring plan cert.now → IfErr result (λ t. t.refusal ≡ OutOfMemory) }
    ensures late { IfErr result
        (λ t. t.refusal ≡ OutOfMemory → first_failing (fact_clauses plan 0 cert.now.facts) ≡ None) }
{
    first_is_none_where_certified(&ring, &plan, cert);
    certified_is_sound();
    sound_plans_keep_promises(&ring, &plan);
    match check_all(alloc, &ring, &plan, cert) {
        Ok(()) => Ok(Approved::new(ring, plan)),
        Err(refusal) => Err(Turned {
            ring,
            plan,
            refusal,
        }),
    }
}

/// Checks as `check`, in threads.
///
/// A thread per processor checks the facts, and `workers` the partitions.
///
/// Uses at most one worker per partition, and at least one. If no thread starts, the calling thread does the shares in
/// turn.
///
/// Of Q partitions and m shares, share s begins with partition s Q / m, rounded down. Its worker first passes the gate,
/// with that number as mark.
///
/// Returns what `check` does, but `TurnsSpent` if the gate stops a worker, even if a clause fails. If a fact is not a
/// path, no share begins. If the gate must stop a worker, the answer may also be `OutOfMemory`.
pub fn check_parallel<R: Threads + Wait + Sync, G: Gate + Sync>(
    rt: &R,
    alloc: Global,
    workers: u32,
    gate: &G,
    ring: Ring,
    plan: Plan,
    cert: &Cert,
) -> Result<Approved, Turned>
    requires { Suits ring plan }
    ensures same { IfOk result (λ a. (a.ring ≡ ring) × (a.plan ≡ plan)) }
    ensures approved { OnOk result (IsApproved ring plan) }
    ensures certified { OnOk result (IsCertified ring plan cert.now) }
    ensures accepted { OnOk result (first_refusal ring plan cert.now ≡ None) }
    ensures refused { IfErr result (λ t. (t.refusal ≡ OutOfMemory → ⊥) → (t.refusal ≡ TurnsSpent → ⊥)
        → first_refusal ring plan cert.now ≡ Some t.refusal) }
    ensures stopped { IfErr result (λ t. t.refusal ≡ TurnsSpent → MayStop (G.may_refuse gate.now) workers ring.q) }
    ensures turned { MustStop (G.must_refuse gate.now) workers ring.q
        → first_failing (fact_clauses plan 0 cert.now.facts) ≡ None → OnOk result ⊥ }
    ensures spent { MustStop (G.must_refuse gate.now) workers ring.q
        → first_failing (fact_clauses plan 0 cert.now.facts) ≡ None
        → IfErr result (λ t. (t.refusal ≡ TurnsSpent) ⊎ (t.refusal ≡ OutOfMemory)) }
    ensures unchanged { IfErr result (λ t. (t.ring ≡ ring) × (t.plan ≡ plan)) }
    ensures memory { IsCertified ring plan cert.now
        → IfErr result (λ t. (t.refusal ≡ OutOfMemory) ⊎ (t.refusal ≡ TurnsSpent)) }
    ensures late { IfErr result (λ t. (t.refusal ≡ OutOfMemory) ⊎ (t.refusal ≡ TurnsSpent)
        → first_failing (fact_clauses plan 0 cert.now.facts) ≡ None) }
{
    first_is_none_where_certified(&ring, &plan, cert);
    certified_is_sound();
    sound_plans_keep_promises(&ring, &plan);
    let by = Workers {
        rt,
        alloc,
        workers,
        gate,
    };
    match check_all_by_workers(&by, &ring, &plan, cert) {
        Some(Ok(())) => Ok(Approved::new(ring, plan)),
        Some(Err(refusal)) => Err(Turned {
            ring,
            plan,
            refusal,
        }),
        None => Err(Turned {
            ring,
            plan,
            refusal: Refusal::TurnsSpent,
        }),
    }
}

fn check_all(alloc: Global, ring: &Ring, plan: &Plan, cert: &Cert) -> Result<(), Refusal>
    requires { Suits ring.now plan.now }
    ensures first { Gives result (all_clauses ring.now plan.now cert.now) }
    ensures late { IfErr result (λ e. e ≡ OutOfMemory → first_failing (fact_clauses plan.now 0 cert.now.facts) ≡ None) }
{
    match Facts::verify(alloc, plan, &cert.facts) {
        Ok(facts) => {
            let context = Context {
                ring,
                plan,
                facts: &facts,
            };
            let found = check_share(alloc, &context, 0, ring.q());
            check_rest(alloc, &context, cert, found)
        }
        Err(refusal) => Err(refusal),
    }
}

// Checks the partitions by workers. None if the gate stopped one.
fn check_all_by_workers<R: Threads + Wait + Sync, G: Gate + Sync>(
    by: &Workers<R, G>,
    ring: &Ring,
    plan: &Plan,
    cert: &Cert,
) -> Option<Result<(), Refusal>>
    requires { Suits ring.now plan.now }
    ensures stopped { IfNone result (MayStop (G.may_refuse by.now.gate.now) by.now.workers ring.now.q) }
    ensures turned { MustStop (G.must_refuse by.now.gate.now) by.now.workers ring.now.q
        → first_failing (fact_clauses plan.now 0 cert.now.facts) ≡ None → IfSome result (λ r. r ≡ Err OutOfMemory) }
    ensures facts { IfNone result (first_failing (fact_clauses plan.now 0 cert.now.facts) ≡ None) }
    ensures first { IfSome result (λ r. Gives r (all_clauses ring.now plan.now cert.now)) }
    ensures late { IfSome result
        (λ r. IfErr r (λ e. e ≡ OutOfMemory → first_failing (fact_clauses plan.now 0 cert.now.facts) ≡ None)) }
{
    match Facts::verify_parallel(by.rt, by.alloc, plan, &cert.facts) {
        Ok(facts) => {
            let context = Context {
                ring,
                plan,
                facts: &facts,
            };
            match check_shares(by, &context) {
                Some(found) => Some(check_rest(by.alloc, &context, cert, found)),
                None => None,
            }
        }
        Err(refusal) => Some(Err(refusal)),
    }
}

// Checks the nodes if no partition failed.
fn check_rest(
    alloc: Global,
    context: &Context,
    cert: &Cert,
    found: Result<(), Refusal>,
) -> Result<(), Refusal>
    requires facts { AreFactsOf context.now.plan.now context.now.facts.now }
    requires found { Gives found (below (partition_clauses context.now.ring.now context.now.plan.now
        (is_ordered context.now.plan.now context.now.facts.now)) context.now.ring.now.q) }
    ensures first { Gives result (rest_clauses context.now.ring.now context.now.plan.now cert.now
        (is_ordered context.now.plan.now context.now.facts.now)) }
    ensures handed_on { IfErr found (λ e. result ≡ Err e) }
{
    found?;
    check_nodes(alloc, context.ring, context.plan, context.facts, cert)
}
