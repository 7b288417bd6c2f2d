//! Shares of the partitions, checked in parallel.

ghost use Rattle.std.specs.Prelude.{◌≡◌, ◌^◌, ◌<◌, ◌≤◌, ℕ, Err, IfNone, IfSome, length, slice_index_or};
ghost use Rattle.ring_names.specs.declared.refusal.Refusal.TheVariants.{OutOfMemory};
ghost use Rattle.plan_order.specs.Facts.{AreFactsOf, is_ordered};
ghost use Rattle.plan_stage.specs.Clauses.{Gives, below};
ghost use Rattle.plan_stage.specs.Partition.{partition_clauses};
ghost use Rattle.plan_check.specs.Shares.{IsOutcome, MayStop, MustStop, first_of, share_clauses, share_count};
ghost use Rattle.plan_check.specs.declared.shares.ShareOutcome.{ShareOutcome};

use crate::gate::Gate;
use plan_order::Context;
use plan_stage::check_partition;
use ring_names::Refusal;
use std::alloc::Global;
use std::sync::Wait;
use std::thread;
use std::thread::Threads;

/// A share's outcome.
#[derive(Clone, Copy, Debug)]
pub(crate) enum ShareOutcome {
    /// The gate stopped its worker.
    Stopped,
    Checked(Result<(), Refusal>),
}

/// At most `workers` threads. Each passes the gate before its share.
#[derive(Drop)]
pub(crate) struct Workers<'r, 'g, R: Wait, G: Gate> {
    pub rt: &'r R,
    pub alloc: Global,
    pub workers: u32,
    pub gate: &'g G,
}

/// Checks partitions from `from` to before `to`. Fails with the first refusal.
pub(crate) fn check_share(
    alloc: Global,
    context: &Context,
    from: u32,
    to: u32,
) -> Result<(), Refusal>
    requires partitions { to ≤ context.now.ring.now.q }
    requires facts { AreFactsOf context.now.plan.now context.now.facts.now }
    ensures { Gives result (share_clauses context.now.ring.now context.now.plan.now
        (is_ordered context.now.plan.now context.now.facts.now) from to) }
{
    for partition in from..to {
        check_partition(alloc, context.ring, context.plan, context.facts, partition)?;
    }
    Ok(())
}

fn first_partition(q: u32, shares: u32, share: u32) -> u32
    requires shares { 0 < shares }
    requires share { share ≤ shares }
    ensures { result ≡ first_of q shares share }
{
    (u64::from(share) * u64::from(q) / u64::from(shares)) as u32
}

fn work_share<R: Wait, G: Gate>(
    by: &Workers<R, G>,
    context: &Context,
    shares: u32,
    share: u32,
) -> ShareOutcome
    requires share { share < shares }
    requires facts { AreFactsOf context.now.plan.now context.now.facts.now }
    ensures { IsOutcome context.now.ring.now context.now.plan.now
        (is_ordered context.now.plan.now context.now.facts.now) (G.may_refuse by.now.gate.now)
        (G.must_refuse by.now.gate.now) shares share result }
{
    let from = first_partition(context.ring.q(), shares, share);
    if !by.gate.pass(by.rt, share, u64::from(from)) {
        return ShareOutcome::Stopped;
    }
    let to = first_partition(context.ring.q(), shares, share + 1);
    ShareOutcome::Checked(check_share(by.alloc, context, from, to))
}

fn gather<R: Wait, G: Gate>(
    by: &Workers<R, G>,
    context: &Context,
    found: &[ShareOutcome],
) -> Option<Result<(), Refusal>>
    requires count { length found.now ≡ share_count by.now.workers context.now.ring.now.q }
    requires outcomes { (s : ℕ) (d : ShareOutcome) → s < length found.now
        → IsOutcome context.now.ring.now context.now.plan.now
        (is_ordered context.now.plan.now context.now.facts.now) (G.may_refuse by.now.gate.now)
        (G.must_refuse by.now.gate.now) (length found.now) s (slice_index_or found.now s d) }
    ensures stopped { IfNone result (MayStop (G.may_refuse by.now.gate.now) by.now.workers context.now.ring.now.q) }
    ensures passed { IfSome result
        (λ r. MustStop (G.must_refuse by.now.gate.now) by.now.workers context.now.ring.now.q → ⊥) }
    ensures first { IfSome result (λ r. Gives r (below (partition_clauses context.now.ring.now context.now.plan.now
        (is_ordered context.now.plan.now context.now.facts.now)) context.now.ring.now.q)) }
{
    let mut first = Ok(());
    for share in 0..found.len() {
        match found[share] {
            ShareOutcome::Stopped => return None,
            ShareOutcome::Checked(next) => first = first.and(next),
        }
    }
    Some(first)
}

/// Checks all partitions by shares. None if the gate stopped a worker, otherwise the first refusal.
pub(crate) fn check_shares<R: Threads + Wait + Sync, G: Gate + Sync>(
    by: &Workers<R, G>,
    context: &Context,
) -> Option<Result<(), Refusal>>
    requires facts { AreFactsOf context.now.plan.now context.now.facts.now }
    ensures stopped { IfNone result (MayStop (G.may_refuse by.now.gate.now) by.now.workers context.now.ring.now.q) }
    // If a pass must be refused and none was, memory for the threads' answers ran out.
    ensures turned { MustStop (G.must_refuse by.now.gate.now) by.now.workers context.now.ring.now.q
        → IfSome result (λ r. r ≡ Err OutOfMemory) }
    ensures first { IfSome result (λ r. Gives r (below (partition_clauses context.now.ring.now context.now.plan.now
        (is_ordered context.now.plan.now context.now.facts.now)) context.now.ring.now.q)) }
{
    let shares = by.workers.min(context.ring.q()).max(1);
    let found = thread::map_indices(
        by.rt,
        by.alloc,
        shares as usize,
        &|share: usize| -> ShareOutcome
            requires { (share < shares) × (shares < 2 ^ 32) × AreFactsOf context.now.plan.now context.now.facts.now }
            ensures { IsOutcome context.entry.now.ring.now context.entry.now.plan.now
                (is_ordered context.entry.now.plan.now context.entry.now.facts.now)
                (G.may_refuse by.entry.now.gate.now) (G.must_refuse by.entry.now.gate.now) shares share result }
        { work_share(by, context, shares, share as u32) },
    );
    match found {
        Ok(found) => gather(by, context, found.as_slice()),
        Err(_) => Some(Err(Refusal::OutOfMemory)),
    }
}
