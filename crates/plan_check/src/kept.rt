//! Which promises a plan keeps, even if refused.

ghost use Rattle.std.specs.Prelude.{◌≡◌, ◌&&◌, not, ℕ, ◌<◌, IfOk, IfErr, None, true, false, length};
ghost use Rattle.ring_names.specs.declared.refusal.Refusal.{Refusal as TheRefusal};
ghost use Rattle.ring_names.specs.declared.refusal.Refusal.TheVariants.{OutOfMemory};
ghost use Rattle.plan_text.specs.Valid.{Suits};
ghost use Rattle.plan_order.specs.Facts.{AreFactsOf};
ghost use Rattle.plan_order.specs.Order.{order};
ghost use Rattle.plan_order.specs.Paths.{first_bad};
ghost use Rattle.plan_cover.specs.Clauses.{node_clauses};
ghost use Rattle.plan_stage.specs.Clauses.{below, first_failing};
ghost use Rattle.plan_stage.specs.Missed.{misses, HoldsBut};
ghost use Rattle.plan_stage.specs.Partition.{partition_clauses};
ghost use Rattle.plan_check.specs.First.{first_refusal};
ghost use Rattle.plan_check.specs.Kept.{KeepsWhatIsSaid, NamesAll};

use crate::laws::{groups_stay_apart, puts_stay_held, servers_stay_members, transfers_stay_few};
use plan_cert::Cert;
use plan_cover::check_nodes;
use plan_order::{Context, Facts};
use plan_stage::{Missed, note_partition};
use plan_text::Plan;
use ring_names::Refusal;
use ring_table::Ring;
use std::alloc::Global;

/// The promises known to be kept in every run.
#[derive(Clone, Copy, Debug)]
pub struct Kept {
    /// Acknowledged puts are held, and gets see them.
    pub held: bool,
    /// No two slots of a partition share a node.
    pub apart: bool,
    /// No node has more transfers open than its allowance.
    pub few: bool,
    /// Each slot's owner and mirror are members.
    pub members: bool,
}

// Notes failing clauses. Returns whether each slot's steps act in order.
fn note_all(alloc: Global, context: &Context, missed: &mut Missed) -> Result<bool, Refusal>
    ensures holds { IfOk result (λ b. b ≡ true → (p : ℕ) → p < context.now.ring.now.q
        → HoldsBut missed.new context.now.ring.now context.now.plan.now (order context.now) p) }
    ensures clean { IfOk result (λ b. first_failing (below (partition_clauses context.now.ring.now context.now.plan.now
        (order context.now)) context.now.ring.now.q) ≡ None → (b ≡ true) × (missed.new ≡ missed.old)) }
    ensures memory { IfErr result (λ e. e ≡ OutOfMemory) }
{
    for partition in 0..context.ring.q() {
        if !note_partition(alloc, context, partition, missed)? {
            return Ok(false);
        }
    }
    Ok(true)
}

fn is_neither(a: bool, b: bool) -> bool
    ensures { result ≡ (not a && not b) }
{
    !a && !b
}

fn are_both(a: bool, b: bool) -> bool
    ensures { result ≡ (a && b) }
{
    a && b
}

// Whether the chains are in order and cover each node's copies.
fn is_covered(alloc: Global, context: &Context, cert: &Cert) -> Result<bool, Refusal>
    requires { AreFactsOf context.now.plan.now context.now.facts.now }
    ensures ok { IfOk result (λ b. b ≡ true → first_failing (below (λ x. node_clauses context.now.ring.now
        context.now.plan.now cert.now (order context.now) (record { 0 = x })) (length context.now.ring.now.nodes)) ≡ None) }
    ensures all { first_failing (below (λ x. node_clauses context.now.ring.now context.now.plan.now cert.now
        (order context.now) (record { 0 = x })) (length context.now.ring.now.nodes)) ≡ None → IfOk result (λ b. b ≡ true) }
    ensures memory { IfErr result (λ e. e ≡ OutOfMemory) }
{
    match check_nodes(alloc, context.ring, context.plan, context.facts, cert) {
        Ok(()) => Ok(true),
        Err(refusal) => match refusal {
            Refusal::OutOfMemory => Err(refusal),
            _ => Ok(false),
        },
    }
}

fn kept_by(context: &Context, cert: &Cert, missed: Missed, covered: bool) -> Kept
    requires holds { (p : ℕ) → p < context.now.ring.now.q
        → HoldsBut missed context.now.ring.now context.now.plan.now (order context.now) p }
    requires facts { AreFactsOf context.now.plan.now context.now.facts.now }
    requires covered { covered ≡ true → first_failing (below (λ x. node_clauses context.now.ring.now
        context.now.plan.now cert.now (order context.now) (record { 0 = x })) (length context.now.ring.now.nodes)) ≡ None }
    ensures kept { KeepsWhatIsSaid context.now.ring.now context.now.plan.now result }
    ensures all { ((r : TheRefusal) → misses missed r ≡ false) → covered ≡ true → NamesAll result }
{
    let (ring, plan) = (context.ring, context.plan);
    puts_stay_held(ring, plan);
    groups_stay_apart(ring, plan);
    transfers_stay_few(ring, plan);
    servers_stay_members(ring, plan);
    Kept {
        held: is_neither(missed.sources, are_both(ring.loss() > 0, missed.left)),
        apart: !missed.left,
        few: is_neither(missed.settled, !covered),
        members: is_neither(missed.joined, missed.dropped),
    }
}

/// Returns the promises that a certificate shows: all if `check` accepts, none if slots may act out of order.
///
/// Fails as `check` if a fact is not a path. Costs as much as an accepting `check`.
pub fn promises_kept(alloc: Global, ring: &Ring, plan: &Plan, cert: &Cert) -> Result<Kept, Refusal>
    requires { Suits ring.now plan.now }
    ensures kept { IfOk result (λ said. KeepsWhatIsSaid ring.now plan.now said) }
    ensures all { first_refusal ring.now plan.now cert.now ≡ None → IfOk result NamesAll }
    ensures refused { IfErr result (λ e. first_bad plan.now 0 cert.now.facts ≡ None → e ≡ OutOfMemory) }
    ensures late { IfErr result (λ e. e ≡ OutOfMemory → first_bad plan.now 0 cert.now.facts ≡ None) }
{
    let facts = Facts::verify(alloc, plan, &cert.facts)?;
    let context = Context {
        ring,
        plan,
        facts: &facts,
    };
    let mut missed = Missed::none();
    if note_all(alloc, &context, &mut missed)? {
        let covered = is_covered(alloc, &context, cert)?;
        Ok(kept_by(&context, cert, missed, covered))
    } else {
        Ok(Kept {
            held: false,
            apart: false,
            few: false,
            members: false,
        })
    }
}
