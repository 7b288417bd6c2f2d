//! Laws about the definitions: contracts of empty functions.

ghost use Rattle.std.specs.Prelude.{◌≡◌, ◌↔◌, ◌<◌, ◌+◌, ℕ, List, true, None, length, nat_lt};
ghost use Rattle.std.specs.List.{list_all};
ghost use Rattle.ring_names.specs.Lists.{has, all_different};
ghost use Rattle.plan_text.specs.Valid.{Suits};
ghost use Rattle.plan_cert.specs.declared.cert.Cert.{Cert as TheCert};
ghost use Rattle.ring_table.specs.Value.{RingValue, migrated};
ghost use Rattle.plan_text.specs.declared.step.Planned.{Planned};
ghost use Rattle.plan_order.specs.Before.{Before};
ghost use Rattle.ring_table.specs.declared.allowance.Side.{Side};
ghost use Rattle.plan_stage.specs.Clauses.{AllStaged};
ghost use Rattle.plan_check.specs.Sound.{AreCovered, AreInTurn, AreSettled, HaveLeft, ReadEnough, ServeAsMembers, Sound};
ghost use Rattle.plan_check.specs.Certified.{IsCertified};
ghost use Rattle.plan_check.specs.First.{first_refusal};
ghost use Rattle.plan_check.specs.Safe.{GroupsAreApart, ServersAreMembers, TransfersAreFew};
ghost use Rattle.plan_runs.specs.Runs.{Always};
ghost use Rattle.plan_check.specs.Headline.{AreFinishedFirst, KeepsPromises};
ghost use Rattle.plan_check.specs.Kept.{HoldsPuts};
ghost use Rattle.plan_check.specs.Occupies.{ServersOccupy, OccupantsServe, AreGoodStages};

use plan_cert::Cert;
use plan_text::Plan;
use ring_table::Ring;

/// A certified plan is sound.
pub fn certified_is_sound()
    ensures { (ring : RingValue) (plan : List Planned) (cert : TheCert) → IsCertified ring plan cert → Sound ring plan }
{}

/// No clause fails exactly if the certificate certifies the plan.
pub fn first_is_none_where_certified(ring: &Ring, plan: &Plan, cert: &Cert)
    requires { Suits ring.now plan.now }
    ensures { (first_refusal ring.now plan.now cert.now ≡ None) ↔ IsCertified ring.now plan.now cert.now }
{
    let _ = (ring.n(), plan.len(), cert.facts.len());
}

/// Migrating a ring does not change the checker's answer.
pub fn migration_changes_no_refusal()
    ensures { (ring : RingValue) (plan : List Planned) (cert : TheCert)
        → first_refusal (migrated ring) plan cert ≡ first_refusal ring plan cert }
{}

/// After a slot's step, the owner has nothing to drop, and the mirror is a third node.
pub fn stages_are_good()
    ensures { (ring : RingValue) (plan : List Planned) → Sound ring plan → AreGoodStages ring plan }
{}

/// Owners and mirrors of a slot began to serve it and have not left.
///
/// If each step fits its stage, the converse holds.
pub fn servers_occupy(ring: &Ring, plan: &Plan)
    ensures occupy { ServersOccupy ring.now plan.now }
    ensures serve { AllStaged ring.now plan.now → OccupantsServe ring.now plan.now }
{
    let _ = (ring.n(), plan.len());
}

/// In every run, a slot's finished steps are its first.
///
/// Needs steps that act in order.
pub fn finished_steps_come_first(ring: &Ring, plan: &Plan)
    ensures { AreInTurn ring.now plan.now (Before plan.now) → Always ring.now plan.now (AreFinishedFirst plan.now) }
{
    let _ = (ring.n(), plan.len());
}

/// Acknowledged puts are held in every run, and gets see them.
///
/// Needs slots that act in order and copies that read enough. If nodes may lose data, each must leave a slot before
/// serving another of the partition.
pub fn puts_stay_held(ring: &Ring, plan: &Plan)
    ensures { AreInTurn ring.now plan.now (Before plan.now) → ReadEnough ring.now plan.now
        → (0 < ring.now.loss → HaveLeft ring.now plan.now (Before plan.now)) → HoldsPuts ring.now plan.now }
{
    let _ = (ring.n(), plan.len());
}

/// A partition's slots never share a node, hint keepers included.
///
/// Needs slots that act in order, and nodes that leave a slot before serving another of the partition.
pub fn groups_stay_apart(ring: &Ring, plan: &Plan)
    ensures { AreInTurn ring.now plan.now (Before plan.now) → HaveLeft ring.now plan.now (Before plan.now)
        → Always ring.now plan.now (GroupsAreApart ring.now plan.now) }
{
    let _ = (ring.n(), plan.len());
}

/// No node has more transfers open than its allowance in any run.
///
/// Needs slots that act in order, sources that do not move while read, and chains that cover the copies.
pub fn transfers_stay_few(ring: &Ring, plan: &Plan)
    ensures { AreInTurn ring.now plan.now (Before plan.now) → AreSettled plan.now (Before plan.now)
        → (chains : ℕ → Side → List (List ℕ)) → AreCovered ring.now plan.now (Before plan.now) chains
        → Always ring.now plan.now (TransfersAreFew ring.now plan.now) }
{
    let _ = (ring.n(), plan.len());
}

/// Each slot's owner and mirror are members in every run.
///
/// Needs slots that act in order, and nodes that serve only between joining and retiring.
pub fn servers_stay_members(ring: &Ring, plan: &Plan)
    ensures { AreInTurn ring.now plan.now (Before plan.now) → ServeAsMembers ring.now plan.now (Before plan.now)
        → Always ring.now plan.now (ServersAreMembers ring.now plan.now) }
{
    let _ = (ring.n(), plan.len());
}

/// A sound plan keeps its promises in every run: the headline.
///
/// A run has any puts, gets, outages, hints and handoffs, and as many losses as the ring allows. `check` lists the
/// promises.
pub fn sound_plans_keep_promises(ring: &Ring, plan: &Plan)
    ensures { Sound ring.now plan.now → KeepsPromises ring.now plan.now }
{
    let _ = (ring.n(), plan.len());
}

/// A plan keeps its promises if the checker accepts it.
pub fn accepted_plans_keep_promises(ring: &Ring, plan: &Plan, cert: &Cert)
    requires { Suits ring.now plan.now }
    ensures { first_refusal ring.now plan.now cert.now ≡ None → KeepsPromises ring.now plan.now }
{
    first_is_none_where_certified(ring, plan, cert);
    certified_is_sound();
    sound_plans_keep_promises(ring, plan);
}

/// Two lists of distinct numbers below n overlap if together longer than n.
///
/// So every read meets every write.
pub fn quorums_meet()
    ensures { (n : ℕ) (xs ys : List ℕ) → all_different xs ≡ true → all_different ys ≡ true
        → list_all (λ x. nat_lt x n) xs ≡ true → list_all (λ y. nat_lt y n) ys ≡ true → n < length xs + length ys
        → (x : ℕ) × (has x xs ≡ true) × (has x ys ≡ true) }
{}
