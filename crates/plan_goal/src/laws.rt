//! A law about the definitions: the contract of an empty function.

ghost use Rattle.std.specs.Prelude.{◌≡◌, ℕ, List, true};
ghost use Rattle.ring_table.specs.Value.{RingValue};
ghost use Rattle.plan_text.specs.declared.step.Planned.{Planned};
ghost use Rattle.plan_runs.specs.declared.event.Entry.{Entry};
ghost use Rattle.plan_runs.specs.Runs.{Leads};
ghost use Rattle.plan_runs.specs.World.{World, is_acked};
ghost use Rattle.plan_check.specs.Safe.{Safe};
ghost use Rattle.plan_goal.specs.Sequence.{GetsSeePuts, HasOwners, InTurn, IsDone, handed_on};
ghost use Rattle.plan_moves.specs.Owners.{last_owners};

/// A store that runs sound plans in turn keeps the promises that one plan makes.
///
/// Puts may have been acknowledged, and gets started, under an earlier plan.
///
/// `plan_check::check` lists the promises. Acknowledged puts stay acknowledged.
pub fn plans_in_turn_keep_promises()
    ensures safe { (ring : RingValue) (plan : List Planned) (w : World) → InTurn ring plan w → Safe ring plan w }
    ensures fresh { (ring : RingValue) (plan : List Planned) (start : World) → InTurn ring plan start → GetsSeePuts ring plan start }
    ensures acked { (ring : RingValue) (plan : List Planned) (w u : World) (run : List Entry) → Leads ring plan (handed_on w) run u
        → (v : ℕ) → is_acked w v ≡ true → is_acked u v ≡ true }
    // When a plan is done, the next ring has the store's owners.
    ensures ends { (ring : RingValue) (plan : List Planned) (w : World) (next : RingValue) → IsDone plan w → next.owners ≡ last_owners ring plan
        → HasOwners ring plan w next }
{}
