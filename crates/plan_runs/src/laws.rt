//! Laws about the definitions: contracts of empty functions.

ghost use Rattle.std.specs.Prelude.{ℕ, List};
ghost use Rattle.ring_clock.specs.declared.causes.Cause.{Cause};
ghost use Rattle.ring_clock.specs.Causes.{IsEarlier};
ghost use Rattle.ring_table.specs.Value.{RingValue};
ghost use Rattle.plan_text.specs.declared.step.Planned.{Planned};
ghost use Rattle.plan_runs.specs.World.{World};
ghost use Rattle.plan_runs.specs.Succession.{IsSuccessionTested};
ghost use Rattle.plan_runs.specs.Versions.{IsHoldingTested};
ghost use Rattle.plan_runs.specs.Causes.{puts_of, AreCausesOf, AgreeOn};
ghost use Rattle.plan_runs.specs.Reached.{Reached};
ghost use Rattle.plan_runs.specs.Runs.{Always, SplitAnywhere};

/// States what holds in every run. Finished steps have finished dependencies, open copies are ready and unfinished, and
/// only ready copies have marked chunks.
///
/// Slots have only puts of their partition, gets find only puts of their key, and the ring allows the losses.
pub fn runs_reach()
    ensures { (ring : RingValue) (plan : List Planned) → Always ring plan (Reached ring plan) }
{}

/// A run can be split anywhere: the second part starts from the first's last world.
pub fn runs_split()
    ensures { (ring : RingValue) (plan : List Planned) → SplitAnywhere ring plan }
{}

/// The test of succession is exact.
pub fn succession_is_tested()
    ensures { (w : World) → IsSuccessionTested w }
{}

/// The test of holding a put is exact.
pub fn holding_is_tested()
    ensures { (ring : RingValue) (plan : List Planned) (w : World) → IsHoldingTested ring plan w }
{}

/// A put succeeds another of its key exactly if its cause succeeds the other's. Causes see only earlier puts, as clocks
/// require.
pub fn succession_is_of_causes()
    ensures earlier { (w : World) (key : List ℕ) (causes : List Cause) → AreCausesOf w (puts_of w key) causes
        → IsEarlier causes }
    ensures agree { (w : World) (key : List ℕ) (causes : List Cause) → AreCausesOf w (puts_of w key) causes
        → AgreeOn w (puts_of w key) causes }
{}
