//! Laws about the definitions: contracts of empty functions.

ghost use Rattle.std.specs.Prelude.{ℕ, Bool, List};
ghost use Rattle.ring_table.specs.Value.{RingValue};
ghost use Rattle.plan_text.specs.declared.step.Planned.{Planned};
ghost use Rattle.plan_runs.specs.declared.event.Entry.{Entry};
ghost use Rattle.history_laws.specs.Parts.{PartsRun, WholeRuns, PartsEnd, PartsFollow};

/// A history is a plan's run exactly if its parts are, if together they see all partitions.
pub fn parts_decide()
    ensures parts { (ring : RingValue) (plan : List Planned) (entries : List Entry) → PartsRun ring plan entries }
    ensures whole { (ring : RingValue) (plan : List Planned) (entries : List Entry) → WholeRuns ring plan entries }
{}

/// A part and the whole end alike for the part's puts: which are acknowledged, and which slots hold them.
pub fn parts_end()
    ensures { (ring : RingValue) (plan : List Planned) (entries : List Entry) → PartsEnd ring plan entries }
{}

/// A prefix's part is a prefix of the part. So a history's first fault is a part's first fault.
pub fn parts_follow()
    ensures { (ring : RingValue) (is_in : ℕ → Bool) → PartsFollow ring is_in }
{}
