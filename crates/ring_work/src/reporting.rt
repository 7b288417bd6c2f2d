//! A drive's report.

ghost use Rattle.std.specs.Prelude.{◌≡◌, ◌++◌, ◌∷◌, [], false, IfOk, IfErr};
ghost use Rattle.serde_json.specs.View.{view};
ghost use Rattle.serde_json.specs.Written.{compact_text, has_float};
ghost use Rattle.ring_work.specs.Report.{report_value};
ghost use Rattle.ring_work.specs.Refused.{IsRefused};

use crate::entries::{entry_values, step_values};
use plan_check::Approved;
use ring_board::Outcome;
use ring_names::{Names, Refusal};
use serde_json::{Value, json};
use std::alloc::{AllocError, Global};

/// Returns the report. `events` has pairs of an event's text and its reply's, in order. `steps` has each step's
/// finisher, and `workers` their number.
///
/// Fails if memory runs out, and with `Disagree` if an event's text, such as a writer's name, is not UTF-8.
pub fn report(
    alloc: Global,
    approved: &Approved,
    writers: &Names,
    outcome: &Outcome,
    workers: u32,
) -> Result<Value, Refusal>
    ensures value { IfOk result (λ v. view v
        ≡ report_value approved.now.ring writers.now outcome.now.history.items outcome.now.finishers.items workers) }
    ensures refused { IfErr result (IsRefused approved.now.ring writers.now outcome.now.history.items) }
{
    let events = entry_values(alloc, approved.ring(), writers, outcome.history.as_slice())?;
    let steps = step_values(alloc, outcome.finishers.as_slice())?;
    Ok(json!(in alloc; {"events": events, "steps": steps, "workers": workers})?)
}

fn line_of(alloc: Global, value: &Value) -> Result<Vec<u8>, AllocError>
    requires { has_float (view value.now) ≡ false }
    ensures { IfOk result (λ v. v.items ≡ compact_text (view value.now) ++ 10 ∷ []) }
{
    let mut line = value.to_vec(alloc)?;
    line.push(b'\n')?;
    Ok(line)
}

/// Writes the report as one line of compact JSON. Fails as `report` does.
pub fn write_report(
    alloc: Global,
    approved: &Approved,
    writers: &Names,
    outcome: &Outcome,
    workers: u32,
) -> Result<Vec<u8>, Refusal>
    ensures text { IfOk result
        (λ v. v.items ≡ compact_text
        (report_value approved.now.ring writers.now outcome.now.history.items outcome.now.finishers.items workers)
        ++ 10 ∷ []) }
    ensures refused { IfErr result (IsRefused approved.now.ring writers.now outcome.now.history.items) }
{
    let value = report(alloc, approved, writers, outcome, workers)?;
    Ok(line_of(alloc, &value)?)
}
