//! The steps that a step waits for.

ghost use Rattle.std.specs.Prelude.{◌≡◌};
ghost use Rattle.texts.specs.Judging.{Does};
ghost use Rattle.plan_text.specs.Reading.{judge_after, after_at};

use crate::plan::Plan;
use ring_names::Refusal;
use texts::{CAP, Fields, NumberRow};

fn dependencies<'a>(
    plan: &Plan,
    fields: &Fields,
    row: NumberRow<'a>,
) -> Result<NumberRow<'a>, Refusal>
    ensures { result ≡ judge_after plan.now fields.now.number row.entry }
{
    let line = fields.line();
    if row.is_empty() {
        return Err(Refusal::BadLine(line));
    }
    if !row.are_ascending() {
        return Err(Refusal::BadLine(line));
    }
    if !row.is_at_most(4096) {
        return Err(Refusal::TooLarge(line));
    }
    if !row.is_at_most(524288 - plan.dependencies()) {
        return Err(Refusal::TooLarge(line));
    }
    if !row.are_below(CAP) {
        return Err(Refusal::TooLarge(line));
    }
    if !row.are_below(u64::from(plan.len())) {
        return Err(Refusal::LaterDependency(line));
    }
    Ok(row)
}

/// Reads the numbers after `after`, if any.
#[tactic(auto, unfolding(crate::specs::Reading::after_at))]
pub fn after<'a>(plan: &Plan, fields: &mut Fields<'a>) -> Result<NumberRow<'a>, Refusal>
    ensures { Does (after_at plan.now) fields.old result fields.new }
{
    if fields.takes(b"after") {
        let row = fields.numbers();
        return dependencies(plan, fields, row);
    }
    match fields.next() {
        None => Ok(NumberRow::none()),
        Some(_) => Err(Refusal::BadLine(fields.line())),
    }
}
