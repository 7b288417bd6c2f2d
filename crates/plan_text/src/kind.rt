//! Reads what a step does.

ghost use Rattle.std.specs.Prelude.{◌≡◌, ◌≤◌};
ghost use Rattle.texts.specs.Judging.{map_item, Does};
ghost use Rattle.plan_text.specs.Reading.{judge_indexes, source_at, copy_at, kind_at};

use crate::indexes::Indexes;
use crate::place::{joining, retiring, slot, slot_node};
use crate::plan::Plan;
use crate::step::{Source, Step};
use ring_names::{Refusal, Slot};
use ring_table::Ring;
use texts::{Fields, NumberRow, both};

// Checks a row of slot indexes, each below n.
fn indexes(n: u32, fields: &Fields, row: &NumberRow) -> Result<Indexes, Refusal>
    requires { n ≤ 7 }
    ensures { result ≡ judge_indexes n fields.now.number row.now }
{
    let line = fields.line();
    if row.is_empty() {
        return Err(Refusal::BadLine(line));
    }
    if !row.is_at_most(7) {
        return Err(Refusal::TooLarge(line));
    }
    if !row.are_below(u64::from(n)) {
        return Err(Refusal::TooLarge(line));
    }
    let Some(kept) = row.kept() else {
        unreachable!();
    };
    match Indexes::of(kept) {
        Some(indexes) => Ok(indexes),
        None => unreachable!(),
    }
}

// Reads `owner`, or `slots` and numbers.
#[tactic(auto, unfolding(crate::specs::Reading::source_at))]
fn source(n: u32, fields: &mut Fields) -> Result<Source, Refusal>
    requires { n ≤ 7 }
    ensures { Does (source_at n) fields.old result fields.new }
{
    if fields.takes(b"owner") {
        return Ok(Source::Owner);
    }
    if fields.takes(b"slots") {
        let row = fields.numbers();
        let indexes = indexes(n, fields, &row)?;
        return Ok(Source::Slots(indexes));
    }
    let _ = fields.next();
    Err(Refusal::BadLine(fields.line()))
}

#[tactic(auto, unfolding(crate::specs::Reading::copy_at))]
fn copy(ring: &Ring, fields: &mut Fields) -> Result<(Slot, Source), Refusal>
    ensures { Does (copy_at ring.now) fields.old result fields.new }
{
    let slot = slot(ring, fields);
    let source = source(ring.n(), fields);
    both(slot, source)
}

/// Reads what the plan's next step does.
#[tactic(auto, unfolding(crate::specs::Reading::kind_at))]
pub fn kind(ring: &Ring, plan: &Plan, fields: &mut Fields) -> Result<Step, Refusal>
    ensures { Does (kind_at ring.now plan.now) fields.old result fields.new }
{
    if fields.takes(b"mirror") {
        slot_node(ring, fields).map(|(slot, node)| Step::Mirror(slot, node))
    } else if fields.takes(b"copy") {
        let (slot, source) = copy(ring, fields)?;
        Ok(Step::Copy(slot, source))
    } else if fields.takes(b"switch") {
        slot(ring, fields).map(|slot| Step::Switch(slot))
    } else if fields.takes(b"drop") {
        slot_node(ring, fields).map(|(slot, node)| Step::Drop(slot, node))
    } else if fields.takes(b"join") {
        joining(ring, plan, fields).map(|node| Step::Join(node))
    } else if fields.takes(b"retire") {
        retiring(ring, plan, fields).map(|node| Step::Retire(node))
    } else {
        let _ = fields.next();
        Err(Refusal::BadLine(fields.line()))
    }
}
