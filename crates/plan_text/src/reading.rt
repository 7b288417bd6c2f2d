//! Reads a plan.

ghost use Rattle.std.specs.Prelude.{◌≡◌, ◌≤◌, ◌+◌, ◌++◌, ◌∷◌, [], length, List, ℕ, nat_lt, Ok, IfOk, IfErr, OnOk};
ghost use Rattle.ring_names.specs.declared.refusal.Refusal.TheVariants.{OutOfMemory};
ghost use Rattle.texts.specs.Left.{Reads};
ghost use Rattle.texts.specs.Late.{IsAt, Late, NoFaultBefore};
ghost use Rattle.texts.specs.Judging.{Gives, map_ok};
ghost use Rattle.plan_text.specs.Fits.{IsNext};
ghost use Rattle.plan_text.specs.Reading.{planned_of, said_at, steps_from, steps_at, plan_at, plan_reading};
ghost use Rattle.plan_text.specs.Spelling.{plan_text};
ghost use Rattle.plan_text.specs.Valid.{IsPlan, Suits};
ghost use Rattle.plan_text.specs.declared.step.Planned.{Planned};

use crate::after::after;
use crate::kind::kind;
use crate::plain::take_plain;
use crate::plan::Plan;
use crate::step::Step;
use ring_names::Refusal;
use ring_table::Ring;
use std::alloc::Global;
use texts::{Fields, Lines, NumberRow, end, finish_both, header, need};

#[tactic(auto, unfolding(crate::specs::Reading::said_at))]
fn step_line<'a>(
    ring: &Ring,
    plan: &Plan,
    mut fields: Fields<'a>,
) -> Result<(Step, NumberRow<'a>), Refusal>
    ensures value { result ≡ said_at ring.now plan.now fields.entry.number fields.entry.fields }
    ensures next { IfOk result (λ x. IsNext plan.now (planned_of x)) }
    ensures at { IfErr result (λ e. IsAt fields.entry.number e) }
{
    // Proves the ring valid.
    let slots = ring.n();
    prove!(slots <= 7);
    let room = need(plan.len() < 131072, &fields);
    let step = kind(ring, plan, &mut fields);
    let after = after(plan, &mut fields);
    finish_both(room, step, after, fields)
}

fn add(alloc: Global, plan: &mut Plan, step: Step, after: NumberRow) -> Result<(), Refusal>
    requires { IsNext plan.old (planned_of (step, after)) }
    ensures ok { OnOk result (plan.new ≡ plan.old ++ planned_of (step, after.entry) ∷ []) }
    ensures memory { IfErr result (λ e. e ≡ OutOfMemory) }
{
    if let Some(few) = after.kept() {
        return plan.push(step, few);
    }
    let after = after.to_vec(alloc)?;
    plan.push(step, after.as_slice())
}

// Reads further steps, up to a line beginning with `end`.
fn read_into(alloc: Global, ring: &Ring, plan: &mut Plan, lines: &mut Lines) -> Result<(), Refusal>
    requires none { plan.old ≡ [] }
    ensures read { Reads (map_ok (λ _. plan.new) result) lines.new
        (steps_from ring.now plan.old lines.old.line lines.old.lines) }
    ensures late { Late 1 result lines.old lines.new (steps_from ring.now plan.old lines.old.line lines.old.lines) }
{
    let mut after = Vec::new(alloc);
    'steps: while !lines.begins(b"end") {
        if take_plain(ring, plan, lines, &mut after) {
            continue 'steps;
        }
        let fields = lines.next()?;
        let (step, after) = step_line(ring, plan, fields)?;
        add(alloc, plan, step, after)?;
    }
    Ok(())
}

#[tactic(auto, unfolding(crate::specs::Reading::steps_at))]
fn read_steps(alloc: Global, ring: &Ring, lines: &mut Lines) -> Result<Plan, Refusal>
    ensures read { Reads result lines.new (steps_at ring.now lines.old) }
    ensures late { Late 1 result lines.old lines.new (steps_at ring.now lines.old) }
{
    let mut plan = Plan::new(alloc);
    read_into(alloc, ring, &mut plan, lines)?;
    Ok(plan)
}

#[tactic(auto, unfolding(crate::specs::Reading::plan_at))]
fn read_parts(alloc: Global, ring: &Ring, lines: &mut Lines) -> Result<Plan, Refusal>
    ensures read { Reads result lines.new (plan_at ring.now lines.old) }
    ensures late { Late 2 result lines.old lines.new (plan_at ring.now lines.old) }
{
    header(lines, b"plan", b"1")?;
    let plan = read_steps(alloc, ring, lines)?;
    end(lines)?;
    Ok(plan)
}

/// Reads a plan up to its line `end`, and leaves the rest. Fails as `read_plan`.
pub fn read_plan_section(alloc: Global, ring: &Ring, lines: &mut Lines) -> Result<Plan, Refusal>
    ensures read { Reads result lines.new (plan_at ring.now lines.old) }
    ensures found { IfOk result (λ v. IsPlan v × Suits ring.now v) }
    ensures late { Late 2 result lines.old lines.new (plan_at ring.now lines.old) }
{
    // Proves the ring valid.
    let slots = ring.n();
    prove!(slots <= 7);
    read_parts(alloc, ring, lines)
}

fn read_whole(alloc: Global, ring: &Ring, text: &[u8]) -> Result<Plan, Refusal>
    ensures exact { Gives result (plan_reading ring.now text.now) }
    ensures late { IfErr result (λ e. e ≡ OutOfMemory → NoFaultBefore 3 (plan_reading ring.now text.now)) }
{
    let mut lines = Lines::of(text);
    let plan = read_plan_section(alloc, ring, &mut lines)?;
    lines.ended()?;
    Ok(plan)
}

/// Reads a plan of the ring from its whole text.
///
/// Returns the first faulty line's least fault: 1 `BadLine`, 2 `TooLarge`, 3 `UnknownNode`, 4 `Repeated`, 20
/// `LaterDependency`. `OutOfMemory` comes only after at least two faultless lines.
pub fn read_plan(alloc: Global, ring: &Ring, text: &[u8]) -> Result<Plan, Refusal>
    ensures found { IfOk result (λ v. IsPlan v × Suits ring.now v × (text.now ≡ plan_text ring.now v)) }
    ensures only { (v : List Planned) → IsPlan v → Suits ring.now v → text.now ≡ plan_text ring.now v
        → Gives result (Ok v) }
    ensures exact { Gives result (plan_reading ring.now text.now) }
    ensures late { IfErr result (λ e. e ≡ OutOfMemory → NoFaultBefore 3 (plan_reading ring.now text.now)) }
{
    // Proves the ring valid.
    let slots = ring.n();
    prove!(slots <= 7);
    read_whole(alloc, ring, text)
}
