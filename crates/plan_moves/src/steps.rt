//! The lines of a plan's steps.

ghost use Rattle.std.specs.Prelude.{◌≡◌, IfOk, IfErr};
ghost use Rattle.ring_names.specs.declared.refusal.Refusal.TheVariants.{OutOfMemory};
ghost use Rattle.plan_text.specs.Valid.{Suits};
ghost use Rattle.plan_moves.specs.Lines.{steps_text};

use crate::objects::{Head, write_step};
use crate::parts::push_line;
use json::Writer;
use plan_cover::Present;
use plan_text::Plan;
use ring_names::Refusal;
use ring_table::Ring;
use std::alloc::Global;

/// Writes the plan's steps as lines of JSON, in order: number, kind, the steps to be done before, slot and nodes.
///
/// Costs one pass over the plan.
///
/// A copy's line has its mirror, the present owners of the slots read, and listed slots' indexes in the plan's order.
pub fn write_steps(alloc: Global, ring: &Ring, plan: &Plan) -> Result<Vec<u8>, Refusal>
    requires { Suits ring.now plan.now }
    ensures text { IfOk result (λ v. v.items ≡ steps_text ring.now plan.now) }
    ensures memory { IfErr result (λ e. e ≡ OutOfMemory) }
{
    let mut out = Vec::new(alloc);
    let mut line = Writer::new(Vec::new(alloc));
    let mut present = Present::new(alloc, ring)?;
    for number in 0..plan.len() {
        let step = plan.step(number);
        let head = Head {
            ring,
            step: number,
            after: plan.deps(number),
        };
        write_step(&mut line, &head, &present, step)?;
        line = push_line(&mut out, line)?;
        present.act(ring, step);
    }
    Ok(out)
}
