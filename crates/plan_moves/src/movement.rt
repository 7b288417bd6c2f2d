//! Slots that move.

ghost use Rattle.std.specs.Prelude.{◌≡◌, ◌++◌, true, IfOk, IfErr, OnOk};
ghost use Rattle.ring_names.specs.declared.refusal.Refusal.TheVariants.{OutOfMemory};
ghost use Rattle.plan_text.specs.Valid.{Suits, step_suits};
ghost use Rattle.plan_cover.specs.Looking.Serving.{serving_at};
ghost use Rattle.plan_moves.specs.Moves.{moved_by, moves};

use plan_cover::Present;
use plan_text::{Plan, Step};
use ring_names::{NodeId, Refusal, Slot};
use ring_table::Ring;
use std::alloc::Global;

/// A slot's way from one node to another.
#[derive(Clone, Copy, Debug)]
pub struct Move {
    pub slot: Slot,
    /// The owner until the switch.
    pub from: NodeId,
    /// The mirror, and owner after the switch.
    pub to: NodeId,
    /// The step that sets the mirror.
    pub mirror: u32,
}

fn push_move(
    out: &mut Vec<Move>,
    present: &Present,
    ring: &Ring,
    step: &Step,
    number: u32,
) -> Result<(), Refusal>
    requires { step_suits ring.now step.now ≡ true }
    ensures ok { OnOk result
        (out.new.items ≡ out.old.items ++ moved_by (serving_at ring.now present.now) number step.now) }
    ensures memory { IfErr result (λ e. e ≡ OutOfMemory) }
{
    match step {
        Step::Mirror(slot, node) => {
            let from = present.at(ring, *slot).owner;
            out.push(Move {
                slot: *slot,
                from,
                to: *node,
                mirror: number,
            })?;
            Ok(())
        }
        Step::Copy(_, _) | Step::Switch(_) | Step::Drop(_, _) | Step::Join(_) | Step::Retire(_) =>
            Ok(()),
    }
}

/// Returns the plan's moves, one for each mirror, in order. Costs a pass over the plan.
pub fn moves(alloc: Global, ring: &Ring, plan: &Plan) -> Result<Vec<Move>, Refusal>
    requires { Suits ring.now plan.now }
    ensures ok { IfOk result (λ found. found.items ≡ moves ring.now plan.now) }
    ensures memory { IfErr result (λ e. e ≡ OutOfMemory) }
{
    let mut found = Vec::new(alloc);
    let mut present = Present::new(alloc, ring)?;
    for number in 0..plan.len() {
        let step = plan.step(number);
        push_move(&mut found, &present, ring, step, number)?;
        present.act(ring, step);
    }
    Ok(found)
}
