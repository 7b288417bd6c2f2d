//! The lines of a plan's moves.

ghost use Rattle.std.specs.Prelude.{◌≡◌, ◌++◌, ◌∷◌, [], map, codes, decimal, IfOk, IfErr, OnOk};
ghost use Rattle.json.specs.Token.{begin_object, key, number, string};
ghost use Rattle.json.specs.Tree.{json_tokens};
ghost use Rattle.serde_json.specs.Data.{array};
ghost use Rattle.serde_json.specs.View.{items_of};
ghost use Rattle.serde_json.specs.Written.{outline};
ghost use Rattle.ring_names.specs.declared.refusal.Refusal.TheVariants.{OutOfMemory};
ghost use Rattle.ring_table.specs.Value.{names_of};
ghost use Rattle.ring_table.specs.Spelling.{name_at};
ghost use Rattle.plan_text.specs.Valid.{Suits};
ghost use Rattle.plan_moves.specs.Lines.{number_data, node_data};
ghost use Rattle.plan_moves.specs.MoveLines.{move_object, moves_text};
ghost use Rattle.plan_moves.specs.Tokens.{GoesOn};

use crate::movement::{Move, moves};
use crate::own_steps::move_steps;
use crate::parts::{push_line, write_node, write_numbers, write_slot};
use crate::waits::move_after;
use json::Writer;
use plan_text::Plan;
use ring_names::{NodeId, Refusal};
use ring_table::Ring;
use std::alloc::Global;

// A move's number, the steps to be done before, and its own steps.
#[derive(Clone, Copy)]
struct Head<'a> {
    ring: &'a Ring,
    number: usize,
    after: &'a [u32],
    steps: &'a [u32],
}

// Writes the JSON members before the slot.
fn write_front(line: &mut Writer, head: &Head, from: NodeId) -> Result<(), Refusal>
    ensures ok { OnOk result (GoesOn line.old line.new (begin_object ∷ key (codes "after")
        ∷ (json_tokens (outline (array (items_of (map number_data head.now.after.now))))
        ++ key (codes "from") ∷ string (name_at (names_of head.now.ring.now) from) ∷ key (codes "move") ∷ number (decimal head.now.number) ∷ []))) }
    ensures memory { IfErr result (λ e. e ≡ OutOfMemory) }
{
    line.begin_object()?;
    write_numbers(line, "after", head.after)?;
    write_node(line, "from", head.ring, from)?;
    line.key("move")?;
    line.u64(head.number as u64)?;
    Ok(())
}

fn write_object(line: &mut Writer, head: &Head, movement: &Move) -> Result<(), Refusal>
    ensures ok { OnOk result (GoesOn line.old line.new (json_tokens (outline
        (move_object head.now.after.now head.now.number head.now.steps.now movement.now.slot
        (node_data (names_of head.now.ring.now) movement.now.from) (node_data (names_of head.now.ring.now) movement.now.to))))) }
    ensures memory { IfErr result (λ e. e ≡ OutOfMemory) }
{
    write_front(line, head, movement.from)?;
    write_slot(line, movement.slot)?;
    write_numbers(line, "steps", head.steps)?;
    write_node(line, "to", head.ring, movement.to)?;
    line.end_object()?;
    Ok(())
}

/// Writes the plan's moves as lines of JSON, in mirror order, for executors that do one move after another.
///
/// Each line has the move's number, slot, owner until the switch, mirror and steps, and the steps to be done before.
///
/// A move's steps are the slot's steps from its mirror up to the next mirror. Once the steps before them are done, they
/// can be done in a row.
///
/// Joins, retirements and steps before a slot's first mirror are in no move.
///
/// Costs a pass over the plan. Each move costs a binary search in the slot's steps, a look at each dependency, and a
/// sort.
pub fn write_moves(alloc: Global, ring: &Ring, plan: &Plan) -> Result<Vec<u8>, Refusal>
    requires { Suits ring.now plan.now }
    ensures text { IfOk result (λ v. v.items ≡ moves_text ring.now plan.now) }
    ensures memory { IfErr result (λ e. e ≡ OutOfMemory) }
{
    let found = moves(alloc, ring, plan)?;
    let mut out = Vec::new(alloc);
    let mut line = Writer::new(Vec::new(alloc));
    for (number, movement) in found.iter().enumerate() {
        let steps = move_steps(alloc, plan, movement)?;
        let after = move_after(alloc, plan, steps.as_slice())?;
        let head = Head {
            ring,
            number,
            after: after.as_slice(),
            steps: steps.as_slice(),
        };
        write_object(&mut line, &head, movement)?;
        line = push_line(&mut out, line)?;
    }
    Ok(out)
}
