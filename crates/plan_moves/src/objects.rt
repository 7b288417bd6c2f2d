//! Writes steps as JSON objects. Members are sorted by name, so `after` comes first.

ghost use Rattle.std.specs.Prelude.{◌≡◌, ◌<◌, ◌++◌, ◌∷◌, [], true, map, codes, decimal, IfErr, OnOk};
ghost use Rattle.json.specs.Token.{begin_object, key, number, string};
ghost use Rattle.json.specs.Tree.{json_tokens};
ghost use Rattle.serde_json.specs.Data.{array};
ghost use Rattle.serde_json.specs.View.{items_of};
ghost use Rattle.serde_json.specs.Written.{outline};
ghost use Rattle.ring_names.specs.declared.refusal.Refusal.TheVariants.{OutOfMemory};
ghost use Rattle.ring_table.specs.Value.{names_of};
ghost use Rattle.plan_text.specs.Valid.{source_suits, step_suits};
ghost use Rattle.plan_stage.specs.Parties.{source_slots};
ghost use Rattle.plan_cover.specs.Looking.Serving.{serving_at};
ghost use Rattle.plan_text.specs.declared.step.Step.TheVariants.{Copy};
ghost use Rattle.plan_moves.specs.Lines.{number_data, node_data, owners_data, mirror_data, node_object, slot_object, drop_object, mirror_object, step_data};
ghost use Rattle.plan_moves.specs.Tokens.{GoesOn, listed_tokens};

use crate::parts::{
    write_indexes, write_name, write_node, write_number, write_numbers, write_slot,
};
use json::Writer;
use plan_cover::Present;
use plan_text::{Source, Step};
use ring_names::{NodeId, Refusal, Slot};
use ring_table::Ring;
use std::alloc::AllocError;

/// A step's number, the steps to be done before it, and the ring.
#[derive(Clone, Copy)]
pub(crate) struct Head<'a> {
    pub ring: &'a Ring,
    pub step: u32,
    pub after: &'a [u32],
}

// Begins an object with `after` and `do`.
fn write_front(line: &mut Writer, head: &Head, kind: &str) -> Result<(), AllocError>
    ensures { OnOk result (GoesOn line.old line.new (begin_object ∷ key (codes "after")
        ∷ (json_tokens (outline (array (items_of (map number_data head.now.after.now))))
        ++ key (codes "do") ∷ string kind.now ∷ []))) }
{
    line.begin_object()?;
    write_numbers(line, "after", head.after)?;
    line.key("do")?;
    line.string(kind)
}

// Writes the slot and number of a step that lists no slots.
fn write_place(line: &mut Writer, head: &Head, slot: Slot) -> Result<(), AllocError>
    ensures { OnOk result (GoesOn line.old line.new (key (codes "partition") ∷ number (decimal slot.partition)
        ∷ key (codes "slot") ∷ number (decimal slot.index) ∷ key (codes "step") ∷ number (decimal head.now.step) ∷ [])) }
{
    write_slot(line, slot)?;
    write_number(line, "step", head.step)?;
    Ok(())
}

fn write_of_node(line: &mut Writer, head: &Head, kind: &str, node: NodeId) -> Result<(), Refusal>
    ensures ok { OnOk result (GoesOn line.old line.new (json_tokens (outline
        (node_object kind.now head.now.after.now head.now.step (node_data (names_of head.now.ring.now) node))))) }
    ensures memory { IfErr result (λ e. e ≡ OutOfMemory) }
{
    write_front(line, head, kind)?;
    write_node(line, "node", head.ring, node)?;
    write_number(line, "step", head.step)?;
    line.end_object()?;
    Ok(())
}

fn write_switch(line: &mut Writer, head: &Head, slot: Slot) -> Result<(), AllocError>
    ensures { OnOk result (GoesOn line.old line.new
        (json_tokens (outline (slot_object (codes "switch") head.now.after.now head.now.step slot)))) }
{
    write_front(line, head, "switch")?;
    write_place(line, head, slot)?;
    line.end_object()?;
    Ok(())
}

fn write_drop(line: &mut Writer, head: &Head, slot: Slot, node: NodeId) -> Result<(), Refusal>
    ensures ok { OnOk result (GoesOn line.old line.new (json_tokens (outline
        (drop_object head.now.after.now head.now.step slot (node_data (names_of head.now.ring.now) node))))) }
    ensures memory { IfErr result (λ e. e ≡ OutOfMemory) }
{
    write_front(line, head, "drop")?;
    write_node(line, "node", head.ring, node)?;
    write_place(line, head, slot)?;
    line.end_object()?;
    Ok(())
}

fn write_mirror(line: &mut Writer, head: &Head, slot: Slot, node: NodeId) -> Result<(), Refusal>
    ensures ok { OnOk result (GoesOn line.old line.new (json_tokens (outline
        (mirror_object head.now.after.now head.now.step slot (node_data (names_of head.now.ring.now) node))))) }
    ensures memory { IfErr result (λ e. e ≡ OutOfMemory) }
{
    write_front(line, head, "mirror")?;
    write_place(line, head, slot)?;
    write_node(line, "to", head.ring, node)?;
    line.end_object()?;
    Ok(())
}

fn write_owners(
    line: &mut Writer,
    ring: &Ring,
    present: &Present,
    slot: Slot,
    source: &Source,
) -> Result<(), Refusal>
    requires partition { slot.partition < ring.now.q }
    requires index { slot.index < ring.now.n }
    requires suits { source_suits ring.now source.now ≡ true }
    ensures ok { OnOk result (GoesOn line.old line.new (key (codes "from") ∷ json_tokens (outline
        (owners_data (names_of ring.now) (serving_at ring.now present.now) (source_slots slot source.now))))) }
    ensures memory { IfErr result (λ e. e ≡ OutOfMemory) }
{
    line.key("from")?;
    line.begin_array()?;
    match source {
        Source::Owner => write_name(line, ring, present.at(ring, slot).owner)?,
        Source::Slots(from) => {
            for index in from.as_slice() {
                let partition = slot.partition;
                let index = u32::from(*index);
                write_name(
                    line,
                    ring,
                    present.at(ring, Slot { partition, index }).owner,
                )?;
            }
        }
    }
    line.end_array()?;
    Ok(())
}

fn write_to(line: &mut Writer, ring: &Ring, mirror: Option<NodeId>) -> Result<(), Refusal>
    ensures ok { OnOk result (GoesOn line.old line.new
        (key (codes "to") ∷ json_tokens (outline (mirror_data (names_of ring.now) mirror)))) }
    ensures memory { IfErr result (λ e. e ≡ OutOfMemory) }
{
    match mirror {
        Some(node) => write_node(line, "to", ring, node),
        None => {
            line.key("to")?;
            Ok(line.null()?)
        }
    }
}

fn write_listed(line: &mut Writer, source: &Source) -> Result<(), AllocError>
    ensures { OnOk result (GoesOn line.old line.new (listed_tokens source.now)) }
{
    match source {
        Source::Owner => Ok(()),
        Source::Slots(from) => write_indexes(line, "slots", from.as_slice()),
    }
}

fn write_copy(
    line: &mut Writer,
    head: &Head,
    present: &Present,
    slot: Slot,
    source: &Source,
) -> Result<(), Refusal>
    requires { step_suits head.now.ring.now (Copy slot source.now) ≡ true }
    ensures ok { OnOk result (GoesOn line.old line.new (json_tokens (outline (step_data (names_of head.now.ring.now)
        (serving_at head.now.ring.now present.now) head.now.step (Copy slot source.now) head.now.after.now)))) }
    ensures memory { IfErr result (λ e. e ≡ OutOfMemory) }
{
    write_front(line, head, "copy")?;
    write_owners(line, head.ring, present, slot, source)?;
    write_slot(line, slot)?;
    write_listed(line, source)?;
    write_number(line, "step", head.step)?;
    write_to(line, head.ring, present.at(head.ring, slot).mirror)?;
    line.end_object()?;
    Ok(())
}

/// Writes a step's object, given the slots' servers.
pub(crate) fn write_step(
    line: &mut Writer,
    head: &Head,
    present: &Present,
    step: &Step,
) -> Result<(), Refusal>
    requires { step_suits head.now.ring.now step.now ≡ true }
    ensures ok { OnOk result (GoesOn line.old line.new (json_tokens (outline (step_data (names_of head.now.ring.now)
        (serving_at head.now.ring.now present.now) head.now.step step.now head.now.after.now)))) }
    ensures memory { IfErr result (λ e. e ≡ OutOfMemory) }
{
    match step {
        Step::Join(node) => write_of_node(line, head, "join", *node),
        Step::Mirror(slot, node) => write_mirror(line, head, *slot, *node),
        Step::Copy(slot, source) => write_copy(line, head, present, *slot, source),
        Step::Switch(slot) => Ok(write_switch(line, head, *slot)?),
        Step::Drop(slot, node) => write_drop(line, head, *slot, *node),
        Step::Retire(node) => write_of_node(line, head, "retire", *node),
    }
}
