//! Writes a plan.

ghost use Rattle.std.specs.Prelude.{◌≡◌, ◌++◌, ◌∷◌, [], map, IfOk, IfErr, OnOk};
ghost use Rattle.std.specs.Fmt.{decimal};
ghost use Rattle.std.specs.List.{join_with_byte};
ghost use Rattle.ring_names.specs.declared.refusal.Refusal.TheVariants.{OutOfMemory};
ghost use Rattle.texts.specs.Parts.{line_text, text_of, spaced};
ghost use Rattle.ring_table.specs.Value.{names_of};
ghost use Rattle.plan_text.specs.Spelling.{slot_fields, source_fields, kind_fields, after_fields, step_fields};
ghost use Rattle.plan_text.specs.Spelling.{plan_text};
ghost use Rattle.plan_text.specs.Valid.{Suits};

use crate::plan::Plan;
use crate::step::{Source, Step};
use ring_names::{Refusal, Slot};
use ring_table::{Ring, push_name};
use std::alloc::{AllocError, Global};
use texts::push_numbers;

// ` <p> <i>`
fn push_slot(out: &mut Vec<u8>, slot: Slot) -> Result<(), AllocError>
    ensures { OnOk result (out.new.items ≡ out.old.items ++ spaced (slot_fields slot)) }
{
    push_numbers(out, &[slot.partition, slot.index])
}

fn push_indexes(out: &mut Vec<u8>, indexes: &[u8]) -> Result<(), AllocError>
    ensures { OnOk result (out.new.items ≡ out.old.items ++ spaced (map decimal indexes.now)) }
{
    for index in indexes {
        push_numbers(out, &[u32::from(*index)])?;
    }
    Ok(())
}

fn push_source(out: &mut Vec<u8>, source: &Source) -> Result<(), AllocError>
    ensures { OnOk result (out.new.items ≡ out.old.items ++ spaced (source_fields source.now)) }
{
    match source {
        Source::Owner => out.extend_from_slice(b" owner"),
        Source::Slots(from) => {
            out.extend_from_slice(b" slots")?;
            push_indexes(out, from.as_slice())
        }
    }
}

fn push_kind(out: &mut Vec<u8>, ring: &Ring, step: &Step) -> Result<(), AllocError>
    ensures { OnOk result
        (out.new.items ≡ out.old.items ++ join_with_byte 32 (kind_fields (names_of ring.now) step.now)) }
{
    match step {
        Step::Join(node) => {
            out.extend_from_slice(b"join")?;
            push_name(out, ring.nodes(), *node)
        }
        Step::Mirror(slot, node) => {
            out.extend_from_slice(b"mirror")?;
            push_slot(out, *slot)?;
            push_name(out, ring.nodes(), *node)
        }
        Step::Copy(slot, source) => {
            out.extend_from_slice(b"copy")?;
            push_slot(out, *slot)?;
            push_source(out, source)
        }
        Step::Switch(slot) => {
            out.extend_from_slice(b"switch")?;
            push_slot(out, *slot)
        }
        Step::Drop(slot, node) => {
            out.extend_from_slice(b"drop")?;
            push_slot(out, *slot)?;
            push_name(out, ring.nodes(), *node)
        }
        Step::Retire(node) => {
            out.extend_from_slice(b"retire")?;
            push_name(out, ring.nodes(), *node)
        }
    }
}

fn push_after(out: &mut Vec<u8>, after: &[u32]) -> Result<(), AllocError>
    ensures { OnOk result (out.new.items ≡ out.old.items ++ spaced (after_fields after.now)) }
{
    if after.is_empty() {
        return Ok(());
    }
    out.extend_from_slice(b" after")?;
    push_numbers(out, after)
}

fn push_step(out: &mut Vec<u8>, ring: &Ring, step: &Step, after: &[u32]) -> Result<(), AllocError>
    ensures { OnOk result (out.new.items ≡ out.old.items
        ++ line_text (step_fields (names_of ring.now) (record { step = step.now; after = after.now }))) }
{
    push_kind(out, ring, step)?;
    push_after(out, after)?;
    out.push(b'\n')?;
    Ok(())
}

fn push_steps(out: &mut Vec<u8>, ring: &Ring, plan: &Plan) -> Result<(), AllocError>
    ensures { OnOk result (out.new.items ≡ out.old.items ++ text_of (map (step_fields (names_of ring.now)) plan.now)) }
{
    for n in 0..plan.len() {
        push_step(out, ring, plan.step(n), plan.deps(n))?;
    }
    Ok(())
}

/// Writes the plan's unique text.
pub fn write_plan(alloc: Global, ring: &Ring, plan: &Plan) -> Result<Vec<u8>, Refusal>
    requires { Suits ring.now plan.now }
    ensures text { IfOk result (λ v. v.items ≡ plan_text ring.now plan.now) }
    ensures memory { IfErr result (λ e. e ≡ OutOfMemory) }
{
    let mut out = Vec::new(alloc);
    out.extend_from_slice(b"plan 1\n")?;
    push_steps(&mut out, ring, plan)?;
    out.extend_from_slice(b"end\n")?;
    Ok(out)
}
