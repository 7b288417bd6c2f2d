//! Writes a line's members and its end.

ghost use Rattle.std.specs.Prelude.{◌≡◌, ◌++◌, ◌∷◌, [], map, codes, decimal, IfOk, IfErr, OnOk};
ghost use Rattle.json.specs.Print.{print};
ghost use Rattle.json.specs.Token.{key, number};
ghost use Rattle.json.specs.Tree.{json_tokens};
ghost use Rattle.serde_json.specs.Data.{array};
ghost use Rattle.serde_json.specs.View.{items_of};
ghost use Rattle.serde_json.specs.Written.{outline};
ghost use Rattle.ring_names.specs.declared.refusal.Refusal.TheVariants.{OutOfMemory};
ghost use Rattle.ring_table.specs.Value.{names_of};
ghost use Rattle.ring_table.specs.Spelling.{name_at};
ghost use Rattle.plan_moves.specs.Lines.{number_data, node_data};
ghost use Rattle.plan_moves.specs.Tokens.{GoesOn};

use json::Writer;
use ring_names::{NodeId, Refusal, Slot};
use ring_table::{Node, Ring};
use std::alloc::AllocError;

pub(crate) fn write_number(line: &mut Writer, name: &str, n: u32) -> Result<(), AllocError>
    ensures { OnOk result (GoesOn line.old line.new (key name.now ∷ number (decimal n) ∷ [])) }
{
    line.key(name)?;
    line.u64(u64::from(n))
}

pub(crate) fn write_numbers(line: &mut Writer, name: &str, given: &[u32]) -> Result<(), AllocError>
    ensures { OnOk result (GoesOn line.old line.new
        (key name.now ∷ json_tokens (outline (array (items_of (map number_data given.now)))))) }
{
    line.key(name)?;
    line.begin_array()?;
    for n in given {
        line.u64(u64::from(*n))?;
    }
    line.end_array()?;
    Ok(())
}

pub(crate) fn write_indexes(line: &mut Writer, name: &str, given: &[u8]) -> Result<(), AllocError>
    ensures { OnOk result (GoesOn line.old line.new
        (key name.now ∷ json_tokens (outline (array (items_of (map number_data given.now)))))) }
{
    line.key(name)?;
    line.begin_array()?;
    for n in given {
        line.u64(u64::from(*n))?;
    }
    line.end_array()?;
    Ok(())
}

pub(crate) fn write_slot(line: &mut Writer, slot: Slot) -> Result<(), AllocError>
    ensures { OnOk result (GoesOn line.old line.new (key (codes "partition") ∷ number (decimal slot.partition)
        ∷ key (codes "slot") ∷ number (decimal slot.index) ∷ [])) }
{
    write_number(line, "partition", slot.partition)?;
    write_number(line, "slot", slot.index)?;
    Ok(())
}

fn name_of(nodes: &[Node], node: NodeId) -> &[u8]
    ensures { result.now ≡ name_at (map (λ x. x.name) nodes.now) node }
{
    match nodes.get(node.0 as usize) {
        Some(node) => node.name.as_slice(),
        None => &[],
    }
}

/// Writes a node's name, plain text in every ring.
pub(crate) fn write_name(line: &mut Writer, ring: &Ring, node: NodeId) -> Result<(), Refusal>
    ensures ok { OnOk result (GoesOn line.old line.new (json_tokens (outline (node_data (names_of ring.now) node)))) }
    ensures memory { IfErr result (λ e. e ≡ OutOfMemory) }
{
    match str::from_utf8(name_of(ring.nodes(), node)) {
        Ok(text) => Ok(line.string(text)?),
        Err(_) => Err(Refusal::Disagree),
    }
}

/// Writes a node's name as a member.
pub(crate) fn write_node(
    line: &mut Writer,
    name: &str,
    ring: &Ring,
    node: NodeId,
) -> Result<(), Refusal>
    ensures ok { OnOk result (GoesOn line.old line.new
        (key name.now ∷ json_tokens (outline (node_data (names_of ring.now) node)))) }
    ensures memory { IfErr result (λ e. e ≡ OutOfMemory) }
{
    line.key(name)?;
    write_name(line, ring, node)
}

/// Adds a line. Returns a writer for the next, with the same memory.
pub(crate) fn push_line(out: &mut Vec<u8>, line: Writer) -> Result<Writer, AllocError>
    ensures line { IfOk result (λ w. (w.before ≡ []) × (w.tokens ≡ [])) }
    ensures out { OnOk result (out.new.items ≡ out.old.items ++ ((line.before ++ print line.tokens) ++ 10 ∷ [])) }
{
    let mut bytes = line.into_inner();
    out.extend_from_slice(bytes.as_slice())?;
    out.push(b'\n')?;
    bytes.clear();
    Ok(Writer::new(bytes))
}
