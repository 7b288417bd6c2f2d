//! Writes rings.

ghost use Rattle.std.specs.Prelude.{◌≡◌, ◌++◌, ◌∷◌, [], ◌<◌, ◌≤◌, length, map, List, ℕ, IfOk, IfErr, OnOk, slice_get};
ghost use Rattle.std.specs.Prelude.{Some};
ghost use Rattle.ring_names.specs.declared.refusal.Refusal.TheVariants.{OutOfMemory};
ghost use Rattle.std.specs.List.{flat_map};
ghost use Rattle.texts.specs.Parts.{line_text, text_of, spaced};
ghost use Rattle.ring_table.specs.Spelling.{ring_text, format_fields, space_fields, loss_fields, quorum_fields};
ghost use Rattle.ring_table.specs.Spelling.{allowance_fields, node_fields, name_at, row_fields, rows_lines};
ghost use Rattle.ring_table.specs.Value.{names_of};

use crate::allowance::Allowance;
use crate::node::{Node, name_at};
use crate::ring::Ring;
use ring_names::{Listed, NodeId, Refusal, push_decimal};
use std::alloc::{AllocError, Global};
use texts::push_numbers;

// `ring <format>`
fn push_format(out: &mut Vec<u8>, format: u32) -> Result<(), AllocError>
    ensures { OnOk result (out.new.items ≡ out.old.items ++ line_text (format_fields format)) }
{
    out.extend_from_slice(b"ring ")?;
    push_decimal(out, format)?;
    out.push(b'\n')?;
    Ok(())
}

// `space <q>`
fn push_space(out: &mut Vec<u8>, q: u32) -> Result<(), AllocError>
    ensures { OnOk result (out.new.items ≡ out.old.items ++ line_text (space_fields q)) }
{
    out.extend_from_slice(b"space ")?;
    push_decimal(out, q)?;
    out.push(b'\n')?;
    Ok(())
}

fn push_loss(out: &mut Vec<u8>, format: u32, loss: u32) -> Result<(), AllocError>
    ensures { OnOk result (out.new.items ≡ out.old.items ++ spaced (loss_fields format loss)) }
{
    if format < 3 {
        return Ok(());
    }
    out.push(b' ')?;
    push_decimal(out, loss)
}

// `quorum <n> <r> <w>`, and in format 3 ` <f>`
fn push_quorum(out: &mut Vec<u8>, ring: &Ring) -> Result<(), AllocError>
    ensures { OnOk result (out.new.items
        ≡ out.old.items ++ line_text (quorum_fields ring.now.format ring.now.n ring.now.r ring.now.w ring.now.loss)) }
{
    out.extend_from_slice(b"quorum")?;
    push_numbers(out, &[ring.n(), ring.r(), ring.w()])?;
    push_loss(out, ring.format(), ring.loss())?;
    out.push(b'\n')?;
    Ok(())
}

fn push_allowance(out: &mut Vec<u8>, allowance: &Allowance) -> Result<(), AllocError>
    ensures { OnOk result (out.new.items ≡ out.old.items ++ spaced (allowance_fields allowance.now)) }
{
    match allowance {
        Allowance::Joint(most) => push_numbers(out, &[*most]),
        Allowance::Split { take, give } => push_numbers(out, &[*take, *give]),
    }
}

// `node <name> <allowance> in` or `.. out`
fn push_node(out: &mut Vec<u8>, node: &Node) -> Result<(), AllocError>
    ensures { OnOk result (out.new.items ≡ out.old.items ++ line_text (node_fields node.now)) }
{
    out.extend_from_slice(b"node ")?;
    out.extend_from_slice(node.name.as_slice())?;
    push_allowance(out, &node.allowance)?;
    if node.is_member {
        out.extend_from_slice(b" in\n")?;
    } else {
        out.extend_from_slice(b" out\n")?;
    }
    Ok(())
}

fn push_nodes(out: &mut Vec<u8>, nodes: &[Node]) -> Result<(), AllocError>
    ensures { OnOk result (out.new.items ≡ out.old.items ++ text_of (map node_fields nodes.now)) }
{
    for node in nodes {
        push_node(out, node)?;
    }
    Ok(())
}

/// Adds a space and a declared node's name.
pub fn push_name(out: &mut Vec<u8>, nodes: &[Node], owner: NodeId) -> Result<(), AllocError>
    ensures { OnOk result (out.new.items ≡ out.old.items ++ 32 ∷ name_at (map (λ x. x.name) nodes.now) owner) }
{
    out.push(b' ')?;
    out.extend_from_slice(name_at(nodes, owner))
}

fn push_owners(out: &mut Vec<u8>, nodes: &[Node], row: &[NodeId]) -> Result<(), AllocError>
    ensures { OnOk result
        (out.new.items ≡ out.old.items ++ flat_map (λ x. 32 ∷ name_at (map (λ y. y.name) nodes.now) x) row.now) }
{
    for owner in row {
        push_name(out, nodes, *owner)?;
    }
    Ok(())
}

/// Adds a partition's line: `slots`, its number, its owners' names.
pub fn push_row(
    out: &mut Vec<u8>,
    nodes: &[Node],
    partition: u32,
    row: &[NodeId],
) -> Result<(), AllocError>
    ensures { OnOk result
        (out.new.items ≡ out.old.items ++ line_text (row_fields (map (λ x. x.name) nodes.now) partition row.now)) }
{
    out.extend_from_slice(b"slots ")?;
    push_decimal(out, partition)?;
    push_owners(out, nodes, row)?;
    out.push(b'\n')?;
    Ok(())
}

fn push_rows(out: &mut Vec<u8>, nodes: &[Node], rows: &[Listed<NodeId>]) -> Result<(), AllocError>
    requires { length rows.now ≤ 4096 }
    ensures { OnOk result
        (out.new.items ≡ out.old.items ++ text_of (rows_lines (map (λ x. x.name) nodes.now) 0 rows.now)) }
{
    for (partition, row) in rows.iter().enumerate() {
        push_row(out, nodes, partition as u32, row.as_slice())?;
    }
    Ok(())
}

/// Writes the ring's unique text.
pub fn write_ring(alloc: Global, ring: &Ring) -> Result<Vec<u8>, Refusal>
    ensures text { IfOk result (λ v. v.items ≡ ring_text ring.now) }
    ensures memory { IfErr result (λ e. e ≡ OutOfMemory) }
{
    let mut out = Vec::new(alloc);
    push_format(&mut out, ring.format())?;
    push_space(&mut out, ring.q())?;
    push_quorum(&mut out, ring)?;
    push_nodes(&mut out, ring.nodes())?;
    push_rows(&mut out, ring.nodes(), ring.rows())?;
    out.extend_from_slice(b"end\n")?;
    Ok(out)
}
