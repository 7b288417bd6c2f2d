//! Writes changes.

ghost use Rattle.std.specs.Prelude.{◌≡◌, ◌++◌, map, IfOk, IfErr, OnOk};
ghost use Rattle.ring_names.specs.declared.refusal.Refusal.TheVariants.{OutOfMemory};
ghost use Rattle.texts.specs.Parts.{line_text, text_of};
ghost use Rattle.ring_table.specs.Value.{names_of};
ghost use Rattle.change_text.specs.Spelling.{node_fields, change_text};
ghost use Rattle.change_text.specs.Valid.{IsChange};

use crate::change::Change;
use ring_names::{NodeId, Refusal};
use ring_table::{Ring, push_name};
use std::alloc::{AllocError, Global};

fn push_node(out: &mut Vec<u8>, ring: &Ring, word: &[u8], node: NodeId) -> Result<(), AllocError>
    ensures { OnOk result (out.new.items ≡ out.old.items ++ line_text (node_fields word.now (names_of ring.now) node)) }
{
    out.extend_from_slice(word)?;
    push_name(out, ring.nodes(), node)?;
    out.push(b'\n')?;
    Ok(())
}

fn push_nodes(
    out: &mut Vec<u8>,
    ring: &Ring,
    word: &[u8],
    nodes: &[NodeId],
) -> Result<(), AllocError>
    ensures { OnOk result
        (out.new.items ≡ out.old.items ++ text_of (map (node_fields word.now (names_of ring.now)) nodes.now)) }
{
    for node in nodes {
        push_node(out, ring, word, *node)?;
    }
    Ok(())
}

/// Writes the change's unique text.
pub fn write_change(alloc: Global, ring: &Ring, change: &Change) -> Result<Vec<u8>, Refusal>
    requires { IsChange ring.now change.now }
    ensures text { IfOk result (λ v. v.items ≡ change_text ring.now change.now) }
    ensures memory { IfErr result (λ e. e ≡ OutOfMemory) }
{
    let mut out = Vec::new(alloc);
    out.extend_from_slice(b"change 1\n")?;
    push_nodes(&mut out, ring, b"join", change.joins.as_slice())?;
    push_nodes(&mut out, ring, b"leave", change.leaves.as_slice())?;
    out.extend_from_slice(b"end\n")?;
    Ok(out)
}
