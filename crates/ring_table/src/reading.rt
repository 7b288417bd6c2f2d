//! Reads rings.

ghost use Rattle.std.specs.Prelude.{◌≡◌, ◌≤◌, Ok, IfOk, IfErr, OnOk};
ghost use Rattle.ring_names.specs.declared.refusal.Refusal.TheVariants.{OutOfMemory};
ghost use Rattle.texts.specs.Left.{Reads, next_number, lines_on};
ghost use Rattle.texts.specs.Late.{Late, NoFaultBefore};
ghost use Rattle.texts.specs.Judging.{Gives, map_ok};
ghost use Rattle.ring_table.specs.Value.{RingValue};
ghost use Rattle.ring_table.specs.Valid.{IsRing};
ghost use Rattle.ring_table.specs.Spelling.{ring_text};
ghost use Rattle.ring_table.specs.Kept.{body_of};
ghost use Rattle.ring_table.specs.Reading.{body_at, ring_at, ring_reading};

use crate::declared::{Declared, read_nodes};
use crate::head::{Head, read_head};
use crate::ring::Ring;
use crate::row::read_rows;
use ring_names::{Listed, NodeId, Refusal};
use std::alloc::Global;
use texts::{Lines, end};

// A ring's nodes, and its rows of owners.
#[derive(Drop)]
struct Body {
    declared: Declared,
    owners: Vec<Listed<NodeId>>,
}

#[tactic(auto, unfolding(crate::specs::Reading::body_at))]
fn read_body(alloc: Global, head: Head, lines: &mut Lines) -> Result<Body, Refusal>
    requires { head.quorum.n ≤ 7 }
    ensures read { Reads (map_ok body_of result) lines.new (body_at head lines.old) }
    ensures late { Late 1 result lines.old lines.new (body_at head lines.old) }
    ensures far { OnOk result (next_number lines.old.line ≤ lines.new.line) }
{
    let declared = read_nodes(alloc, head.format, lines)?;
    let owners = read_rows(alloc, &declared, head.quorum.n, head.q, lines)?;
    end(lines)?;
    Ok(Body { declared, owners })
}

/// Reads a ring's lines, up to `end`, and leaves the rest. Fails as `read_ring`.
#[tactic(auto, unfolding(crate::specs::Reading::ring_at))]
pub fn read_ring_section(alloc: Global, lines: &mut Lines) -> Result<Ring, Refusal>
    ensures read { Reads result lines.new (ring_at lines.old) }
    ensures found { IfOk result (λ v. IsRing v) }
    ensures late { Late 4 result lines.old lines.new (ring_at lines.old) }
    ensures far { OnOk result (lines_on 4 lines.old.line ≤ lines.new.line) }
{
    let head = read_head(lines)?;
    let Body { declared, owners } = read_body(alloc, head, lines)?;
    Ok(Ring::assemble(head, declared, owners))
}

fn read_whole(alloc: Global, text: &[u8]) -> Result<Ring, Refusal>
    ensures exact { Gives result (ring_reading text.now) }
    ensures late { IfErr result (λ e. e ≡ OutOfMemory → NoFaultBefore 5 (ring_reading text.now)) }
{
    let mut lines = Lines::of(text);
    let ring = read_ring_section(alloc, &mut lines)?;
    lines.ended()?;
    Ok(ring)
}

/// Reads a ring from its whole text.
///
/// Returns the first faulty line's least fault. `OutOfMemory` comes only after at least four faultless lines.
///
/// 1 `BadLine`, 2 `TooLarge`, 3 `UnknownNode`, 4 `Repeated`, 10 `QuorumTooSmall`, 11 `SharedNode`, 12 `NotMember`.
pub fn read_ring(alloc: Global, text: &[u8]) -> Result<Ring, Refusal>
    ensures found { IfOk result (λ v. IsRing v × (text.now ≡ ring_text v)) }
    ensures only { (v : RingValue) → IsRing v → text.now ≡ ring_text v → Gives result (Ok v) }
    ensures exact { Gives result (ring_reading text.now) }
    ensures late { IfErr result (λ e. e ≡ OutOfMemory → NoFaultBefore 5 (ring_reading text.now)) }
{
    read_whole(alloc, text)
}
