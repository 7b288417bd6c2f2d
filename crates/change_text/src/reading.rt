//! Reads changes.

ghost use Rattle.std.specs.Prelude.{◌≡◌, [], Ok, IfOk, IfErr, OnOk};
ghost use Rattle.ring_names.specs.declared.refusal.Refusal.TheVariants.{OutOfMemory};
ghost use Rattle.texts.specs.Left.{Reads};
ghost use Rattle.texts.specs.Late.{Late, NoFaultBefore};
ghost use Rattle.texts.specs.Judging.{Gives, map_ok};
ghost use Rattle.change_text.specs.Reading.{joins_from, leaves_from, change_at, change_reading};
ghost use Rattle.change_text.specs.Spelling.{change_text};
ghost use Rattle.change_text.specs.Valid.{IsChange};
ghost use Rattle.change_text.specs.declared.change.Change.{Change};

use crate::change::Change;
use crate::draft::Draft;
use crate::lines::{join_line, leave_line};
use ring_names::Refusal;
use ring_table::Ring;
use std::alloc::Global;
use texts::{Lines, end, header};

fn read_joins(ring: &Ring, draft: &mut Draft, lines: &mut Lines) -> Result<(), Refusal>
    requires { draft.old.leaves ≡ [] }
    ensures read { Reads (map_ok (λ _. draft.new.joins) result) lines.new
        (joins_from ring.now draft.old.joins lines.old) }
    ensures leaves { OnOk result (draft.new.leaves ≡ []) }
    ensures late { Late 1 result lines.old lines.new (joins_from ring.now draft.old.joins lines.old) }
{
    'joins: while lines.begins(b"join") {
        let fields = lines.next()?;
        let node = join_line(ring, draft, fields)?;
        draft.join(node)?;
    }
    Ok(())
}

fn read_leaves(ring: &Ring, draft: &mut Draft, lines: &mut Lines) -> Result<(), Refusal>
    ensures read { Reads (map_ok (λ _. draft.new.leaves) result) lines.new
        (leaves_from ring.now draft.old.joins draft.old.leaves lines.old) }
    ensures joins { OnOk result (draft.new.joins ≡ draft.old.joins) }
    ensures late { Late 1 result lines.old lines.new (leaves_from ring.now draft.old.joins draft.old.leaves lines.old) }
{
    'leaves: while lines.begins(b"leave") {
        let fields = lines.next()?;
        let node = leave_line(ring, draft, fields)?;
        draft.leave(node)?;
    }
    Ok(())
}

#[tactic(auto, unfolding(crate::specs::Reading::change_at))]
fn read_parts(alloc: Global, ring: &Ring, lines: &mut Lines) -> Result<Change, Refusal>
    ensures read { Reads result lines.new (change_at ring.now lines.old) }
    ensures late { Late 2 result lines.old lines.new (change_at ring.now lines.old) }
{
    header(lines, b"change", b"1")?;
    let mut draft = Draft::new(alloc);
    read_joins(ring, &mut draft, lines)?;
    read_leaves(ring, &mut draft, lines)?;
    end(lines)?;
    Ok(draft.into_change())
}

/// Reads a change's lines, up to `end`, and leaves the rest. Fails as `read_change`.
pub fn read_change_section(alloc: Global, ring: &Ring, lines: &mut Lines) -> Result<Change, Refusal>
    ensures read { Reads result lines.new (change_at ring.now lines.old) }
    ensures found { IfOk result (IsChange ring.now) }
    ensures late { Late 2 result lines.old lines.new (change_at ring.now lines.old) }
{
    // Proves the ring valid.
    let slots = ring.n();
    prove!(slots <= 7);
    read_parts(alloc, ring, lines)
}

fn read_whole(alloc: Global, ring: &Ring, text: &[u8]) -> Result<Change, Refusal>
    ensures exact { Gives result (change_reading ring.now text.now) }
    ensures late { IfErr result (λ e. e ≡ OutOfMemory → NoFaultBefore 3 (change_reading ring.now text.now)) }
{
    let mut lines = Lines::of(text);
    let change = read_change_section(alloc, ring, &mut lines)?;
    lines.ended()?;
    Ok(change)
}

/// Reads a change of the ring from its whole text.
///
/// Returns the first faulty line's least fault: 1 `BadLine`, 3 `UnknownNode`, 4 `Repeated`, 12 `NotMember`.
/// `OutOfMemory` comes only after at least two faultless lines.
///
/// `Repeated`: a node named twice, or a member that joins. `NotMember`: a leaving node that is not a member.
pub fn read_change(alloc: Global, ring: &Ring, text: &[u8]) -> Result<Change, Refusal>
    ensures found { IfOk result (λ v. IsChange ring.now v × (text.now ≡ change_text ring.now v)) }
    ensures only { (v : Change) → IsChange ring.now v → text.now ≡ change_text ring.now v → Gives result (Ok v) }
    ensures exact { Gives result (change_reading ring.now text.now) }
    ensures late { IfErr result (λ e. e ≡ OutOfMemory → NoFaultBefore 3 (change_reading ring.now text.now)) }
{
    // Proves the ring valid.
    let slots = ring.n();
    prove!(slots <= 7);
    read_whole(alloc, ring, text)
}
