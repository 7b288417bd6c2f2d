//! A ring and a change, in one text.

ghost use Rattle.std.specs.Prelude.{◌≡◌, IfOk, IfErr};
ghost use Rattle.ring_names.specs.declared.refusal.Refusal.TheVariants.{OutOfMemory};
ghost use Rattle.texts.specs.Judging.{Gives};
ghost use Rattle.texts.specs.Left.{Reads, whole_text};
ghost use Rattle.texts.specs.Late.{Late, NoFaultBefore};
ghost use Rattle.change_text.specs.Valid.{IsChange};
ghost use Rattle.change_text.specs.Wanted.{wanted_at};

use crate::change::Change;
use crate::reading::read_change_section;
use ring_names::Refusal;
use ring_table::{Ring, read_ring_section};
use std::alloc::Global;
use texts::Lines;

/// A ring, and a wanted change of its members.
#[derive(Drop)]
pub struct Wanted {
    pub ring: Ring,
    pub change: Change,
}

#[tactic(auto, unfolding(crate::specs::Wanted::wanted_at))]
fn read_both(alloc: Global, lines: &mut Lines) -> Result<Wanted, Refusal>
    ensures read { Reads result lines.new (wanted_at lines.old) }
    ensures found { IfOk result (λ w. IsChange w.ring w.change) }
    ensures late { Late 4 result lines.old lines.new (wanted_at lines.old) }
{
    let ring = read_ring_section(alloc, lines)?;
    let change = read_change_section(alloc, &ring, lines)?;
    Ok(Wanted { ring, change })
}

/// Reads a bundle of a ring and a change. Fails at the first faulty line. `OutOfMemory` comes only after the ring's
/// first four lines.
pub fn read_wanted(alloc: Global, bytes: &[u8]) -> Result<Wanted, Refusal>
    ensures read { Gives result (whole_text wanted_at bytes.now) }
    ensures found { IfOk result (λ w. IsChange w.ring w.change) }
    ensures late { IfErr result (λ e. e ≡ OutOfMemory → NoFaultBefore 5 (whole_text wanted_at bytes.now)) }
{
    let mut lines = Lines::of(bytes);
    let wanted = read_both(alloc, &mut lines)?;
    lines.ended()?;
    Ok(wanted)
}
