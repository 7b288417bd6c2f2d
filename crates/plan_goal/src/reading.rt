//! A ring and its goal ring, in one text.

ghost use Rattle.std.specs.Prelude.{◌≡◌, IfOk, IfErr};
ghost use Rattle.ring_names.specs.declared.refusal.Refusal.TheVariants.{OutOfMemory};
ghost use Rattle.texts.specs.Judging.{Gives};
ghost use Rattle.texts.specs.Left.{Reads, whole_text};
ghost use Rattle.texts.specs.Late.{Late, NoFaultBefore};
ghost use Rattle.ring_table.specs.Valid.{IsRing};
ghost use Rattle.plan_goal.specs.Goals.{goal_at};

use ring_names::Refusal;
use ring_table::{Ring, read_ring_section};
use std::alloc::Global;
use texts::Lines;

/// A ring, and its goal ring.
#[derive(Drop)]
pub struct Goal {
    pub ring: Ring,
    pub wanted: Ring,
}

#[tactic(auto, unfolding(crate::specs::Goals::goal_at))]
fn read_both(alloc: Global, lines: &mut Lines) -> Result<Goal, Refusal>
    ensures read { Reads result lines.new (goal_at lines.old) }
    ensures found { IfOk result (λ g. IsRing g.ring × IsRing g.wanted) }
    ensures late { Late 4 result lines.old lines.new (goal_at lines.old) }
{
    let ring = read_ring_section(alloc, lines)?;
    let wanted = read_ring_section(alloc, lines)?;
    Ok(Goal { ring, wanted })
}

/// Reads a bundle of just two rings, or returns the first faulty line's least fault.
pub fn read_goal(alloc: Global, bytes: &[u8]) -> Result<Goal, Refusal>
    ensures read { Gives result (whole_text goal_at bytes.now) }
    ensures found { IfOk result (λ g. IsRing g.ring × IsRing g.wanted) }
    ensures late { IfErr result (λ e. e ≡ OutOfMemory → NoFaultBefore 5 (whole_text goal_at bytes.now)) }
{
    let mut lines = Lines::of(bytes);
    let goal = read_both(alloc, &mut lines)?;
    lines.ended()?;
    Ok(goal)
}
