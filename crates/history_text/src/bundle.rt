//! A replay's bundles.

ghost use Rattle.std.specs.Prelude.{◌≡◌, IfOk, IfErr};
ghost use Rattle.ring_names.specs.declared.refusal.Refusal.TheVariants.{OutOfMemory};
ghost use Rattle.texts.specs.Judging.{Gives, map_ok};
ghost use Rattle.texts.specs.Left.{Reads, whole_text};
ghost use Rattle.texts.specs.Late.{Late, NoFaultBefore};
ghost use Rattle.history_text.specs.Replays.{parts_of, replay_at, IsReplay};

use crate::reading::read_history_section;
use plan_cert::{Cert, Front, read_front_section};
use plan_runs::Entry;
use plan_text::Plan;
use ring_names::{Names, Refusal};
use ring_table::Ring;
use std::alloc::Global;
use texts::Lines;

/// A ring, a plan of it, the plan's certificate, and a history with its writers' names, by number.
#[derive(Drop)]
pub struct ReplayBundle {
    pub ring: Ring,
    pub plan: Plan,
    pub cert: Cert,
    pub writers: Names,
    pub history: Vec<Entry>,
}

/// Reads a ring, a plan, its certificate and a history, and leaves the rest. Fails at the first faulty line.
#[tactic(auto, unfolding(crate::specs::Replays::replay_at))]
pub fn read_replay_section(alloc: Global, lines: &mut Lines) -> Result<ReplayBundle, Refusal>
    ensures read { Reads (map_ok parts_of result) lines.new (replay_at lines.old) }
    ensures parts { IfOk result IsReplay }
    ensures late { Late 4 result lines.old lines.new (replay_at lines.old) }
{
    let front = read_front_section(alloc, lines)?;
    let mut writers = Names::new(alloc);
    let history = read_history_section(alloc, &front.ring, &mut writers, lines)?;
    let Front { ring, plan, cert } = front;
    Ok(ReplayBundle {
        ring,
        plan,
        cert,
        writers,
        history,
    })
}

/// Reads a replay's bundle: a ring, a plan, its certificate and a history. Numbers writers by first mention.
///
/// Fails as the reader of the first faulty line's part. A line after the history is `BadLine`. `OutOfMemory` comes only
/// after four lines.
pub fn read_replay(alloc: Global, bytes: &[u8]) -> Result<ReplayBundle, Refusal>
    ensures read { Gives (map_ok parts_of result) (whole_text replay_at bytes.now) }
    ensures parts { IfOk result IsReplay }
    ensures late { IfErr result (λ e. e ≡ OutOfMemory → NoFaultBefore 5 (whole_text replay_at bytes.now)) }
{
    let mut lines = Lines::of(bytes);
    let bundle = read_replay_section(alloc, &mut lines)?;
    lines.ended()?;
    Ok(bundle)
}
