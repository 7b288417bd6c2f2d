//! A drive's bundles.

ghost use Rattle.std.specs.Prelude.{◌≡◌, IfOk, IfErr};
ghost use Rattle.ring_names.specs.declared.refusal.Refusal.TheVariants.{OutOfMemory};
ghost use Rattle.texts.specs.Judging.{Gives};
ghost use Rattle.texts.specs.Left.{Reads, whole_text};
ghost use Rattle.texts.specs.Late.{Late, NoFaultBefore};
ghost use Rattle.ring_work.specs.Drives.{drive_at, IsDrive};

use crate::scripts::read_scripts;
use plan_cert::{Cert, Front, read_front_section};
use plan_text::Plan;
use ring_names::{Listed, Names, Refusal};
use ring_table::Ring;
use script_text::Script;
use std::alloc::Global;
use texts::Lines;

/// A ring, a plan, its certificate, and 1 to 8 clients' scripts with their writers' names, by number.
#[derive(Drop)]
pub struct DriveBundle {
    pub ring: Ring,
    pub plan: Plan,
    pub cert: Cert,
    pub writers: Names,
    pub scripts: Listed<Script>,
}

#[tactic(auto, unfolding(crate::specs::Drives::drive_at))]
fn read_parts(alloc: Global, lines: &mut Lines) -> Result<DriveBundle, Refusal>
    ensures read { Reads result lines.new (drive_at lines.old) }
    ensures parts { IfOk result IsDrive }
    ensures late { Late 4 result lines.old lines.new (drive_at lines.old) }
{
    let front = read_front_section(alloc, lines)?;
    let mut writers = Names::new(alloc);
    let scripts = read_scripts(alloc, &front.ring, &mut writers, lines)?;
    let Front { ring, plan, cert } = front;
    Ok(DriveBundle {
        ring,
        plan,
        cert,
        writers,
        scripts,
    })
}

/// Reads a drive's bundle, which must end after the scripts. The first faulty line decides. `OutOfMemory` comes only
/// after the ring's first four lines.
///
/// Lines of scripts begin with `put`, `get`, `down` or `up`; others are `BadLine`. Writers are numbered as they first
/// appear.
pub fn read_drive(alloc: Global, bytes: &[u8]) -> Result<DriveBundle, Refusal>
    ensures read { Gives result (whole_text drive_at bytes.now) }
    ensures parts { IfOk result IsDrive }
    ensures late { IfErr result (λ e. e ≡ OutOfMemory → NoFaultBefore 5 (whole_text drive_at bytes.now)) }
{
    let mut lines = Lines::of(bytes);
    let bundle = read_parts(alloc, &mut lines)?;
    lines.ended()?;
    Ok(bundle)
}
