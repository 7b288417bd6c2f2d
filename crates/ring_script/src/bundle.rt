//! A command's bundles.

ghost use Rattle.std.specs.Prelude.{◌≡◌, [], IfOk, IfErr};
ghost use Rattle.ring_names.specs.declared.refusal.Refusal.TheVariants.{OutOfMemory};
ghost use Rattle.texts.specs.Judging.{Gives, map_ok};
ghost use Rattle.texts.specs.Left.{Reads, whole_text};
ghost use Rattle.texts.specs.Late.{Late, NoFaultBefore};
ghost use Rattle.ring_script.specs.Bundles.{IsOfRing, bundle_at, events_of};

use plan_cert::{Cert, Front, read_front_section};
use plan_text::Plan;
use ring_names::{Names, Refusal};
use ring_table::Ring;
use script_text::{Script, read_script_section};
use std::alloc::Global;
use texts::Lines;

/// The sections of a bundle.
#[derive(Clone, Copy, Debug, PartialEq, Eq)]
pub enum Kind {
    /// A ring, a plan of it and the plan's certificate.
    Check,
    /// A ring, a plan of it, the plan's certificate, and a script.
    Play,
}

/// A ring, a plan of it, the plan's certificate, and a script's events, if any, with their writers' names.
#[derive(Drop)]
pub struct Bundle {
    pub ring: Ring,
    pub plan: Plan,
    pub cert: Cert,
    pub writers: Names,
    pub script: Script,
}

fn read_events(
    alloc: Global,
    kind: Kind,
    ring: &Ring,
    writers: &mut Names,
    lines: &mut Lines,
) -> Result<Script, Refusal>
    requires { writers.old ≡ [] }
    ensures read { Reads (map_ok (λ s. (s, writers.new)) result) lines.new (events_of kind ring.now lines.old) }
    ensures late { Late 2 result lines.old lines.new (events_of kind ring.now lines.old) }
{
    match kind {
        Kind::Check => Ok(Script::new(alloc)),
        Kind::Play => read_script_section(alloc, ring, writers, lines),
    }
}

// Reads a bundle's front and script. A fault of the front comes first.
#[tactic(auto, unfolding(crate::specs::Bundles::bundle_at))]
fn read_parts(alloc: Global, kind: Kind, lines: &mut Lines) -> Result<Bundle, Refusal>
    ensures read { Reads result lines.new (bundle_at kind lines.old) }
    ensures parts { IfOk result IsOfRing }
    ensures late { Late 4 result lines.old lines.new (bundle_at kind lines.old) }
{
    let front = read_front_section(alloc, lines)?;
    let mut writers = Names::new(alloc);
    let script = read_events(alloc, kind, &front.ring, &mut writers, lines)?;
    let Front { ring, plan, cert } = front;
    Ok(Bundle {
        ring,
        plan,
        cert,
        writers,
        script,
    })
}

/// Reads a whole bundle of that kind. Numbers writers by first mention.
///
/// Fails at the first faulty line. `OutOfMemory` comes only after the ring's first four lines.
pub fn read_bundle(alloc: Global, kind: Kind, bytes: &[u8]) -> Result<Bundle, Refusal>
    ensures read { Gives result (whole_text (bundle_at kind) bytes.now) }
    ensures parts { IfOk result IsOfRing }
    ensures late { IfErr result (λ e. e ≡ OutOfMemory → NoFaultBefore 5 (whole_text (bundle_at kind) bytes.now)) }
{
    let mut lines = Lines::of(bytes);
    let bundle = read_parts(alloc, kind, &mut lines)?;
    lines.ended()?;
    Ok(bundle)
}
