//! Reads the scripts of a drive's clients.

ghost use Rattle.std.specs.Prelude.{◌≡◌, [], IfOk};
ghost use Rattle.texts.specs.Judging.{map_ok};
ghost use Rattle.texts.specs.Left.{Reads};
ghost use Rattle.texts.specs.Late.{Late};
ghost use Rattle.ring_work.specs.Drives.{next_at, scripts_from, scripts_at, AreOfClients};

use ring_names::{Listed, Names, Refusal};
use ring_table::Ring;
use script_text::{Script, read_client_section};
use std::alloc::Global;
use texts::Lines;

#[tactic(auto, unfolding(crate::specs::Drives::next_at))]
fn read_next(
    alloc: Global,
    ring: &Ring,
    writers: &mut Names,
    scripts: &mut Vec<Script>,
    lines: &mut Lines,
) -> Result<(), Refusal>
    ensures read { Reads (map_ok (λ _. (scripts.new.items, writers.new)) result) lines.new
        (next_at ring.now (scripts.old.items, writers.old) lines.old) }
    ensures late { Late 0 result lines.old lines.new (next_at ring.now (scripts.old.items, writers.old) lines.old) }
{
    let script = read_client_section(alloc, ring, writers, lines)?;
    scripts.push(script)?;
    Ok(())
}

fn read_more(
    alloc: Global,
    ring: &Ring,
    writers: &mut Names,
    scripts: &mut Vec<Script>,
    lines: &mut Lines,
) -> Result<(), Refusal>
    ensures read { Reads (map_ok (λ _. (scripts.new.items, writers.new)) result) lines.new
        (scripts_from 7 ring.now (scripts.old.items, writers.old) lines.old) }
    ensures late { Late 0 result lines.old lines.new
        (scripts_from 7 ring.now (scripts.old.items, writers.old) lines.old) }
{
    let mut left = 7u32;
    'scripts: while left > 0 {
        if lines.is_over() {
            return Ok(());
        }
        read_next(alloc, ring, writers, scripts, lines)?;
        left -= 1;
    }
    Ok(())
}

/// Reads one client's script, and up to seven more while lines are left. Writers get numbers in the order in which
/// they appear.
#[tactic(auto, unfolding(crate::specs::Drives::scripts_at))]
pub fn read_scripts(
    alloc: Global,
    ring: &Ring,
    writers: &mut Names,
    lines: &mut Lines,
) -> Result<Listed<Script>, Refusal>
    requires { writers.old ≡ [] }
    ensures read { Reads (map_ok (λ s. (s, writers.new)) result) lines.new (scripts_at ring.now lines.old) }
    ensures clients { IfOk result AreOfClients }
    ensures late { Late 0 result lines.old lines.new (scripts_at ring.now lines.old) }
{
    let mut scripts = Vec::new(alloc);
    read_next(alloc, ring, writers, &mut scripts, lines)?;
    read_more(alloc, ring, writers, &mut scripts, lines)?;
    Ok(Listed::from_vec(scripts))
}
