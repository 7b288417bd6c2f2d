//! Writes a history.

ghost use Rattle.std.specs.Prelude.{◌≡◌, ◌≤◌, ◌++◌, length, OnOk};
ghost use Rattle.std.specs.List.{flat_map};
ghost use Rattle.ring_table.specs.Value.{names_of};
ghost use Rattle.history_text.specs.Known.{AreKnownEntries};
ghost use Rattle.history_text.specs.Spelling.{entry_line, history_text};

use plan_check::Approved;
use plan_runs::Entry;
use ring_names::Names;
use ring_table::Ring;
use script_text::push_event;
use std::alloc::AllocError;

/// Adds an entry's line.
pub fn push_entry(
    out: &mut Vec<u8>,
    ring: &Ring,
    writers: &Names,
    entry: &Entry,
) -> Result<(), AllocError>
    ensures { OnOk result (out.new.items ≡ out.old.items ++ entry_line (names_of ring.now) writers.now entry.now) }
{
    push_event(out, ring, writers, &entry.event)?;
    out.extend_from_slice(b" = ")?;
    entry.reply.write_text(out)?;
    out.push(b'\n')?;
    Ok(())
}

fn push_entries(
    out: &mut Vec<u8>,
    ring: &Ring,
    writers: &Names,
    history: &[Entry],
) -> Result<(), AllocError>
    ensures { OnOk result
        (out.new.items ≡ out.old.items ++ flat_map (entry_line (names_of ring.now) writers.now) history.now) }
{
    for entry in history {
        push_entry(out, ring, writers, entry)?;
    }
    Ok(())
}

/// Writes a history for the ring: `history 1`, for each entry its event, ` = ` and its reply, then `end`.
pub fn push_history(
    out: &mut Vec<u8>,
    approved: &Approved,
    writers: &Names,
    history: &[Entry],
) -> Result<(), AllocError>
    requires few { length history.now ≤ 1000000 }
    requires known { AreKnownEntries approved.now.ring writers.now history.now }
    ensures text { OnOk result
        (out.new.items ≡ out.old.items ++ history_text approved.now.ring writers.now history.now) }
{
    out.extend_from_slice(b"history 1\n")?;
    push_entries(out, approved.ring(), writers, history)?;
    out.extend_from_slice(b"end\n")?;
    Ok(())
}
