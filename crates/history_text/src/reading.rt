//! Reads a history.

ghost use Rattle.std.specs.Prelude.{◌≡◌, ◌≤◌, List, ℕ, [], length, Ok, IfOk, IfErr, OnOk};
ghost use Rattle.ring_names.specs.declared.refusal.Refusal.TheVariants.{OutOfMemory};
ghost use Rattle.texts.specs.Left.{Reads};
ghost use Rattle.texts.specs.Late.{Late, NoFaultBefore};
ghost use Rattle.texts.specs.Judging.{Gives, map_ok};
ghost use Rattle.plan_runs.specs.declared.event.Entry.{Entry};
ghost use Rattle.script_text.specs.Valid.{AreWriters};
ghost use Rattle.history_text.specs.Spelling.{history_text};
ghost use Rattle.history_text.specs.Reading.{entries_from, entries_at, history_at, history_reading};
ghost use Rattle.history_text.specs.Valid.{IsHistoryOf};

use crate::lines::{add, entry_line};
use crate::plain::take_plain;
use plan_runs::Entry;
use ring_names::{Names, Refusal};
use ring_table::Ring;
use std::alloc::Global;
use texts::{Lines, end, header};

fn read_into(
    alloc: Global,
    ring: &Ring,
    writers: &mut Names,
    seen: &mut Vec<Entry>,
    lines: &mut Lines,
) -> Result<(), Refusal>
    requires none { seen.old.items ≡ [] }
    ensures read { Reads (map_ok (λ _. (seen.new.items, writers.new)) result) lines.new
        (entries_from ring.now seen.old.items writers.old lines.old.line lines.old.lines) }
    ensures few { OnOk result (length seen.new.items ≤ 1000000) }
    ensures late { Late 1 result lines.old lines.new
        (entries_from ring.now seen.old.items writers.old lines.old.line lines.old.lines) }
{
    'entries: while !lines.begins(b"end") {
        if take_plain(alloc, seen, lines) {
            continue 'entries;
        }
        let fields = lines.next()?;
        let said = entry_line(ring, writers, seen.as_slice(), fields)?;
        add(alloc, writers, seen, said)?;
    }
    Ok(())
}

#[tactic(auto, unfolding(crate::specs::Reading::entries_at))]
fn read_entries(
    alloc: Global,
    ring: &Ring,
    writers: &mut Names,
    lines: &mut Lines,
) -> Result<Vec<Entry>, Refusal>
    ensures read { Reads (map_ok (λ h. (h.items, writers.new)) result) lines.new
        (entries_at ring.now writers.old lines.old) }
    ensures few { IfOk result (λ h. length h.items ≤ 1000000) }
    ensures late { Late 1 result lines.old lines.new (entries_at ring.now writers.old lines.old) }
{
    let mut history = Vec::new(alloc);
    read_into(alloc, ring, writers, &mut history, lines)?;
    Ok(history)
}

#[tactic(auto, unfolding(crate::specs::Reading::history_at))]
fn read_parts(
    alloc: Global,
    ring: &Ring,
    writers: &mut Names,
    lines: &mut Lines,
) -> Result<Vec<Entry>, Refusal>
    ensures read { Reads (map_ok (λ h. (h.items, writers.new)) result) lines.new
        (history_at ring.now writers.old lines.old) }
    ensures few { IfOk result (λ h. length h.items ≤ 1000000) }
    ensures late { Late 2 result lines.old lines.new (history_at ring.now writers.old lines.old) }
{
    header(lines, b"history", b"1")?;
    let history = read_entries(alloc, ring, writers, lines)?;
    end(lines)?;
    Ok(history)
}

/// Reads a history up to its line `end`, and leaves the rest. Adds new writers after those seen, some even if it fails.
/// Fails as `read_history`.
pub fn read_history_section(
    alloc: Global,
    ring: &Ring,
    writers: &mut Names,
    lines: &mut Lines,
) -> Result<Vec<Entry>, Refusal>
    ensures read { Reads (map_ok (λ h. (h.items, writers.new)) result) lines.new
        (history_at ring.now writers.old lines.old) }
    ensures found { IfOk result (λ h. AreWriters writers.old → IsHistoryOf ring.now writers.old writers.new h.items) }
    ensures few { IfOk result (λ h. length h.items ≤ 1000000) }
    ensures late { Late 2 result lines.old lines.new (history_at ring.now writers.old lines.old) }
{
    // Proves the ring valid.
    let slots = ring.n();
    prove!(slots <= 7);
    read_parts(alloc, ring, writers, lines)
}

fn read_whole(
    alloc: Global,
    ring: &Ring,
    writers: &mut Names,
    text: &[u8],
) -> Result<Vec<Entry>, Refusal>
    ensures exact { Gives (map_ok (λ h. (h.items, writers.new)) result)
        (history_reading ring.now writers.old text.now) }
    ensures late { IfErr result
        (λ e. e ≡ OutOfMemory → NoFaultBefore 3 (history_reading ring.now writers.old text.now)) }
{
    let mut lines = Lines::of(text);
    let history = read_history_section(alloc, ring, writers, &mut lines)?;
    lines.ended()?;
    Ok(history)
}

/// Reads a history from its whole text. Numbers new writers by first mention, some even if it fails.
///
/// A wrong line is `BadLine`, also without ` = ` or with fields after its reply. A node that the ring lacks is
/// `UnknownNode`.
///
/// A number above 4,294,967,295, an entry after 1,000,000, a writer after 1,024 and more than 16 gets of a put are
/// `TooLarge`.
///
/// Returns the first faulty line's least fault: 1 `BadLine`, 2 `TooLarge`, 3 `UnknownNode`. `OutOfMemory` comes only
/// after at least two faultless lines.
pub fn read_history(
    alloc: Global,
    ring: &Ring,
    writers: &mut Names,
    text: &[u8],
) -> Result<Vec<Entry>, Refusal>
    ensures found { IfOk result (λ h. AreWriters writers.old → IsHistoryOf ring.now writers.old writers.new h.items
        × (text.now ≡ history_text ring.now writers.new h.items)) }
    ensures only { (h : List Entry) (names : List (List ℕ)) → IsHistoryOf ring.now writers.old names h
        → text.now ≡ history_text ring.now names h
        → Gives {A = List Entry × List (List ℕ)} (map_ok (λ h. (h.items, writers.new)) result) (Ok (h, names)) }
    ensures exact { Gives (map_ok (λ h. (h.items, writers.new)) result)
        (history_reading ring.now writers.old text.now) }
    ensures late { IfErr result
        (λ e. e ≡ OutOfMemory → NoFaultBefore 3 (history_reading ring.now writers.old text.now)) }
{
    // Proves the ring valid.
    let slots = ring.n();
    prove!(slots <= 7);
    read_whole(alloc, ring, writers, text)
}
