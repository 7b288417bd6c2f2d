//! A history's writers and nodes.

ghost use Rattle.std.specs.Prelude.{◌↔◌, IsTrue, length};
ghost use Rattle.script_text.specs.Valid.{IsKnown};
ghost use Rattle.history_text.specs.Known.{AreKnownEntries};
ghost use Rattle.ring_table.specs.Value.{names_of};

use plan_runs::{Entry, Event};
use ring_names::Names;
use ring_table::Ring;

fn is_known(ring: &Ring, writers: &Names, event: &Event) -> bool
    ensures { IsTrue result ↔ IsKnown (length (names_of ring.now)) (length writers.now) event.now }
{
    match event {
        Event::StartPut(writer, _, _, _) => writer.0 < writers.len(),
        Event::Hint(_, _, node)
        | Event::Down(node)
        | Event::Up(node)
        | Event::Handoff(node, _)
        | Event::Lose(node) => (node.0 as usize) < ring.nodes().len(),
        _ => true,
    }
}

/// Whether each event's writer is among the names, and its node in the ring.
pub fn are_known(ring: &Ring, writers: &Names, history: &[Entry]) -> bool
    ensures { IsTrue result ↔ AreKnownEntries ring.now writers.now history.now }
{
    let mut rest = history;
    'entries: while let Some((first, later)) = rest.split_first() {
        if !is_known(ring, writers, &first.event) {
            return false;
        }
        rest = later;
    }
    true
}
