//! Down keepers of hints.

ghost use Rattle.std.specs.Prelude.{◌<◌, ◌&&◌, ◌==◌, None};
ghost use Rattle.std.specs.List.{list_any};
ghost use Rattle.plan_runs.specs.Guards.{keeps_source};
ghost use Rattle.plan_runs.specs.World.{World, slot_at};
ghost use Rattle.store_parts.specs.Nodes.{is_up_at};
ghost use Rattle.store_parts.specs.Parts.{ring_of, Meets, IsSized};
ghost use Rattle.store_events.specs.ChunkKeepers.{keeps_part, Lessens};
ghost use Rattle.store_parts.specs.LeastDown.{IsLeastDown};

use plan_text::Source;
use ring_names::{NodeId, Slot};
use std::collections::BTreeSet;
use store_parts::Parts;

// Returns the lesser of `least` and the keeper, if the keeper is down and keeps some of the chunk.
fn with_keeper(
    parts: &Parts,
    least: Option<NodeId>,
    keeper: NodeId,
    slot: Slot,
    chunk: u32,
) -> Option<NodeId>
    requires chunk { chunk < 16 }
    requires sized { IsSized parts.now }
    ensures { Lessens parts.now least result
        (λ w x. (x == keeper.0) && keeps_part (ring_of parts.now) w slot chunk keeper.0) }
{
    if parts.nodes.is_up(keeper) {
        return least;
    }
    if !parts.hints.keeps_chunk(keeper, slot, chunk) {
        return least;
    }
    let Some(first) = least else {
        return Some(keeper);
    };
    if first.0 < keeper.0 {
        return least;
    }
    Some(keeper)
}

fn with_keepers(
    parts: &Parts,
    found: Option<NodeId>,
    keepers: &BTreeSet<NodeId>,
    slot: Slot,
    chunk: u32,
) -> Option<NodeId>
    requires chunk { chunk < 16 }
    requires sized { IsSized parts.now }
    ensures { Lessens parts.now found result
        (λ w x. list_any (λ keeper. (x == keeper.0) && keeps_part (ring_of parts.now) w slot chunk keeper.0) keepers.now.keys) }
{
    let mut least = found;
    'keepers: for keeper in keepers {
        least = with_keeper(parts, least, *keeper, slot, chunk);
    }
    least
}

fn with_slot(parts: &Parts, found: Option<NodeId>, slot: Slot, chunk: u32) -> Option<NodeId>
    requires chunk { chunk < 16 }
    requires sized { IsSized parts.now }
    ensures { Lessens parts.now found result (λ w. keeps_part (ring_of parts.now) w slot chunk) }
{
    match parts.hints.keepers(slot) {
        Some(keepers) => with_keepers(parts, found, keepers, slot, chunk),
        None => found,
    }
}

fn with_slots(parts: &Parts, partition: u32, from: &[u8], chunk: u32) -> Option<NodeId>
    requires chunk { chunk < 16 }
    requires sized { IsSized parts.now }
    ensures { Lessens parts.now None result
        (λ w x. list_any (λ i. keeps_part (ring_of parts.now) w (slot_at partition i) chunk x) from.now) }
{
    let mut least = None;
    let mut rest = from;
    'slots: while let Some((index, later)) = rest.split_first() {
        let slot = Slot {
            partition,
            index: u32::from(*index),
        };
        least = with_slot(parts, least, slot, chunk);
        rest = later;
    }
    least
}

/// Returns the least down node that keeps some of a chunk that a copy reads.
pub(crate) fn least_keeper(parts: &Parts, slot: Slot, source: &Source, chunk: u32) -> Option<NodeId>
    requires chunk { chunk < 16 }
    requires sized { IsSized parts.now }
    ensures { (w : World) → Meets parts.now w
        → IsLeastDown (is_up_at parts.now.nodes) (keeps_source (ring_of parts.now) w slot source.now chunk) result }
{
    match source {
        Source::Owner => None,
        Source::Slots(from) => with_slots(parts, slot.partition, from.as_slice(), chunk),
    }
}
