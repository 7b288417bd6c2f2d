//! A copy's reads of a chunk.

ghost use Rattle.std.specs.Prelude.{◌≡◌, ◌<◌, true, Some, IfOk, IfErr, OnOk, OnErr};
ghost use Rattle.std.specs.List.{list_any};
ghost use Rattle.ring_names.specs.declared.refusal.Refusal.TheVariants.{OutOfMemory};
ghost use Rattle.store_maps.specs.Held.{held};
ghost use Rattle.store_maps.specs.Ids.{of_chunk};
ghost use Rattle.store_parts.specs.Numbers.{in_part, ArePlaced};
ghost use Rattle.store_parts.specs.PutsMeet.{clock_at};
ghost use Rattle.plan_text.specs.declared.step.Source.TheVariants.{Owner, Slots};
ghost use Rattle.plan_runs.specs.Effects.{source_has};
ghost use Rattle.plan_runs.specs.Versions.{some_hinted, slot_has};
ghost use Rattle.plan_runs.specs.World.{World, slot_at, stage_now};
ghost use Rattle.store_parts.specs.Parts.{ring_of, plan_of, Meets, IsSound, IsSized, Follows, Stays};
ghost use Rattle.store_events.specs.Parties.{mirror_kept};
ghost use Rattle.store_events.specs.Sources.{ShowsChunk, Takes, Gives, are_kept, is_kept, reads_kept};

use plan_text::Source;
use ring_hints::KeptFor;
use ring_names::{NodeId, Refusal, Slot};
use std::collections::BTreeSet;
use store_maps::KeyMap;
use store_parts::Parts;

fn add_owner(parts: &Parts, read: &mut KeyMap, slot: Slot, chunk: u32) -> Result<(), Refusal>
    requires chunk { chunk < 16 }
    requires sized { IsSized parts.now }
    requires kept { is_kept parts.now.slots slot ≡ true }
    ensures ok { OnOk result (Takes parts.now chunk (held read.old) (held read.new)
        (λ w. w.stored (stage_now (ring_of parts.now) (plan_of parts.now) w slot).owner.0 slot)) }
    ensures memory { IfErr result (λ e. e ≡ OutOfMemory) }
{
    let Some(owner) = parts.slots.owner(slot) else {
        unreachable!()
    };
    if let Some(map) = parts.stores.chunk_map(owner, slot, chunk) {
        read.take_in(map)?;
    }
    Ok(())
}

fn add_keepers(
    parts: &Parts,
    read: &mut KeyMap,
    keepers: &BTreeSet<NodeId>,
    slot: Slot,
    chunk: u32,
) -> Result<(), Refusal>
    requires chunk { chunk < 16 }
    requires sized { IsSized parts.now }
    ensures ok { OnOk result (Takes parts.now chunk (held read.old) (held read.new)
        (λ w v. list_any (λ keeper. w.hinted keeper.0 slot v) keepers.now.keys)) }
    ensures memory { IfErr result (λ e. e ≡ OutOfMemory) }
{
    'keepers: for keeper in keepers {
        let pair = KeptFor {
            keeper: *keeper,
            slot,
        };
        if let Some(map) = parts.hints.chunk_map(pair, chunk) {
            read.take_in(map)?;
        }
    }
    Ok(())
}

fn add_hints(parts: &Parts, read: &mut KeyMap, slot: Slot, chunk: u32) -> Result<(), Refusal>
    requires chunk { chunk < 16 }
    requires sized { IsSized parts.now }
    ensures ok { OnOk result (Takes parts.now chunk (held read.old) (held read.new)
        (λ w. some_hinted (ring_of parts.now) w slot)) }
    ensures memory { IfErr result (λ e. e ≡ OutOfMemory) }
{
    if let Some(keepers) = parts.hints.keepers(slot) {
        add_keepers(parts, read, keepers, slot, chunk)?;
    }
    Ok(())
}

fn add_slots(
    parts: &Parts,
    read: &mut KeyMap,
    partition: u32,
    from: &[u8],
    chunk: u32,
) -> Result<(), Refusal>
    requires chunk { chunk < 16 }
    requires sized { IsSized parts.now }
    requires kept { are_kept parts.now.slots partition from.now ≡ true }
    ensures ok { OnOk result (Takes parts.now chunk (held read.old) (held read.new)
        (λ w v. list_any (λ i. slot_has (ring_of parts.now) (plan_of parts.now) w (slot_at partition i) v) from.now)) }
    ensures memory { IfErr result (λ e. e ≡ OutOfMemory) }
{
    let mut rest = from;
    'slots: while let Some((index, later)) = rest.split_first() {
        let slot = Slot {
            partition,
            index: u32::from(*index),
        };
        add_owner(parts, read, slot, chunk)?;
        add_hints(parts, read, slot, chunk)?;
        rest = later;
    }
    Ok(())
}

fn read_slots(parts: &Parts, slot: Slot, from: &[u8], chunk: u32) -> Result<KeyMap, Refusal>
    requires chunk { chunk < 16 }
    requires sized { IsSized parts.now }
    requires kept { are_kept parts.now.slots slot.partition from.now ≡ true }
    ensures shows { IfOk result (λ read. (w : World) → Meets parts.now w
        → ShowsChunk (ring_of parts.now).q w (clock_at parts.now.puts) chunk (in_part parts.now.keys chunk (held read))
        (source_has (ring_of parts.now) (plan_of parts.now) w slot (Slots from.now))) }
    ensures placed { IfOk result (λ read. ArePlaced parts.now.keys (of_chunk chunk (held read))) }
    ensures memory { IfErr result (λ e. e ≡ OutOfMemory) }
{
    let mut read = KeyMap::new(parts.alloc);
    add_slots(parts, &mut read, slot.partition, from, chunk)?;
    Ok(read)
}

fn give_slots(
    parts: &mut Parts,
    mirror: NodeId,
    slot: Slot,
    from: &[u8],
    chunk: u32,
) -> Result<(), Refusal>
    requires chunk { chunk < 16 }
    requires sound { IsSound parts.old }
    requires kept { are_kept parts.old.slots slot.partition from.now ≡ true }
    requires mirror { mirror_kept parts.old.slots slot ≡ Some mirror }
    ensures ok { OnOk result (Gives parts.old parts.new mirror slot (Slots from.now) chunk) }
    ensures err { OnErr result (Stays parts.old parts.new) }
    ensures memory { IfErr result (λ e. e ≡ OutOfMemory) }
    ensures follows { Follows parts.old parts.new }
{
    let read = read_slots(parts, slot, from, chunk)?;
    parts.stores.give_chunk(mirror, slot, chunk, &read)
}

fn give_owner(parts: &mut Parts, mirror: NodeId, slot: Slot, chunk: u32) -> Result<(), Refusal>
    requires chunk { chunk < 16 }
    requires sound { IsSound parts.old }
    requires mirror { mirror_kept parts.old.slots slot ≡ Some mirror }
    ensures ok { OnOk result (Gives parts.old parts.new mirror slot Owner chunk) }
    ensures err { OnErr result (Stays parts.old parts.new) }
    ensures memory { IfErr result (λ e. e ≡ OutOfMemory) }
    ensures follows { Follows parts.old parts.new }
{
    let Some(owner) = parts.slots.owner(slot) else {
        unreachable!()
    };
    parts.stores.copy_chunk(owner, mirror, slot, chunk)
}

/// Gives the mirror a copy's chunk: the owner's map directly, or a map merged from the listed slots'.
pub(crate) fn give_source(
    parts: &mut Parts,
    mirror: NodeId,
    slot: Slot,
    source: &Source,
    chunk: u32,
) -> Result<(), Refusal>
    requires chunk { chunk < 16 }
    requires sound { IsSound parts.old }
    requires kept { reads_kept parts.old.slots slot source.now ≡ true }
    requires mirror { mirror_kept parts.old.slots slot ≡ Some mirror }
    ensures ok { OnOk result (Gives parts.old parts.new mirror slot source.now chunk) }
    ensures err { OnErr result (Stays parts.old parts.new) }
    ensures memory { IfErr result (λ e. e ≡ OutOfMemory) }
    ensures follows { Follows parts.old parts.new }
{
    match source {
        Source::Owner => give_owner(parts, mirror, slot, chunk),
        Source::Slots(from) => give_slots(parts, mirror, slot, from.as_slice(), chunk),
    }
}
