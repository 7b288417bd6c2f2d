//! What nodes store and keep.

ghost use Rattle.std.specs.Prelude.{◌≢◌, ◌<◌, [], IfOk};
ghost use Rattle.ring_store.specs.Stores.{shared_space};

use crate::clocks::set_of;
use crate::same::{holds, same};
use ring_clock::Clock;
use ring_hints::{Hints, KeptFor, Pairs, Sets};
use ring_names::{NodeId, Refusal, Slot, WriterId};
use ring_store::{SlotKey, Stores};
use ring_versions::Versions;
use std::alloc::Global;
use std::process::Abort;
use std::test::Fail;
use store_maps::{KeyId, KeyMap, SlotMap};

const SLOT: Slot = Slot {
    partition: 0,
    index: 1,
};

const KEY: KeyId = KeyId {
    chunk: 3,
    number: 5,
};

const AT: SlotKey = SlotKey {
    slot: SLOT,
    key: KEY,
};

fn a_set(alloc: Global) -> Result<Versions, Refusal>
    ensures { IfOk result (λ set. set ≢ []) }
{
    let clock = Clock::new(alloc).bump(WriterId(0))?;
    set_of(alloc, 7, &clock)
}

fn merged_in_halves<RT: Abort>(rt: &RT, map: &mut KeyMap, set: &Versions) -> Result<(), Fail> {
    let fresh = map.prepare(1, set)?;
    holds!(rt; map.key_versions(1).is_none());
    map.settle(1, fresh);
    holds!(rt; map.key_versions(1).is_some());
    Ok(())
}

fn maps_merged<RT: Abort>(
    rt: &RT,
    set: &Versions,
    map: &mut KeyMap,
    first: &mut KeyMap,
) -> Result<(), Fail> {
    map.merge(0, set)?;
    merged_in_halves(rt, map, set)?;
    first.take_in(map)?;
    let fresh = first.prepare_all(map)?;
    first.settle_all(fresh);
    first.take_in(map)?;
    holds!(rt; first.key_versions(0).is_some());
    holds!(rt; first.try_copy()?.key_versions(1).is_some());
    Ok(())
}

#[test]
fn maps_of_keys(rt: HostRuntime) -> Result<(), Fail> {
    let set = a_set(rt.alloc())?;
    let mut map = KeyMap::new(rt.alloc());
    let mut first = KeyMap::new(rt.alloc());
    maps_merged(&rt, &set, &mut map, &mut first)
}

fn put_is_fresh<RT: AllocGlobal + Abort>(rt: &RT, set: &Versions) -> Result<(), Fail> {
    holds!(rt; !Versions::new(rt.alloc()).fresh_of(set)?.is_empty());
    same!(rt; set.puts()?.as_slice(), [7].as_slice());
    Ok(())
}

#[test]
fn puts_of_versions(rt: HostRuntime) -> Result<(), Fail> {
    let set = a_set(rt.alloc())?;
    put_is_fresh(&rt, &set)
}

fn kept<RT: Abort>(rt: &RT, pairs: &mut Pairs, sets: &mut Sets<u32, u32>) -> Result<(), Fail> {
    let pair = KeptFor {
        keeper: NodeId(3),
        slot: SLOT,
    };
    pairs.add(pair)?;
    holds!(rt; pairs.has_keeper(NodeId(3)));
    same!(rt; pairs.nth(0), Some(pair));
    sets.add(1, 2)?;
    holds!(rt; sets.values(&1).is_some());
    Ok(())
}

#[test]
fn keepers_of_slots(rt: HostRuntime) -> Result<(), Fail> {
    let mut pairs = Pairs::new(rt.alloc());
    let mut sets = Sets::new(rt.alloc());
    kept(&rt, &mut pairs, &mut sets)
}

fn numbered(number: u32) -> KeptFor {
    let slot = Slot {
        partition: number / 50,
        index: number % 7,
    };
    KeptFor {
        keeper: NodeId(number % 50),
        slot,
    }
}

fn stand_as<RT: Abort>(rt: &RT, pairs: &Pairs, list: &[KeptFor]) {
    for number in 0..3000u32 {
        same!(rt; pairs.nth(number), list.get(number as usize).copied());
    }
}

fn take_from_both<RT: Abort>(rt: &RT, pairs: &mut Pairs, list: &mut Vec<KeptFor>, place: usize) {
    if place < list.len() {
        let pair = list.swap_remove(place);
        pairs.remove(pair);
        holds!(rt; !pairs.has(pair));
    }
}

fn add_to_both(pairs: &mut Pairs, list: &mut Vec<KeptFor>, pair: KeptFor) -> Result<(), Fail> {
    if !list.contains(&pair) {
        list.push(pair)?;
    }
    pairs.add(pair)?;
    Ok(())
}

#[test]
fn numbers_of_pairs(rt: HostRuntime) -> Result<(), Fail> {
    let mut pairs = Pairs::new(rt.alloc());
    let mut list = Vec::new(rt.alloc());
    for number in 0..3000u32 {
        pairs.add(numbered(number))?;
        list.push(numbered(number))?;
    }
    stand_as(&rt, &pairs, list.as_slice());
    for turn in 0..2999u32 {
        take_from_both(&rt, &mut pairs, &mut list, (turn * 7 % 1000) as usize);
        if turn % 5 == 0 {
            add_to_both(&mut pairs, &mut list, numbered(turn))?;
        }
        if turn % 500 == 0 {
            stand_as(&rt, &pairs, list.as_slice());
        }
    }
    stand_as(&rt, &pairs, list.as_slice());
    Ok(())
}

fn count_of(set: &Versions) -> usize {
    let mut count = 0_usize;
    let mut walk = set.versions();
    'versions: while let Some(_) = walk.next() {
        count = count.wrapping_add(1);
    }
    count
}

fn versions_of<RT: Abort>(rt: &RT, stores: &Stores, node: NodeId, count: usize) {
    let found = match stores.key_versions_in(node, &AT) {
        Some(versions) => count_of(versions),
        None => 0,
    };
    same!(rt; found, count);
}

// Copies a one-key chunk between nodes; then one of them gets another version.
fn copied_apart<RT: Abort>(
    rt: &RT,
    stores: &mut Stores,
    set: &Versions,
    more: &Versions,
    writer: NodeId,
    reader: NodeId,
) -> Result<(), Fail>
    requires { 0 < shared_space stores.old }
{
    stores.give(&AT, NodeId(0), None, set)?;
    stores.copy_chunk(NodeId(0), NodeId(1), SLOT, KEY.chunk)?;
    stores.give(&AT, writer, None, more)?;
    versions_of(rt, stores, writer, 2);
    versions_of(rt, stores, reader, 1);
    Ok(())
}

#[test]
fn copies_of_chunks(rt: HostRuntime) -> Result<(), Fail> {
    let set = a_set(rt.alloc())?;
    let more = set_of(rt.alloc(), 8, &Clock::new(rt.alloc()).bump(WriterId(1))?)?;
    let mut first = Stores::start(rt.alloc(), 4)?;
    let mut second = Stores::start(rt.alloc(), 4)?;
    copied_apart(&rt, &mut first, &set, &more, NodeId(0), NodeId(1))?;
    copied_apart(&rt, &mut second, &set, &more, NodeId(1), NodeId(0))
}

// The second node gets the key with its slot or chunk, and loses it each time.
fn given<RT: Abort>(rt: &RT, stores: &mut Stores, map: &SlotMap) -> Result<(), Fail>
    requires { 0 < shared_space stores.old }
{
    stores.give_slot(SLOT, NodeId(0), Some(NodeId(1)), map)?;
    versions_of(rt, stores, NodeId(1), 1);
    stores.drop_slot(NodeId(1), SLOT);
    versions_of(rt, stores, NodeId(1), 0);
    stores.give_chunk(NodeId(1), SLOT, KEY.chunk, map.chunk(KEY.chunk))?;
    versions_of(rt, stores, NodeId(1), 1);
    stores.clear(NodeId(1));
    holds!(rt; stores.chunk_map(NodeId(1), SLOT, KEY.chunk).is_none());
    versions_of(rt, stores, NodeId(0), 1);
    Ok(())
}

#[test]
fn stores_of_nodes(rt: HostRuntime) -> Result<(), Fail> {
    let set = a_set(rt.alloc())?;
    let mut stores = Stores::start(rt.alloc(), 4)?;
    let mut map = SlotMap::new(rt.alloc());
    holds!(rt; map.is_empty());
    map.merge(KEY, &set)?;
    holds!(rt; map.key_versions(KEY).is_some());
    given(&rt, &mut stores, &map)
}

fn kept_by<RT: Abort>(rt: &RT, hints: &Hints, count: usize) {
    let found = match hints.key_keepers(SLOT, KEY) {
        Some(nodes) => nodes.len(),
        None => 0,
    };
    same!(rt; found, count);
}

// All ways to read a node's hints agree.
fn kept_for<RT: Abort>(rt: &RT, hints: &Hints, pair: KeptFor) {
    kept_by(rt, hints, 1);
    holds!(rt; hints.keeps(pair.keeper, pair.slot));
    holds!(rt; hints.keeps_any(pair.keeper));
    holds!(rt; !hints.keeps_other(pair.keeper, pair.slot));
    holds!(rt; hints.keeps_chunk(pair.keeper, pair.slot, KEY.chunk));
    holds!(rt; hints.keepers(pair.slot).is_some());
    same!(rt; hints.nth(0), Some((pair.keeper, pair.slot)));
    holds!(rt; hints.map(pair).is_some());
    holds!(rt; hints.chunk_map(pair, KEY.chunk).is_some());
    holds!(rt; hints.key_versions_in(pair, KEY).is_some());
}

fn hinted<RT: Abort>(rt: &RT, hints: &mut Hints, set: &Versions) -> Result<(), Fail>
    requires { set.now ≢ [] }
{
    let pair = KeptFor {
        keeper: NodeId(3),
        slot: SLOT,
    };
    hints.add_set(pair, KEY, set)?;
    kept_for(rt, hints, pair);
    holds!(rt; hints.take(pair.keeper, SLOT).is_some());
    kept_by(rt, hints, 0);
    hints.add_set(pair, KEY, set)?;
    hints.drop_keeper(pair.keeper);
    kept_by(rt, hints, 0);
    Ok(())
}

#[test]
fn hints_of_keepers(rt: HostRuntime) -> Result<(), Fail> {
    let set = a_set(rt.alloc())?;
    let mut hints = Hints::new(rt.alloc());
    hinted(&rt, &mut hints, &set)
}
