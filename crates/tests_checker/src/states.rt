//! What a running store keeps about nodes, steps, slots, keys, puts and gets.

use crate::rings::{RING, ring_from};
use crate::same::{holds, same};
use ring_names::{Listed, NodeId, Slot, WriterId};
use ring_table::Ring;
use ring_versions::{Found, Versions};
use std::process::Abort;
use std::test::Fail;
use store_parts::{GetNow, Gets, Keys, Lasts, Marks, Nodes, PutNow, Puts, Slots, Steps};

const SLOT: Slot = Slot {
    partition: 0,
    index: 1,
};

fn nodes_started<RT: AllocGlobal + Abort>(rt: &RT, ring: &Ring) -> Result<(), Fail> {
    let nodes = Nodes::start(rt.alloc(), ring)?;
    holds!(rt; nodes.is_up(NodeId(0)));
    Ok(())
}

fn steps_started<RT: AllocGlobal + Abort>(rt: &RT) -> Result<(), Fail> {
    let steps = Steps::start(rt.alloc(), 5)?;
    same!(rt; steps.left(), 5);
    Ok(())
}

fn slots_started<RT: AllocGlobal + Abort>(rt: &RT, ring: &Ring) -> Result<(), Fail> {
    let slots = Slots::start(rt.alloc(), ring)?;
    same!(rt; slots.owner(SLOT), Some(NodeId(1)));
    Ok(())
}

fn started<RT: AllocGlobal + Abort>(rt: &RT, ring: &Ring) -> Result<(), Fail> {
    nodes_started(rt, ring)?;
    steps_started(rt)?;
    slots_started(rt, ring)
}

#[test]
fn parts_at_the_start(rt: HostRuntime) -> Result<(), Fail> {
    let ring = ring_from(rt.alloc(), RING)?;
    started(&rt, &ring)
}

// The key has that number, also if added before.
fn key_is<RT: Abort>(rt: &RT, keys: &mut Keys, key: &[u8], number: usize) -> Result<(), Fail> {
    let added = keys.add(key)?;
    same!(rt; added, number);
    Ok(())
}

fn keys_added<RT: Abort>(rt: &RT, keys: &mut Keys) -> Result<(), Fail> {
    key_is(rt, keys, b"a", 0)?;
    key_is(rt, keys, b"abc", 1)?;
    key_is(rt, keys, b"a", 0)
}

fn lasts_kept<RT: AllocGlobal + Abort>(rt: &RT) -> Result<(), Fail> {
    let mut lasts = Lasts::new(rt.alloc());
    lasts.set(0, WriterId(2), 9)?;
    same!(rt; lasts.get(0, WriterId(2)), Some(9));
    Ok(())
}

#[test]
#[tactic(auto, unfolding(ring_names::specs::Space::is_space))]
fn keys_numbered(rt: HostRuntime) -> Result<(), Fail> {
    lasts_kept(&rt)?;
    let mut keys = Keys::new(rt.alloc(), 4);
    keys_added(&rt, &mut keys)
}

fn puts_kept<RT: AllocGlobal + Abort>(rt: &RT) -> Result<(), Fail> {
    let mut puts = Puts::new(rt.alloc());
    puts.push(PutNow {
        key: 0,
        version: Versions::new(rt.alloc()),
        tickets: [None; 7],
        acked: false,
    })?;
    same!(rt; puts.len(), 1);
    Ok(())
}

fn gets_kept<RT: AllocGlobal + Abort>(rt: &RT) -> Result<(), Fail> {
    let mut gets = Gets::new(rt.alloc());
    gets.push(GetNow {
        key: 0,
        read: Marks::none(),
        found: Found::new(rt.alloc()),
        reply: None,
    })?;
    gets.end(0, Listed::from_vec(Vec::new(rt.alloc())));
    same!(rt; gets.len(), 1);
    Ok(())
}

#[test]
fn puts_and_gets(rt: HostRuntime) -> Result<(), Fail> {
    puts_kept(&rt)?;
    gets_kept(&rt)
}
