//! Marks: hashes of all that a store tells.

use ring_core::World;
use ring_names::{NodeId, Refusal};

/// The mark of nothing.
pub const NONE: u64 = 14_695_981_039_346_656_037;

/// Adds a number to the mark (FNV-1a, with numbers for bytes).
pub fn mixed(mark: u64, number: u64) -> u64 {
    (mark ^ number).wrapping_mul(1_099_511_628_211)
}

fn with_puts(world: &World, mark: u64) -> u64 {
    let mut mark = mark;
    for put in 0..world.puts() {
        mark = mixed(mark, world.held_slots(put) as u64);
    }
    mark
}

fn with_transfers(world: &World, mark: u64) -> u64 {
    let mut mark = mark;
    for number in 0..8 {
        let node = NodeId(number);
        mark = mixed(mark, world.open_transfers(node) as u64);
        mark = mixed(mark, world.open_take(node) as u64);
        mark = mixed(mark, world.open_give(node) as u64);
    }
    mark
}

fn with_hints(world: &World, mark: u64) -> u64 {
    let mut mark = mark;
    for n in 0..16 {
        if let Some((keeper, slot)) = world.hint_at(n) {
            mark = mixed(mark, keeper.0 as u64);
            mark = mixed(mark, slot.partition as u64);
            mark = mixed(mark, slot.index as u64);
        }
    }
    mark
}

fn with_owners(world: &World, mark: u64) -> Result<u64, Refusal> {
    let table = world.table()?;
    let mut mark = mark;
    for row in table.as_slice() {
        for owner in row.as_slice() {
            mark = mixed(mark, owner.0 as u64);
        }
    }
    Ok(mark)
}

/// A store's mark: puts, gets, steps, hints and open transfers, the slots of each put, and the table.
pub fn mark(world: &World) -> Result<u64, Refusal> {
    let counts = mixed(mixed(NONE, world.puts() as u64), world.gets() as u64);
    let steps = mixed(mixed(counts, world.left() as u64), step(world.ready(0)));
    with_owners(
        world,
        with_hints(world, with_transfers(world, with_puts(world, steps))),
    )
}

/// The step's number, or one that no step has.
pub fn step(step: Option<u32>) -> u64 {
    match step {
        Some(step) => step as u64,
        None => 4_294_967_296,
    }
}
