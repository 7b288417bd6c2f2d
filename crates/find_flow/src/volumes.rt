//! How much each node stores.

use crate::members::{Members, Role};
use ring_names::Refusal;
use std::alloc::Global;
use texts::{at, set_word, word};

// Loads and aims count 64ths of a unit, since shares are seldom whole. All sizes times a weight of 1,000 stay below
// 2^63 parts.
const PARTS: u64 = 64;

// Above all differences of loads by weight.
const MIDDLE: i64 = 4_611_686_018_427_387_904;

/// Each node's stored and due size. Empty without sizes.
#[derive(Drop)]
pub struct NodeVolumes {
    are_asked: bool,
    // by partition, in units of a power of two
    sizes: Vec<u32>,
    // the most that rounding adds to the sum of all partitions' sizes
    slack: u64,
    // by node, in parts
    loads: Vec<u64>,
    aims: Vec<u64>,
}

fn signed(parts: u64) -> i64 {
    i64::try_from(parts).unwrap_or(MIDDLE)
}

// The least power of two in which all sizes fit 32 bits.
fn unit_of(sizes: &[u64]) -> u64 {
    let mut most = 0u64;
    for size in sizes {
        most = most.max(*size);
    }
    let mut unit = 1u64;
    for _ in 0..32 {
        if most / 4_294_967_295 < unit {
            break;
        }
        unit = unit.saturating_mul(2);
    }
    unit
}

fn in_units(size: u64, unit: u64) -> u32 {
    let up = size.saturating_add(unit.saturating_sub(1));
    let units = up.checked_div(unit).unwrap_or(0);
    u32::try_from(units).unwrap_or(u32::MAX)
}

fn share(whole: u64, weight: u32, weights: u32) -> u64 {
    let all = whole.saturating_mul(u64::from(weight));
    match all.checked_div(u64::from(weights)) {
        Some(share) => share,
        None => 0,
    }
}

// The level to which staying members are filled or emptied.
#[derive(Clone, Copy)]
struct Level<'a> {
    members: &'a Members,
    is_rising: bool,
    // in parts by weight
    level: u64,
}

impl<'a> Level<'a> {
    fn aim(&self, load: u64, node: u32) -> u64 {
        let level = self
            .level
            .saturating_mul(u64::from(self.members.weight(node)));
        if self.is_rising {
            return load.max(level);
        }
        load.min(level)
    }

    fn sum(&self, loads: &[u64]) -> u64 {
        let mut sum = 0u64;
        for node in 0..self.members.count() {
            if self.members.role(node) == Role::Stays {
                sum = sum.saturating_add(self.aim(word(loads, node as usize), node));
            }
        }
        sum
    }

    // Finds the least level at which `wanted` is stored.
    fn rise(&mut self, loads: &[u64], wanted: u64) {
        let mut step = 1u64 << 56;
        for _ in 0..57 {
            let mut lower = *self;
            lower.level = self.level.saturating_add(step);
            if lower.sum(loads) < wanted {
                *self = lower;
            }
            step /= 2;
        }
        self.level = self.level.saturating_add(1);
    }
}

impl NodeVolumes {
    /// Starts empty.
    pub fn new(alloc: Global) -> NodeVolumes {
        NodeVolumes {
            are_asked: false,
            sizes: Vec::new(alloc),
            slack: 0,
            loads: Vec::new(alloc),
            aims: Vec::new(alloc),
        }
    }

    /// Sets the sizes, before any owners. If a size exceeds 32 bits, all are rounded up to a greater unit.
    pub fn fill(
        &mut self,
        alloc: Global,
        sizes: &[u64],
        partitions: usize,
        nodes: usize,
    ) -> Result<(), Refusal> {
        self.are_asked = true;
        let unit = unit_of(sizes);
        for partition in 0..partitions {
            let size = match sizes.get(partition) {
                Some(size) => *size,
                None => 1,
            };
            self.sizes.push(in_units(size, unit))?;
        }
        if unit > 1 {
            self.slack = (partitions as u64).saturating_mul(PARTS);
        }
        self.loads = vec![in alloc; 0u64; nodes]?;
        self.aims = vec![in alloc; 0u64; nodes]?;
        Ok(())
    }

    /// Whether there are sizes.
    pub fn are_asked(&self) -> bool {
        self.are_asked
    }

    /// The partition's size.
    pub fn size(&self, partition: usize) -> u32 {
        at(&self.sizes, partition)
    }

    /// The partition's size in parts.
    pub fn parts(&self, partition: usize) -> u64 {
        u64::from(self.size(partition)).saturating_mul(PARTS)
    }

    /// The greatest size in parts.
    pub fn most(&self) -> u64 {
        let mut most = 0u32;
        for size in self.sizes.iter() {
            most = most.max(*size);
        }
        u64::from(most).saturating_mul(PARTS)
    }

    /// Adds a slot of the partition to the load.
    pub fn add(&mut self, partition: usize, node: usize) {
        let load = word(&self.loads, node).saturating_add(self.parts(partition));
        set_word(&mut self.loads, node, load);
    }

    /// Removes a slot of the partition from the load.
    pub fn remove(&mut self, partition: usize, node: usize) {
        let load = word(&self.loads, node).saturating_sub(self.parts(partition));
        set_word(&mut self.loads, node, load);
    }

    fn all(&self) -> u64 {
        let mut all = 0u64;
        for partition in 0..self.sizes.len() {
            all = all.saturating_add(self.parts(partition));
        }
        all
    }

    /// Sets how much each member should store.
    ///
    /// Joining members get their shares, with at most one slot of each partition. Staying members are levelled by
    /// weight: they give what joiners lack, or take what leavers leave besides.
    pub fn aim(&mut self, members: &Members, slots: usize) {
        if !self.are_asked {
            return;
        }
        let one = self.all();
        let total = one.saturating_mul(slots as u64);
        let (mut left, mut kept) = (total, 0u64);
        for node in 0..members.count() {
            let place = node as usize;
            if members.role(node) == Role::Joins {
                let share = share(total, members.weight(node), members.weight).min(one);
                // Rounding may add this much to the share.
                let aim = share.saturating_sub(self.slack.saturating_mul(slots as u64));
                set_word(&mut self.aims, place, aim);
                left = left.saturating_sub(aim);
            } else if members.role(node) == Role::Stays {
                kept = kept.saturating_add(word(&self.loads, place));
            }
        }
        let mut level = Level {
            members,
            is_rising: kept <= left,
            level: 0,
        };
        level.rise(&self.loads, left);
        self.aim_at(level);
    }

    fn aim_at(&mut self, level: Level) {
        for node in 0..level.members.count() {
            if level.members.role(node) == Role::Stays {
                let load = word(&self.loads, node as usize);
                set_word(&mut self.aims, node as usize, level.aim(load, node));
            }
        }
    }

    /// The node's excess in parts.
    pub fn over(&self, node: u32) -> i64 {
        let (load, aim) = (
            word(&self.loads, node as usize),
            word(&self.aims, node as usize),
        );
        signed(load).saturating_sub(signed(aim))
    }

    /// The node's lack in parts.
    pub fn lack(&self, node: u32) -> u64 {
        word(&self.aims, node as usize).saturating_sub(word(&self.loads, node as usize))
    }

    /// The node's excess by weight. The smallest number means the greatest lack.
    pub fn fullness(&self, node: u32, weight: u32) -> u64 {
        let over = self.over(node).saturating_mul(64);
        let by = match over.checked_div(i64::from(weight)) {
            Some(by) => by,
            None => 0,
        };
        u64::try_from(by.saturating_add(MIDDLE)).unwrap_or(0)
    }

    /// The node's load by weight.
    pub fn load_by(&self, node: u32, weight: u32) -> u64 {
        match word(&self.loads, node as usize).checked_div(u64::from(weight)) {
            Some(by) => by,
            None => 0,
        }
    }
}
