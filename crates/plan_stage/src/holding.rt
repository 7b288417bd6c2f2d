//! How long nodes hold a partition's slots.

ghost use Rattle.std.specs.Prelude.{◌≡◌, ◌<◌, IfOk, IfErr, option_copied, slice_get};
ghost use Rattle.ring_names.specs.declared.refusal.Refusal.TheVariants.{OutOfMemory};
ghost use Rattle.plan_stage.specs.Clauses.{IsStagedSlot, IsStagedIn};
ghost use Rattle.plan_stage.specs.Looking.Held.{held_of, held_at, IsHeld, AreHeld};

use crate::behind::Behind;
use crate::held::Held;
use plan_text::Plan;
use ring_names::{Refusal, Slot};
use ring_table::Ring;
use std::alloc::Global;

/// A period in which a node holds versions of a slot, by step numbers.
#[derive(Clone, Copy, Debug)]
pub struct Holding {
    /// The slot's mirror step. None for the first owner.
    pub begin: Option<u32>,
    /// After this step, if any, the node no longer owns the slot.
    pub end: Option<u32>,
    /// The node's next drop of the slot's versions.
    pub drop: Option<u32>,
}

// The last holding comes first. Costs one pass over the slot's steps.
fn slot_holdings(alloc: Global, ring: &Ring, plan: &Plan, slot: Slot) -> Result<Held, Refusal>
    requires partition { slot.partition < ring.now.q }
    requires index { slot.index < ring.now.n }
    requires staged { IsStagedSlot ring.now plan.now slot }
    ensures ok { IfOk result (λ a. IsHeld ring.now plan.now slot (held_of a)) }
    ensures memory { IfErr result (λ e. e ≡ OutOfMemory) }
{
    let mut behind = Behind::new(alloc);
    let numbers = plan.slot_steps(slot);
    for k in (0..numbers.len()).rev() {
        behind.add(plan.step(numbers[k]), numbers[k])?;
    }
    let end = behind.next_switch;
    behind.begin(ring.owner(slot), None, end)?;
    Ok(behind.into_held())
}

/// Each node's holdings of a partition's slots, by slot index.
#[derive(Drop)]
pub struct Holdings {
    slots: Vec<Held>,
}

impl Holdings {
    /// Returns a partition's holdings. Costs one pass over its steps.
    pub fn of(alloc: Global, ring: &Ring, plan: &Plan, partition: u32) -> Result<Holdings, Refusal>
        requires partition { partition < ring.now.q }
        requires staged { IsStagedIn ring.now plan.now partition }
        ensures ok { IfOk result (λ a. AreHeld ring.now plan.now partition a) }
        ensures memory { IfErr result (λ e. e ≡ OutOfMemory) }
    {
        let mut slots = Vec::with_capacity(alloc, ring.n() as usize)?;
        for index in 0..ring.n() {
            slots.push(slot_holdings(alloc, ring, plan, Slot { partition, index })?)?;
        }
        Ok(Holdings { slots })
    }

    /// Returns a slot's holdings, the last first.
    pub fn slot(&self, index: u32) -> Option<&Held>
        ensures { option_copied result ≡ slice_get self.now.slots.items index }
    {
        self.slots.get(index as usize)
    }
}
