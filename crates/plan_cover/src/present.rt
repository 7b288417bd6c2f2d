//! Each slot's servers during a plan.

ghost use Rattle.std.specs.Prelude.{◌≡◌, ◌<◌, Some, None, true, unwrap_or, length, IfErr, IfOk, if◌then◌else◌};
ghost use Rattle.ring_names.specs.declared.ids.Slot.{Slot as TheSlot};
ghost use Rattle.ring_names.specs.declared.refusal.Refusal.TheVariants.{OutOfMemory};
ghost use Rattle.ring_table.specs.Value.{RingValue, owner_of};
ghost use Rattle.plan_text.specs.Steps.{is_slot, is_on};
ghost use Rattle.plan_text.specs.Valid.{step_suits};
ghost use Rattle.plan_cover.specs.Looking.Serving.{place_of, kept_at, serving_at, HasRoom, after_step};

use plan_text::Step;
use ring_names::{NodeId, Refusal, Slot};
use ring_table::Ring;
use std::alloc::Global;

/// A slot's owner, and its mirror.
#[derive(Clone, Copy, Debug)]
pub struct Serving {
    pub owner: NodeId,
    pub mirror: Option<NodeId>,
}

// A slot's place, counting 7 for each partition.
fn place_of(slot: Slot) -> usize
    ensures { result ≡ place_of slot }
{
    7 * slot.partition as usize + slot.index as usize
}

/// Each slot's servers after a plan's first steps. A slot without an entry has the ring's owner.
#[derive(Drop)]
pub struct Present {
    slots: Vec<Option<Serving>>,
}

impl Present {
    /// Starts before the first step.
    pub fn new(alloc: Global, ring: &Ring) -> Result<Present, Refusal>
        ensures room { IfOk result (λ a. HasRoom ring.now a) }
        ensures ok { IfOk result (λ a. (s : TheSlot) → serving_at ring.now a s
            ≡ record { owner = unwrap_or (owner_of ring.now s) (record { 0 = 0 }); mirror = None }) }
        ensures memory { IfErr result (λ e. e ≡ OutOfMemory) }
    {
        let slots = vec![in alloc; None; 7 * ring.q() as usize]?;
        Ok(Present { slots })
    }

    fn kept(&self, slot: Slot) -> Option<Serving>
        ensures { result ≡ kept_at self.now slot }
    {
        if slot.index < 7 {
            if let Some(serving) = self.slots.get(place_of(slot)) {
                return *serving;
            }
        }
        None
    }

    /// Returns the slot's servers.
    pub fn at(&self, ring: &Ring, slot: Slot) -> Serving
        requires partition { slot.partition < ring.now.q }
        requires index { slot.index < ring.now.n }
        ensures { result ≡ serving_at ring.now self.now slot }
    {
        match self.kept(slot) {
            Some(serving) => serving,
            None => Serving {
                owner: ring.owner(slot),
                mirror: None,
            },
        }
    }

    fn set(&mut self, slot: Slot, serving: Serving)
        requires room { place_of slot < length self.old.slots.items }
        requires index { slot.index < 7 }
        ensures kept { (s : TheSlot)
            → kept_at self.new s ≡ (if is_slot s slot then Some serving else kept_at self.old s) }
        ensures room { length self.new.slots.items ≡ length self.old.slots.items }
    {
        self.slots[place_of(slot)] = Some(serving);
    }

    /// Applies a step.
    pub fn act(&mut self, ring: &Ring, step: &Step)
        requires suits { step_suits ring.now step.now ≡ true }
        requires room { HasRoom ring.now self.old }
        ensures serving { (s : TheSlot) → serving_at ring.now self.new s ≡ (if is_on s step.now then after_step
            (serving_at ring.now self.old s) step.now else serving_at ring.now self.old s) }
        ensures room { HasRoom ring.now self.new }
    {
        // A partition has at most 7 slots.
        let slots = ring.n();
        prove!(slots <= 7);
        match step {
            Step::Mirror(slot, node) => {
                let Serving { owner, mirror: _ } = self.at(ring, *slot);
                let mirror = Some(*node);
                self.set(*slot, Serving { owner, mirror });
            }
            Step::Switch(slot) => {
                let Serving { owner, mirror } = self.at(ring, *slot);
                let owner = mirror.unwrap_or(owner);
                self.set(
                    *slot,
                    Serving {
                        owner,
                        mirror: None,
                    },
                );
            }
            Step::Copy(_, _) | Step::Drop(_, _) | Step::Join(_) | Step::Retire(_) => {}
        }
    }
}
