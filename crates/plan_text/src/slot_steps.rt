//! Each slot's steps.

ghost use Rattle.std.specs.Prelude.{◌≡◌, ◌<◌, ◌≤◌, ◌==◌, ℕ, true, [], ◌++◌, ◌∷◌, length, if◌then◌else◌, IfErr, OnOk, OnErr};
ghost use Rattle.ring_names.specs.declared.ids.Slot.{Slot as TheSlot};
ghost use Rattle.ring_names.specs.declared.refusal.Refusal.TheVariants.{OutOfMemory};
ghost use Rattle.plan_text.specs.Steps.{is_slot};
ghost use Rattle.plan_text.specs.SlotSteps.{has_place, place_of, list_at, numbers_at};

use ring_names::{Listed, Lists, Refusal, Slot};
use std::alloc::Global;

/// Each slot's steps. Slots that no ring has are in a map.
#[derive(Drop)]
pub struct SlotSteps {
    alloc: Global,
    placed: Vec<Listed<u32>>,
    others: Lists<Slot, u32>,
}

fn has_place(slot: Slot) -> bool
    ensures { result ≡ has_place slot }
{
    slot.partition < 4096 && slot.index < 7
}

fn place_of(slot: Slot) -> usize
    requires { has_place slot ≡ true }
    ensures { result ≡ place_of slot }
{
    7 * slot.partition as usize + slot.index as usize
}

fn at(lists: &[Listed<u32>], place: usize) -> &[u32]
    ensures { result.now ≡ list_at lists.now place }
{
    match lists.get(place) {
        Some(list) => list.as_slice(),
        None => &[],
    }
}

fn lengthen(alloc: Global, lists: &mut Vec<Listed<u32>>, count: usize) -> Result<(), Refusal>
    ensures same { (k : ℕ) → list_at lists.new.items k ≡ list_at lists.old.items k }
    ensures room { OnOk result (count ≤ length lists.new.items) }
    ensures memory { IfErr result (λ e. e ≡ OutOfMemory) }
{
    'lists: while lists.len() < count {
        lists.push(Listed::from_vec(Vec::new(alloc)))?;
    }
    Ok(())
}

fn add_at(
    alloc: Global,
    lists: &mut Vec<Listed<u32>>,
    place: usize,
    number: u32,
) -> Result<(), Refusal>
    requires { place < 28672 }
    ensures ok { OnOk result ((k : ℕ) → list_at lists.new.items k
        ≡ (if k == place then list_at lists.old.items k ++ number ∷ [] else list_at lists.old.items k)) }
    ensures err { OnErr result ((k : ℕ) → list_at lists.new.items k ≡ list_at lists.old.items k) }
    ensures memory { IfErr result (λ e. e ≡ OutOfMemory) }
{
    lengthen(alloc, lists, place + 1)?;
    lists[place].push(number)?;
    Ok(())
}

impl SlotSteps {
    /// Starts empty.
    pub fn new(alloc: Global) -> SlotSteps
        ensures { (s : TheSlot) → numbers_at result s ≡ [] }
    {
        SlotSteps {
            alloc,
            placed: Vec::new(alloc),
            others: Lists::new(alloc),
        }
    }

    /// Returns the slot's steps, in the order of addition.
    #[inline(always)]
    pub fn items(&self, slot: Slot) -> &[u32]
        ensures { result.now ≡ numbers_at self.now slot }
    {
        if has_place(slot) {
            at(self.placed.as_slice(), place_of(slot))
        } else {
            self.others.items(&slot)
        }
    }

    /// Adds the number to the slot's list.
    #[inline(always)]
    pub fn add(&mut self, slot: Slot, number: u32) -> Result<(), Refusal>
        ensures ok { OnOk result ((s : TheSlot) → numbers_at self.new s
            ≡ (if is_slot s slot then numbers_at self.old s ++ number ∷ [] else numbers_at self.old s)) }
        ensures err { OnErr result ((s : TheSlot) → numbers_at self.new s ≡ numbers_at self.old s) }
        ensures memory { IfErr result (λ e. e ≡ OutOfMemory) }
    {
        if has_place(slot) {
            add_at(self.alloc, &mut self.placed, place_of(slot), number)
        } else {
            self.others.add(slot, number)
        }
    }
}
