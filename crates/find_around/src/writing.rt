//! Writes kept steps, in the old order if dependencies allow.

use crate::around::Search;
use crate::needs::Needs;
use crate::sources::CopyListing;
use find_rounds::add;
use plan_text::{Indexes, Plan, Source, Step};
use ring_names::{NodeId, Refusal, Slot};
use std::alloc::Global;
use std::collections::BinaryHeap;
use texts::{at, lower, raise, set, small};

#[derive(Drop)]
pub(crate) struct Written {
    pub(crate) plan: Plan,
    pub(crate) olds: Vec<u32>,
    pub(crate) numbers: Vec<Option<u32>>,
}

// Ready steps, the old plan's first on top.
#[derive(Drop)]
struct Ready {
    heap: BinaryHeap<u32>,
}

impl Ready {
    fn push(&mut self, step: u32) -> Result<(), Refusal> {
        self.heap.push(u32::MAX.saturating_sub(step))?;
        Ok(())
    }

    fn pop(&mut self) -> Option<u32> {
        let top = self.heap.pop()?;
        Some(u32::MAX.saturating_sub(top))
    }
}

pub(crate) fn write(search: &Search, needs: Needs) -> Result<Written, Refusal> {
    let olds = search.sorted(&needs)?;
    let places = search.places(olds.as_slice())?;
    let mut plan = Plan::new(search.task.alloc);
    for step in olds.iter() {
        let after = search.after(&needs, places.as_slice(), *step)?;
        let new = search.step(*step)?;
        let _ = add(&mut plan, new, after.as_slice())?;
    }
    let mut numbers = Vec::new(search.task.alloc);
    for step in 0..search.task.plan.len() {
        let place = at(places.as_slice(), step as usize);
        let stays = place != 0 && search.is_fixed(step);
        numbers.push(if stays {
            Some(place.saturating_sub(1))
        } else {
            None
        })?;
    }
    Ok(Written {
        plan,
        olds,
        numbers,
    })
}

fn listed(alloc: Global, slot: Slot, listing: &CopyListing) -> Result<Step, Refusal> {
    let mut slots = Vec::new(alloc);
    for index in 0..7u32 {
        if let Some(Some(_)) = listing.ways.get(index as usize) {
            slots.push(index)?;
        }
    }
    match Indexes::of(&slots) {
        Some(indexes) => Ok(Step::Copy(slot, Source::Slots(indexes))),
        None => Err(Refusal::NoPlan),
    }
}

impl Search<'_> {
    fn begin_sorting(
        &self,
        needs: &Needs,
        waits: &mut [u32],
        later: &mut Needs,
        ready: &mut Ready,
    ) -> Result<usize, Refusal> {
        let mut kept = 0usize;
        for step in 0..self.task.plan.len() {
            if !self.is_gone(step) {
                kept = kept.saturating_add(1);
                for other in needs.row(step) {
                    raise(waits, step as usize);
                    later.add(*other, step)?;
                }
                if needs.row(step).is_empty() {
                    ready.push(step)?;
                }
            }
        }
        Ok(kept)
    }

    /// Sorts kept steps by dependencies, then by the old order. Fails with `NoPlan` on a cycle.
    pub(crate) fn sorted(&self, needs: &Needs) -> Result<Vec<u32>, Refusal> {
        let count = self.task.plan.len();
        let mut waits = vec![in self.task.alloc; 0u32; count as usize]?;
        let mut later = Needs::of(self.task.alloc, count as usize)?;
        let mut ready = Ready {
            heap: BinaryHeap::new(self.task.alloc),
        };
        let kept = self.begin_sorting(needs, waits.as_mut_slice(), &mut later, &mut ready)?;
        let mut order = Vec::new(self.task.alloc);
        for turn in 0..count {
            let Some(step) = ready.pop() else {
                break;
            };
            order.push(step)?;
            for other in later.row(step) {
                lower(waits.as_mut_slice(), *other as usize);
                if at(waits.as_slice(), *other as usize) == 0 {
                    ready.push(*other)?;
                }
            }
        }
        if order.len() < kept {
            return Err(Refusal::NoPlan);
        }
        Ok(order)
    }

    // By old step, 1 plus its new number, or 0.
    fn places(&self, olds: &[u32]) -> Result<Vec<u32>, Refusal> {
        let mut places = vec![in self.task.alloc; 0u32; self.task.plan.len() as usize]?;
        for place in 0..olds.len() {
            set(
                places.as_mut_slice(),
                at(olds, place) as usize,
                small(place).saturating_add(1),
            );
        }
        Ok(places)
    }

    // Dependencies by new numbers, ascending, each once.
    fn after(&self, needs: &Needs, places: &[u32], step: u32) -> Result<Vec<u32>, Refusal> {
        let mut numbers = Vec::new(self.task.alloc);
        for other in needs.row(step) {
            let place = at(places, *other as usize);
            numbers.push(place.saturating_sub(1))?;
        }
        numbers.sort_unstable();
        let mut after = Vec::new(self.task.alloc);
        let mut last = None;
        for number in numbers.iter() {
            if last != Some(*number) {
                after.push(*number)?;
            }
            last = Some(*number);
        }
        Ok(after)
    }

    fn step(&self, number: u32) -> Result<Step, Refusal> {
        let alloc = self.task.alloc;
        if number >= self.task.plan.len() {
            return Err(Refusal::NoPlan);
        }
        let it = self.moves.at(self.moves.of_step(number));
        Ok(match self.task.plan.step(number) {
            Step::Join(node) => Step::Join(*node),
            Step::Mirror(slot, node) => Step::Mirror(
                *slot,
                match it {
                    Some(it) => NodeId(it.target),
                    None => *node,
                },
            ),
            Step::Copy(slot, source) => match self.listings.get(&number) {
                Some(listing) => listed(alloc, *slot, listing)?,
                None => Step::Copy(*slot, source.copy()),
            },
            Step::Switch(slot) => Step::Switch(*slot),
            Step::Drop(slot, node) => match it {
                Some(it) if !self.is_done(number) => Step::Drop(*slot, NodeId(it.source)),
                _ => Step::Drop(*slot, *node),
            },
            Step::Retire(node) => Step::Retire(*node),
        })
    }
}
