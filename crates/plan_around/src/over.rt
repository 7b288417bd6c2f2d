//! Steps that need no more nodes.

ghost use Rattle.std.specs.Prelude.{◌≡◌, ◌||◌, true, false, IsTrue};
ghost use Rattle.ring_names.specs.declared.refusal.Refusal.TheVariants.{AlreadyDone, NotOpen, NotReady};
ghost use Rattle.plan_runs.specs.World.{World as TheWorld};
ghost use Rattle.ring_core.specs.World.{Meets, Refuses};
ghost use Rattle.plan_around.specs.Apart.{is_whole};

use plan_runs::Event;
use plan_text::{Plan, Step};
use ring_core::World;
use ring_names::Refusal;

fn is_already(refusal: &Refusal) -> bool
    ensures { IsTrue result → refusal.now ≡ AlreadyDone }
{
    matches!(refusal, Refusal::AlreadyDone)
}

fn is_not_open(refusal: &Refusal) -> bool
    ensures { IsTrue result → refusal.now ≡ NotOpen }
{
    matches!(refusal, Refusal::NotOpen)
}

fn is_not_ready(refusal: &Refusal) -> bool
    ensures { IsTrue result → refusal.now ≡ NotReady }
{
    matches!(refusal, Refusal::NotReady)
}

fn has_happened(store: &World, event: &Event) -> bool
    ensures { IsTrue result → Refuses store.now event.now AlreadyDone }
{
    match store.allows(event) {
        Ok(()) => false,
        Err(refusal) => is_already(&refusal),
    }
}

fn is_closed_to(store: &World, event: &Event) -> bool
    ensures { IsTrue result → Refuses store.now event.now NotOpen }
{
    match store.allows(event) {
        Ok(()) => false,
        Err(refusal) => is_not_open(&refusal),
    }
}

fn is_whole(store: &World, number: u32) -> bool
    ensures { IsTrue result → (w : TheWorld) → Meets store.now w → is_whole w number ≡ true }
{
    match store.allows(&Event::CloseCopy(number)) {
        Ok(()) => true,
        Err(_) => false,
    }
}

fn is_copied(store: &World, number: u32) -> bool
    ensures { IsTrue result → (w : TheWorld) → Meets store.now w → w.done number ≡ true }
{
    let is_begun = has_happened(store, &Event::OpenCopy(number));
    let is_shut = is_closed_to(store, &Event::AbortCopy(number));
    is_begun && is_shut
}

fn is_done(store: &World, number: u32) -> bool
    ensures { IsTrue result → (w : TheWorld) → Meets store.now w → w.done number ≡ true }
{
    has_happened(store, &Event::Do(number))
}

pub(crate) fn is_to_come(store: &World, number: u32) -> bool
    ensures { IsTrue result → (w : TheWorld) → Meets store.now w → w.done number ≡ false }
{
    match store.allows(&Event::Do(number)) {
        Ok(()) => true,
        Err(refusal) => is_not_ready(&refusal),
    }
}

/// Whether the step is done, or open with all chunks marked.
pub(crate) fn is_over(store: &World, step: &Step, number: u32) -> bool
    ensures { IsTrue result → (w : TheWorld) → Meets store.now w → (w.done number || is_whole w number) ≡ true }
{
    match step {
        Step::Copy(_, _) => is_whole(store, number) || is_copied(store, number),
        Step::Join(_) | Step::Mirror(_, _) | Step::Switch(_) | Step::Drop(_, _) | Step::Retire(_) =>
            { is_done(store, number) }
    }
}

pub(crate) fn is_step_done(store: &World, plan: &Plan, number: u32) -> bool
    ensures { IsTrue result → (w : TheWorld) → Meets store.now w → w.done number ≡ true }
{
    if number >= plan.len() {
        return false;
    }
    match plan.step(number) {
        Step::Copy(_, _) => is_copied(store, number),
        Step::Join(_) | Step::Mirror(_, _) | Step::Switch(_) | Step::Drop(_, _) | Step::Retire(_) =>
            { is_done(store, number) }
    }
}
