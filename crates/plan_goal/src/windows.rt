//! A plan's windows: bundles, each over the ring after the previous one.

ghost use Rattle.std.specs.Prelude.{◌≡◌, ℕ, List, [], ◌∷◌, ◌++◌, Option, IfOk, IsTrue};
ghost use Rattle.ring_table.specs.Spelling.{ring_text};
ghost use Rattle.plan_check.specs.Approval.{IsApproved};
ghost use Rattle.plan_goal.specs.declared.windows.Asked.TheVariants.{After};
ghost use Rattle.plan_goal.specs.Rings.{ring_left};
ghost use Rattle.plan_goal.specs.Windows.{IsWindow, AreKept, AreAskedOf, IsAsked, Keeps};

use crate::cutting::cut;
use crate::pieces::is_cut;
use crate::proposed::write_front;
use crate::rings::ring_after;
use crate::room::Room;
use find_chains::certificate;
use plan_check::{Approved, Turned, check};
use plan_moves::rounds;
use plan_text::Plan;
use ring_names::Refusal;
use ring_table::{Ring, write_ring};
use std::alloc::Global;

#[derive(Drop)]
struct Window {
    text: Vec<u8>,
    next: Ring,
}

fn window_over(alloc: Global, ring: Ring, plan: Plan) -> Result<Window, Refusal>
    ensures window { IfOk result (λ w. IsWindow ring plan w.text.items) }
    ensures next { IfOk result (λ w. w.next ≡ ring_left ring plan) }
{
    if !plan.suits(&ring) {
        return Err(Refusal::NoPlan);
    }
    let found = certificate(alloc, &ring, &plan)?;
    let text = write_front(alloc, &ring, &plan, &found.cert)?;
    match check(alloc, ring, plan, &found.cert) {
        Ok(approved) => {
            let next = ring_after(alloc, &approved)?;
            Ok(Window { text, next })
        }
        Err(Turned { refusal, .. }) => Err(refusal),
    }
}

/// Whether the rings have the same text.
pub fn is_same_ring(alloc: Global, one: &Ring, other: &Ring) -> Result<bool, Refusal>
    ensures { IfOk result (λ is. IsTrue is → ring_text one.now ≡ ring_text other.now) }
{
    let text = write_ring(alloc, one)?;
    Ok(text.as_slice() == write_ring(alloc, other)?.as_slice())
}

#[derive(Drop)]
enum Asked {
    // All windows, in order.
    All(Vec<u8>),
    // The number of windows left before the wanted one.
    After(u32),
    // The wanted window.
    Found(Vec<u8>),
}

impl Asked {
    fn new(alloc: Global, only: Option<u32>) -> Asked
        ensures { Keeps only [] result }
    {
        match only {
            Some(number) => Asked::After(number.saturating_sub(1)),
            None => Asked::All(Vec::new(alloc)),
        }
    }

    fn pass(left: u32, text: Vec<u8>) -> Asked
        ensures { (only : Option ℕ) (texts : List (List ℕ)) → Keeps only texts (After left) → Keeps only (texts ++ text.items ∷ []) result }
    {
        if left == 0 {
            return Asked::Found(text);
        }
        Asked::After(left - 1)
    }

    fn add(self, text: Vec<u8>) -> Result<Asked, Refusal>
        ensures { IfOk result (λ asked. (only : Option ℕ) (texts : List (List ℕ)) → Keeps only texts self → Keeps only (texts ++ text.items ∷ []) asked) }
    {
        match self {
            Asked::All(mut all) => {
                all.extend_from_slice(text.as_slice())?;
                Ok(Asked::All(all))
            }
            Asked::After(left) => Ok(Asked::pass(left, text)),
            Asked::Found(found) => Ok(Asked::Found(found)),
        }
    }

    fn end(self) -> Result<Vec<u8>, Refusal>
        ensures { IfOk result (λ v. (only : Option ℕ) (texts : List (List ℕ)) → Keeps only texts self → IsAsked texts only v.items) }
    {
        match self {
            Asked::All(text) | Asked::Found(text) => Ok(text),
            Asked::After(_) => Err(Refusal::NoPlan),
        }
    }
}

#[derive(Drop)]
struct Windows {
    asked: Asked,
    next: Ring,
}

// Fails with `TooLarge(0)` once `MAX_WINDOWS` is sure to be exceeded.
fn all_windows(
    alloc: Global,
    first: Ring,
    plans: Vec<Plan>,
    mut room: Room,
    only: Option<u32>,
) -> Result<Windows, Refusal>
    ensures { IfOk result (λ w. AreKept first plans.items only w.asked w.next) }
{
    let mut asked = Asked::new(alloc, only);
    let mut next = first;
    for plan in plans {
        room.ask()?;
        let window = window_over(alloc, next, plan)?;
        room.take(window.text.as_slice());
        asked = asked.add(window.text)?;
        next = window.next;
    }
    room.ask()?;
    Ok(Windows { asked, next })
}

/// Cuts an approved plan into windows of `width` rounds.
///
/// Returns all windows, or only window `only`, counted from 1. A move's steps stay together.
///
/// Fails as the checker does for a window, or with `NoPlan` if there is no such window.
///
/// Fails with `TooLarge(0)` above `MAX_WINDOWS` bytes, if possible before making windows.
pub fn cut_plan(
    alloc: Global,
    approved: &Approved,
    width: u32,
    only: Option<u32>,
) -> Result<Vec<u8>, Refusal>
    ensures windows { IfOk result (λ text. AreAskedOf approved.now.ring approved.now.plan only text.items) }
    ensures approved { IsApproved approved.now.ring approved.now.plan }
{
    let (ring, plan) = (approved.ring(), approved.plan());
    let first = write_ring(alloc, ring)?;
    let rounds = rounds(alloc, plan)?;
    let pieces = cut(alloc, ring, plan, rounds.as_slice(), width)?;
    if !is_cut(alloc, plan, &pieces)? {
        return Err(Refusal::NoPlan);
    }
    let room = Room::new(ring, first.as_slice(), pieces.plans.len());
    let windows = all_windows(alloc, ring.copy(alloc)?, pieces.plans, room, only)?;
    if !is_same_ring(alloc, &windows.next, &ring_after(alloc, approved)?)? {
        return Err(Refusal::NoPlan);
    }
    windows.asked.end()
}
