//! Checks that windows have a plan's steps, each once.

ghost use Rattle.std.specs.Prelude.{◌≡◌, ◌<◌, ℕ, nat_le, true, IsTrue, IfOk, Some, map, length};
ghost use Rattle.std.specs.List.{list_all};
ghost use Rattle.plan_goal.specs.Cuts.{IsCut, IsOfPlan, IsPlaced, number_by, place_of, plan_at, step_by, waits_in, waits_of, window_by};

use history_laws::have_same;
use plan_text::Plan;
use ring_names::Refusal;
use std::alloc::Global;

#[derive(Clone, Copy, Debug)]
pub(crate) struct Place {
    pub window: u32,
    pub number: u32,
}

#[derive(Drop)]
pub(crate) struct Pieces {
    pub plans: Vec<Plan>,
    /// The place of each step of the whole plan.
    pub places: Vec<Place>,
    /// Each window's steps, as the whole plan numbers them.
    pub steps: Vec<Vec<u32>>,
}

impl Pieces {
    /// Starts without windows.
    pub fn new(alloc: Global) -> Pieces {
        Pieces {
            plans: Vec::new(alloc),
            places: Vec::new(alloc),
            steps: Vec::new(alloc),
        }
    }
}

fn place_of(places: &[Place], step: u32) -> Place
    ensures { result ≡ place_of places.now step }
{
    match places.get(step as usize) {
        Some(place) => *place,
        None => Place {
            window: 0,
            number: 0,
        },
    }
}

/// Returns which steps the window has, by their numbers there.
pub(crate) fn waits_in(
    alloc: Global,
    places: &[Place],
    window: u32,
    steps: &[u32],
) -> Result<Vec<u32>, Refusal>
    ensures { IfOk result (λ v. v.items ≡ waits_in (window_by places.now) (number_by places.now) window steps.now) }
{
    let those = steps
        .iter()
        .filter(|step| place_of(places, **step).window == window)
        .map(|step| place_of(places, *step).number)
        .collect(alloc)?;
    Ok(those)
}

fn are_before(places: &[Place], window: u32, steps: &[u32]) -> bool
    ensures { result ≡ list_all (λ d. nat_le (window_by places.now d) window) steps.now }
{
    steps
        .iter()
        .all(|step| place_of(places, *step).window <= window)
}

fn waits_alike(
    alloc: Global,
    plan: &Plan,
    places: &[Place],
    step: u32,
    piece: &Plan,
) -> Result<bool, Refusal>
    requires step { step < length plan.now }
    requires number { number_by places.now step < length piece.now }
    ensures { IfOk result (λ is. IsTrue is
        → (waits_of piece.now (number_by places.now step) ≡ waits_in (window_by places.now) (number_by places.now) (window_by places.now step) (waits_of plan.now step))
        × (list_all (λ d. nat_le (window_by places.now d) (window_by places.now step)) (waits_of plan.now step) ≡ true)) }
{
    let place = place_of(places, step);
    let waits = plan.deps(step);
    let there = waits_in(alloc, places, place.window, waits)?;
    Ok(piece.deps(place.number) == there.as_slice() && are_before(places, place.window, waits))
}

fn is_placed(alloc: Global, plan: &Plan, pieces: &Pieces, step: u32) -> Result<bool, Refusal>
    requires { step < length plan.now }
    ensures { IfOk result (λ is. IsTrue is
        → IsPlaced plan.now pieces.now.plans.items (window_by pieces.now.places.items) (number_by pieces.now.places.items) step) }
{
    let places = pieces.places.as_slice();
    let place = place_of(places, step);
    let Some(piece) = pieces.plans.get(place.window as usize) else {
        return Ok(false);
    };
    if place.number >= piece.len() || !have_same(plan, piece, step, place.number) {
        return Ok(false);
    }
    waits_alike(alloc, plan, places, step, piece)
}

fn step_by(steps: &[Vec<u32>], place: Place) -> Option<u32>
    ensures { result ≡ step_by (map (λ v. v.items) steps.now) place }
{
    let steps = steps.get(place.window as usize)?;
    steps.get(place.number as usize).copied()
}

fn is_alone(pieces: &Pieces, step: u32) -> bool
    ensures { IsTrue result → step_by (map (λ v. v.items) pieces.now.steps.items) (place_of pieces.now.places.items step) ≡ Some step }
{
    let place = place_of(pieces.places.as_slice(), step);
    match step_by(pieces.steps.as_slice(), place) {
        Some(found) => found == step,
        None => false,
    }
}

fn are_placed(alloc: Global, plan: &Plan, pieces: &Pieces) -> Result<bool, Refusal>
    ensures { IfOk result (λ is. IsTrue is → (n : ℕ) → n < length plan.now
        → IsPlaced plan.now pieces.now.plans.items (window_by pieces.now.places.items) (number_by pieces.now.places.items) n
        × (step_by (map (λ v. v.items) pieces.now.steps.items) (place_of pieces.now.places.items n) ≡ Some n)) }
{
    'steps: for step in 0..plan.len() {
        if !is_alone(pieces, step) || !is_placed(alloc, plan, pieces, step)? {
            return Ok(false);
        }
    }
    Ok(true)
}

fn is_of_plan(plan: &Plan, pieces: &Pieces, window: u32, number: u32) -> bool
    ensures { IsTrue result → IsOfPlan plan.now (window_by pieces.now.places.items) (number_by pieces.now.places.items) window number }
{
    match step_by(pieces.steps.as_slice(), Place { window, number }) {
        Some(step) => {
            let place = place_of(pieces.places.as_slice(), step);
            step < plan.len() && place.window == window && place.number == number
        }
        None => false,
    }
}

fn are_of_plan(plan: &Plan, pieces: &Pieces, window: u32, count: u32) -> bool
    ensures { IsTrue result → (i : ℕ) → i < count
        → IsOfPlan plan.now (window_by pieces.now.places.items) (number_by pieces.now.places.items) window i }
{
    'steps: for number in 0..count {
        if !is_of_plan(plan, pieces, window, number) {
            return false;
        }
    }
    true
}

fn is_window_of_plan(plan: &Plan, pieces: &Pieces, window: u32) -> bool
    ensures { IsTrue result → (i : ℕ) → i < length (plan_at pieces.now.plans.items window)
        → IsOfPlan plan.now (window_by pieces.now.places.items) (number_by pieces.now.places.items) window i }
{
    match pieces.plans.get(window as usize) {
        Some(piece) => are_of_plan(plan, pieces, window, piece.len()),
        None => true,
    }
}

fn all_are_of_plan(plan: &Plan, pieces: &Pieces) -> bool
    ensures { IsTrue result → (k i : ℕ) → i < length (plan_at pieces.now.plans.items k)
        → IsOfPlan plan.now (window_by pieces.now.places.items) (number_by pieces.now.places.items) k i }
{
    if pieces.plans.len() > 4_294_967_295 {
        return false;
    }
    'windows: for window in 0..pieces.plans.len() as u32 {
        if !is_window_of_plan(plan, pieces, window) {
            return false;
        }
    }
    true
}

pub(crate) fn is_cut(alloc: Global, plan: &Plan, pieces: &Pieces) -> Result<bool, Refusal>
    ensures { IfOk result (λ is. IsTrue is → IsCut plan.now pieces.now.plans.items) }
{
    if !are_placed(alloc, plan, pieces)? {
        return Ok(false);
    }
    Ok(all_are_of_plan(plan, pieces))
}
