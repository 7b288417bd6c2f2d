//! Marks by place.

ghost use Rattle.std.specs.Prelude.{◌≡◌, ◌⊎◌, ℕ, ◌<◌, true, false, IfOk, IsTrue};
ghost use Rattle.plan_goal.specs.Sized.{is_flagged};

use plan_goal::is_flagged;
use ring_names::Refusal;
use std::alloc::Global;

pub(crate) fn unmarked(alloc: Global, count: u32) -> Result<Vec<bool>, Refusal>
    ensures { IfOk result (λ marks. (p : ℕ) → is_flagged marks.items p ≡ false) }
{
    let marks = vec![in alloc; false; count as usize]?;
    Ok(marks)
}

pub(crate) fn mark(marks: &mut Vec<bool>, place: u32)
    ensures { (p : ℕ) → is_flagged marks.new.items p ≡ true → (p ≡ place) ⊎ (is_flagged marks.old.items p ≡ true) }
{
    let place = place as usize;
    if place < marks.len() {
        marks[place] = true;
    }
}

/// Whether the first `count` places are marked.
pub(crate) fn are_marked(marks: &[bool], count: u32) -> bool
    ensures { IsTrue result → (p : ℕ) → p < count → is_flagged marks.now p ≡ true }
{
    for place in 0..count {
        if !is_flagged(marks, place as usize) {
            return false;
        }
    }
    true
}
