//! Compares the steps of two plans.

ghost use Rattle.std.specs.Prelude.{◌≡◌, ℕ, IsTrue};
ghost use Rattle.history_laws.specs.Past.{AreSame, Keeps};

use crate::names::number_in;
use crate::slots::is_slot;
use plan_text::{Plan, Source, Step};

fn is_source(a: &Source, b: &Source) -> bool
    ensures { IsTrue result → b.now ≡ a.now }
{
    match (a, b) {
        (Source::Owner, Source::Owner) => true,
        (Source::Slots(from), Source::Slots(others)) => from.as_slice() == others.as_slice(),
        _ => false,
    }
}

fn is_step(a: &Step, b: &Step) -> bool
    ensures { IsTrue result → b.now ≡ a.now }
{
    match (a, b) {
        (Step::Join(x), Step::Join(y)) => x.0 == y.0,
        (Step::Mirror(s, x), Step::Mirror(t, y)) => is_slot(*s, *t) && x.0 == y.0,
        (Step::Copy(s, from), Step::Copy(t, others)) => is_slot(*s, *t) && is_source(from, others),
        (Step::Switch(s), Step::Switch(t)) => is_slot(*s, *t),
        (Step::Drop(s, x), Step::Drop(t, y)) => is_slot(*s, *t) && x.0 == y.0,
        (Step::Retire(x), Step::Retire(y)) => x.0 == y.0,
        _ => false,
    }
}

/// Whether both steps exist and are equal: kind, slots, sources and nodes.
pub fn have_same(old: &Plan, new: &Plan, step: u32, number: u32) -> bool
    ensures { IsTrue result → AreSame old.now new.now step number }
{
    if step >= old.len() || number >= new.len() {
        return false;
    }
    let mine = old.step(step);
    let theirs = new.step(number);
    is_step(mine, theirs)
}

// Whether the step, if it has a number, is the same in the other plan, and no other has that number.
fn keeps(old: &Plan, new: &Plan, numbers: &[Option<u32>], olds: &[u32], step: u32) -> bool
    ensures { IsTrue result → Keeps old.now new.now numbers.now olds.now step }
{
    let Some(number) = number_in(numbers, step) else {
        return true;
    };
    olds.get(number as usize) == Some(&step) && have_same(old, new, step, number)
}

/// Whether each numbered step is the same in the other plan, and no two share a number.
pub(crate) fn keep_all(old: &Plan, new: &Plan, numbers: &[Option<u32>], olds: &[u32]) -> bool
    ensures { IsTrue result → (k : ℕ) → Keeps old.now new.now numbers.now olds.now k }
{
    if numbers.len() > 4_294_967_295 {
        return false;
    }
    for step in 0..numbers.len() as u32 {
        if !keeps(old, new, numbers, olds, step) {
            return false;
        }
    }
    true
}
