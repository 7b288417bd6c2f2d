//! The steps that a move waits for.

ghost use Rattle.std.specs.Prelude.{◌≡◌, ℕ, ◌<◌, ◌||◌, ◌&&◌, not, true, length, IfOk, IfErr, OnOk};
ghost use Rattle.std.specs.List.{All};
ghost use Rattle.ring_names.specs.declared.refusal.Refusal.TheVariants.{OutOfMemory};
ghost use Rattle.ring_names.specs.Lists.{has};
ghost use Rattle.texts.specs.Numbers.{ascending};
ghost use Rattle.plan_moves.specs.MoveLines.{move_after};

use plan_text::Plan;
use ring_names::Refusal;
use std::alloc::{AllocError, Global};
use std::collections::BTreeSet;

fn is_among(number: u32, steps: &[u32]) -> bool
    requires { ascending steps.now ≡ true }
    ensures { result ≡ has number steps.now }
{
    steps.binary_search(&number).is_ok()
}

fn add_waits(found: &mut BTreeSet<u32>, own: &[u32], after: &[u32]) -> Result<(), Refusal>
    requires { ascending own.now ≡ true }
    ensures ok { OnOk result ((n : ℕ)
        → has n found.new.keys ≡ (has n found.old.keys || (has n after.now && not (has n own.now)))) }
    ensures memory { IfErr result (λ e. e ≡ OutOfMemory) }
{
    for number in after {
        if !is_among(*number, own) {
            found.insert(*number)?;
        }
    }
    Ok(())
}

fn in_order(alloc: Global, numbers: &BTreeSet<u32>) -> Result<Vec<u32>, AllocError>
    ensures value { IfOk result (λ v. v.items ≡ numbers.now.keys) }
    ensures ascending { ascending numbers.now.keys ≡ true }
{
    numbers.iter().copied().collect(alloc)
}

/// Returns the direct dependencies of a move's steps on other steps, ascending.
///
/// Costs a binary search in `own` for each dependency, and an insertion for each result.
pub(crate) fn move_after(alloc: Global, plan: &Plan, own: &[u32]) -> Result<Vec<u32>, Refusal>
    requires ascending { ascending own.now ≡ true }
    requires within { All (λ s. s < length plan.now) own.now }
    ensures ok { IfOk result (λ v. v.items ≡ move_after plan.now own.now) }
    ensures memory { IfErr result (λ e. e ≡ OutOfMemory) }
{
    let mut found = BTreeSet::new(alloc);
    for step in own {
        add_waits(&mut found, own, plan.deps(*step))?;
    }
    Ok(in_order(alloc, &found)?)
}
