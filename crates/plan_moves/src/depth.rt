//! How many copies run one after another.

ghost use Rattle.std.specs.Prelude.{◌≡◌, ◌<◌, ◌≤◌, true, nat_lt, nat_le, length, IfOk, IfErr};
ghost use Rattle.std.specs.List.{list_all};
ghost use Rattle.ring_names.specs.declared.refusal.Refusal.TheVariants.{OutOfMemory};
ghost use Rattle.plan_moves.specs.Rounds.{greatest, copies, AreRounds};

use plan_text::{Plan, Step};
use ring_names::Refusal;
use std::alloc::Global;

fn greatest(values: &[u32], places: &[u32]) -> u32
    requires { list_all (λ place. nat_lt place (length values.now)) places.now ≡ true }
    ensures { result ≡ greatest values.now places.now }
{
    let mut most = 0;
    let mut rest = places;
    'places: while let Some((place, later)) = rest.split_first() {
        most = most.max(values[*place as usize]);
        rest = later;
    }
    most
}

fn copies(step: &Step) -> u32
    ensures { result ≡ copies step.now }
{
    if matches!(step, Step::Copy(_, _)) {
        1
    } else {
        0
    }
}

/// Returns each step's round: the most copies on a dependency path that ends with the step. Costs a look at each
/// dependency.
///
/// A round's copies may run side by side. Each waits for a copy of the round before.
pub fn rounds(alloc: Global, plan: &Plan) -> Result<Vec<u32>, Refusal>
    ensures ok { IfOk result (λ found. AreRounds plan.now found.items) }
    ensures memory { IfErr result (λ e. e ≡ OutOfMemory) }
{
    let mut found = Vec::new(alloc);
    for number in 0..plan.len() {
        let before = greatest(found.as_slice(), plan.deps(number));
        found.push(before + copies(plan.step(number)))?;
    }
    Ok(found)
}
