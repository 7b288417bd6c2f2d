//! The numbers of puts.

ghost use Rattle.std.specs.Prelude.{◌≡◌, map, IfOk, IfErr};
ghost use Rattle.ring_names.specs.declared.refusal.Refusal.TheVariants.{OutOfMemory};
ghost use Rattle.ring_versions.specs.Puts.{ArePuts};

use crate::walk::Walk;
use ring_names::{Listed, Refusal};
use std::alloc::Global;

fn numbers_of(alloc: Global, mut versions: Walk) -> Result<Vec<u32>, Refusal>
    ensures ok { IfOk result (λ ns. ns.items ≡ map (λ version. version.put) versions.entry) }
    ensures memory { IfErr result (λ e. e ≡ OutOfMemory) }
{
    let mut numbers = Vec::new(alloc);
    'versions: while let Some(version) = versions.next() {
        numbers.push(version.put)?;
    }
    Ok(numbers)
}

/// Returns the versions' puts, ascending.
pub fn puts_of(alloc: Global, versions: Walk) -> Result<Listed<u32>, Refusal>
    ensures ok { IfOk result (λ ns. ArePuts versions.entry ns) }
    ensures memory { IfErr result (λ e. e ≡ OutOfMemory) }
{
    let mut numbers = numbers_of(alloc, versions)?;
    numbers.sort_unstable();
    numbers.dedup();
    Ok(Listed::from_vec(numbers))
}
