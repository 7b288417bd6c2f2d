//! Joins the clocks of versions.

ghost use Rattle.std.specs.Prelude.{◌≡◌, [], IfOk, IfErr};
ghost use Rattle.ring_names.specs.declared.refusal.Refusal.TheVariants.{OutOfMemory};
ghost use Rattle.ring_versions.specs.Raised.{RaisesTo, IsClockIn};

use crate::version::Version;
use ring_clock::Clock;
use ring_names::Refusal;
use std::alloc::Global;

/// Joins the versions' clocks, by halving the list. Reads each entry once for each halving.
pub fn join_of(alloc: Global, versions: &[Version]) -> Result<Clock, Refusal>
    ensures ok { IfOk result (RaisesTo [] (IsClockIn versions.now)) }
    ensures memory { IfErr result (λ e. e ≡ OutOfMemory) }
{
    match versions {
        [] => Ok(Clock::new(alloc)),
        [version] => version.clock.try_copy(),
        _ => {
            let (first, second) = versions.split_at(versions.len() / 2);
            join_of(alloc, first)?.join(&join_of(alloc, second)?)
        }
    }
}
