//! Versions with their join.

ghost use Rattle.std.specs.Prelude.{◌≡◌, [], List, IfOk, IfErr};
ghost use Rattle.ring_names.specs.declared.refusal.Refusal.TheVariants.{OutOfMemory};
ghost use Rattle.ring_versions.specs.Puts.{ArePuts};
ghost use Rattle.ring_versions.specs.Raised.{RaisesTo, IsClockIn};
ghost use Rattle.ring_versions.specs.Versions.{IsMerge};
ghost use Rattle.ring_versions.specs.declared.version.Version.{Version};

use crate::versions::Versions;
use ring_clock::Clock;
use ring_names::{Listed, Refusal};
use std::alloc::Global;
use std::marker::Model;

/// Versions, and the join of their clocks.
#[derive(Drop)]
pub struct Found {
    versions: Versions,
    join: Clock,
}

impl Model for Found {
    ghost use Rattle.std.specs.Prelude.{List, []};
    ghost use Rattle.ring_versions.specs.declared.version.Version.{Version};
    ghost use Rattle.ring_versions.specs.Raised.{RaisesTo, IsClockIn};

    ghost Value = { List Version };

    ghost view = { λ a. a.versions };

    ghost invariant = { λ a. RaisesTo [] (IsClockIn a.versions) a.join };
}

impl Found {
    /// Returns an empty set.
    pub fn new(alloc: Global) -> Found
        ensures { result ≡ [] }
    {
        Found {
            versions: Versions::new(alloc),
            join: Clock::new(alloc),
        }
    }

    /// Returns the join.
    pub fn join(&self) -> &Clock
        ensures { RaisesTo [] (IsClockIn self.now) result.now }
    {
        &self.join
    }

    /// Returns the puts, ascending. Costs a sort.
    pub fn puts(&self) -> Result<Listed<u32>, Refusal>
        ensures ok { IfOk result (λ ns. ArePuts self.now ns) }
        ensures memory { IfErr result (λ e. e ≡ OutOfMemory) }
    {
        self.versions.puts()
    }

    fn try_copy(&self) -> Result<Found, Refusal>
        ensures same { IfOk result (λ f. f ≡ self.now) }
        ensures memory { IfErr result (λ e. e ≡ OutOfMemory) }
    {
        let versions = self.versions.try_copy()?;
        let join = self.join.try_copy()?;
        Ok(Found { versions, join })
    }

    fn join_with(&self, more: &Versions) -> Result<Clock, Refusal>
        ensures ok { IfOk result (λ c. (all : List Version) → IsMerge self.now more.now all → RaisesTo [] (IsClockIn all) c) }
        ensures memory { IfErr result (λ e. e ≡ OutOfMemory) }
    {
        let mut join = self.join.try_copy()?;
        join.raise(&more.join()?)?;
        Ok(join)
    }

    /// Merges another set. Costs a merge, and reads both joins if versions are added.
    pub fn with(&self, more: &Versions) -> Result<Found, Refusal>
        ensures ok { IfOk result (IsMerge self.now more.now) }
        ensures memory { IfErr result (λ e. e ≡ OutOfMemory) }
    {
        let versions = self.versions.made_with(more)?;
        if versions.is_empty() {
            return self.try_copy();
        }
        let join = self.join_with(more)?;
        Ok(Found { versions, join })
    }
}
