//! One version.

ghost use Rattle.std.specs.Prelude.{◌≡◌, IfOk, IfErr};
ghost use Rattle.ring_names.specs.declared.refusal.Refusal.TheVariants.{OutOfMemory};

use ring_clock::Clock;
use ring_names::{Refusal, Value};

/// What a put stored.
#[derive(Drop)]
pub struct Version {
    pub put: u32,
    pub clock: Clock,
    pub value: Value,
}

impl Version {
    /// Copies the version without memory, sharing clock entries and value.
    #[inline(always)]
    pub fn try_copy(&self) -> Result<Version, Refusal>
        ensures same { IfOk result (λ v. v ≡ self.now) }
        ensures memory { IfErr result (λ e. e ≡ OutOfMemory) }
    {
        let clock = self.clock.try_copy()?;
        let value = self.value.try_copy()?;
        Ok(Version {
            put: self.put,
            clock,
            value,
        })
    }
}
