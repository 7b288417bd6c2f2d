//! Parts that sets share.

ghost use Rattle.std.specs.Prelude.{◌≡◌, ◌++◌, ◌∷◌, [], ℕ, true, false, max, IsTrue, IfOk, IfErr, OnErr};
ghost use Rattle.ring_names.specs.declared.refusal.Refusal.TheVariants.{OutOfMemory};
ghost use Rattle.ring_clock.specs.Clock.{IsAtMost, counter};
ghost use Rattle.ring_versions.specs.Versions.{IsIn};
ghost use Rattle.ring_versions.specs.declared.version.Version.{Version as TheVersion};

use crate::group::Group;
use crate::part::Part;
use crate::version::Version;
use ring_clock::Clock;
use ring_names::Refusal;
use std::alloc::Global;
use std::marker::Model;
use std::sync::Arc;

/// A part that copies share. Its group is kept outside, so that a search reads only the parts it needs.
#[derive(Drop)]
pub struct Chunk {
    group: Group,
    shared: Arc<Part>,
}

impl Model for Chunk {
    ghost use Rattle.std.specs.Prelude.{List};
    ghost use Rattle.std.specs.Arc.{arc_value};
    ghost use Rattle.ring_versions.specs.Chunks.{AreOf};
    ghost use Rattle.ring_versions.specs.declared.version.Version.{Version};

    ghost Value = { List Version };

    ghost view = { λ a. arc_value a.shared };

    ghost invariant = { λ a. AreOf a.group (arc_value a.shared) };
}

impl Chunk {
    /// Makes a chunk.
    pub fn of(alloc: Global, part: Part) -> Result<Chunk, Refusal>
        ensures ok { IfOk result (λ c. c ≡ part) }
        ensures memory { IfErr result (λ e. e ≡ OutOfMemory) }
    {
        let group = part.group();
        let shared = Arc::new(alloc, part)?;
        Ok(Chunk { group, shared })
    }

    /// Copies the chunk without memory.
    pub fn try_copy(&self) -> Result<Chunk, Refusal>
        ensures ok { IfOk result (λ c. c ≡ self.now) }
        ensures memory { IfErr result (λ e. e ≡ OutOfMemory) }
    {
        let shared = Arc::try_clone(&self.shared)?;
        Ok(Chunk {
            group: self.group,
            shared,
        })
    }

    /// Returns the part's group.
    pub fn group(&self) -> u32 {
        self.group.number
    }

    /// Adds a copy of the version in place, and its clock to `join`. Returns false if the chunk is shared.
    pub fn add(&mut self, version: &Version, join: &mut Clock) -> Result<bool, Refusal>
        ensures added { IfOk result (λ done. done ≡ true → self.new ≡ self.old ++ version.now ∷ []) }
        ensures raised { IfOk result (λ done. done ≡ true
            → (w : ℕ) → counter join.new w ≡ max (counter join.old w) (counter version.now.clock w)) }
        ensures same { IfOk result (λ done. done ≡ false → (self.new ≡ self.old) × (join.new ≡ join.old)) }
        ensures err { OnErr result ((self.new ≡ self.old) × (join.new ≡ join.old)) }
        ensures memory { IfErr result (λ e. e ≡ OutOfMemory) }
    {
        let Some(part) = Arc::get_mut(&mut self.shared) else {
            return Ok(false);
        };
        part.put_under(version, join)?;
        self.group = part.group();
        Ok(true)
    }

    /// Returns the part.
    pub fn part(&self) -> &Part
        ensures { result.now ≡ self.now }
    {
        &self.shared
    }

    /// True only if no version's clock is at most this one.
    pub fn is_beyond(&self, top: &Clock) -> bool
        ensures { IsTrue result → (v : TheVersion) → IsIn v self.now → IsAtMost v.clock top.now → ⊥ }
    {
        self.group.is_beyond(top) || self.shared.is_beyond(top)
    }
}
