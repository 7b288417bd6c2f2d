//! Versions with what a search reads first.

ghost use Rattle.std.specs.Prelude.{◌≡◌, ◌↔◌, ◌∷◌, ◌++◌, [], ℕ, max, IsTrue, IfOk, IfErr, OnOk, OnErr};
ghost use Rattle.ring_names.specs.declared.refusal.Refusal.TheVariants.{OutOfMemory};
ghost use Rattle.ring_clock.specs.Clock.{IsAtMost, counter};
ghost use Rattle.ring_versions.specs.Chunks.{AreOf, AreOwns};
ghost use Rattle.ring_versions.specs.Versions.{IsIn, Covers};
ghost use Rattle.ring_versions.specs.declared.version.Version.{Version as TheVersion};

use crate::group::Group;
use crate::version::Version;
use ring_clock::{Clock, Entry};
use ring_names::Refusal;
use std::alloc::Global;
use std::marker::Model;

/// One group's versions, each with its writer's entry. The join is at least each clock.
#[derive(Drop)]
pub struct Part {
    group: Group,
    versions: Vec<Version>,
    owns: Vec<Entry>,
    join: Clock,
}

impl Model for Part {
    ghost use Rattle.std.specs.Prelude.{List};
    ghost use Rattle.ring_versions.specs.Chunks.{IsPart};
    ghost use Rattle.ring_versions.specs.declared.version.Version.{Version};

    ghost Value = { List Version };

    ghost view = { λ a. a.versions.items };

    ghost invariant = { λ a. IsPart a.group a.versions.items a.owns.items a.join };
}

fn own_of(version: &Version) -> Entry
    ensures { result.counter ≡ counter version.now.clock result.writer.0 }
{
    let writer = version.clock.own();
    Entry {
        writer,
        counter: version.clock.counter(writer),
    }
}

fn owns_of(alloc: Global, versions: &[Version]) -> Result<Vec<Entry>, Refusal>
    ensures ok { IfOk result (λ owns. AreOwns versions.now owns.items) }
    ensures memory { IfErr result (λ e. e ≡ OutOfMemory) }
{
    let mut owns = Vec::with_capacity(alloc, versions.len())?;
    for version in versions {
        owns.push(own_of(version))?;
    }
    Ok(owns)
}

/// Whether some version covers the clock. Tries all.
pub fn is_among(versions: &[Version], clock: &Clock) -> bool
    ensures { IsTrue result ↔ Covers versions.now clock.now }
{
    let mut rest = versions;
    'versions: while let Some((version, later)) = rest.split_first() {
        if clock.le(&version.clock) {
            return true;
        }
        rest = later;
    }
    false
}

fn copies_of(alloc: Global, versions: &[Version]) -> Result<Vec<Version>, Refusal>
    ensures ok { IfOk result (λ out. out.items ≡ versions.now) }
    ensures memory { IfErr result (λ e. e ≡ OutOfMemory) }
{
    let mut out = Vec::with_capacity(alloc, versions.len().saturating_add(1))?;
    for version in versions {
        out.push(version.try_copy()?)?;
    }
    Ok(out)
}

impl Part {
    /// Returns an empty part.
    pub fn new(alloc: Global, group: u32) -> Part
        ensures { result ≡ [] }
    {
        Part {
            group: Group::new(group),
            versions: Vec::new(alloc),
            owns: Vec::new(alloc),
            join: Clock::new(alloc),
        }
    }

    /// Returns the part reduced to these versions.
    pub fn with(&self, alloc: Global, versions: Vec<Version>) -> Result<Part, Refusal>
        requires { (v : TheVersion) → IsIn v versions.items → IsIn v self.now }
        ensures ok { IfOk result (λ p. p ≡ versions.items) }
        ensures memory { IfErr result (λ e. e ≡ OutOfMemory) }
    {
        let owns = owns_of(alloc, versions.as_slice())?;
        let join = self.join.try_copy()?;
        Ok(Part {
            group: self.group,
            versions,
            owns,
            join,
        })
    }

    /// Copies the part, with room for one more version. Reads no clocks.
    pub fn try_copy(&self, alloc: Global) -> Result<Part, Refusal>
        ensures ok { IfOk result (λ p. p ≡ self.now) }
        ensures memory { IfErr result (λ e. e ≡ OutOfMemory) }
    {
        let versions = copies_of(alloc, self.versions.as_slice())?;
        let mut owns = Vec::with_capacity(alloc, self.owns.len().saturating_add(1))?;
        owns.extend_from_slice(self.owns.as_slice())?;
        let join = self.join.try_copy()?;
        Ok(Part {
            group: self.group,
            versions,
            owns,
            join,
        })
    }

    /// Adds a copy of the version.
    pub fn put(&mut self, version: &Version) -> Result<(), Refusal>
        ensures ok { OnOk result (self.new ≡ self.old ++ version.now ∷ []) }
        ensures err { OnErr result (self.new ≡ self.old) }
        ensures memory { IfErr result (λ e. e ≡ OutOfMemory) }
    {
        let copy = version.try_copy()?;
        let own = own_of(version);
        let group = self.group.with(own);
        self.join.raise(&version.clock)?;
        self.owns.push(own)?;
        self.versions.push(copy)?;
        self.group = group;
        Ok(())
    }

    /// Adds a copy of the version, and its clock to `join`.
    pub fn put_under(&mut self, version: &Version, join: &mut Clock) -> Result<(), Refusal>
        ensures ok { OnOk result (self.new ≡ self.old ++ version.now ∷ []) }
        ensures raised { OnOk result
            ((w : ℕ) → counter join.new w ≡ max (counter join.old w) (counter version.now.clock w)) }
        ensures err { OnErr result ((self.new ≡ self.old) × (join.new ≡ join.old)) }
        ensures memory { IfErr result (λ e. e ≡ OutOfMemory) }
    {
        let copy = version.try_copy()?;
        let own = own_of(version);
        let group = self.group.with(own);
        self.owns.reserve(1)?;
        self.versions.reserve(1)?;
        self.join.raise(&version.clock)?;
        join.raise(&version.clock)?;
        self.owns.push_reserved(own);
        self.versions.push_reserved(copy);
        self.group = group;
        Ok(())
    }

    /// Returns the group.
    pub fn group(&self) -> Group
        ensures { AreOf result self.now }
    {
        self.group
    }

    pub fn versions(&self) -> &[Version]
        ensures { result.now ≡ self.now }
    {
        self.versions.as_slice()
    }

    /// Whether the version of the clock's own writer covers the clock.
    pub fn leads(&self, clock: &Clock) -> bool
        ensures { IsTrue result → Covers self.now clock.now }
    {
        let own = clock.own();
        let Some(place) = self.owns.iter().position(|entry| entry.writer.0 == own.0) else {
            return false;
        };
        match self.versions.as_slice().get(place) {
            Some(version) => clock.le(&version.clock),
            None => false,
        }
    }

    /// Whether some version covers the clock.
    pub fn covers(&self, clock: &Clock) -> bool
        ensures { IsTrue result ↔ Covers self.now clock.now }
    {
        let own = clock.own();
        if self.join.counter(own) < clock.counter(own) {
            return false;
        }
        is_among(self.versions.as_slice(), clock)
    }

    /// Whether each version's own counter is above `top`'s. Then no clock is at most `top`.
    pub fn is_beyond(&self, top: &Clock) -> bool
        ensures { IsTrue result → (v : TheVersion) → IsIn v self.now → IsAtMost v.clock top.now → ⊥ }
    {
        top.is_below_each(self.owns.as_slice())
    }
}
