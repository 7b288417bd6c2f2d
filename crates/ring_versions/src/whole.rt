//! The versions of a set, shared by its copies.

ghost use Rattle.std.specs.Prelude.{◌≡◌, ◌↔◌, ◌<◌, ◌∷◌, [], true, false, length, IsTrue, IfOk, IfErr, IfSome, OnErr};
ghost use Rattle.ring_names.specs.declared.refusal.Refusal.TheVariants.{OutOfMemory};
ghost use Rattle.ring_clock.specs.Clock.{IsAtMost};
ghost use Rattle.ring_versions.specs.Chunks.{all_of};
ghost use Rattle.ring_versions.specs.Raised.{RaisesTo, IsClockIn};
ghost use Rattle.ring_versions.specs.Versions.{Covers, IsIn, IsApart, IsBeside, IsMerge};
ghost use Rattle.ring_versions.specs.declared.version.Version.{Version as TheVersion};

use crate::chunk::Chunk;
use crate::version::Version;
use ring_clock::{Clock, group_of};
use ring_names::Refusal;
use std::marker::Model;
use std::sync::Arc;

/// Many versions in shared chunks, and their join.
#[derive(Drop)]
pub struct Whole {
    join: Clock,
    chunks: Vec<Chunk>,
}

/// What copies share: nothing, one version in one allocation, or more.
#[derive(Drop)]
pub enum Shared {
    Nothing,
    One(Arc<Version>),
    Few(Arc<Vec<Version>>),
    Many(Arc<Whole>),
}

impl Model for Whole {
    ghost use Rattle.std.specs.Prelude.{List, []};
    ghost use Rattle.ring_versions.specs.Chunks.{all_of};
    ghost use Rattle.ring_versions.specs.Raised.{RaisesTo, IsClockIn};
    ghost use Rattle.ring_versions.specs.declared.version.Version.{Version};

    ghost Value = { List Version };

    ghost view = { λ a. all_of a.chunks.items };

    ghost invariant = { λ a. RaisesTo [] (IsClockIn (all_of a.chunks.items)) a.join };
}

fn leads(chunks: &[Chunk], clock: &Clock) -> bool
    ensures { IsTrue result → Covers (all_of chunks.now) clock.now }
{
    let group = group_of(clock.own());
    let mut rest = chunks;
    'chunks: while let Some((chunk, later)) = rest.split_first() {
        if chunk.group() == group && chunk.part().leads(clock) {
            return true;
        }
        rest = later;
    }
    false
}

fn is_in_some(chunks: &[Chunk], clock: &Clock) -> bool
    ensures { IsTrue result ↔ Covers (all_of chunks.now) clock.now }
{
    let mut rest = chunks;
    'chunks: while let Some((chunk, later)) = rest.split_first() {
        if chunk.part().covers(clock) {
            return true;
        }
        rest = later;
    }
    false
}

fn are_beyond(chunks: &[Chunk], clock: &Clock) -> bool
    ensures { IsTrue result → (v : TheVersion) → IsIn v (all_of chunks.now) → IsAtMost v.clock clock.now → ⊥ }
{
    let mut rest = chunks;
    'chunks: while let Some((chunk, later)) = rest.split_first() {
        if !chunk.is_beyond(clock) {
            return false;
        }
        rest = later;
    }
    true
}

fn place_of(chunks: &[Chunk], group: u32) -> Option<usize>
    ensures { IfSome result (λ place. place < length chunks.now) }
{
    chunks.iter().position(|chunk| chunk.group() == group)
}

impl Whole {
    /// Wraps the chunks.
    pub fn of(join: Clock, chunks: Vec<Chunk>) -> Whole
        requires { RaisesTo [] (IsClockIn (all_of chunks.items)) join }
        ensures { result ≡ all_of chunks.items }
    {
        Whole { join, chunks }
    }

    /// Returns the join.
    pub fn join(&self) -> &Clock
        ensures { RaisesTo [] (IsClockIn self.now) result.now }
    {
        &self.join
    }

    /// Returns the chunks, one for each group.
    pub fn chunks(&self) -> &[Chunk]
        ensures { all_of result.now ≡ self.now }
    {
        self.chunks.as_slice()
    }

    /// Whether some chunk has the group. Looks into no chunk.
    pub fn has_group(&self, group: u32) -> bool {
        self.chunks.iter().any(|chunk| chunk.group() == group)
    }

    /// Whether some version covers the clock. If none does, the join mostly decides; otherwise the own writer's version
    /// does.
    pub fn covers(&self, clock: &Clock) -> bool
        ensures { IsTrue result ↔ Covers self.now clock.now }
    {
        let own = clock.own();
        if self.join.counter(own) < clock.counter(own) {
            return false;
        }
        let chunks = self.chunks.as_slice();
        leads(chunks, clock) || is_in_some(chunks, clock)
    }

    // Whether the join and own counters show that each version is concurrent with the clock.
    fn is_beside(&self, clock: &Clock) -> bool
        ensures { IsTrue result → IsBeside self.now clock.now }
    {
        let own = clock.own();
        self.join.counter(own) < clock.counter(own) && are_beyond(self.chunks.as_slice(), clock)
    }

    /// Adds one version in place. Returns false unless `is_beside` holds and the version's group has an unshared chunk.
    ///
    /// Reads the entries of two joins, and each chunk's group, or its versions' own entries if the version counts
    /// there.
    pub fn add(&mut self, version: &Version) -> Result<bool, Refusal>
        requires { IsApart self.old }
        ensures added { IfOk result (λ done. done ≡ true → IsMerge self.old (version.now ∷ []) self.new) }
        ensures same { IfOk result (λ done. done ≡ false → self.new ≡ self.old) }
        ensures err { OnErr result (self.new ≡ self.old) }
        ensures memory { IfErr result (λ e. e ≡ OutOfMemory) }
    {
        if !self.is_beside(&version.clock) {
            return Ok(false);
        }
        match place_of(self.chunks.as_slice(), group_of(version.clock.own())) {
            Some(place) => self.chunks[place].add(version, &mut self.join),
            None => Ok(false),
        }
    }
}
