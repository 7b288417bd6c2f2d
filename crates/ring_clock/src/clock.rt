//! Vector clocks.

ghost use Rattle.std.specs.Prelude.{◌≡◌, ◌↔◌, ◌+◌, ◌<◌, ◌==◌, [], ℕ, true, false, IsTrue, IfOk, IfErr, OnOk, OnErr, max};
ghost use Rattle.std.specs.Prelude.{if◌then◌else◌};
ghost use Rattle.ring_names.specs.declared.refusal.Refusal.TheVariants.{OutOfMemory};
ghost use Rattle.ring_clock.specs.Clock.{IsClock, IsAtMost, IsJoin, counter};
ghost use Rattle.ring_clock.specs.Blocks.{AreBlocks, entries_of};

use crate::block::{Block, group_of};
use crate::blocks::{Blocks, are_at_most, counter_in, joined, list, raise_one, raised};
use crate::entry::Entry;
use crate::walk::Walk;
use ring_names::{Refusal, WriterId};
use std::alloc::Global;
use std::marker::Model;
use std::sync::Arc;

/// A vector clock: a counter for each writer, 0 by default.
///
/// 64 consecutive writers share a block. It takes 16 bytes for each counter above 0, or 260 bytes from 17 on, if all
/// are below 2^31.
///
/// Copies, `bump` and `join` share unchanged blocks.
pub struct Clock {
    alloc: Global,
    // The writer of the last `bump`. Between clocks of puts, this writer's counter mostly decides.
    own: WriterId,
    blocks: Blocks,
}

impl Model for Clock {
    ghost use Rattle.std.specs.Prelude.{List};
    ghost use Rattle.ring_clock.specs.Blocks.{AreBlocks, entries_of, listed};
    ghost use Rattle.ring_clock.specs.declared.entry.Entry.{Entry};

    ghost Value = { List Entry };

    ghost view = { λ a. entries_of (listed a.blocks) };

    ghost invariant = { λ a. AreBlocks (listed a.blocks) };
}

// Explicit, so that crates above need not check the cases of `Blocks`.
impl Drop for Clock {
    fn drop(self) {
        let Clock {
            alloc: _,
            own: _,
            blocks,
        } = self;
        drop(blocks);
    }
}

impl Clock {
    /// Returns the clock whose counters are all 0.
    pub fn new(alloc: Global) -> Clock
        ensures { result ≡ [] }
    {
        Clock {
            alloc,
            own: WriterId(0),
            blocks: Blocks::Empty,
        }
    }

    pub(crate) fn blocks(&self) -> &[Block]
        ensures value { entries_of result.now ≡ self.now }
        ensures valid { AreBlocks result.now }
    {
        self.blocks.as_slice()
    }

    /// Iterates over the counters above 0, by writer.
    pub fn entries(&self) -> Walk<'_>
        ensures value { result ≡ self.now }
        ensures valid { IsClock self.now }
    {
        Walk::of(self.blocks())
    }

    /// Lists the counters above 0, by writer. Time and memory grow with their number.
    pub fn list(&self, alloc: Global) -> Result<Vec<Entry>, Refusal>
        ensures value { IfOk result (λ entries. entries.items ≡ self.now) }
        ensures memory { IfErr result (λ e. e ≡ OutOfMemory) }
    {
        Ok(list(alloc, self.blocks())?)
    }

    /// Returns the writer of the last `bump`, to speed up lookups. `join` keeps the first clock's. A new clock has 0.
    pub fn own(&self) -> WriterId {
        self.own
    }

    /// Returns the writer's counter. Costs two binary searches, or two looks if all lesser writers have counters.
    pub fn counter(&self, writer: WriterId) -> u64
        ensures { result ≡ counter self.now writer.0 }
    {
        counter_in(self.blocks(), writer)
    }

    /// Whether this clock's version equals the other's or is its ancestor: no counter exceeds the other's.
    ///
    /// Reads the entries of both, and looks up each group as `has_group` does.
    ///
    /// With several groups, costs only two lookups if the `own` writer's counter is less in the other.
    pub fn le(&self, other: &Clock) -> bool
        ensures { IsTrue result ↔ IsAtMost self.now other.now }
    {
        let (blocks, others) = (self.blocks(), other.blocks());
        // With one block each, of at most 64 counters, skips this test.
        if (blocks.len() > 1 || others.len() > 1)
            && counter_in(others, self.own) < counter_in(blocks, self.own)
        {
            return false;
        }
        are_at_most(blocks, others)
    }

    /// Returns the least clock that is at least both. Reads the entries of both.
    ///
    /// Shares a group's entries if one clock's are at least the other's.
    ///
    /// Each other group takes 260 bytes, or 16 for each entry if it has few or a counter is 2^31 or more.
    ///
    /// A list of several groups takes 8 more bytes for each, or up to 16 if neither clock has all.
    pub fn join(&self, other: &Clock) -> Result<Clock, Refusal>
        ensures least { IfOk result (λ c. IsJoin self.now other.now c) }
        ensures counters { IfOk result (λ c. (w : ℕ) → counter c w ≡ max (counter self.now w) (counter other.now w)) }
        ensures memory { IfErr result (λ e. e ≡ OutOfMemory) }
    {
        Ok(Clock {
            alloc: self.alloc,
            own: self.own,
            blocks: joined(self.alloc, self.blocks(), other.blocks())?,
        })
    }

    // Raises in place the group of the other's `own` writer. Returns false if the list is shared or other groups are
    // less.
    fn raise_own(&mut self, other: &Clock) -> Result<bool, Refusal>
        ensures raised { IfOk result (λ done. done ≡ true
            → (w : ℕ) → counter self.new w ≡ max (counter self.old w) (counter other.now w)) }
        ensures same { IfOk result (λ done. done ≡ false → self.new ≡ self.old) }
        ensures err { OnErr result (self.new ≡ self.old) }
        ensures memory { IfErr result (λ e. e ≡ OutOfMemory) }
    {
        let alloc = self.alloc;
        let Blocks::Many(shared) = &mut self.blocks else {
            return Ok(false);
        };
        let Some(blocks) = Arc::get_mut(shared) else {
            return Ok(false);
        };
        Ok(raise_one(alloc, blocks, other.blocks(), group_of(other.own))?)
    }

    /// Raises each counter to the other's. Takes the time of `le` and `join`.
    ///
    /// Takes memory as `join` does, but none if one clock is at most the other.
    ///
    /// If only the group of the other's `own` writer is less, and both have it, an unshared list stays. Then only that
    /// block takes memory, and none if full and unshared.
    pub fn raise(&mut self, other: &Clock) -> Result<(), Refusal>
        ensures ok { OnOk result ((w : ℕ) → counter self.new w ≡ max (counter self.old w) (counter other.now w)) }
        ensures err { OnErr result (self.new ≡ self.old) }
        ensures memory { IfErr result (λ e. e ≡ OutOfMemory) }
    {
        if !other.le(self) && !self.raise_own(other)? {
            *self = if self.le(other) {
                other.try_copy()?
            } else {
                self.join(other)?
            };
        }
        Ok(())
    }

    /// Returns the clock with the writer's counter raised by one. Copies its group's entries, and the list of groups.
    ///
    /// The entries take at most 260 bytes, or 1,024 if a counter is 2^31 or more.
    ///
    /// A list of several groups takes 8 bytes for each, or up to 16 if the group is new.
    pub fn bump(&self, writer: WriterId) -> Result<Clock, Refusal>
        requires { counter self.now writer.0 < 18446744073709551615 }
        ensures counters { IfOk result
            (λ c. (w : ℕ) → counter c w ≡ (if w == writer.0 then counter self.now w + 1 else counter self.now w)) }
        ensures memory { IfErr result (λ e. e ≡ OutOfMemory) }
    {
        let counter = self.counter(writer) + 1;
        Ok(Clock {
            alloc: self.alloc,
            own: writer,
            blocks: raised(self.alloc, self.blocks(), Entry { writer, counter })?,
        })
    }

    /// Copies the clock without memory, sharing entries. Fails only at 2^64 copies.
    pub fn try_copy(&self) -> Result<Clock, Refusal>
        ensures same { IfOk result (λ c. c ≡ self.now) }
        ensures memory { IfErr result (λ e. e ≡ OutOfMemory) }
    {
        Ok(Clock {
            alloc: self.alloc,
            own: self.own,
            blocks: self.blocks.try_copy()?,
        })
    }
}
