//! Sets of versions.

ghost use Rattle.std.specs.Prelude.{◌≡◌, ◌↔◌, ◌∷◌, [], List, true, false, IsTrue, IfOk, IfErr, IfSome, OnOk, OnErr};
ghost use Rattle.std.specs.Prelude.{slice_get, option_map};
ghost use Rattle.ring_names.specs.declared.refusal.Refusal.TheVariants.{OutOfMemory};
ghost use Rattle.ring_versions.specs.Fresh.{Brings, IsFreshFor, FitsIn};
ghost use Rattle.ring_versions.specs.Parts.{IsReordered};
ghost use Rattle.ring_versions.specs.Puts.{ArePuts};
ghost use Rattle.ring_versions.specs.Raised.{RaisesTo, IsClockIn};
ghost use Rattle.ring_versions.specs.Shared.{all_left, looked_at};
ghost use Rattle.ring_versions.specs.Versions.{Covers, IsApart, IsMerge};
ghost use Rattle.ring_versions.specs.declared.version.Version.{Version};

use crate::fresh::Fresh;
use crate::held::Held;
use crate::joining::join_of;
use crate::left::{Left, chunks_of, put_all};
use crate::merge::{add_beside, merged, merged_one};
use crate::puts::puts_of;
use crate::version::Version;
use crate::walk::Walk;
use crate::whole::{Shared, Whole};
use ring_clock::Clock;
use ring_names::{Listed, Refusal};
use std::alloc::Global;
use std::marker::Model;
use std::slice;
use std::sync::Arc;

// From 8 versions on, a set has chunks. Fewer are searched as fast without chunks.
const MANY: usize = 8;

/// A set of concurrent versions, shared by copies.
///
/// Costs are for eight versions or more, and for clocks of puts. These cover a version exactly if they reach its own
/// writer's counter. Other clocks may cost a comparison with each version.
///
/// From eight versions on, each is in the chunk of its writer's group. A set takes 16 bytes for each chunk.
///
/// A shared chunk takes about 100 bytes, 16 more for each version, and the unshared entries of its join.
pub struct Versions {
    alloc: Global,
    shared: Shared,
}

impl Model for Versions {
    ghost use Rattle.std.specs.Prelude.{List};
    ghost use Rattle.ring_versions.specs.Shared.{shared_versions};
    ghost use Rattle.ring_versions.specs.Versions.{IsApart};
    ghost use Rattle.ring_versions.specs.declared.version.Version.{Version};

    ghost Value = { List Version };

    ghost view = { λ a. shared_versions a.shared };

    ghost invariant = { λ a. IsApart (shared_versions a.shared) };
}

// Explicit, so that crates above need not check the cases of `Shared`.
impl Drop for Versions {
    fn drop(self) {
        let Versions { alloc: _, shared } = self;
        drop(shared);
    }
}

impl Versions {
    /// Returns an empty set.
    pub fn new(alloc: Global) -> Versions
        ensures { result ≡ [] }
    {
        Versions {
            alloc,
            shared: Shared::Nothing,
        }
    }

    pub(crate) fn of_list(alloc: Global, list: Vec<Version>) -> Result<Versions, Refusal>
        requires { IsApart list.items }
        ensures same { IfOk result (λ s. IsReordered list.items s) }
        ensures memory { IfErr result (λ e. e ≡ OutOfMemory) }
    {
        if list.len() < MANY {
            let shared = Shared::Few(Arc::new(alloc, list)?);
            return Ok(Versions { alloc, shared });
        }
        let (kept, mut made) = (Vec::new(alloc), Vec::new(alloc));
        put_all(alloc, &mut made, Held::Few(list.as_slice()))?;
        Versions::of_left(alloc, join_of(alloc, list.as_slice())?, Left { kept, made })
    }

    pub(crate) fn of_left(alloc: Global, join: Clock, left: Left) -> Result<Versions, Refusal>
        requires apart { IsApart (all_left left) }
        requires join { RaisesTo [] (IsClockIn (all_left left)) join }
        ensures same { IfOk result (λ s. s ≡ all_left left) }
        ensures memory { IfErr result (λ e. e ≡ OutOfMemory) }
    {
        let chunks = chunks_of(alloc, left)?;
        let shared = Shared::Many(Arc::new(alloc, Whole::of(join, chunks))?);
        Ok(Versions { alloc, shared })
    }

    /// Makes a set of one version.
    pub fn of(alloc: Global, version: Version) -> Result<Versions, Refusal>
        ensures one { IfOk result (λ s. s ≡ version ∷ []) }
        ensures memory { IfErr result (λ e. e ≡ OutOfMemory) }
    {
        let shared = Shared::One(Arc::new(alloc, version)?);
        Ok(Versions { alloc, shared })
    }

    pub(crate) fn held(&self) -> Held<'_>
        ensures value { looked_at result ≡ self.now }
        ensures apart { IsApart self.now }
    {
        match &self.shared {
            Shared::Nothing => Held::Few(&[]),
            Shared::One(one) => Held::Few(slice::from_ref(one)),
            Shared::Few(list) => Held::Few(list.as_slice()),
            Shared::Many(whole) => Held::Many(whole),
        }
    }

    /// Iterates in no particular order.
    pub fn versions(&self) -> Walk<'_>
        ensures value { result ≡ self.now }
        ensures apart { IsApart self.now }
    {
        self.held().walk()
    }

    /// Returns some version.
    pub fn first(&self) -> Option<&Version>
        ensures value { option_map (λ v. v.now) result ≡ slice_get self.now 0 }
        ensures apart { IsApart self.now }
    {
        match &self.shared {
            Shared::Nothing => None,
            Shared::One(one) => Some(one),
            Shared::Few(list) => list.as_slice().first(),
            Shared::Many(whole) => Walk::many(whole.chunks()).next(),
        }
    }

    /// Whether there are no versions.
    pub fn is_empty(&self) -> bool
        ensures value { IsTrue result ↔ self.now ≡ [] }
        ensures apart { IsApart self.now }
    {
        match &self.shared {
            Shared::Nothing => true,
            Shared::One(_) => false,
            Shared::Few(list) => list.is_empty(),
            Shared::Many(whole) => Walk::many(whole.chunks()).next().is_none(),
        }
    }

    /// Whether some version covers the clock. Compares the clock with each of a few versions.
    ///
    /// With many versions, the join mostly says no. Otherwise compares with the version of the clock's own writer, and
    /// at last with all versions.
    pub fn covers(&self, clock: &Clock) -> bool
        ensures { IsTrue result ↔ Covers self.now clock.now }
    {
        self.held().covers(clock)
    }

    /// Merges another set. The result covers what either set covered, and has no ancestors.
    ///
    /// Looks once for each version of the other set, and at each own chunk's group.
    ///
    /// If new versions have counters in that group, also looks at own entries. If these do not decide, looks at each
    /// version of the chunk.
    ///
    /// Takes no memory if this set covers the other. If no other set shares this one, a version concurrent with all is
    /// added in place, for its memory.
    ///
    /// Otherwise copies new and staying versions. From eight on, copies only changed chunks, the list of chunks and the
    /// join.
    pub fn merge(&mut self, other: &Versions) -> Result<(), Refusal>
        ensures ok { OnOk result (IsMerge self.old other.now self.new) }
        ensures err { OnErr result (self.new ≡ self.old) }
        ensures memory { IfErr result (λ e. e ≡ OutOfMemory) }
    {
        if let Shared::One(version) = &other.shared
            && self.add(version)?
        {
            return Ok(());
        }
        let fresh = self.fresh_of(other)?;
        self.absorb(fresh);
        Ok(())
    }

    // Adds one version in place. Returns false unless it is concurrent with each and the changed part is unshared. A
    // list never reaches eight here.
    fn add(&mut self, version: &Version) -> Result<bool, Refusal>
        ensures added { IfOk result (λ done. done ≡ true → IsMerge self.old (version.now ∷ []) self.new) }
        ensures same { IfOk result (λ done. done ≡ false → self.new ≡ self.old) }
        ensures err { OnErr result (self.new ≡ self.old) }
        ensures memory { IfErr result (λ e. e ≡ OutOfMemory) }
    {
        match &mut self.shared {
            Shared::Few(shared) => match Arc::get_mut(shared) {
                Some(list) if list.len() + 1 < MANY => add_beside(list, version),
                _ => Ok(false),
            },
            Shared::Many(shared) => match Arc::get_mut(shared) {
                Some(whole) => whole.add(version),
                None => Ok(false),
            },
            Shared::Nothing | Shared::One(_) => Ok(false),
        }
    }

    /// Prepares a merge. It is empty if this set covers the other. Costs as much as `merge`.
    pub fn fresh_of(&self, other: &Versions) -> Result<Fresh, Refusal>
        ensures ok { IfOk result (λ f. IsFreshFor self.now other.now f) }
        ensures memory { IfErr result (λ e. e ≡ OutOfMemory) }
    {
        let merged = self.made_with(other)?;
        Ok(Fresh { merged })
    }

    pub(crate) fn made_with(&self, other: &Versions) -> Result<Versions, Refusal>
        ensures ok { IfOk result (Brings self.now other.now) }
        ensures memory { IfErr result (λ e. e ≡ OutOfMemory) }
    {
        match (&self.shared, &other.shared) {
            (Shared::Nothing, _) => other.try_copy(),
            (Shared::One(mine), Shared::One(theirs)) => merged_one(self.alloc, mine, theirs, other),
            _ => merged(self.alloc, self.held(), other),
        }
    }

    /// Completes a prepared merge. Costs dropping the old versions.
    pub fn absorb(&mut self, fresh: Fresh)
        requires { FitsIn self.old fresh }
        ensures { (other : List Version) → IsFreshFor self.old other fresh → IsMerge self.old other self.new }
    {
        let Fresh { merged } = fresh;
        if !merged.is_empty() {
            *self = merged;
        }
    }

    /// Returns the puts, ascending. Costs a sort.
    pub fn puts(&self) -> Result<Listed<u32>, Refusal>
        ensures ok { IfOk result (λ ns. ArePuts self.now ns) }
        ensures memory { IfErr result (λ e. e ≡ OutOfMemory) }
    {
        puts_of(self.alloc, self.versions())
    }

    // Returns the join. Free from eight versions on; otherwise reads the entries.
    pub(crate) fn join(&self) -> Result<Clock, Refusal>
        ensures ok { IfOk result (RaisesTo [] (IsClockIn self.now)) }
        ensures memory { IfErr result (λ e. e ≡ OutOfMemory) }
    {
        match self.held() {
            Held::Few(list) => join_of(self.alloc, list),
            Held::Many(whole) => whole.join().try_copy(),
        }
    }

    /// Returns the join if it is kept: for one version, and from eight on.
    pub fn top(&self) -> Option<&Clock>
        ensures { IfSome result (λ c. RaisesTo [] (IsClockIn self.now) c.now) }
    {
        match &self.shared {
            Shared::One(one) => Some(&one.clock),
            Shared::Many(whole) => Some(whole.join()),
            _ => None,
        }
    }

    /// Copies the set without memory, sharing versions. Fails only at 2^64 copies.
    pub fn try_copy(&self) -> Result<Versions, Refusal>
        ensures same { IfOk result (λ s. s ≡ self.now) }
        ensures apart { IsApart self.now }
        ensures memory { IfErr result (λ e. e ≡ OutOfMemory) }
    {
        let shared = match &self.shared {
            Shared::Nothing => Shared::Nothing,
            Shared::One(one) => Shared::One(Arc::try_clone(one)?),
            Shared::Few(list) => Shared::Few(Arc::try_clone(list)?),
            Shared::Many(whole) => Shared::Many(Arc::try_clone(whole)?),
        };
        Ok(Versions {
            alloc: self.alloc,
            shared,
        })
    }
}
