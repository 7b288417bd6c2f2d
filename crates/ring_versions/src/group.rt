//! Groups of writers, by which versions are kept.

ghost use Rattle.std.specs.Prelude.{◌≡◌, ◌∷◌, ◌++◌, [], List, IsTrue};
ghost use Rattle.ring_clock.specs.Clock.{IsAtMost, counter};
ghost use Rattle.ring_versions.specs.Chunks.{AreOf};
ghost use Rattle.ring_versions.specs.Versions.{IsIn};
ghost use Rattle.ring_versions.specs.declared.version.Version.{Version as TheVersion};

use ring_clock::{Clock, Entry, group_of};

/// A group of writers, and whether each added version has a counter there.
#[derive(Clone, Copy)]
pub struct Group {
    pub number: u32,
    pub is_told: bool,
}

impl Group {
    /// Returns the group without versions.
    pub fn new(number: u32) -> Group
        ensures { AreOf result [] }
    {
        Group {
            number,
            is_told: true,
        }
    }

    /// Adds a version, given its writer's entry.
    pub fn with(self, own: Entry) -> Group
        ensures { (vs : List TheVersion) → (v : TheVersion) → own.counter ≡ counter v.clock own.writer.0
            → AreOf self vs → AreOf result (vs ++ v ∷ []) }
    {
        Group {
            number: self.number,
            is_told: self.is_told && own.counter > 0 && group_of(own.writer) == self.number,
        }
    }

    /// Whether each added version has a counter in the group, and `top` has none. Then no added clock is at most `top`.
    pub fn is_beyond(self, top: &Clock) -> bool
        ensures { IsTrue result → (vs : List TheVersion) → AreOf self vs
            → (v : TheVersion) → IsIn v vs → IsAtMost v.clock top.now → ⊥ }
    {
        self.is_told && !top.has_group(self.number)
    }
}
