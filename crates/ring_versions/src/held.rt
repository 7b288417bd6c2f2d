//! A set's versions, as a merge reads them.

ghost use Rattle.std.specs.Prelude.{◌≡◌, ◌↔◌, IsTrue};
ghost use Rattle.ring_versions.specs.Versions.{Covers};

use crate::part::is_among;
use crate::version::Version;
use crate::walk::Walk;
use crate::whole::Whole;
use ring_clock::{Clock, group_of};

/// Versions in a list, or in chunks.
#[derive(Clone, Copy)]
pub enum Held<'a> {
    Few(&'a [Version]),
    Many(&'a Whole),
}

impl<'a> Held<'a> {
    ghost use Rattle.ring_versions.specs.Shared.{looked_at};

    pub fn walk(self) -> Walk<'a>
        ensures { result ≡ looked_at self.entry }
    {
        match self {
            Held::Few(list) => Walk::few(list),
            Held::Many(whole) => Walk::many(whole.chunks()),
        }
    }

    /// Whether some version covers the clock.
    pub fn covers(self, clock: &Clock) -> bool
        ensures { IsTrue result ↔ Covers (looked_at self.entry) clock.now }
    {
        match self {
            Held::Few(list) => is_among(list, clock),
            Held::Many(whole) => whole.covers(clock),
        }
    }

    /// Whether some version's writer is in the group. Looks at each listed version, or at each chunk.
    pub fn has_group(self, group: u32) -> bool {
        match self {
            Held::Few(list) => list
                .iter()
                .any(|version| group_of(version.clock.own()) == group),
            Held::Many(whole) => whole.has_group(group),
        }
    }
}
