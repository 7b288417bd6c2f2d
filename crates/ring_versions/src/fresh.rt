//! A prepared merge.

ghost use Rattle.std.specs.Prelude.{◌↔◌, IsTrue};

use crate::versions::Versions;

/// A prepared merge, which `absorb` completes without failing. Empty if the set covers the other.
#[derive(Drop)]
pub struct Fresh {
    pub(crate) merged: Versions,
}

impl Fresh {
    ghost use Rattle.ring_versions.specs.Fresh.{BringsNothing};

    /// Whether the merge changes nothing.
    pub fn is_empty(&self) -> bool
        ensures { IsTrue result ↔ BringsNothing self.now }
    {
        self.merged.is_empty()
    }
}
