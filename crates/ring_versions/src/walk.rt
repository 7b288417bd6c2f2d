//! Iterates over a set.

ghost use Rattle.std.specs.Prelude.{◌≡◌, ◌∷◌, [], MatchOption};
ghost use Rattle.ring_versions.specs.Chunks.{all_of};

use crate::chunk::Chunk;
use crate::version::Version;
use std::marker::Model;

/// The remaining versions, in no particular order.
#[derive(Drop)]
pub struct Walk<'a> {
    rest: &'a [Version],
    chunks: &'a [Chunk],
}

impl<'a> Model for Walk<'a> {
    ghost use Rattle.std.specs.Prelude.{List, ◌++◌};
    ghost use Rattle.ring_versions.specs.Chunks.{all_of};
    ghost use Rattle.ring_versions.specs.declared.version.Version.{Version};

    ghost Value = { List Version };

    ghost view = { λ a. a.rest.now ++ all_of a.chunks.now };
}

impl<'a> Walk<'a> {
    pub(crate) fn few(versions: &'a [Version]) -> Walk<'a>
        ensures { result ≡ versions.now }
    {
        Walk {
            rest: versions,
            chunks: &[],
        }
    }

    pub(crate) fn many(chunks: &'a [Chunk]) -> Walk<'a>
        ensures { result ≡ all_of chunks.now }
    {
        Walk { rest: &[], chunks }
    }

    /// Takes the next version.
    pub fn next(&mut self) -> Option<&'a Version>
        ensures { MatchOption result ((self.old ≡ []) × (self.new ≡ [])) (λ v. self.old ≡ v.now ∷ self.new) }
    {
        'chunks: loop {
            if let Some((version, later)) = self.rest.split_first() {
                self.rest = later;
                return Some(version);
            }
            let (chunk, later) = self.chunks.split_first()?;
            self.rest = chunk.part().versions();
            self.chunks = later;
        }
    }
}
