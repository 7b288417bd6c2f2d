//! Compares clocks with entries.

ghost use Rattle.std.specs.Prelude.{◌↔◌, ◌<◌, IsTrue};
ghost use Rattle.std.specs.List.{All};
ghost use Rattle.ring_clock.specs.Clock.{counter};
ghost use Rattle.ring_clock.specs.Groups.{HasGroup};

use crate::block::group_of;
use crate::blocks::block_of;
use crate::clock::Clock;
use crate::entry::Entry;

impl Clock {
    /// Whether the group has a counter. Costs a binary search, or one look if all lesser groups have counters.
    pub fn has_group(&self, group: u32) -> bool
        ensures { IsTrue result ↔ HasGroup group self.now }
    {
        block_of(self.blocks(), group).is_some()
    }

    /// Whether the clock's counter is below each entry's. Each entry costs a lookup in its block; each change of group
    /// costs `has_group`.
    pub fn is_below_each(&self, entries: &[Entry]) -> bool
        ensures { IsTrue result ↔ All (λ e. counter self.now e.writer.0 < e.counter) entries.now }
    {
        let mut group = 0;
        let mut block = block_of(self.blocks(), group);
        for entry in entries {
            let own = group_of(entry.writer);
            if own != group {
                group = own;
                block = block_of(self.blocks(), group);
            }
            let counter = match block {
                Some(block) => block.counter(entry.writer),
                None => 0,
            };
            if counter >= entry.counter {
                return false;
            }
        }
        true
    }
}
