//! Finds a part's entry in the whole.

ghost use Rattle.std.specs.Prelude.{ℕ, Bool, []};
ghost use Rattle.ring_table.specs.Value.{RingValue};
ghost use Rattle.history_text.specs.Place.{Finds, FindsMore};

/// The place of the part's wanted entry in the whole.
#[derive(Clone, Copy, Debug)]
pub struct Place {
    /// The entry's place in the part, from 0.
    pub wanted: u32,
    /// How many entries of the whole were read.
    pub seen: u64,
    /// The entry's place in the whole, from 0, if read.
    pub found: Option<u64>,
}

impl Place {
    /// Starts before the first entry.
    pub fn of(wanted: u32) -> Place
        ensures { (ring : RingValue) (is_in : ℕ → Bool) → Finds ring is_in [] wanted result }
    {
        Place {
            wanted,
            seen: 0,
            found: None,
        }
    }

    /// Counts an entry of the whole, after `before` entries of the part.
    pub fn count(&mut self, is_kept: bool, before: u64)
        ensures { FindsMore self.old self.new is_kept before }
    {
        if is_kept && before == u64::from(self.wanted) && self.found.is_none() {
            self.found = Some(self.seen);
        }
        self.seen = self.seen.saturating_add(1);
    }
}
