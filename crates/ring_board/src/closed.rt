//! A closed board.

ghost use Rattle.std.specs.Prelude.{◌≡◌, List, ℕ};

use std::marker::Model;

/// A closed board's words, in the order of steps. Only `Board::end` makes it.
#[derive(Debug, Drop)]
pub struct ClosedBoard {
    pub(crate) words: Vec<u64>,
}

impl Model for ClosedBoard {
    ghost Value = { List ℕ };

    ghost view = { λ b. b.words.items };
}

impl ClosedBoard {
    /// Returns the word of each step.
    pub fn words(&self) -> &[u64]
        ensures { result.now ≡ self.now }
    {
        self.words.as_slice()
    }
}
