//! Items to take, one after another.

ghost use Rattle.std.specs.Prelude.{◌≡◌, ◌∷◌, [], length, MatchOption};

use std::marker::Model;

// After this many items are taken, their memory is freed.
const MANY: usize = 65536;

/// Items to take in order. Now and then frees taken items' memory, for data that grows.
#[derive(Drop)]
pub struct Queue<T> {
    last_first: Vec<T>,
}

impl<T> Model for Queue<T> {
    ghost use Rattle.std.specs.Prelude.{List, reverse};

    ghost Value = { List T };

    ghost view = { λ a. reverse a.last_first.items };
}

impl<T> Queue<T> {
    /// Wraps the items.
    pub fn of(items: Vec<T>) -> Queue<T>
        ensures { result ≡ items.items }
    {
        let mut last_first = items;
        last_first.reverse();
        Queue { last_first }
    }

    /// Counts the items left.
    pub fn len(&self) -> usize
        ensures { result ≡ length self.now }
    {
        self.last_first.len()
    }

    /// Takes the next item.
    pub fn next(&mut self) -> Option<T>
        ensures { MatchOption result ((self.old ≡ []) × (self.new ≡ [])) (λ item. self.old ≡ item ∷ self.new) }
    {
        let item = self.last_first.pop();
        if self.last_first.len() % MANY == 0 {
            self.last_first.shrink_to_fit();
        }
        item
    }
}
