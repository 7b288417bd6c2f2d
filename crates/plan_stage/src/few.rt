//! A few values without allocation.

ghost use Rattle.std.specs.Prelude.{◌≡◌, [], ◌∷◌, ◌++◌, length, nat_lt, if◌then◌else◌};

use std::marker::Model;

/// At most four values, in the order of addition.
#[derive(Drop)]
pub struct Few<T> {
    places: [T; 4],
    count: usize,
}

impl<T> Model for Few<T> {
    ghost use Rattle.std.specs.Prelude.{◌≡◌, ◌≤◌, List, take, length};

    ghost Value = { List T };

    ghost view = { λ a. take a.count a.places };

    ghost invariant = { λ a. (a.count ≤ 4) × (length a.places ≡ 4) };
}

impl<T: Copy> Few<T> {
    /// Starts empty. The filler occupies unused places.
    pub fn new(filler: T) -> Few<T>
        ensures { result ≡ [] }
    {
        Few {
            places: [filler; 4],
            count: 0,
        }
    }

    /// Adds the value if there is room, and says whether.
    pub fn try_push(&mut self, value: T) -> bool
        ensures place { result ≡ nat_lt (length self.old) 4 }
        ensures items { self.new ≡ (if result then self.old ++ value ∷ [] else self.old) }
    {
        if self.count == 4 {
            return false;
        }
        self.places[self.count] = value;
        self.count += 1;
        true
    }

    pub fn as_slice(&self) -> &[T]
        ensures { result.now ≡ self.now }
    {
        &self.places[..self.count]
    }
}
