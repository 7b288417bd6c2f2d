//! Lists by place.

ghost use Rattle.std.specs.Prelude.{◌≡◌, ◌++◌, ◌∷◌, [], ◌<◌, ◌==◌, ℕ, length, IfErr, OnOk, if◌then◌else◌};
ghost use Rattle.ring_names.specs.declared.refusal.Refusal.TheVariants.{OutOfMemory};
ghost use Rattle.plan_cover.specs.Looking.Places.{listed_at, place_at};

use ring_names::Refusal;
use ring_table::Side;
use std::alloc::Global;

// A list's first capacity, in values.
const FIRST: usize = 16;

/// Returns the place of a node's or step's number on a side.
pub fn place_at(number: u32, side: Side) -> usize
    ensures { result ≡ place_at number side }
{
    let of_side = match side {
        Side::Both => 0,
        Side::Take => 1,
        Side::Give => 2,
    };
    3 * number as usize + of_side
}

/// A list of values at each place. Takes memory up to the last used place.
#[derive(Drop)]
pub struct ByPlace<V> {
    alloc: Global,
    lists: Vec<Vec<V>>,
}

impl<V: Drop> ByPlace<V> {
    /// Starts with empty lists.
    pub fn new(alloc: Global) -> ByPlace<V>
        ensures { (place : ℕ) → listed_at result place ≡ [] }
    {
        ByPlace {
            alloc,
            lists: Vec::new(alloc),
        }
    }

    /// Returns the place's values, in order of addition.
    pub fn items(&self, place: usize) -> &[V]
        ensures { result.now ≡ listed_at self.now place }
    {
        match self.lists.get(place) {
            Some(list) => list.as_slice(),
            None => &[],
        }
    }

    // Gives the place a list.
    fn reach(&mut self, place: usize) -> Result<(), Refusal>
        ensures room { OnOk result (place < length self.new.lists.items) }
        ensures same { (p : ℕ) → listed_at self.new p ≡ listed_at self.old p }
        ensures memory { IfErr result (λ e. e ≡ OutOfMemory) }
    {
        while self.lists.len() <= place {
            self.lists.push(Vec::new(self.alloc))?;
        }
        Ok(())
    }

    /// Adds the value at the end of the place's list.
    pub fn add(&mut self, place: usize, value: V) -> Result<(), Refusal>
        ensures ok { OnOk result ((p : ℕ) → listed_at self.new p
            ≡ (if p == place then listed_at self.old p ++ value ∷ [] else listed_at self.old p)) }
        ensures memory { IfErr result (λ e. e ≡ OutOfMemory) }
    {
        self.reach(place)?;
        let list = &mut self.lists[place];
        if list.is_empty() {
            list.reserve(FIRST)?;
        }
        list.push(value)?;
        Ok(())
    }
}
