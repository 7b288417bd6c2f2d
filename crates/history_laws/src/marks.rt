//! A part's puts or gets, and their numbers there.

ghost use Rattle.std.specs.Prelude.{◌≡◌, ◌<◌, ◌++◌, ◌∷◌, [], length, IfOk, OnOk, OnErr, Some, None, if◌then◌else◌};
ghost use Rattle.std.specs.List.{list_all};
ghost use Rattle.history_laws.specs.Parts.{is_of_part, number_in, renumbered, all_renumbered, is_seen_in};

use std::alloc::{AllocError, Global};
use std::marker::Model;

/// Numbers that puts or gets have in a part: eight bytes each.
#[derive(Drop)]
pub struct Marks {
    numbers: Vec<Option<u32>>,
    size: u32,
}

impl Model for Marks {
    ghost use Rattle.std.specs.Prelude.{◌≡◌, List, Bool, map, is_some};
    ghost use Rattle.history_laws.specs.Parts.{numbered, part_size};

    ghost Value = { List Bool };

    ghost view = { λ a. map is_some a.numbers.items };

    ghost invariant = { λ a. (a.numbers.items ≡ numbered 0 (map is_some a.numbers.items)) × (a.size ≡ part_size (map is_some a.numbers.items)) };
}

impl Marks {
    /// Starts empty.
    pub fn new(alloc: Global) -> Marks
        ensures { result ≡ [] }
    {
        Marks {
            numbers: Vec::new(alloc),
            size: 0,
        }
    }

    /// Adds a put or get, in the part or not.
    pub fn add(&mut self, is_mine: bool) -> Result<(), AllocError>
        requires { length self.now < 4294967295 }
        ensures ok { OnOk result (self.new ≡ self.old ++ is_mine ∷ []) }
        ensures err { OnErr result (self.new ≡ self.old) }
    {
        if is_mine {
            self.numbers.push(Some(self.size))?;
            self.size += 1;
        } else {
            self.numbers.push(None)?;
        }
        Ok(())
    }

    /// Returns the number in the part.
    pub fn number(&self, whole: u32) -> Option<u32>
        ensures { result ≡ (if is_of_part self.now whole then Some (number_in self.now whole) else None) }
    {
        match self.numbers.get(whole as usize) {
            Some(number) => *number,
            None => None,
        }
    }

    /// Whether the number is in the part, or does not exist.
    pub fn is_seen(&self, whole: u32) -> bool
        ensures { result ≡ is_seen_in self.now whole }
    {
        self.number(whole).is_some() || self.numbers.len() <= whole as usize
    }

    /// Returns the number in the part, or one that the part lacks.
    pub fn renumbered(&self, whole: u32) -> u32
        ensures { result ≡ renumbered self.now whole }
    {
        match self.number(whole) {
            Some(number) => number,
            None => self.size,
        }
    }

    fn are_mine(&self, wholes: &[u32]) -> bool
        ensures { result ≡ list_all (is_of_part self.now) wholes.now }
    {
        wholes.iter().all(|whole| self.number(*whole).is_some())
    }

    /// Returns all numbers in the part. A missing one becomes a number that the part lacks.
    pub fn all(&self, alloc: Global, wholes: &[u32]) -> Result<Vec<u32>, AllocError>
        ensures { IfOk result (λ numbers. numbers.items ≡ all_renumbered self.now wholes.now) }
    {
        let mut numbers = Vec::new(alloc);
        if !self.are_mine(wholes) {
            numbers.push(self.size)?;
            return Ok(numbers);
        }
        'wholes: for whole in wholes {
            numbers.push(self.renumbered(*whole))?;
        }
        Ok(numbers)
    }
}
