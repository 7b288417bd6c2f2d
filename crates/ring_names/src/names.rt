//! Names and their numbers.

ghost use Rattle.std.specs.Prelude.{◌≡◌, ◌<◌, [], length, slice_get, IfOk, IfErr, OnOk, OnErr, option_map};
ghost use Rattle.ring_names.specs.Names.{place, with_name};
ghost use Rattle.ring_names.specs.declared.refusal.Refusal.TheVariants.{OutOfMemory};

use crate::numbered::Numbered;
use crate::refusal::Refusal;
use std::alloc::Global;
use std::marker::Model;

/// Names, numbered by first mention from 0; fewer than 2^32.
pub struct Names {
    names: Numbered,
}

// Saves dependent crates from checking the parts.
impl Drop for Names {
    fn drop(self) {
        let Names { names } = self;
        drop(names);
    }
}

impl Model for Names {
    ghost use Rattle.std.specs.Prelude.{◌<◌, ◌^◌, List, ℕ, length};

    ghost Value = { List (List ℕ) };

    ghost view = { λ a. a.names };

    ghost invariant = { λ a. length a.names < 2 ^ 32 };
}

impl Names {
    /// Starts empty.
    pub fn new(alloc: Global) -> Names
        ensures { result ≡ [] }
    {
        Names {
            names: Numbered::new(alloc),
        }
    }

    /// Counts the names.
    pub fn len(&self) -> u32
        ensures { result ≡ length self.now }
    {
        self.names.len() as u32
    }

    /// Returns the name's number. Adds a new name, which may fail.
    pub fn add(&mut self, name: &[u8]) -> Result<u32, Refusal>
        requires { length self.old < 4294967295 }
        ensures number { IfOk result (λ n. place self.new name.now ≡ Some n) }
        ensures names { OnOk result (self.new ≡ with_name self.old name.now) }
        ensures memory { IfErr result (λ e. (e ≡ OutOfMemory) × (place self.old name.now ≡ None)) }
        ensures err { OnErr result (self.new ≡ self.old) }
    {
        let number = self.names.add(name)?;
        Ok(number as u32)
    }

    /// Returns the name's number, if added.
    pub fn number_of(&self, name: &[u8]) -> Option<u32>
        ensures { result ≡ place self.now name.now }
    {
        match self.names.number_of(name) {
            Some(number) => Some(number as u32),
            None => None,
        }
    }

    /// Returns a number's name.
    pub fn name_of(&self, number: u32) -> Option<&[u8]>
        ensures { option_map (λ name. name.now) result ≡ slice_get self.now number }
    {
        self.names.get(number as usize)
    }
}
