//! Finds bytes in a list.

ghost use Rattle.std.specs.Prelude.{◌≡◌, ◌⊎◌, ◌++◌, ◌∷◌, [], None, Some, map, slice_get, OnOk, OnErr};
ghost use Rattle.ring_names.specs.Finding.{Knows, FindsAll, IsSame, TakesNoted, TakesOther};
ghost use Rattle.ring_names.specs.Names.{place};

use crate::noted::{FREE, Noted, find, note};
use std::alloc::{AllocError, Global};
use std::collections::BTreeMap;

/// Finds bytes in a list by hash, or in a tree if too many hashes are close.
///
/// Finding bytes costs their length, times the logarithm of their count if they were chosen to collide.
#[derive(Drop)]
pub struct Finder {
    alloc: Global,
    table: Vec<Noted>,
    // those without a place in the table
    others: BTreeMap<Vec<u8>, usize>,
}

impl Finder {
    /// Starts empty.
    pub fn new(alloc: Global) -> Finder
        ensures { Knows result [] }
    {
        Finder {
            alloc,
            table: Vec::new(alloc),
            others: BTreeMap::new(alloc),
        }
    }

    /// Returns the bytes' place in the list, if any.
    pub fn number_of(&self, list: &[Vec<u8>], bytes: &[u8]) -> Option<usize>
        requires { Knows self.now (map (λ b. b.items) list.now) }
        ensures { result ≡ place (map (λ b. b.items) list.now) bytes.now }
    {
        if let Some(number) = find(self.table.as_slice(), list, bytes) {
            return Some(number);
        }
        match self.others.get(bytes) {
            Some(number) => Some(*number),
            None => None,
        }
    }

    /// Adds the list's next bytes. Rereads the whole list when it has doubled.
    pub fn add(&mut self, list: &[Vec<u8>], bytes: &[u8]) -> Result<(), AllocError>
        requires knows { Knows self.old (map (λ b. b.items) list.now) }
        requires new { place (map (λ b. b.items) list.now) bytes.now ≡ None }
        ensures ok { OnOk result (Knows self.new (map (λ b. b.items) list.now ++ bytes.now ∷ [])) }
        ensures err { OnErr result (Knows self.new (map (λ b. b.items) list.now)) }
    {
        self.make_room(list)?;
        self.keep(bytes, list.len())
    }

    fn keep(&mut self, bytes: &[u8], number: usize) -> Result<(), AllocError>
        ensures ok { OnOk result (TakesNoted self.old self.new bytes.now number ⊎ TakesOther self.old self.new bytes.now number) }
        ensures err { OnErr result (IsSame self.old self.new) }
    {
        if note(self.table.as_mut_slice(), bytes, number) {
            return Ok(());
        }
        self.keep_other(bytes, number)
    }

    fn keep_other(&mut self, bytes: &[u8], number: usize) -> Result<(), AllocError>
        ensures ok { OnOk result (TakesOther self.old self.new bytes.now number) }
        ensures err { OnErr result (IsSame self.old self.new) }
    {
        let key = Vec::from_slice(self.alloc, bytes)?;
        self.others.insert(key, number)?;
        Ok(())
    }

    // Enlarges the table if the list fills half of it.
    fn make_room(&mut self, list: &[Vec<u8>]) -> Result<(), AllocError>
        requires { Knows self.old (map (λ b. b.items) list.now) }
        ensures { Knows self.new (map (λ b. b.items) list.now) }
    {
        let count = list.len();
        // Above 2^40, memory cannot suffice; below, the sum cannot overflow.
        if count < self.table.len() / 2 || count > 1 << 40 {
            return Ok(());
        }
        let mut table = vec![in self.alloc; FREE; 16 + 4 * count]?;
        self.fill(table.as_mut_slice(), list)?;
        self.table = table;
        Ok(())
    }

    fn fill(&mut self, table: &mut [Noted], list: &[Vec<u8>]) -> Result<(), AllocError>
        requires { Knows self.old (map (λ b. b.items) list.now) }
        ensures ok { OnOk result (FindsAll table.new self.new (map (λ b. b.items) list.now)) }
        ensures knows { Knows self.new (map (λ b. b.items) list.now) }
    {
        for number in 0..list.len() {
            let bytes = list[number].as_slice();
            if !note(table, bytes, number) {
                self.keep_other(bytes, number)?;
            }
        }
        Ok(())
    }
}
