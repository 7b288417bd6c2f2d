//! A running store's gets.

ghost use Rattle.std.specs.Prelude.{◌≡◌, ◌<◌, ◌++◌, ◌∷◌, ◌||◌, ◌==◌, ℕ, [], length, slice_get, option_map, Some, IfErr};
ghost use Rattle.std.specs.Prelude.{OnOk, OnErr};
ghost use Rattle.ring_names.specs.declared.refusal.Refusal.TheVariants.{OutOfMemory};
ghost use Rattle.plan_runs.specs.World.{passing_below};
ghost use Rattle.plan_runs.specs.Effects.{changed};
ghost use Rattle.store_parts.specs.Marks.{with_mark};
ghost use Rattle.store_parts.specs.Gets.{is_read_at};

use crate::marks::Marks;
use ring_names::{Listed, Refusal};
use ring_versions::Found;
use std::alloc::Global;
use std::marker::Model;

/// A get's state.
#[derive(Drop)]
pub struct GetNow {
    /// Its key's number.
    pub key: usize,
    /// The slots that the get has read, by index.
    pub read: Marks,
    /// The versions found there, merged.
    pub found: Found,
    /// The puts returned, ascending, if the get has ended.
    pub reply: Option<Listed<u32>>,
}

/// The gets, numbered from 0 by start.
#[derive(Drop)]
pub struct Gets {
    gets: Vec<GetNow>,
}

impl Model for Gets {
    ghost use Rattle.std.specs.Prelude.{List};
    ghost use Rattle.store_parts.specs.declared.gets.GetNow.{GetNow};

    ghost Value = { List GetNow };

    ghost view = { λ a. a.gets.items };
}

impl Gets {
    /// Returns an empty list.
    pub fn new(alloc: Global) -> Gets
        ensures { result ≡ [] }
    {
        Gets {
            gets: Vec::new(alloc),
        }
    }

    /// Counts the gets.
    pub fn len(&self) -> usize
        ensures { result ≡ length self.now }
    {
        self.gets.len()
    }

    /// Returns the get.
    pub fn get(&self, number: u32) -> Option<&GetNow>
        ensures { option_map (λ get. get.now) result ≡ slice_get self.now number }
    {
        self.gets.get(number as usize)
    }

    /// Whether the get has read the slot.
    pub fn is_read(&self, number: u32, index: u32) -> bool
        ensures { result ≡ is_read_at self.now number index }
    {
        match self.gets.get(number as usize) {
            Some(now) => now.read.has(index),
            None => false,
        }
    }

    /// Counts the slots that the get has read, up to 7.
    pub fn read_count(&self, number: u32) -> u32
        ensures { result ≡ length (passing_below 7 (is_read_at self.now number)) }
    {
        match self.gets.get(number as usize) {
            Some(now) => now.read.count_below(7),
            None => 0,
        }
    }

    /// Adds a get.
    pub fn push(&mut self, get: GetNow) -> Result<(), Refusal>
        ensures ok { OnOk result (self.new ≡ self.old ++ get ∷ []) }
        ensures err { OnErr result (self.new ≡ self.old) }
        ensures memory { IfErr result (λ e. e ≡ OutOfMemory) }
    {
        self.gets.push(get)?;
        Ok(())
    }

    /// Marks the slot as read, and sets the versions found.
    #[tactic(auto, using(crate::proofs::Writing::writing))]
    pub fn set_found(&mut self, number: u32, index: u32, found: Found)
        requires { index < 7 }
        ensures get { self.new
            ≡ changed self.old number (λ x. record x { read = with_mark x.read index; found = found }) }
        ensures reads { number < length self.old → (i : ℕ)
            → is_read_at self.new number i ≡ (i == index) || is_read_at self.old number i }
    {
        let place = number as usize;
        if place < self.gets.len() {
            let now = &mut self.gets[place];
            now.read = now.read.with(index);
            now.found = found;
        }
    }

    /// Ends the get with the reply.
    #[tactic(auto, using(crate::proofs::Writing::writing))]
    pub fn end(&mut self, number: u32, reply: Listed<u32>)
        ensures { self.new ≡ changed self.old number (λ x. record x { reply = Some reply }) }
    {
        let place = number as usize;
        if place < self.gets.len() {
            self.gets[place].reply = Some(reply);
        }
    }
}
