//! A running store's puts.

ghost use Rattle.std.specs.Prelude.{◌≡◌, ◌<◌, ◌++◌, ◌∷◌, ℕ, List, [], true, length, slice_get, option_map, IfErr, OnOk};
ghost use Rattle.std.specs.Prelude.{OnErr};
ghost use Rattle.ring_names.specs.declared.refusal.Refusal.TheVariants.{OutOfMemory};
ghost use Rattle.plan_runs.specs.Effects.{changed, with_value};
ghost use Rattle.store_parts.specs.declared.puts.PutNow.{PutNow as ThePut};
ghost use Rattle.store_parts.specs.Puts.{ticket_in, ticket_of, with_ticket};

use ring_names::Refusal;
use ring_versions::Versions;
use std::alloc::Global;
use std::marker::Model;

/// A put's state.
#[derive(Drop)]
pub struct PutNow {
    /// Its key's number.
    pub key: usize,
    /// The put's version.
    pub version: Versions,
    /// By slot, the generation of the last write or hint.
    pub tickets: [Option<u32>; 7],
    /// Whether acknowledged.
    pub acked: bool,
}

/// The puts, numbered from 0 by start.
#[derive(Drop)]
pub struct Puts {
    puts: Vec<PutNow>,
}

impl Model for Puts {
    ghost use Rattle.std.specs.Prelude.{List};
    ghost use Rattle.store_parts.specs.declared.puts.PutNow.{PutNow};

    ghost Value = { List PutNow };

    ghost view = { λ a. a.puts.items };
}

#[tactic(auto, using(crate::proofs::Ticketing::ticketing))]
fn with_ticket(mut tickets: [Option<u32>; 7], index: u32, generation: u32) -> [Option<u32>; 7]
    requires { index < 7 }
    ensures list { result ≡ with_ticket tickets index generation }
    ensures tickets { (i : ℕ) → ticket_in result i ≡ with_value (ticket_in tickets) index generation i }
{
    tickets[index as usize] = Some(generation);
    tickets
}

impl Puts {
    /// Returns an empty list.
    pub fn new(alloc: Global) -> Puts
        ensures { result ≡ [] }
    {
        Puts {
            puts: Vec::new(alloc),
        }
    }

    /// Counts the puts.
    pub fn len(&self) -> usize
        ensures { result ≡ length self.now }
    {
        self.puts.len()
    }

    /// Returns the put.
    pub fn get(&self, number: u32) -> Option<&PutNow>
        ensures { option_map (λ put. put.now) result ≡ slice_get self.now number }
    {
        self.puts.get(number as usize)
    }

    /// Adds a put.
    pub fn push(&mut self, put: PutNow) -> Result<(), Refusal>
        ensures ok { OnOk result (self.new ≡ self.old ++ put ∷ []) }
        ensures err { OnErr result (self.new ≡ self.old) }
        ensures memory { IfErr result (λ e. e ≡ OutOfMemory) }
    {
        self.puts.push(put)?;
        Ok(())
    }

    /// Removes the last put.
    pub fn pop(&mut self)
        ensures { (puts : List ThePut) (put : ThePut) → self.old ≡ puts ++ put ∷ [] → self.new ≡ puts }
    {
        self.puts.pop();
    }

    /// Sets the put's ticket for the slot.
    #[tactic(auto, using(crate::proofs::Writing::writing))]
    pub fn set_ticket(&mut self, number: u32, index: u32, generation: u32)
        requires { index < 7 }
        ensures put { self.new
            ≡ changed self.old number (λ x. record x { tickets = with_ticket x.tickets index generation }) }
        ensures tickets { number < length self.old → (i : ℕ)
            → ticket_of self.new number i ≡ with_value (ticket_of self.old number) index generation i }
    {
        let place = number as usize;
        if place < self.puts.len() {
            let now = &mut self.puts[place];
            now.tickets = with_ticket(now.tickets, index, generation);
        }
    }

    /// Acknowledges the put.
    #[tactic(auto, using(crate::proofs::Writing::writing))]
    pub fn acknowledge(&mut self, number: u32)
        ensures { self.new ≡ changed self.old number (λ x. record x { acked = true }) }
    {
        let place = number as usize;
        if place < self.puts.len() {
            self.puts[place].acked = true;
        }
    }
}
