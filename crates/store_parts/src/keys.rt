//! The keys of puts and gets.

ghost use Rattle.std.specs.Prelude.{◌≡◌, ◌<◌, [], Some, None, length, slice_get, option_map, IfOk, IfErr, OnOk, OnErr};
ghost use Rattle.std.specs.Prelude.{true};
ghost use Rattle.ring_names.specs.declared.refusal.Refusal.TheVariants.{OutOfMemory};
ghost use Rattle.ring_names.specs.Names.{place as number_in, with_name};
ghost use Rattle.ring_names.specs.Space.{is_space};
ghost use Rattle.ring_space.specs.Place.{place_of};
ghost use Rattle.store_maps.specs.Ids.{id};
ghost use Rattle.store_parts.specs.KeyTable.{chunk_of};

use ring_names::{Numbered, Refusal};
use ring_space::{Place, place};
use std::alloc::Global;
use std::marker::Model;
use store_maps::KeyId;

/// The keys of puts and gets, numbered from 0 when first seen. A look-up costs as in `Numbered`.
///
/// Keeps each key's place among q partitions, so that its digest is computed once.
#[derive(Drop)]
pub struct Keys {
    q: u32,
    keys: Numbered,
    places: Vec<Place>,
}

impl Model for Keys {
    ghost use Rattle.store_parts.specs.KeyTable.{KeyTable};

    ghost Value = { KeyTable };

    ghost use Rattle.store_parts.specs.Keys.{keys_of, HoldsKeys};

    ghost view = { keys_of };

    ghost invariant = { HoldsKeys };
}

impl Keys {
    /// Returns an empty list, for q partitions.
    pub fn new(alloc: Global, q: u32) -> Keys
        requires { is_space q ≡ true }
        ensures { result ≡ record { q = q; keys = [] } }
    {
        Keys {
            q,
            keys: Numbered::new(alloc),
            places: Vec::new(alloc),
        }
    }

    /// Counts the keys.
    pub fn len(&self) -> usize
        ensures { result ≡ length self.now.keys }
    {
        self.keys.len()
    }

    /// Returns the key's number, if seen.
    pub fn number_of(&self, key: &[u8]) -> Option<usize>
        ensures { result ≡ number_in self.now.keys key.now }
    {
        self.keys.number_of(key)
    }

    /// Returns the key's number, perhaps a new one. Fails only for a new key.
    pub fn add(&mut self, key: &[u8]) -> Result<usize, Refusal>
        ensures number { IfOk result (λ n. number_in self.new.keys key.now ≡ Some n) }
        ensures keys { OnOk result (self.new ≡ record self.old { keys = with_name self.old.keys key.now }) }
        ensures memory { IfErr result (λ e. (e ≡ OutOfMemory) × (number_in self.old.keys key.now ≡ None)) }
        ensures err { OnErr result (self.new ≡ self.old) }
    {
        if let Some(number) = self.number_of(key) {
            return Ok(number);
        }
        self.places.reserve(1)?;
        let number = self.keys.add(key)?;
        self.places.push_reserved(place(self.q, key));
        Ok(number)
    }

    /// Returns the key's place.
    pub fn place(&self, number: usize) -> Place
        requires { number < length self.now.keys }
        ensures place { option_map (place_of self.now.q) (slice_get self.now.keys number) ≡ Some result }
        ensures partition { result.partition < self.now.q }
        ensures chunk { result.chunk < 16 }
    {
        self.places[number]
    }

    /// Returns the key's id.
    #[tactic(auto, unfolding(crate::specs::KeyTable::chunk_of))]
    pub fn id(&self, number: usize) -> KeyId
        requires { number < length self.now.keys }
        ensures id { option_map (λ key. id (chunk_of self.now.q key) number) (slice_get self.now.keys number) ≡ Some result }
        ensures chunk { result.chunk < 16 }
    {
        let chunk = self.place(number).chunk;
        KeyId { chunk, number }
    }
}
