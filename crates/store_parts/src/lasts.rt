//! Each writer's last put on each key.

ghost use Rattle.std.specs.List.Sorted.{IsStrictlySortedBy-prop};
ghost use Rattle.std.specs.Map.{keys_of};
ghost use Rattle.std.specs.Ordering.{nat_cmp};
ghost use Rattle.std.specs.Prelude.{◌≡◌, ◌&&◌, ◌==◌, ℕ, Some, None, IfErr, OnOk, OnErr, is_ok, if◌then◌else◌};
ghost use Rattle.ring_names.specs.declared.refusal.Refusal.TheVariants.{OutOfMemory};
ghost use Rattle.store_maps.specs.Sorted.{Ascends, value_by};

use ring_names::{Refusal, WriterId};
use std::alloc::Global;
use store_maps::{lengthen, place_of};

// A key's writers, ascending, and their last puts.
#[derive(Drop)]
struct Row {
    puts: Vec<(u32, u32)>,
    ghost order: { Ascends nat_cmp puts.items } by { IsStrictlySortedBy-prop nat_cmp (keys_of puts.items) },
}

impl Row {
    fn get(&self, writer: u32) -> Option<u32>
        ensures { result ≡ value_by nat_cmp self.now.puts.items writer }
    {
        match place_of(self.puts.as_slice(), &writer) {
            Ok(place) => Some(self.puts[place].1),
            Err(_) => None,
        }
    }

    fn set(&mut self, writer: u32, put: u32) -> Result<(), Refusal>
        ensures set { (w : ℕ) → value_by nat_cmp self.new.puts.items w
            ≡ (if is_ok result && (w == writer) then Some put else value_by nat_cmp self.old.puts.items w) }
        ensures memory { IfErr result (λ e. e ≡ OutOfMemory) }
    {
        match place_of(self.puts.as_slice(), &writer) {
            Ok(place) => self.puts[place].1 = put,
            Err(place) => {
                lengthen(&mut self.puts)?;
                self.puts.insert(place, (writer, put))?;
            }
        }
        Ok(())
    }
}

/// Each writer's last put on each key. A look-up is a binary search of the key's writers.
#[derive(Drop)]
pub struct Lasts {
    alloc: Global,
    rows: Vec<Row>,
}

impl Lasts {
    ghost use Rattle.store_parts.specs.Lasts.{last_of};

    /// Returns an empty list.
    pub fn new(alloc: Global) -> Lasts
        ensures { (k w : ℕ) → last_of result k w ≡ None }
    {
        Lasts {
            alloc,
            rows: Vec::new(alloc),
        }
    }

    /// Returns the writer's last put on the key.
    pub fn get(&self, key: usize, writer: WriterId) -> Option<u32>
        ensures { result ≡ last_of self.now key writer.0 }
    {
        self.rows.get(key)?.get(writer.0)
    }

    /// Sets the writer's last put on the key. Makes rows up to the key.
    pub fn set(&mut self, key: usize, writer: WriterId, put: u32) -> Result<(), Refusal>
        ensures ok { OnOk result ((k w : ℕ)
            → last_of self.new k w ≡ (if (k == key) && (w == writer.0) then Some put else last_of self.old k w)) }
        ensures err { OnErr result ((k w : ℕ) → last_of self.new k w ≡ last_of self.old k w) }
        ensures memory { IfErr result (λ e. e ≡ OutOfMemory) }
    {
        'rows: while self.rows.len() <= key {
            self.rows.push(Row {
                puts: Vec::new(self.alloc),
            })?;
        }
        self.rows[key].set(writer.0, put)
    }
}
