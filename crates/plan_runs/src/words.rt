//! An event's key and gets. Their types keep the limits.

ghost use Rattle.std.specs.Prelude.{◌≡◌, IfOk, IfSome, is_some, true};
ghost use Rattle.std.specs.List.{list_all};
ghost use Rattle.texts.specs.Numbers.{ascending};
ghost use Rattle.plan_runs.specs.Words.{is_key, is_seen};

use std::alloc::{AllocError, Global};
use std::marker::Model;
use std::sync::Arc;
use texts::are_name_bytes;

/// A key: 1 to 64 bytes of `a-z0-9_.:-`, shared by copies.
#[derive(Debug, Drop)]
pub struct Key {
    bytes: Arc<Vec<u8>>,
}

impl Model for Key {
    ghost use Rattle.std.specs.Prelude.{◌≡◌, ℕ, List, true};
    ghost use Rattle.std.specs.Arc.{arc_value};
    ghost use Rattle.plan_runs.specs.Words.{is_key};

    ghost Value = { List ℕ };

    ghost view = { λ a. (arc_value a.bytes).items };

    ghost invariant = { λ a. is_key (arc_value a.bytes).items ≡ true };
}

impl Key {
    /// Makes a key, if valid. Takes memory for a reference count.
    pub fn of(alloc: Global, bytes: Vec<u8>) -> Result<Option<Key>, AllocError>
        ensures some { IfOk result (λ key. is_some key ≡ is_key bytes.items) }
        ensures same { IfOk result (λ key. IfSome key (λ k. k ≡ bytes.items)) }
    {
        let written = bytes.as_slice();
        if 1 <= written.len() && written.len() <= 64 && are_name_bytes(written) {
            let bytes = Arc::new(alloc, bytes)?;
            return Ok(Some(Key { bytes }));
        }
        Ok(None)
    }

    pub fn as_slice(&self) -> &[u8]
        ensures { result.now ≡ self.now }
    {
        self.bytes.as_slice()
    }

    /// Copies the key without taking memory. Fails only at 2^64 copies.
    pub fn try_copy(&self) -> Result<Key, AllocError>
        ensures { IfOk result (λ key. key ≡ self.now) }
    {
        let bytes = Arc::try_clone(&self.bytes)?;
        Ok(Key { bytes })
    }
}

/// The gets whose replies a put knows: at most 16 numbers, strictly ascending, shared by copies.
#[derive(Debug, Drop)]
pub struct Seen {
    // None if empty.
    gets: Option<Arc<Vec<u32>>>,
}

impl Model for Seen {
    ghost use Rattle.std.specs.Prelude.{◌≡◌, ℕ, List, true};
    ghost use Rattle.ring_names.specs.Values.{shared_items};
    ghost use Rattle.plan_runs.specs.Words.{is_seen};

    ghost Value = { List ℕ };

    ghost view = { λ a. shared_items a.gets };

    ghost invariant = { λ a. is_seen (shared_items a.gets) ≡ true };
}

fn are_ascending(numbers: &[u32]) -> bool
    ensures { result ≡ ascending numbers.now }
{
    let Some((first, mut rest)) = numbers.split_first() else {
        return true;
    };
    let mut last = *first;
    'numbers: while let Some((next, later)) = rest.split_first() {
        if *next <= last {
            return false;
        }
        last = *next;
        rest = later;
    }
    true
}

impl Seen {
    /// Makes a list of gets, if valid. Takes memory for a reference count, unless empty.
    pub fn of(alloc: Global, gets: Vec<u32>) -> Result<Option<Seen>, AllocError>
        ensures some { IfOk result (λ seen. is_some seen ≡ is_seen gets.items) }
        ensures same { IfOk result (λ seen. IfSome seen (λ s. s ≡ gets.items)) }
    {
        let written = gets.as_slice();
        if written.is_empty() {
            return Ok(Some(Seen { gets: None }));
        }
        if written.len() <= 16 && are_ascending(written) {
            let gets = Some(Arc::new(alloc, gets)?);
            return Ok(Some(Seen { gets }));
        }
        Ok(None)
    }

    /// Returns the gets' numbers, ascending, at most 16.
    pub fn as_slice(&self) -> &[u32]
        ensures value { result.now ≡ self.now }
        ensures valid { is_seen result.now ≡ true }
    {
        match &self.gets {
            Some(shared) => shared.as_slice(),
            None => &[],
        }
    }

    /// Copies the list without taking memory. Fails only at 2^64 copies.
    pub fn try_copy(&self) -> Result<Seen, AllocError>
        ensures { IfOk result (λ seen. seen ≡ self.now) }
    {
        let gets = match &self.gets {
            Some(shared) => Some(Arc::try_clone(shared)?),
            None => None,
        };
        Ok(Seen { gets })
    }
}
