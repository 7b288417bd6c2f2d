//! The value of a key.

ghost use Rattle.std.specs.Prelude.{◌≡◌, ◌⊎◌, IfOk, IfSome, is_some, true};
ghost use Rattle.ring_names.specs.Values.{is_value};

use std::alloc::{AllocError, Global};
use std::marker::Model;
use std::sync::Arc;

/// The value of a key: 0 to 1,024 bytes, shared by copies.
#[derive(Debug)]
pub struct Value {
    // None if empty.
    bytes: Option<Arc<Vec<u8>>>,
}

impl Model for Value {
    ghost use Rattle.std.specs.Prelude.{◌≡◌, ℕ, List, true};
    ghost use Rattle.ring_names.specs.Values.{is_value, shared_items};

    ghost Value = { List ℕ };

    ghost view = { λ a. shared_items a.bytes };

    ghost invariant = { λ a. is_value (shared_items a.bytes) ≡ true };
}

// Saves dependent crates from checking both cases.
impl Drop for Value {
    fn drop(self) {
        let Value { bytes } = self;
        drop(bytes);
    }
}

impl Value {
    /// Makes a value of at most 1,024 bytes. Takes memory for a reference count.
    pub fn of(alloc: Global, bytes: Vec<u8>) -> Result<Option<Value>, AllocError>
        ensures some { IfOk result (λ value. is_some value ≡ is_value bytes.items) }
        ensures same { IfOk result (λ value. IfSome value (λ v. v ≡ bytes.items)) }
    {
        if bytes.len() > 1024 {
            return Ok(None);
        }
        if bytes.is_empty() {
            return Ok(Some(Value { bytes: None }));
        }
        match Arc::new(alloc, bytes) {
            Ok(shared) => Ok(Some(Value {
                bytes: Some(shared),
            })),
            Err(_) => Err(AllocError),
        }
    }

    /// Returns the bytes.
    pub fn as_slice(&self) -> &[u8]
        ensures value { result.now ≡ self.now }
        ensures valid { is_value self.now ≡ true }
    {
        match &self.bytes {
            Some(shared) => shared.as_slice(),
            None => &[],
        }
    }

    /// Copies the value without taking memory. Fails only at 2^64 copies.
    pub fn try_copy(&self) -> Result<Value, AllocError>
        ensures { IfOk result (λ value. value ≡ self.now) }
    {
        match &self.bytes {
            Some(shared) => Ok(Value {
                bytes: Some(Arc::try_clone(shared)?),
            }),
            None => Ok(Value { bytes: None }),
        }
    }
}
