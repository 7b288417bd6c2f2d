//! The fields of a layout's lines.

ghost use Rattle.std.specs.Prelude.{◌≡◌, IfOk, IfErr};
ghost use Rattle.std.specs.Char.{is_control};
ghost use Rattle.std.specs.List.{list_any};
ghost use Rattle.std.specs.Str.{chars};
ghost use Rattle.ring_names.specs.declared.refusal.Refusal.TheVariants.{OutOfMemory};
ghost use Rattle.texts.specs.Judging.{Does, number_at};
ghost use Rattle.change_text.specs.LayoutReading.{alias_at, is_alias as is_valid_alias, name_at, parts_at};

use crate::number::number_of;
use ring_names::{Listed, Refusal};
use std::alloc::Global;
use std::marker::Model;
use texts::{Fields, is_name};

/// A field of a line. Contracts see its bytes.
#[derive(Drop)]
pub struct Field<'a> {
    bytes: &'a [u8],
}

impl<'a> Model for Field<'a> {
    ghost use Rattle.std.specs.Prelude.{List, ℕ};

    ghost Value = { List ℕ };

    ghost view = { λ a. a.bytes.now };
}

impl<'a> Field<'a> {
    /// Copies the bytes.
    pub fn copy(self, alloc: Global) -> Result<Listed<u8>, Refusal>
        ensures same { IfOk result (λ copy. copy ≡ self.entry) }
        ensures memory { IfErr result (λ e. e ≡ OutOfMemory) }
    {
        Ok(Listed::from_vec(Vec::from_slice(alloc, self.bytes)?))
    }
}

/// Takes a node's or rack's name, or fails with `BadLine`.
pub fn name<'a>(fields: &mut Fields<'a>) -> Result<Field<'a>, Refusal>
    ensures { Does name_at fields.old result fields.new }
{
    let line = fields.line();
    match fields.next() {
        Some(bytes) if is_name(bytes) => Ok(Field { bytes }),
        _ => Err(Refusal::BadLine(line)),
    }
}

/// Takes a number from 1 to 1,000, or fails with `BadLine`, or with `TooLarge` if greater.
pub fn parts(fields: &mut Fields) -> Result<u32, Refusal>
    ensures { Does parts_at fields.old result fields.new }
{
    match fields.number(1000) {
        Ok(0) => Err(Refusal::BadLine(fields.line())),
        other => other,
    }
}

fn has_control(text: &str) -> bool
    ensures { result ≡ list_any is_control (chars text.now) }
{
    text.chars().any(|letter| letter.is_control())
}

// Whether a field is 1 to 255 bytes of UTF-8, without control characters.
fn is_alias(bytes: &[u8]) -> bool
    ensures { result ≡ is_valid_alias bytes.now }
{
    if bytes.is_empty() || bytes.len() > 255 {
        return false;
    }
    match str::from_utf8(bytes) {
        Ok(text) => !has_control(text),
        Err(_) => false,
    }
}

/// Takes an alias: one field, without spaces. Fails with `BadLine`.
pub fn alias<'a>(fields: &mut Fields<'a>) -> Result<Field<'a>, Refusal>
    ensures { Does alias_at fields.old result fields.new }
{
    let line = fields.line();
    match fields.next() {
        Some(bytes) if is_alias(bytes) => Ok(Field { bytes }),
        _ => Err(Refusal::BadLine(line)),
    }
}

/// Takes a number below 2^48, or fails with `BadLine`, or with `TooLarge` if greater.
pub fn size(fields: &mut Fields) -> Result<u64, Refusal>
    ensures { Does (λ k. number_at k 281474976710655) fields.old result fields.new }
{
    let line = fields.line();
    match fields.next() {
        Some(field) => number_of(line, field),
        None => Err(Refusal::BadLine(line)),
    }
}
