//! Words of an event's line, still in the text.

ghost use Rattle.std.specs.Prelude.{◌≡◌, ◌++◌, ◌&&◌, ◌+◌, ◌*◌, ◌≤◌, is_some, IfSome, IfOk, IfErr, true, length};
ghost use Rattle.std.specs.List.{list_all};
ghost use Rattle.ring_names.specs.declared.refusal.Refusal.TheVariants.{OutOfMemory};
ghost use Rattle.texts.specs.Numbers.{are_small};
ghost use Rattle.plan_runs.specs.Words.{is_key, is_seen};
ghost use Rattle.script_text.specs.Digits.{is_digit, digit_value, are_pairs, bytes_of, is_value_text, value_of};

use plan_runs::{Key, Seen};
use ring_names::{Refusal, Value};
use std::alloc::Global;
use std::marker::Model;
use texts::{NumberRow, are_name_bytes};

/// A text's bytes.
#[derive(Drop)]
pub struct Word<'a> {
    pub(crate) bytes: &'a [u8],
}

impl<'a> Model for Word<'a> {
    ghost use Rattle.std.specs.Prelude.{List, ℕ};

    ghost Value = { List ℕ };

    ghost view = { λ a. a.bytes.now };
}

/// A key, still in the text.
#[derive(Drop)]
pub struct KeyWord<'a> {
    bytes: &'a [u8],
}

impl<'a> Model for KeyWord<'a> {
    ghost use Rattle.std.specs.Prelude.{List, ℕ, ◌≡◌, true};
    ghost use Rattle.plan_runs.specs.Words.{is_key};

    ghost Value = { List ℕ };

    ghost view = { λ a. a.bytes.now };

    ghost invariant = { λ a. is_key a.bytes.now ≡ true };
}

impl<'a> KeyWord<'a> {
    /// Returns the key with these bytes, if valid.
    pub fn of(bytes: &'a [u8]) -> Option<KeyWord<'a>>
        ensures some { is_some result ≡ is_key bytes.now }
        ensures same { IfSome result (λ key. key ≡ bytes.now) }
    {
        if 1 <= bytes.len() && bytes.len() <= 64 && are_name_bytes(bytes) {
            return Some(KeyWord { bytes });
        }
        None
    }

    /// Returns the key in owned memory.
    pub fn to_key(&self, alloc: Global) -> Result<Key, Refusal>
        ensures ok { IfOk result (λ key. key ≡ self.now) }
        ensures memory { IfErr result (λ e. e ≡ OutOfMemory) }
    {
        let bytes = Vec::from_slice(alloc, self.bytes)?;
        match Key::of(alloc, bytes)? {
            Some(key) => Ok(key),
            None => unreachable!(),
        }
    }
}

fn is_digit(byte: u8) -> bool
    ensures { result ≡ is_digit byte }
{
    matches!(byte, b'0'..=b'9' | b'a'..=b'f')
}

fn digit_value(digit: u8) -> u8
    requires { is_digit digit ≡ true }
    ensures value { result ≡ digit_value digit }
    ensures few { result ≤ 15 }
{
    if digit <= b'9' {
        digit - b'0'
    } else {
        digit - 87
    }
}

// Whether each byte is a digit. Looks at all bytes: the processor may take many at a time.
fn are_digits(bytes: &[u8]) -> bool
    ensures { result ≡ list_all is_digit bytes.now }
{
    let mut found = true;
    for byte in bytes {
        found = found & is_digit(*byte);
    }
    found
}

#[tactic(auto, using(crate::proofs::DigitLaws::pairs_are))]
fn are_pairs(digits: &[u8]) -> bool
    ensures { result ≡ are_pairs digits.now }
{
    digits.len() % 2 == 0 && are_digits(digits)
}

fn bytes_of(alloc: Global, digits: &[u8]) -> Result<Vec<u8>, Refusal>
    requires { are_pairs digits.now ≡ true }
    ensures ok { IfOk result (λ out. out.items ≡ bytes_of digits.now) }
    ensures memory { IfErr result (λ e. e ≡ OutOfMemory) }
{
    let count = digits.len() / 2;
    let mut out = vec![in alloc; 0u8; count]?;
    for place in 0..count {
        let (first, second) = (digits[2 * place], digits[2 * place + 1]);
        out[place] = 16 * digit_value(first) + digit_value(second);
    }
    Ok(out)
}

/// A value's spelling, still in the text.
#[derive(Drop)]
pub struct ValueWord<'a> {
    digits: &'a [u8],
}

impl<'a> Model for ValueWord<'a> {
    ghost use Rattle.std.specs.Prelude.{List, ℕ, ◌≡◌, ◌≤◌, true, length};
    ghost use Rattle.script_text.specs.Digits.{are_pairs, bytes_of};

    ghost Value = { List ℕ };

    ghost view = { λ a. bytes_of a.digits.now };

    ghost invariant = { λ a. (are_pairs a.digits.now ≡ true) × (length a.digits.now ≤ 2048) };
}

impl<'a> ValueWord<'a> {
    /// Returns the value that these bytes spell.
    pub fn of(bytes: &'a [u8]) -> Option<ValueWord<'a>>
        ensures some { is_some result ≡ is_value_text bytes.now }
        ensures same { IfSome result (λ value. value ≡ value_of bytes.now) }
    {
        let Some((first, digits)) = bytes.split_first() else {
            return None;
        };
        if *first == b'x' && digits.len() <= 2048 && are_pairs(digits) {
            return Some(ValueWord { digits });
        }
        None
    }

    /// Returns the value in owned memory.
    #[tactic(auto, using(crate::proofs::DigitLaws::few_bytes))]
    pub fn to_value(&self, alloc: Global) -> Result<Value, Refusal>
        ensures ok { IfOk result (λ value. value ≡ self.now) }
        ensures memory { IfErr result (λ e. e ≡ OutOfMemory) }
    {
        let bytes = bytes_of(alloc, self.digits)?;
        let made = Value::of(alloc, bytes)?;
        match made {
            Some(value) => Ok(value),
            None => unreachable!(),
        }
    }
}

/// The numbers of the gets that a put names, not yet read from the text.
#[derive(Drop)]
pub struct SeenRow<'a> {
    row: NumberRow<'a>,
}

impl<'a> Model for SeenRow<'a> {
    ghost use Rattle.std.specs.Prelude.{List, ℕ, ◌≡◌, true};
    ghost use Rattle.texts.specs.Numbers.{are_small};
    ghost use Rattle.plan_runs.specs.Words.{is_seen};

    ghost Value = { List ℕ };

    ghost view = { λ a. a.row };

    ghost invariant = { λ a. (are_small a.row ≡ true) × (is_seen a.row ≡ true) };
}

impl<'a> SeenRow<'a> {
    /// Returns the gets with these numbers.
    pub fn of(row: NumberRow<'a>) -> SeenRow<'a>
        requires small { are_small row ≡ true }
        requires seen { is_seen row ≡ true }
        ensures { result ≡ row.entry }
    {
        SeenRow { row }
    }

    /// Returns the gets in owned memory.
    pub fn to_seen(&self, alloc: Global) -> Result<Seen, Refusal>
        ensures ok { IfOk result (λ seen. seen ≡ self.now) }
        ensures memory { IfErr result (λ e. e ≡ OutOfMemory) }
    {
        let gets = self.row.to_vec(alloc)?;
        match Seen::of(alloc, gets)? {
            Some(seen) => Ok(seen),
            None => unreachable!(),
        }
    }
}
