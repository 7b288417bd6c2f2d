//! Iterates over a line's fields.

ghost use Rattle.std.specs.Prelude.{◌≡◌, ◌∷◌, [], List, ℕ, true, false, drop, option_map, is_some, MatchOption};
ghost use Rattle.std.specs.Str.{bytes_eq};
ghost use Rattle.texts.specs.Parts.{fields_of};
ghost use Rattle.texts.specs.Cuts.{front_of, behind_of};
ghost use Rattle.texts.specs.Judging.{Does, word_at, number_at, end_at};
ghost use Rattle.texts.specs.Number.{capped};
ghost use Rattle.texts.specs.Numbers.{numbers_of, beyond, first_value};

use crate::cursor::Cursor;
use crate::number_row::NumberRow;
use ring_names::Refusal;
use std::marker::Model;

/// A line's remaining fields, and the line's number.
#[derive(Drop)]
pub struct Fields<'a> {
    line: u32,
    rest: Cursor<'a>,
}

impl<'a> Model for Fields<'a> {
    ghost use Rattle.texts.specs.Judging.{Line};

    ghost Value = { Line };

    ghost view = { λ a. record { number = a.line; fields = a.rest } };
}

impl<'a> Fields<'a> {
    /// Returns the fields of a line without its newline.
    #[inline(always)]
    pub fn of(line: u32, text: &'a [u8]) -> Fields<'a>
        ensures { result ≡ record { number = line; fields = fields_of text.now } }
    {
        Fields {
            line,
            rest: Cursor::of(text),
        }
    }

    /// Returns the line's number.
    pub fn line(&self) -> u32
        ensures { result ≡ self.now.number }
    {
        self.line
    }

    /// Takes the next field.
    #[inline(always)]
    pub fn next(&mut self) -> Option<&'a [u8]>
        ensures field { MatchOption result ((self.old.fields ≡ []) × (self.new.fields ≡ []))
            (λ field. self.old.fields ≡ field.now ∷ self.new.fields) }
        ensures line { self.new.number ≡ self.old.number }
    {
        self.rest.next()
    }

    /// Takes the next field if it is `word`, and says whether.
    #[inline(always)]
    pub fn takes(&mut self, word: &[u8]) -> bool
        ensures taken { result ≡ true → self.old.fields ≡ word.now ∷ self.new.fields }
        ensures left { result ≡ false → self.new.fields ≡ self.old.fields }
        ensures other { result ≡ false → (x : List ℕ) (xs : List (List ℕ)) → self.old.fields ≡ x ∷ xs
            → bytes_eq x word.now ≡ false }
        ensures line { self.new.number ≡ self.old.number }
    {
        self.rest.takes(word)
    }

    /// Takes `word`, or fails with `BadLine`.
    #[inline(always)]
    pub fn word(&mut self, word: &[u8]) -> Result<(), Refusal>
        ensures { Does (λ k. word_at k word.now) self.old result self.new }
    {
        if self.takes(word) {
            return Ok(());
        }
        let _ = self.next();
        Err(Refusal::BadLine(self.line))
    }

    /// Takes the next field. Returns its value, at most `CAP`, if it is decimal without sign or leading zeros.
    #[inline(always)]
    pub fn value(&mut self) -> Option<u64>
        ensures value { result ≡ option_map capped (first_value self.old.fields) }
        ensures rest { self.new ≡ record { number = self.old.number; fields = drop 1 self.old.fields } }
    {
        if let Some((_, value)) = self.rest.next_number() {
            return Some(value);
        }
        let _ = self.rest.next();
        None
    }

    /// Whether the next field is a number.
    pub fn begins_number(&self) -> bool
        ensures { result ≡ is_some (first_value self.now.fields) }
    {
        self.rest.again().next_number().is_some()
    }

    /// Takes a number. Fails with `BadLine`, or with `TooLarge` above the limit.
    #[inline(always)]
    pub fn number(&mut self, limit: u32) -> Result<u32, Refusal>
        ensures { Does (λ k. number_at k limit) self.old result self.new }
    {
        match self.value() {
            None => Err(Refusal::BadLine(self.line)),
            Some(value) if value > u64::from(limit) => Err(Refusal::TooLarge(self.line)),
            Some(value) => Ok(value as u32),
        }
    }

    /// Takes all leading numbers.
    #[inline(always)]
    pub fn numbers(&mut self) -> NumberRow<'a>
        ensures numbers { result ≡ numbers_of self.old.fields }
        ensures rest { self.new ≡ record { number = self.old.number; fields = beyond self.old.fields } }
    {
        self.rest.numbers()
    }

    /// Fails with `BadLine` if a field is left.
    #[inline(always)]
    pub fn ended(&mut self) -> Result<(), Refusal>
        ensures { Does (λ k. end_at k) self.old result self.new }
    {
        match self.next() {
            None => Ok(()),
            Some(_) => Err(Refusal::BadLine(self.line)),
        }
    }

    /// Splits the fields around the first `word`, if any.
    pub fn split(self, word: &[u8]) -> (Fields<'a>, Option<Fields<'a>>)
        ensures front { result.0 ≡ record { number = self.entry.number; fields = front_of word.now self.entry.fields } }
        ensures behind { result.1 ≡ option_map (λ fs. record { number = self.entry.number; fields = fs })
            (behind_of word.now self.entry.fields) }
    {
        let line = self.line;
        let (front, behind) = self.rest.split(word);
        let front = Fields { line, rest: front };
        match behind {
            Some(rest) => (front, Some(Fields { line, rest })),
            None => (front, None),
        }
    }
}
