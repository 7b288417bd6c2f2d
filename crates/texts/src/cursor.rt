//! Iterates over a line's fields.

ghost use Rattle.std.specs.Prelude.{◌≡◌, ◌∷◌, [], List, ℕ, true, false, MatchOption};
ghost use Rattle.std.specs.Str.{bytes_eq};
ghost use Rattle.texts.specs.Parts.{fields_of};
ghost use Rattle.texts.specs.Cuts.{front_of, behind_of};

use crate::cut::{cut_near, stands_in_front};
use std::marker::Model;

/// The remaining fields of a line, between single spaces.
#[derive(Drop)]
pub struct Cursor<'a> {
    pub(crate) rest: Option<&'a [u8]>,
}

impl<'a> Model for Cursor<'a> {
    ghost use Rattle.std.specs.Prelude.{List, ℕ};
    ghost use Rattle.texts.specs.Kept.{fields_left};

    ghost Value = { List (List ℕ) };

    ghost view = { λ a. fields_left a.rest };
}

impl<'a> Cursor<'a> {
    /// Returns the fields of a line without its newline.
    pub fn of(line: &'a [u8]) -> Cursor<'a>
        ensures { result ≡ fields_of line.now }
    {
        Cursor { rest: Some(line) }
    }

    /// Takes the next field.
    #[inline(always)]
    pub fn next(&mut self) -> Option<&'a [u8]>
        ensures { MatchOption result ((self.old ≡ []) × (self.new ≡ [])) (λ field. self.old ≡ field.now ∷ self.new) }
    {
        let rest = self.rest?;
        let (field, rest) = cut_near(rest, b' ');
        self.rest = rest;
        Some(field)
    }

    /// Takes the next field if it is `word`, and says whether.
    #[inline(always)]
    pub fn takes(&mut self, word: &[u8]) -> bool
        ensures taken { result ≡ true → self.old ≡ word.now ∷ self.new }
        ensures left { result ≡ false → self.new ≡ self.old }
        ensures other { result ≡ false → (x : List ℕ) (xs : List (List ℕ)) → self.old ≡ x ∷ xs
            → bytes_eq x word.now ≡ false }
    {
        let Some(bytes) = self.rest else {
            return false;
        };
        if !stands_in_front(bytes, word, b' ') {
            return false;
        }
        self.rest = if word.len() < bytes.len() {
            Some(&bytes[word.len() + 1..])
        } else {
            None
        };
        true
    }

    /// Splits the fields around the first `word`, if any.
    pub fn split(self, word: &[u8]) -> (Cursor<'a>, Option<Cursor<'a>>)
        ensures front { result.0 ≡ front_of word.now self.entry }
        ensures behind { result.1 ≡ behind_of word.now self.entry }
    {
        let Some(bytes) = self.rest else {
            return (Cursor { rest: None }, None);
        };
        let mut front = None;
        let mut start = 0;
        for at in 0..bytes.len() {
            if bytes[at] == b' ' {
                if &bytes[start..at] == word {
                    let behind = Cursor {
                        rest: Some(&bytes[at + 1..]),
                    };
                    return (Cursor { rest: front }, Some(behind));
                }
                front = Some(&bytes[..at]);
                start = at + 1;
            }
        }
        if &bytes[start..] == word {
            return (Cursor { rest: front }, Some(Cursor { rest: None }));
        }
        (self, None)
    }
}
