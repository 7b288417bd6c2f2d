//! Iterates over a text's lines.

ghost use Rattle.std.specs.Prelude.{◌≡◌, ◌≤◌, Ok, IfOk, IfErr, IsTrue, ◌↔◌};
ghost use Rattle.texts.specs.Parts.{lines_of};
ghost use Rattle.texts.specs.Late.{IsAt};
ghost use Rattle.texts.specs.Left.{next_line, next_number, is_over, over_at, begins_with};

use crate::cut::{cut, stands_in_front};
use crate::fields::Fields;
use ring_names::Refusal;
use std::marker::Model;

#[tactic(auto, unfolding(crate::specs::Left::next_number))]
fn behind(line: u32) -> u32
    ensures value { result ≡ next_number line }
    ensures forward { line ≤ result }
{
    if line < u32::MAX { line + 1 } else { line }
}

/// The remaining lines, and the next line's number, from 1 to 2^32 - 1.
#[derive(Drop)]
pub struct Lines<'a> {
    line: u32,
    rest: &'a [u8],
}

impl<'a> Model for Lines<'a> {
    ghost use Rattle.texts.specs.Left.{Left};
    ghost use Rattle.texts.specs.Parts.{lines_of};

    ghost Value = { Left };

    ghost view = { λ a. record { line = a.line; lines = lines_of a.rest.now } };
}

impl<'a> Lines<'a> {
    /// Returns all lines of a text.
    pub fn of(text: &'a [u8]) -> Lines<'a>
        ensures { result ≡ record { line = 1; lines = lines_of text.now } }
    {
        Lines {
            line: 1,
            rest: text,
        }
    }

    /// Returns the next line's number.
    pub fn line(&self) -> u32
        ensures { result ≡ self.now.line }
    {
        self.line
    }

    /// Takes a line. Fails with `BadLine` if it or its newline is missing.
    #[inline(always)]
    pub fn next(&mut self) -> Result<Fields<'a>, Refusal>
        ensures found { IfOk result (λ x. (x.number ≡ self.old.line) × (next_line self.old ≡ Ok (x.fields, self.new))) }
        ensures missing { IfErr result (λ e. next_line self.old ≡ Err e) }
        ensures at { IfErr result (λ e. IsAt self.old.line e) }
        ensures forward { self.old.line ≤ self.new.line }
    {
        let (line, rest) = cut(self.rest, b'\n');
        match rest {
            None => Err(Refusal::BadLine(self.line)),
            Some(rest) => {
                let fields = Fields::of(self.line, line);
                self.rest = rest;
                self.line = behind(self.line);
                Ok(fields)
            }
        }
    }

    /// Whether the next line's first field is `word`.
    #[inline(always)]
    pub fn begins(&self, word: &[u8]) -> bool
        ensures { result ≡ begins_with word.now self.now.lines }
    {
        stands_in_front(self.rest, word, b'\n')
    }

    /// Returns the remaining bytes.
    #[inline(always)]
    pub fn bytes(&self) -> &'a [u8]
        ensures { self.now.lines ≡ lines_of result.now }
    {
        self.rest
    }

    /// Skips the next line. `rest` is the text after it.
    #[inline(always)]
    pub fn go_on(&mut self, rest: &'a [u8])
        ensures { self.new ≡ record { line = next_number self.old.line; lines = lines_of rest.now } }
    {
        *self = Lines {
            line: behind(self.line),
            rest,
        };
    }

    /// Whether nothing is left.
    pub fn is_over(&self) -> bool
        ensures { result ≡ is_over self.now }
    {
        self.rest.is_empty()
    }

    /// Fails with `BadLine` unless the text is over.
    pub fn ended(&self) -> Result<(), Refusal>
        ensures { result ≡ over_at self.now }
    {
        if self.is_over() {
            Ok(())
        } else {
            Err(Refusal::BadLine(self.line))
        }
    }
}
