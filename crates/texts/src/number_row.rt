//! Successive numbers.

ghost use Rattle.std.specs.Prelude.{◌≡◌, ◌∷◌, ◌≤◌, ◌==◌, ◌++◌, ◌&&◌, [], true, nat_lt, nat_le, length, ⊤, MatchOption};
ghost use Rattle.std.specs.Prelude.{is_some, IfSome, OnOk, IfOk, IfErr};
ghost use Rattle.std.specs.List.{list_all};
ghost use Rattle.ring_names.specs.declared.refusal.Refusal.TheVariants.{OutOfMemory};
ghost use Rattle.texts.specs.Number.{value_from, is_number, capped};
ghost use Rattle.texts.specs.Numbers.{numbers_of, beyond, ascending, are_small};

use crate::compare::is_less;
use crate::cursor::Cursor;
use crate::measure::Measure;
use crate::number::{CAP, number_in_front};
use ring_names::Refusal;
use std::alloc::Global;
use std::marker::Model;

/// Successive numbers, unparsed and of any length.
#[derive(Drop)]
pub struct NumberRow<'a> {
    rest: Cursor<'a>,
    measure: Measure,
}

impl<'a> Model for NumberRow<'a> {
    ghost use Rattle.std.specs.Prelude.{List, ℕ};
    ghost use Rattle.texts.specs.Numbers.{numbers_of};

    ghost Value = { List ℕ };

    ghost view = { λ a. numbers_of a.rest };

    ghost use Rattle.texts.specs.KeptRow.{Measures};

    ghost invariant = { λ a. Measures (numbers_of a.rest) a.measure };
}

impl<'a> Cursor<'a> {
    pub(crate) fn again(&self) -> Cursor<'a>
        ensures { result ≡ self.now }
    {
        Cursor { rest: self.rest }
    }

    // Takes the next number. Returns its digits, and its value, at most `CAP`.
    #[tactic(auto, using(crate::proofs::InFront::none_beyond))]
    #[inline(always)]
    pub(crate) fn next_number(&mut self) -> Option<(&'a [u8], u64)>
        ensures number { MatchOption result (numbers_of self.old ≡ [])
            (λ n. (is_number n.0.now ≡ true) × (numbers_of self.old ≡ value_from 0 n.0.now ∷ numbers_of self.new)) }
        ensures value { IfSome result (λ n. n.1 ≡ capped (value_from 0 n.0.now)) }
        ensures field { MatchOption result (self.new ≡ self.old) (λ n. self.old ≡ n.0.now ∷ self.new) }
        ensures rest { MatchOption result (beyond self.old ≡ self.old) (λ n. beyond self.old ≡ beyond self.new) }
    {
        let rest = self.rest?;
        match number_in_front(rest) {
            None => None,
            Some(front) => {
                self.rest = front.rest;
                Some((front.digits, front.value))
            }
        }
    }

    /// Takes all leading numbers.
    #[inline(always)]
    pub fn numbers(&mut self) -> NumberRow<'a>
        ensures numbers { result ≡ numbers_of self.old }
        ensures rest { self.new ≡ beyond self.old }
    {
        let rest = self.again();
        let mut measure = Measure::new();
        'numbers: while let Some((_, value)) = self.next_number() {
            measure.add(value);
        }
        NumberRow { rest, measure }
    }

    fn push_numbers(&mut self, out: &mut Vec<u32>) -> Result<(), Refusal>
        requires { list_all (λ x. nat_lt x 4294967296) (numbers_of self.old) ≡ true }
        ensures ok { OnOk result (out.new.items ≡ out.old.items ++ numbers_of self.old) }
        ensures memory { IfErr result (λ e. e ≡ OutOfMemory) }
    {
        'numbers: while let Some((_, value)) = self.next_number() {
            out.push(value as u32)?;
        }
        Ok(())
    }
}

impl<'a> NumberRow<'a> {
    /// Returns an empty row.
    pub fn none() -> NumberRow<'a>
        ensures { result ≡ [] }
    {
        NumberRow {
            rest: Cursor { rest: None },
            measure: Measure::new(),
        }
    }

    /// Copies the row.
    pub fn again(&self) -> NumberRow<'a>
        ensures { result ≡ self.now }
    {
        NumberRow {
            rest: self.rest.again(),
            measure: self.measure,
        }
    }

    /// Whether there are no numbers.
    pub fn is_empty(&self) -> bool
        ensures { result ≡ (length self.now == 0) }
    {
        self.measure.count == 0
    }

    /// Whether there are at most `limit` numbers.
    pub fn is_at_most(&self, limit: u32) -> bool
        ensures { result ≡ nat_le (length self.now) limit }
    {
        self.measure.count <= u64::from(limit)
    }

    /// Whether each number is below the limit.
    pub fn are_below(&self, limit: u64) -> bool
        requires { limit ≤ 4294967296 }
        ensures { result ≡ list_all (λ x. nat_lt x limit) self.now }
    {
        self.measure.bound <= limit
    }

    /// Whether each number is less than the next.
    pub fn are_ascending(&self) -> bool
        ensures { result ≡ ascending self.now }
    {
        if self.measure.bound <= CAP {
            return self.measure.ascends;
        }
        let mut numbers = self.rest.again();
        let Some((mut last, _)) = numbers.next_number() else {
            return true;
        };
        'numbers: while let Some((field, _)) = numbers.next_number() {
            if !is_less(last, field) {
                return false;
            }
            last = field;
        }
        true
    }

    /// Returns the numbers if at most 8, each a `u32`.
    pub fn kept(&self) -> Option<&[u32]>
        ensures some { is_some result ≡ (nat_le (length self.now) 8 && are_small self.now) }
        ensures same { IfSome result (λ kept. kept.now ≡ self.now) }
    {
        self.measure.kept()
    }

    /// Returns the numbers as a vector.
    pub fn to_vec(&self, alloc: Global) -> Result<Vec<u32>, Refusal>
        requires { list_all (λ x. nat_lt x 4294967296) self.now ≡ true }
        ensures ok { IfOk result (λ out. out.items ≡ self.now) }
        ensures memory { IfErr result (λ e. e ≡ OutOfMemory) }
    {
        let mut out = Vec::new(alloc);
        if let Some(kept) = self.kept() {
            out.extend_from_slice(kept)?;
            return Ok(out);
        }
        let mut numbers = self.rest.again();
        numbers.push_numbers(&mut out)?;
        Ok(out)
    }
}
