//! A text that reports failure only at its end.

ghost use Rattle.std.specs.Prelude.{◌≡◌, ◌≢◌, ◌∷◌, [], Some, None, IfSome, length};
ghost use Rattle.std.proofs.Math.ListN.{replicate};
ghost use Rattle.std.specs.Fmt.{decimal};
ghost use Rattle.texts.specs.Writing.{GoesOn, Ends};

use ring_names::{Refusal, push_decimal};
use std::alloc::Global;
use std::marker::Model;

/// A text written word by word. Once memory runs out, nothing is added and `end` fails.
#[derive(Drop)]
pub struct Words {
    bytes: Vec<u8>,
    is_whole: bool,
}

impl Model for Words {
    ghost use Rattle.std.specs.Prelude.{ℕ, List, Option};
    ghost use Rattle.texts.specs.Writing.{written};

    ghost Value = { Option (List ℕ) };

    ghost view = { λ a. written a.is_whole a.bytes.items };
}

impl Words {
    /// Starts empty.
    pub fn new(alloc: Global) -> Words
        ensures { result ≡ Some [] }
    {
        Words {
            bytes: Vec::new(alloc),
            is_whole: true,
        }
    }

    /// Adds the bytes.
    pub fn text(&mut self, text: &[u8])
        ensures { GoesOn self.old self.new text.now }
    {
        if self.is_whole {
            self.is_whole = self.bytes.extend_from_slice(text).is_ok();
        }
    }

    /// Adds the byte.
    pub fn byte(&mut self, byte: u8)
        ensures { GoesOn self.old self.new (byte ∷ []) }
    {
        if self.is_whole {
            self.is_whole = self.bytes.push(byte).is_ok();
        }
    }

    /// Adds the byte `count` times.
    pub fn times(&mut self, byte: u8, count: usize)
        ensures { GoesOn self.old self.new (replicate count byte) }
    {
        'turns: for turn in 0..count {
            self.byte(byte);
        }
    }

    /// Adds the number in decimal.
    pub fn number(&mut self, number: u32)
        ensures { GoesOn self.old self.new (decimal number) }
    {
        if self.is_whole {
            self.is_whole = push_decimal(&mut self.bytes, number).is_ok();
        }
    }

    /// Adds the words; the next name, if any, replaces each `@`, the next number each `#`.
    #[tactic(auto, using(crate::proofs::Growing::still))]
    pub fn fill(&mut self, words: &[u8], names: &[&[u8]], numbers: &[u32])
        ensures { self.old ≡ None → self.new ≡ None }
    {
        let (mut name, mut number) = (0usize, 0usize);
        'words: for byte in words {
            if *byte == b'@' {
                if let Some(text) = names.get(name) {
                    self.text(text);
                }
                name = name.saturating_add(1);
            } else if *byte == b'#' {
                if let Some(count) = numbers.get(number) {
                    self.number(*count);
                }
                number = number.saturating_add(1);
            } else {
                self.byte(*byte);
            }
        }
    }

    /// The bytes so far.
    pub fn as_slice(&self) -> &[u8]
        ensures { IfSome self.now (λ bytes. result.now ≡ bytes) }
    {
        self.bytes.as_slice()
    }

    /// Adds the other text.
    pub fn words(&mut self, other: &Words)
        ensures text { IfSome other.now (λ bytes. GoesOn self.old self.new bytes) }
        ensures refused { other.now ≡ None → self.new ≡ None }
    {
        self.text(other.as_slice());
        self.heed(other);
    }

    /// Makes `end` fail if the other text's `end` would.
    pub fn heed(&mut self, other: &Words)
        ensures { IfSome self.new (λ bytes. (self.old ≡ Some bytes) × (other.now ≢ None)) }
    {
        if !other.is_whole {
            self.lose();
        }
    }

    /// Makes `end` fail.
    pub fn lose(&mut self)
        ensures { self.new ≡ None }
    {
        self.is_whole = false;
    }

    /// Counts the bytes so far.
    pub fn len(&self) -> usize
        ensures { IfSome self.now (λ bytes. result ≡ length bytes) }
    {
        self.bytes.len()
    }

    /// Removes all bytes. A failed text stays failed.
    pub fn clear(&mut self)
        ensures empty { IfSome self.new (λ bytes. bytes ≡ []) }
        ensures refused { self.old ≡ None → self.new ≡ None }
    {
        self.bytes.clear();
    }

    /// Returns the text, unless memory ran out.
    pub fn end(self) -> Result<Vec<u8>, Refusal>
        ensures { Ends self result }
    {
        if self.is_whole {
            Ok(self.bytes)
        } else {
            Err(Refusal::OutOfMemory)
        }
    }
}
