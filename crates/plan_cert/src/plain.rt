//! Fast paths for facts and chains.

ghost use Rattle.std.specs.Prelude.{◌≡◌, ◌+◌, ◌≤◌, ◌++◌, ◌∷◌, [], ℕ, List, true, false, length, codes, IfSome, IfNone};
ghost use Rattle.texts.specs.Parts.{line_text};
ghost use Rattle.texts.specs.Left.{is_word, many_from};
ghost use Rattle.ring_table.specs.Value.{names_of};
ghost use Rattle.plan_cert.specs.declared.cert.Chain.{Chain};
ghost use Rattle.plan_cert.specs.Reading.{fact_at, chain_at, begins_chain};
ghost use Rattle.plan_cert.specs.Spelling.{fact_fields, chain_fields};
ghost use Rattle.plan_cert.specs.Valid.{IsNextFact, IsNextChain};

use crate::chains::Chains;
use ring_names::Rows;
use ring_table::{NodeSide, Ring, Side};
use texts::{Lines, after_word, plain_numbers, plain_word};

// Adds the next line's fact by the fast path. Returns the rest.
#[inline(always)]
fn add_plain_fact<'a>(facts: &mut Rows, text: &'a [u8], steps: &mut Vec<u32>) -> Option<&'a [u8]>
    ensures taken { IfSome result (λ rest. (x : List ℕ) × IsNextFact facts.old x
        × (facts.new ≡ facts.old ++ x ∷ []) × (text.now ≡ line_text (fact_fields x) ++ rest.now)) }
    ensures none { IfNone result (facts.new ≡ facts.old) }
{
    let rest = after_word(text, b"fact")?;
    let rest = plain_numbers(rest, 1024, steps)?;
    let rest = after_word(rest, b"\n")?;
    if facts.len() >= 262144 || steps.len() < 2 || steps.len() > 1024 {
        return None;
    }
    match facts.push(steps.as_slice()) {
        Ok(()) => Some(rest),
        Err(_) => None,
    }
}

/// Adds the next line's fact by the fast path. False if that fails.
#[inline(always)]
pub fn take_fact(facts: &mut Rows, lines: &mut Lines, steps: &mut Vec<u32>) -> bool
    ensures read { result ≡ true → many_from (is_word (codes "fact")) fact_at facts.new lines.new.line lines.new.lines
        ≡ many_from (is_word (codes "fact")) fact_at facts.old lines.old.line lines.old.lines }
    ensures grows { result ≡ true → (length facts.new ≡ length facts.old + 1) × (length facts.new ≤ 262144) }
    ensures forward { lines.old.line ≤ lines.new.line }
    ensures facts { result ≡ false → facts.new ≡ facts.old }
    ensures lines { result ≡ false → lines.new ≡ lines.old }
{
    match add_plain_fact(facts, lines.bytes(), steps) {
        Some(rest) => {
            lines.go_on(rest);
            true
        }
        None => false,
    }
}

// Adds the next line's chain by the fast path. Returns the rest.
#[inline(always)]
fn add_plain_chain<'a>(
    ring: &Ring,
    chains: &mut Chains,
    text: &'a [u8],
    steps: &mut Vec<u32>,
) -> Option<&'a [u8]>
    ensures taken { IfSome result (λ rest. (x : Chain) × IsNextChain ring.now chains.old x
        × (chains.new ≡ chains.old ++ x ∷ []) × (text.now ≡ line_text (chain_fields (names_of ring.now) x) ++ rest.now)) }
    ensures none { IfNone result (chains.new ≡ chains.old) }
{
    let rest = after_word(text, b"chain ")?;
    let (name, rest) = plain_word(rest);
    let node = ring.number_of(name)?;
    let rest = plain_numbers(rest, 131072, steps)?;
    let rest = after_word(rest, b"\n")?;
    let of = NodeSide {
        node,
        side: Side::Both,
    };
    ring.allowance(of)?;
    if chains.len() >= 65536 || steps.is_empty() {
        return None;
    }
    match chains.push(of, steps.as_slice()) {
        Ok(()) => Some(rest),
        Err(_) => None,
    }
}

/// Adds the next line's chain by the fast path. False if that fails.
#[inline(always)]
pub fn take_chain(ring: &Ring, chains: &mut Chains, lines: &mut Lines, steps: &mut Vec<u32>) -> bool
    ensures read { result ≡ true → many_from (begins_chain ring.now) (chain_at ring.now) chains.new lines.new.line lines.new.lines
        ≡ many_from (begins_chain ring.now) (chain_at ring.now) chains.old lines.old.line lines.old.lines }
    ensures grows { result ≡ true → (length chains.new ≡ length chains.old + 1) × (length chains.new ≤ 65536) }
    ensures forward { lines.old.line ≤ lines.new.line }
    ensures chains { result ≡ false → chains.new ≡ chains.old }
    ensures lines { result ≡ false → lines.new ≡ lines.old }
{
    // Proves the ring valid.
    let slots = ring.n();
    prove!(slots <= 7);
    match add_plain_chain(ring, chains, lines.bytes(), steps) {
        Some(rest) => {
            lines.go_on(rest);
            true
        }
        None => false,
    }
}
