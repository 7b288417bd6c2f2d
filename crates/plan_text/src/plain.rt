//! A fast path for common steps.

ghost use Rattle.std.specs.Prelude.{◌≡◌, ◌+◌, ◌≤◌, ◌++◌, ◌∷◌, [], true, false, length, nat_lt, IfSome, IfNone};
ghost use Rattle.std.specs.List.{join_with_byte, list_all};
ghost use Rattle.texts.specs.Parts.{line_text, spaced};
ghost use Rattle.texts.specs.Numbers.{ascending};
ghost use Rattle.ring_table.specs.Value.{names_of};
ghost use Rattle.ring_table.specs.Spelling.{name_at};
ghost use Rattle.plan_text.specs.declared.step.Planned.{Planned};
ghost use Rattle.plan_text.specs.Fits.{IsMove, IsNext};
ghost use Rattle.plan_text.specs.Reading.{steps_from};
ghost use Rattle.plan_text.specs.Spelling.{slot_fields, kind_fields, after_fields, step_fields};
ghost use Rattle.plan_text.specs.Valid.{is_ring_slot, is_declared};

use crate::plan::Plan;
use crate::step::{Source, Step};
use ring_names::{NodeId, Slot};
use ring_table::Ring;
use texts::{Lines, after_word, plain_number, plain_numbers, plain_word};

// Returns a slot, and the rest.
#[inline(always)]
fn plain_slot<'a>(ring: &Ring, text: &'a [u8]) -> Option<(Slot, &'a [u8])>
    ensures text { IfSome result (λ x. text.now ≡ join_with_byte 32 (slot_fields x.0) ++ x.1.now) }
    ensures suits { IfSome result (λ x. is_ring_slot ring.now x.0 ≡ true) }
{
    let (partition, rest) = plain_number(text)?;
    let rest = after_word(rest, b" ")?;
    let (index, rest) = plain_number(rest)?;
    if partition >= ring.q() || index >= ring.n() {
        return None;
    }
    Some((Slot { partition, index }, rest))
}

// Returns a slot, a node, and the rest.
#[inline(always)]
fn plain_slot_node<'a>(ring: &Ring, text: &'a [u8]) -> Option<(Slot, NodeId, &'a [u8])>
    ensures text { IfSome result
        (λ x. text.now ≡ join_with_byte 32 (slot_fields x.0 ++ name_at (names_of ring.now) x.1 ∷ []) ++ x.2.now) }
    ensures slot { IfSome result (λ x. is_ring_slot ring.now x.0 ≡ true) }
    ensures node { IfSome result (λ x. is_declared ring.now x.1 ≡ true) }
{
    let (slot, rest) = plain_slot(ring, text)?;
    let rest = after_word(rest, b" ")?;
    let (name, rest) = plain_word(rest);
    let node = ring.number_of(name)?;
    Some((slot, node, rest))
}

// Returns a mirror, a copy from the owner, a switch or a drop, and the rest.
#[inline(always)]
fn plain_kind<'a>(ring: &Ring, text: &'a [u8]) -> Option<(Step, &'a [u8])>
    ensures text { IfSome result
        (λ x. text.now ≡ join_with_byte 32 (kind_fields (names_of ring.now) x.0) ++ x.1.now) }
    ensures moves { IfSome result (λ x. IsMove ring.now x.0) }
{
    if let Some(rest) = after_word(text, b"mirror ") {
        let (slot, node, rest) = plain_slot_node(ring, rest)?;
        return Some((Step::Mirror(slot, node), rest));
    }
    if let Some(rest) = after_word(text, b"copy ") {
        let (slot, rest) = plain_slot(ring, rest)?;
        let rest = after_word(rest, b" owner")?;
        return Some((Step::Copy(slot, Source::Owner), rest));
    }
    if let Some(rest) = after_word(text, b"switch ") {
        let (slot, rest) = plain_slot(ring, rest)?;
        return Some((Step::Switch(slot), rest));
    }
    let rest = after_word(text, b"drop ")?;
    let (slot, node, rest) = plain_slot_node(ring, rest)?;
    Some((Step::Drop(slot, node), rest))
}

#[inline(always)]
fn ascend_below(numbers: &[u32], limit: u32) -> bool
    ensures ascending { result ≡ true → ascending numbers.now ≡ true }
    ensures below { result ≡ true → list_all (λ x. nat_lt x limit) numbers.now ≡ true }
{
    let mut least = 0;
    for number in numbers {
        if *number < least || *number >= limit {
            return false;
        }
        least = *number + 1;
    }
    true
}

// Returns the dependencies, and the rest.
#[inline(always)]
fn plain_after<'a>(plan: &Plan, text: &'a [u8], after: &mut Vec<u32>) -> Option<&'a [u8]>
    ensures text { IfSome result (λ rest. text.now ≡ spaced (after_fields after.new.items) ++ 10 ∷ rest.now) }
    ensures ascending { IfSome result (λ _. ascending after.new.items ≡ true) }
    ensures earlier { IfSome result (λ _. list_all (λ x. nat_lt x (length plan.now)) after.new.items ≡ true) }
    ensures few { IfSome result (λ _. length after.new.items ≤ 4096) }
{
    let Some(rest) = after_word(text, b" after") else {
        after.clear();
        return after_word(text, b"\n");
    };
    let rest = plain_numbers(rest, 4096, after)?;
    let rest = after_word(rest, b"\n")?;
    if after.is_empty() || after.len() > 4096 || !ascend_below(after.as_slice(), plan.len()) {
        return None;
    }
    Some(rest)
}

// Adds a common step, and returns the rest.
#[inline(always)]
fn add_plain<'a>(
    ring: &Ring,
    plan: &mut Plan,
    text: &'a [u8],
    after: &mut Vec<u32>,
) -> Option<&'a [u8]>
    ensures taken { IfSome result (λ rest. (x : Planned) × IsNext plan.old x × IsMove ring.now x.step
        × (plan.new ≡ plan.old ++ x ∷ []) × (text.now ≡ line_text (step_fields (names_of ring.now) x) ++ rest.now)) }
    ensures none { IfNone result (plan.new ≡ plan.old) }
{
    if plan.len() >= 131072 {
        return None;
    }
    let (step, rest) = plain_kind(ring, text)?;
    let rest = plain_after(plan, rest, after)?;
    if plan.dependencies() as usize + after.len() > 524288 {
        return None;
    }
    match plan.push(step, after.as_slice()) {
        Ok(()) => Some(rest),
        Err(_) => None,
    }
}

/// Adds the next line's step by the fast path. False if that fails.
#[inline(always)]
pub fn take_plain(ring: &Ring, plan: &mut Plan, lines: &mut Lines, after: &mut Vec<u32>) -> bool
    ensures read { result ≡ true → steps_from ring.now plan.new lines.new.line lines.new.lines
        ≡ steps_from ring.now plan.old lines.old.line lines.old.lines }
    ensures grows { result ≡ true → (length plan.new ≡ length plan.old + 1) × (length plan.new ≤ 131072) }
    ensures forward { lines.old.line ≤ lines.new.line }
    ensures plan { result ≡ false → plan.new ≡ plan.old }
    ensures lines { result ≡ false → lines.new ≡ lines.old }
{
    // Proves the ring valid.
    let slots = ring.n();
    prove!(slots <= 7);
    match add_plain(ring, plan, lines.bytes(), after) {
        Some(rest) => {
            lines.go_on(rest);
            true
        }
        None => false,
    }
}
