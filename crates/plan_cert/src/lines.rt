//! Reads the lines of a certificate.

ghost use Rattle.std.specs.Prelude.{◌≡◌, ◌<◌, ◌-◌, IfOk, IfErr, OnOk, length, slice_get, option_map, true};
ghost use Rattle.texts.specs.Numbers.{are_small};
ghost use Rattle.texts.specs.Judging.{Does, field_at, map_ok};
ghost use Rattle.texts.specs.Late.{IsAt};
ghost use Rattle.plan_cert.specs.Reading.{path_at, steps_at, fact_at, judge_side, side_node_at, node_side_at, chain_at};
ghost use Rattle.plan_cert.specs.Said.{chain_said};

use crate::chains::Chains;
use ring_names::{NodeId, Refusal, Rows};
use ring_table::{NodeSide, Ring, Side, node_field};
use texts::{CAP, Fields, NumberRow, both, finish_both, need};

// Takes all leading numbers, a fact's steps.
#[tactic(auto, unfolding(crate::specs::Reading::path_at))]
fn path_field<'a>(fields: &mut Fields<'a>) -> Result<NumberRow<'a>, Refusal>
    ensures { Does path_at fields.old result fields.new }
{
    let line = fields.line();
    let row = fields.numbers();
    if row.is_at_most(1) {
        return Err(Refusal::BadLine(line));
    }
    if !row.is_at_most(1024) {
        return Err(Refusal::TooLarge(line));
    }
    if !row.are_below(CAP) {
        return Err(Refusal::TooLarge(line));
    }
    Ok(row)
}

// Takes all leading numbers, a chain's steps.
#[tactic(auto, unfolding(crate::specs::Reading::steps_at))]
fn steps_field<'a>(fields: &mut Fields<'a>) -> Result<NumberRow<'a>, Refusal>
    ensures { Does steps_at fields.old result fields.new }
{
    let line = fields.line();
    let row = fields.numbers();
    if row.is_empty() {
        return Err(Refusal::BadLine(line));
    }
    if !row.are_below(CAP) {
        return Err(Refusal::TooLarge(line));
    }
    Ok(row)
}

#[tactic(auto, unfolding(crate::specs::Reading::fact_at))]
fn judge_fact<'a>(seen: &Rows, mut fields: Fields<'a>) -> Result<NumberRow<'a>, Refusal>
    ensures { result ≡ fact_at seen.now fields.entry.number fields.entry.fields }
{
    let room = need(seen.len() < 262144, &fields);
    let word = fields.word(b"fact");
    let path = path_field(&mut fields);
    let (_, path) = finish_both(room, word, path, fields)?;
    Ok(path)
}

/// Reads a fact's line, which comes after the `seen` facts.
pub fn fact_line<'a>(seen: &Rows, fields: Fields<'a>) -> Result<NumberRow<'a>, Refusal>
    ensures value { result ≡ fact_at seen.now fields.entry.number fields.entry.fields }
    ensures small { IfOk result (λ path. are_small path ≡ true) }
    ensures room { OnOk result (length seen.now < 262144) }
    ensures at { IfErr result (λ e. IsAt fields.entry.number e) }
{
    judge_fact(seen, fields)
}

/// A chain's line: node, side, and steps that are still text.
#[derive(Drop)]
pub struct ChainLine<'a> {
    pub of: NodeSide,
    pub steps: NumberRow<'a>,
}

// The last chain's node, if any: the next chain mostly names it too.
fn last_node(seen: &Chains) -> Option<NodeId>
    ensures { result ≡ option_map (λ c. c.node) (slice_get seen.now (length seen.now - 1)) }
{
    let count = seen.len();
    if count == 0 {
        return None;
    }
    Some(seen.of(count - 1).node)
}

// `chain`, `take` or `give`
fn side(fields: &mut Fields) -> Result<Side, Refusal>
    ensures { Does (λ k. field_at k (judge_side k)) fields.old result fields.new }
{
    if fields.takes(b"chain") {
        Ok(Side::Both)
    } else if fields.takes(b"take") {
        Ok(Side::Take)
    } else if fields.takes(b"give") {
        Ok(Side::Give)
    } else {
        let _ = fields.next();
        Err(Refusal::BadLine(fields.line()))
    }
}

// Takes a side's word and a declared node.
fn side_node(
    ring: &Ring,
    likely: Option<NodeId>,
    fields: &mut Fields,
) -> Result<(Side, NodeId), Refusal>
    ensures { Does (side_node_at ring.now) fields.old result fields.new }
{
    let side = side(fields);
    let node = node_field(ring, likely, fields);
    both(side, node)
}

#[tactic(auto, unfolding(crate::specs::Reading::node_side_at))]
fn node_side(ring: &Ring, likely: Option<NodeId>, fields: &mut Fields) -> Result<NodeSide, Refusal>
    ensures { Does (node_side_at ring.now) fields.old result fields.new }
{
    let line = fields.line();
    match side_node(ring, likely, fields) {
        Ok((side, node)) => {
            let of = NodeSide { node, side };
            if ring.allowance(of).is_some() {
                Ok(of)
            } else {
                Err(Refusal::BadLine(line))
            }
        }
        Err(e) => Err(e),
    }
}

#[tactic(auto, unfolding(crate::specs::Reading::chain_at))]
fn judge_chain<'a>(
    ring: &Ring,
    seen: &Chains,
    mut fields: Fields<'a>,
) -> Result<ChainLine<'a>, Refusal>
    ensures { map_ok chain_said result ≡ chain_at ring.now seen.now fields.entry.number fields.entry.fields }
{
    let room = need(seen.len() < 65536, &fields);
    let of = node_side(ring, last_node(seen), &mut fields);
    let steps = steps_field(&mut fields);
    let (of, steps) = finish_both(room, of, steps, fields)?;
    Ok(ChainLine { of, steps })
}

/// Reads a chain's line, which comes after the `seen` chains.
pub fn chain_line<'a>(
    ring: &Ring,
    seen: &Chains,
    fields: Fields<'a>,
) -> Result<ChainLine<'a>, Refusal>
    ensures value { map_ok chain_said result ≡ chain_at ring.now seen.now fields.entry.number fields.entry.fields }
    ensures small { IfOk result (λ said. are_small said.steps ≡ true) }
    ensures room { OnOk result (length seen.now < 65536) }
    ensures at { IfErr result (λ e. IsAt fields.entry.number e) }
{
    // Proves the ring valid.
    let slots = ring.n();
    prove!(slots <= 7);
    judge_chain(ring, seen, fields)
}
