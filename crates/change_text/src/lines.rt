//! The lines of a change.

ghost use Rattle.std.specs.Prelude.{◌≡◌, ◌<◌, [], IfOk, IfErr};
ghost use Rattle.texts.specs.Judging.{Does};
ghost use Rattle.texts.specs.Late.{IsAt};
ghost use Rattle.change_text.specs.Reading.{joining_at, leaving_at, join_at, leave_at};

use crate::draft::Draft;
use ring_names::{NodeId, Refusal};
use ring_table::{Ring, node_field};
use texts::{Fields, both, finish};

// Takes a nonmember not yet named. Fails with `Repeated`.
#[tactic(auto, unfolding(crate::specs::Reading::joining_at))]
fn joining(ring: &Ring, draft: &Draft, fields: &mut Fields) -> Result<NodeId, Refusal>
    requires { draft.now.leaves ≡ [] }
    ensures { Does (joining_at ring.now draft.now.joins) fields.old result fields.new }
{
    match node_field(ring, None, fields) {
        Ok(node) if ring.is_member(node) || draft.names(node) => Err(Refusal::Repeated(
            fields.line(),
        )),
        other => other,
    }
}

// Takes a member not yet named. Fails with `NotMember` or `Repeated`.
#[tactic(auto, unfolding(crate::specs::Reading::leaving_at))]
fn leaving(ring: &Ring, draft: &Draft, fields: &mut Fields) -> Result<NodeId, Refusal>
    ensures { Does (leaving_at ring.now draft.now.joins draft.now.leaves) fields.old result fields.new }
{
    match node_field(ring, None, fields) {
        Ok(node) if draft.names(node) => Err(Refusal::Repeated(fields.line())),
        Ok(node) if !ring.is_member(node) => Err(Refusal::NotMember(fields.line())),
        other => other,
    }
}

#[tactic(auto, unfolding(crate::specs::Reading::join_at))]
fn judge_join(ring: &Ring, draft: &Draft, mut fields: Fields) -> Result<NodeId, Refusal>
    requires { draft.now.leaves ≡ [] }
    ensures { result ≡ join_at ring.now draft.now.joins fields.entry.number fields.entry.fields }
{
    let word = fields.word(b"join");
    let node = joining(ring, draft, &mut fields);
    let (_, node) = finish(both(word, node), fields)?;
    Ok(node)
}

/// Reads a join's line, after the draft's.
pub fn join_line(ring: &Ring, draft: &Draft, fields: Fields) -> Result<NodeId, Refusal>
    requires { draft.now.leaves ≡ [] }
    ensures value { result ≡ join_at ring.now draft.now.joins fields.entry.number fields.entry.fields }
    ensures small { IfOk result (λ x. x.0 < 1024) }
    ensures at { IfErr result (λ e. IsAt fields.entry.number e) }
{
    // Proves the ring valid.
    let slots = ring.n();
    prove!(slots <= 7);
    judge_join(ring, draft, fields)
}

#[tactic(auto, unfolding(crate::specs::Reading::leave_at))]
fn judge_leave(ring: &Ring, draft: &Draft, mut fields: Fields) -> Result<NodeId, Refusal>
    ensures { result ≡ leave_at ring.now draft.now.joins draft.now.leaves fields.entry.number fields.entry.fields }
{
    let word = fields.word(b"leave");
    let node = leaving(ring, draft, &mut fields);
    let (_, node) = finish(both(word, node), fields)?;
    Ok(node)
}

/// Reads a leave's line, after the draft's.
pub fn leave_line(ring: &Ring, draft: &Draft, fields: Fields) -> Result<NodeId, Refusal>
    ensures value { result
        ≡ leave_at ring.now draft.now.joins draft.now.leaves fields.entry.number fields.entry.fields }
    ensures small { IfOk result (λ x. x.0 < 1024) }
    ensures at { IfErr result (λ e. IsAt fields.entry.number e) }
{
    // Proves the ring valid.
    let slots = ring.n();
    prove!(slots <= 7);
    judge_leave(ring, draft, fields)
}
