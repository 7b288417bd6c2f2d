//! Copies, chunk by chunk.

ghost use Rattle.std.specs.Prelude.{◌≡◌, ◌<◌, ◌&&◌, true, nat_lt, IfOk, IfErr, OnErr};
ghost use Rattle.ring_names.specs.declared.refusal.Refusal.TheVariants.{OutOfMemory};
ghost use Rattle.plan_stage.specs.Clauses.{first_failing};
ghost use Rattle.plan_runs.specs.declared.event.Event.TheVariants.{ChunkCopy};
ghost use Rattle.plan_runs.specs.Guards.{has_copy, keepers_up};
ghost use Rattle.plan_runs.specs.World.{World};
ghost use Rattle.store_parts.specs.Parts.{ring_of, plan_of, Meets, IsSound, IsSized, Follows, Tests, Passes, Answers};
ghost use Rattle.store_parts.specs.Parts.{Stays};

use crate::chunk_keepers::least_keeper;
use crate::kinds::has_copy;
use crate::parties::party_refusal;
use crate::sources::give_source;
use plan_runs::Reply;
use plan_text::Step;
use ring_names::Refusal;
use store_parts::Parts;

fn has_chunk(parts: &Parts, step: u32, chunk: u32) -> bool
    ensures { result ≡ (has_copy (plan_of parts.now) step && nat_lt chunk 16) }
{
    has_copy(parts, step) && chunk < 16
}

fn keeper_refusal(parts: &Parts, step: u32, chunk: u32) -> Option<Refusal>
    requires chunk { chunk < 16 }
    requires sized { IsSized parts.now }
    requires copy { has_copy (plan_of parts.now) step ≡ true }
    ensures { (w : World) → Meets parts.now w
        → result ≡ first_failing (keepers_up (ring_of parts.now) (plan_of parts.now) w step chunk) }
{
    let Step::Copy(slot, source) = parts.approved.plan().step(step) else {
        unreachable!();
    };
    match least_keeper(parts, *slot, source, chunk) {
        Some(node) => Some(Refusal::NodeDown(node.0)),
        None => None,
    }
}

/// Returns why a chunk cannot be copied now. Looks only at listed slots' keepers.
///
/// First `UnknownNumber` if there is no such copy or chunk, then `NotOpen`, then `AlreadyDone` if the chunk is marked.
///
/// Then `NodeDown`: the copy's least down node, then the least down keeper of a listed slot.
pub fn chunk_refusal(parts: &Parts, step: u32, chunk: u32) -> Option<Refusal>
    requires { IsSound parts.now }
    ensures { Tests parts.now (ChunkCopy step chunk) result }
{
    if !has_chunk(parts, step, chunk) {
        return Some(Refusal::UnknownNumber);
    }
    if !parts.steps.is_open(step) {
        return Some(Refusal::NotOpen);
    }
    if parts.steps.is_marked(step, chunk) {
        return Some(Refusal::AlreadyDone);
    }
    if let Some(refusal) = party_refusal(parts, step) {
        return Some(refusal);
    }
    keeper_refusal(parts, step, chunk)
}

/// Copies a chunk to the slot's mirror, and marks it.
///
/// From the owner, costs `Stores::copy_chunk`. Otherwise merges each map read into a new map by `KeyMap::take_in`, and
/// this into the mirror's.
pub fn chunk_copy(parts: &mut Parts, step: u32, chunk: u32) -> Result<Reply, Refusal>
    requires sound { IsSound parts.old }
    requires passes { Passes parts.old (ChunkCopy step chunk) }
    ensures ok { IfOk result (λ r. Answers parts.old (ChunkCopy step chunk) r parts.new) }
    ensures same { OnErr result (Stays parts.old parts.new) }
    ensures memory { IfErr result (λ e. e ≡ OutOfMemory) }
    ensures follows { Follows parts.old parts.new }
{
    let Step::Copy(slot, source) = parts.approved.plan().step(step) else {
        unreachable!();
    };
    let Some(served) = parts.slots.at(*slot) else {
        unreachable!()
    };
    let Some(mirror) = served.mirror else {
        parts.steps.mark(step, chunk);
        return Ok(Reply::Plain);
    };
    give_source(parts, mirror, *slot, source, chunk)?;
    parts.steps.mark(step, chunk);
    Ok(Reply::Plain)
}
