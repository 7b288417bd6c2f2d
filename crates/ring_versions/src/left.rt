//! What remains of chunks after a merge.

ghost use Rattle.std.specs.Prelude.{◌≡◌, ◌<◌, ◌∷◌, ◌++◌, [], List, length, IfOk, IfErr, OnOk};
ghost use Rattle.ring_names.specs.declared.refusal.Refusal.TheVariants.{OutOfMemory};
ghost use Rattle.ring_clock.specs.Clock.{IsAtMost};
ghost use Rattle.ring_versions.specs.Chunks.{all_of};
ghost use Rattle.ring_versions.specs.Parts.{IsFresh, IsReordered};
ghost use Rattle.ring_versions.specs.Shared.{looked_at, all_left};
ghost use Rattle.ring_versions.specs.Versions.{IsIn, IsApart};
ghost use Rattle.ring_versions.specs.declared.version.Version.{Version as TheVersion};

use crate::chunk::Chunk;
use crate::fresh_of::fresh_of;
use crate::held::Held;
use crate::part::Part;
use crate::version::Version;
use ring_clock::{Clock, group_of};
use ring_names::Refusal;
use std::alloc::Global;

/// Chunks that stay, and new parts.
#[derive(Drop)]
pub struct Left {
    pub kept: Vec<Chunk>,
    pub made: Vec<Part>,
}

// Finds or adds the group's part.
fn place_for(alloc: Global, made: &mut Vec<Part>, group: u32) -> Result<usize, Refusal>
    ensures same { all_of made.new.items ≡ all_of made.old.items }
    ensures ok { IfOk result (λ place. place < length made.new.items) }
    ensures memory { IfErr result (λ e. e ≡ OutOfMemory) }
{
    match made.iter().position(|part| part.group().number == group) {
        Some(place) => Ok(place),
        None => {
            let place = made.len();
            made.push(Part::new(alloc, group))?;
            Ok(place)
        }
    }
}

fn put(alloc: Global, made: &mut Vec<Part>, version: &Version) -> Result<(), Refusal>
    ensures ok { OnOk result (IsReordered (all_of made.old.items ++ version.now ∷ []) (all_of made.new.items)) }
    ensures memory { IfErr result (λ e. e ≡ OutOfMemory) }
{
    let place = place_for(alloc, made, group_of(version.clock.own()))?;
    made[place].put(version)
}

/// Copies versions to the parts of their writers' groups.
pub fn put_all(alloc: Global, made: &mut Vec<Part>, versions: Held) -> Result<(), Refusal>
    ensures ok { OnOk result (IsReordered (all_of made.old.items ++ looked_at versions.entry) (all_of made.new.items)) }
    ensures memory { IfErr result (λ e. e ≡ OutOfMemory) }
{
    let mut walk = versions.walk();
    'versions: while let Some(version) = walk.next() {
        put(alloc, made, version)?;
    }
    Ok(())
}

// Keeps a chunk without covered versions: shared, or copied as a part if a fresh version will be added.
fn keep_all(alloc: Global, left: &mut Left, chunk: &Chunk, fresh: Held) -> Result<(), Refusal>
    ensures ok { OnOk result (IsReordered (all_left left.old ++ chunk.now) (all_left left.new)) }
    ensures memory { IfErr result (λ e. e ≡ OutOfMemory) }
{
    if fresh.has_group(chunk.group()) {
        left.made.push(chunk.part().try_copy(alloc)?)?;
    } else {
        left.kept.push(chunk.try_copy()?)?;
    }
    Ok(())
}

fn keep(
    alloc: Global,
    left: &mut Left,
    chunk: &Chunk,
    fresh: Held,
    top: &Clock,
) -> Result<(), Refusal>
    requires apart { IsApart chunk.now }
    requires top { (v : TheVersion) → IsIn v (looked_at fresh) → IsAtMost v.clock top.now }
    ensures ok { OnOk result ((out : List TheVersion) × IsFresh (looked_at fresh.entry) chunk.now out
        × IsReordered (all_left left.old ++ out) (all_left left.new)) }
    ensures memory { IfErr result (λ e. e ≡ OutOfMemory) }
{
    if chunk.is_beyond(top) {
        return keep_all(alloc, left, chunk, fresh);
    }
    let part = chunk.part();
    let versions = fresh_of(alloc, Held::Few(part.versions()), fresh)?;
    if !versions.is_empty() {
        left.made.push(part.with(alloc, versions)?)?;
    }
    Ok(())
}

/// Returns the versions that no fresh version covers. `top` is at least each fresh clock.
///
/// Looks at each version, and copies those of changed chunks.
pub fn left_of(alloc: Global, chunks: &[Chunk], fresh: Held, top: &Clock) -> Result<Left, Refusal>
    requires apart { IsApart (all_of chunks.now) }
    requires top { (v : TheVersion) → IsIn v (looked_at fresh) → IsAtMost v.clock top.now }
    ensures ok { IfOk result (λ l. IsFresh (looked_at fresh.entry) (all_of chunks.now) (all_left l)) }
    ensures memory { IfErr result (λ e. e ≡ OutOfMemory) }
{
    let kept = Vec::with_capacity(alloc, chunks.len())?;
    let made = Vec::new(alloc);
    let mut left = Left { kept, made };
    let mut rest = chunks;
    'chunks: while let Some((chunk, later)) = rest.split_first() {
        keep(alloc, &mut left, chunk, fresh, top)?;
        rest = later;
    }
    Ok(left)
}

/// Makes chunks of the new parts, and returns all chunks.
pub fn chunks_of(alloc: Global, left: Left) -> Result<Vec<Chunk>, Refusal>
    ensures ok { IfOk result (λ chunks. all_of chunks.items ≡ all_left left) }
    ensures memory { IfErr result (λ e. e ≡ OutOfMemory) }
{
    let Left { mut kept, made } = left;
    for part in made {
        kept.push(Chunk::of(alloc, part)?)?;
    }
    Ok(kept)
}
