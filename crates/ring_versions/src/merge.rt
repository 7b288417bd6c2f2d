//! Merges two sets of versions.

ghost use Rattle.std.specs.Prelude.{◌≡◌, ◌∷◌, [], true, false, IsTrue, IfOk, IfErr, OnErr};
ghost use Rattle.ring_names.specs.declared.refusal.Refusal.TheVariants.{OutOfMemory};
ghost use Rattle.ring_versions.specs.Fresh.{Brings};
ghost use Rattle.ring_versions.specs.Parts.{IsFresh};
ghost use Rattle.ring_versions.specs.Shared.{looked_at};
ghost use Rattle.ring_versions.specs.Versions.{IsApart, IsBeside, IsMerge};

use crate::fresh_of::fresh_of;
use crate::held::Held;
use crate::left::{left_of, put_all};
use crate::version::Version;
use crate::versions::Versions;
use crate::whole::Whole;
use ring_clock::Clock;
use ring_names::Refusal;
use std::alloc::Global;

// Merges into a list. Shares the others if they cover each held version.
fn merged_with_few(
    alloc: Global,
    held: &[Version],
    others: &Versions,
    mut fresh: Vec<Version>,
) -> Result<Versions, Refusal>
    requires apart { IsApart held.now }
    requires fresh { IsFresh held.now others.now fresh.items }
    ensures ok { IfOk result (IsMerge held.now others.now) }
    ensures memory { IfErr result (λ e. e ≡ OutOfMemory) }
{
    let mut stay = fresh_of(alloc, Held::Few(held), Held::Few(fresh.as_slice()))?;
    if stay.is_empty() {
        return others.try_copy();
    }
    fresh.append(&mut stay)?;
    Versions::of_list(alloc, fresh)
}

// Merges into chunks, and shares unchanged chunks.
fn merged_with_many(
    alloc: Global,
    held: &Whole,
    others: &Versions,
    fresh: Vec<Version>,
) -> Result<Versions, Refusal>
    requires apart { IsApart held.now }
    requires fresh { IsFresh held.now others.now fresh.items }
    ensures ok { IfOk result (IsMerge held.now others.now) }
    ensures memory { IfErr result (λ e. e ≡ OutOfMemory) }
{
    let fresh = Versions::of_list(alloc, fresh)?;
    let top = fresh.join()?;
    let mut left = left_of(alloc, held.chunks(), fresh.held(), &top)?;
    if left.kept.is_empty() && left.made.is_empty() {
        return others.try_copy();
    }
    put_all(alloc, &mut left.made, fresh.held())?;
    Versions::of_left(alloc, held.join().join(&top)?, left)
}

fn is_beside(versions: &[Version], clock: &Clock) -> bool
    ensures { IsTrue result → IsBeside versions.now clock.now }
{
    versions.iter().all(|version| !clock.le(&version.clock) && !version.clock.le(clock))
}

/// Adds a copy and returns true if the version is concurrent with each listed version.
///
/// Costs at most two comparisons with each, and memory for one version.
pub fn add_beside(list: &mut Vec<Version>, version: &Version) -> Result<bool, Refusal>
    requires { IsApart list.old.items }
    ensures added { IfOk result (λ done. done ≡ true → IsMerge list.old.items (version.now ∷ []) list.new.items) }
    ensures same { IfOk result (λ done. done ≡ false → list.new.items ≡ list.old.items) }
    ensures err { OnErr result (list.new.items ≡ list.old.items) }
    ensures memory { IfErr result (λ e. e ≡ OutOfMemory) }
{
    if !is_beside(list.as_slice(), &version.clock) {
        return Ok(false);
    }
    let copy = version.try_copy()?;
    list.reserve_exact(1)?;
    list.push_reserved(copy);
    Ok(true)
}

/// Merges two versions. Returns an empty set if `held` covers `other`, and shares `others` if `other` covers `held`.
pub fn merged_one(
    alloc: Global,
    held: &Version,
    other: &Version,
    others: &Versions,
) -> Result<Versions, Refusal>
    requires { others.now ≡ other.now ∷ [] }
    ensures ok { IfOk result (Brings (held.now ∷ []) others.now) }
    ensures memory { IfErr result (λ e. e ≡ OutOfMemory) }
{
    if other.clock.le(&held.clock) {
        return Ok(Versions::new(alloc));
    }
    if held.clock.le(&other.clock) {
        return others.try_copy();
    }
    let mut both = Vec::with_capacity(alloc, 2)?;
    both.push(other.try_copy()?)?;
    both.push(held.try_copy()?)?;
    Versions::of_list(alloc, both)
}

/// Merges two sets. Returns an empty set, without memory, if held versions cover the others. Shares the others if they
/// cover all held.
pub fn merged(alloc: Global, held: Held, others: &Versions) -> Result<Versions, Refusal>
    requires { IsApart (looked_at held) }
    ensures ok { IfOk result (Brings (looked_at held.entry) others.now) }
    ensures memory { IfErr result (λ e. e ≡ OutOfMemory) }
{
    let fresh = fresh_of(alloc, others.held(), held)?;
    if fresh.is_empty() {
        return Ok(Versions::new(alloc));
    }
    match held {
        Held::Few(list) => merged_with_few(alloc, list, others, fresh),
        Held::Many(whole) => merged_with_many(alloc, whole, others, fresh),
    }
}
