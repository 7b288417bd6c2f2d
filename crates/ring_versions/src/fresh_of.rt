//! Finds uncovered versions.

ghost use Rattle.std.specs.Prelude.{◌≡◌, IfOk, IfErr};
ghost use Rattle.ring_names.specs.declared.refusal.Refusal.TheVariants.{OutOfMemory};
ghost use Rattle.ring_versions.specs.Parts.{IsFresh};
ghost use Rattle.ring_versions.specs.Shared.{looked_at};
ghost use Rattle.ring_versions.specs.Versions.{IsApart};

use crate::held::Held;
use crate::part::is_among;
use crate::version::Version;
use ring_names::Refusal;
use std::alloc::{AllocError, Global};

// Reserves exactly enough: most sets never grow.
fn make_room(out: &mut Vec<Version>, room: usize) -> Result<(), AllocError>
    ensures { out.new.items ≡ out.old.items }
{
    if out.is_empty() {
        out.reserve_exact(room)?;
    }
    Ok(())
}

fn fresh_of_list(
    alloc: Global,
    versions: &[Version],
    held: &[Version],
) -> Result<Vec<Version>, Refusal>
    requires { IsApart versions.now }
    ensures ok { IfOk result (λ out. IsFresh held.now versions.now out.items) }
    ensures memory { IfErr result (λ e. e ≡ OutOfMemory) }
{
    let mut out = Vec::new(alloc);
    let mut rest = versions;
    'versions: while let Some((version, later)) = rest.split_first() {
        if !is_among(held, &version.clock) {
            make_room(&mut out, versions.len().saturating_add(held.len()))?;
            out.push(version.try_copy()?)?;
        }
        rest = later;
    }
    Ok(out)
}

fn fresh_of_any(alloc: Global, versions: Held, held: Held) -> Result<Vec<Version>, Refusal>
    requires { IsApart (looked_at versions) }
    ensures ok { IfOk result (λ out. IsFresh (looked_at held.entry) (looked_at versions.entry) out.items) }
    ensures memory { IfErr result (λ e. e ≡ OutOfMemory) }
{
    let mut out = Vec::new(alloc);
    let mut walk = versions.walk();
    'versions: while let Some(version) = walk.next() {
        if !held.covers(&version.clock) {
            out.push(version.try_copy()?)?;
        }
    }
    Ok(out)
}

/// Copies the versions that no held version covers. Takes no memory if there are none.
pub fn fresh_of(alloc: Global, versions: Held, held: Held) -> Result<Vec<Version>, Refusal>
    requires { IsApart (looked_at versions) }
    ensures ok { IfOk result (λ out. IsFresh (looked_at held.entry) (looked_at versions.entry) out.items) }
    ensures memory { IfErr result (λ e. e ≡ OutOfMemory) }
{
    match (versions, held) {
        (Held::Few(list), Held::Few(others)) => fresh_of_list(alloc, list, others),
        _ => fresh_of_any(alloc, versions, held),
    }
}
