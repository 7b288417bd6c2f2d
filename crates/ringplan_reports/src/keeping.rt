//! Promises that a refused plan keeps.

ghost use Rattle.std.specs.Prelude.{◌≡◌, ◌++◌, IfOk, OnOk};
ghost use Rattle.plan_text.specs.Valid.{Suits};
ghost use Rattle.ringplan_reports.specs.Kept.{SaysKept, kept_lines, promise_line, promise_lines};

use crate::object::text_value;
use plan_cert::Cert;
use plan_check::{Kept, promises_kept};
use plan_text::Plan;
use ring_names::Refusal;
use ring_table::Ring;
use ringplan_answers::{Kind, read_bundle};
use serde_json::Value;
use std::alloc::{AllocError, Global};

const HELD: &[u8; 27] = b"no acknowledged put is lost";

/// A promise, as refusals and a yes say it.
pub(crate) const APART: &[u8; 40] = b"no two slots of a partition share a node";

pub(crate) const FEW: &[u8; 50] = b"no node has more transfers open than its allowance";

pub(crate) const MEMBERS: &[u8; 40] = b"each slot's owner and mirror are members";

fn push_promise(out: &mut Vec<u8>, is_kept: bool, promise: &[u8]) -> Result<(), AllocError>
    ensures { OnOk result (out.new.items ≡ out.old.items ++ promise_line is_kept promise.now) }
{
    if is_kept {
        out.extend_from_slice(b"  ")?;
        out.extend_from_slice(promise)?;
        out.push(b'\n')?;
    }
    Ok(())
}

fn push_promises(out: &mut Vec<u8>, kept: Kept) -> Result<(), AllocError>
    ensures { OnOk result (out.new.items ≡ out.old.items ++ promise_lines kept) }
{
    push_promise(out, kept.held, HELD)?;
    push_promise(out, kept.apart, APART)?;
    push_promise(out, kept.few, FEW)?;
    push_promise(out, kept.members, MEMBERS)?;
    Ok(())
}

fn lines_of(alloc: Global, kept: Kept) -> Result<Vec<u8>, AllocError>
    ensures { IfOk result (λ lines. lines.items ≡ kept_lines kept) }
{
    let mut lines = Vec::from_slice(alloc, b"kept in every run:\n")?;
    if kept.held || kept.apart || kept.few || kept.members {
        push_promises(&mut lines, kept)?;
    } else {
        lines.extend_from_slice(b"  no promise is shown to be kept\n")?;
    }
    lines.push(b'\n')?;
    Ok(lines)
}

/// Returns the kept promises in words. Empty if a fact is not a path.
pub(crate) fn say_kept(
    alloc: Global,
    ring: &Ring,
    plan: &Plan,
    cert: &Cert,
) -> Result<Vec<u8>, Refusal>
    requires { Suits ring.now plan.now }
    ensures { IfOk result (λ lines. SaysKept ring.now plan.now cert.now lines.items) }
{
    match promises_kept(alloc, ring, plan, cert) {
        Ok(kept) => Ok(lines_of(alloc, kept)?),
        Err(refusal) => match refusal {
            Refusal::OutOfMemory => Err(refusal),
            _ => Ok(Vec::new(alloc)),
        },
    }
}

fn names_of(alloc: Global, kept: Kept) -> Result<Value, Refusal> {
    let mut names = Vec::new(alloc);
    for (is_kept, name) in [
        (kept.held, b"puts".as_slice()),
        (kept.apart, b"slots".as_slice()),
        (kept.few, b"transfers".as_slice()),
        (kept.members, b"members".as_slice()),
    ] {
        if is_kept {
            names.push(text_value(alloc, name)?)?;
        }
    }
    Ok(Value::Array(names))
}

/// The kept promises. None if a text is refused or a fact is not a path.
pub(crate) fn kept_value(alloc: Global, bytes: &[u8]) -> Result<Option<Value>, Refusal> {
    let found = match read_bundle(alloc, Kind::Check, bytes) {
        Ok(bundle) => promises_kept(alloc, &bundle.ring, &bundle.plan, &bundle.cert),
        Err(refusal) => Err(refusal),
    };
    match found {
        Ok(kept) => Ok(Some(names_of(alloc, kept)?)),
        Err(Refusal::OutOfMemory) => Err(Refusal::OutOfMemory),
        Err(_) => Ok(None),
    }
}
