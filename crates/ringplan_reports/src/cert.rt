//! A bundle's certificate, or why there is none.

ghost use Rattle.std.specs.Prelude.{IfOk};
ghost use Rattle.ringplan_reports.specs.Made.{IsBundleOf, IsCertOf};

use crate::why::push_words_of;
use change_text::Options;
use plan_goal::{Kind, cert_bundle, found_bundle, kind_of, push_excess, wish_bundle};
use ring_names::Refusal;
use std::alloc::Global;
use texts::Words;

const GIVEN_UP: &[u8; 268] =
    b"refused: the search for fewer chains was given up after 100,000,000 looks\n  Some node has more chains than it may have transfers open. Fewer may be enough, so a certificate may exist.\n  Let copies of that node wait directly for earlier ones: then no search is needed.\n";

fn planned(alloc: Global, bytes: &[u8]) -> Result<Vec<u8>, Refusal>
    ensures { IfOk result (λ text. IsBundleOf bytes.now text.items) }
{
    let found = wish_bundle(alloc, bytes, &Options::new(alloc))?;
    found.bundle(alloc)
}

fn cert_of_change(alloc: Global, bytes: &[u8]) -> Result<Vec<u8>, Refusal>
    ensures { IfOk result (λ text. IsCertOf bytes.now text.items) }
{
    let text = planned(alloc, bytes)?;
    cert_bundle(alloc, text.as_slice())
}

/// Does what `cert_bundle` does. For a change, makes a plan first.
pub(crate) fn cert_of(alloc: Global, bytes: &[u8]) -> Result<Vec<u8>, Refusal>
    ensures certified { IfOk result (λ text. IsCertOf bytes.now text.items) }
{
    match kind_of(bytes) {
        Kind::Change => cert_of_change(alloc, bytes),
        Kind::Plan | Kind::History => cert_bundle(alloc, bytes),
    }
}

// None without a plan, or for a faulty text.
fn found_of(alloc: Global, bytes: &[u8]) -> Result<Option<Vec<u8>>, Refusal> {
    let found = match kind_of(bytes) {
        Kind::Change => match planned(alloc, bytes) {
            Ok(text) => found_bundle(alloc, text.as_slice()),
            Err(refusal) => Err(refusal),
        },
        Kind::Plan | Kind::History => found_bundle(alloc, bytes),
    };
    match found {
        Ok(text) => Ok(Some(text)),
        Err(Refusal::OutOfMemory) => Err(Refusal::OutOfMemory),
        Err(_) => Ok(None),
    }
}

/// Adds why there is no certificate: the search was given up, the checker refuses what it found, or none was sought.
pub(crate) fn push_why_none(
    alloc: Global,
    out: &mut Words,
    bytes: &[u8],
    refusal: &Refusal,
) -> Result<(), Refusal> {
    match found_of(alloc, bytes)? {
        Some(text) => push_why_not(alloc, out, text.as_slice(), refusal),
        None => push_words_of(alloc, out, bytes, refusal),
    }
}

fn push_why_not(
    alloc: Global,
    out: &mut Words,
    text: &[u8],
    refusal: &Refusal,
) -> Result<(), Refusal> {
    if matches!(refusal, Refusal::NoPlan) {
        out.text(GIVEN_UP);
        return Ok(());
    }
    push_words_of(alloc, out, text, refusal)?;
    push_excess(alloc, out, text, refusal)
}
