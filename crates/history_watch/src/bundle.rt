//! A watch by the texts of a ring, a plan and its certificate.

ghost use Rattle.history_watch.specs.Bundles.{StartsJudge, WatchesBundle};

use crate::judge::Judge;
use crate::loops::watch_history;
use plan_check::{Turned, check};
use ring_names::Refusal;
use ring_script::{Kind, read_bundle};
use std::alloc::Global;
use std::io::{Read, Write};

/// Judges a history by a bundle's plan, as `watch_history` does. Before reading, refuses texts or plans as `check`
/// does.
pub fn watch_bundle<R: Read + Drop, W: Write>(
    alloc: Global,
    bytes: &[u8],
    every: u32,
    input: &mut R,
    output: &mut W,
) -> Result<Vec<u8>, Refusal>
    ensures { WatchesBundle bytes.now every (R.remaining input.old) (R.remaining input.new) (W.contents output.old) (W.contents output.new) result }
{
    match read_bundle(alloc, Kind::Check, bytes) {
        Ok(bundle) => {
            let (ring, plan, cert) = (bundle.ring, bundle.plan, &bundle.cert);
            match check(alloc, ring, plan, cert) {
                Ok(approved) => watch_history(alloc, &approved, every, input, output),
                Err(Turned { refusal, .. }) => Err(refusal),
            }
        }
        Err(refusal) => Err(refusal),
    }
}

/// Begins a judge by a bundle's plan. Refuses a text or a plan as `check` does.
pub fn start_judge(alloc: Global, bytes: &[u8]) -> Result<Judge, Refusal>
    ensures { StartsJudge bytes.now result }
{
    match read_bundle(alloc, Kind::Check, bytes) {
        Ok(bundle) => {
            let (ring, plan, cert) = (bundle.ring, bundle.plan, &bundle.cert);
            match check(alloc, ring, plan, cert) {
                Ok(approved) => Judge::start(alloc, approved),
                Err(Turned { refusal, .. }) => Err(refusal),
            }
        }
        Err(refusal) => Err(refusal),
    }
}
