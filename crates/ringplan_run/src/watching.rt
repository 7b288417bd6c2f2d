//! Judges a history while it is read.

ghost use Rattle.ringplan_run.specs.Watch.{PrintsWatch, PrintsWatchOf};

use crate::files::{Limit, open, say};
use crate::program::{REFUSED, tell};
use history_watch::watch_bundle;
use ringplan_answers::read_all;
use std::io::{Read, Write};
use std::rt::Files;

const NO_BUNDLE: &[u8; 121] =
    b"error: the bundle is a file of its own, since the history comes from standard input\n\nFor more information, try '--help'.\n";

fn print_by<RT: AllocGlobal, B: Read + Drop, R: Read + Drop, W: Write>(
    rt: &RT,
    bundle: &mut B,
    every: u32,
    input: &mut R,
    output: &mut W,
) -> u8
    ensures { PrintsWatchOf every (R.remaining input.old) (R.remaining input.new) (W.contents output.old) (W.contents output.new) result }
{
    let alloc = rt.alloc();
    match read_all(alloc, bundle) {
        Ok(bytes) => {
            let found = watch_bundle(alloc, bytes.as_slice(), every, input, output);
            tell(alloc, found, output)
        }
        Err(refusal) => tell(alloc, Err(refusal), output),
    }
}

/// Judges the input's history by the named bundle. On failure says why.
pub(crate) fn print_watch<RT: AllocGlobal + Files + Eprint, R: Read + Drop, W: Write>(
    rt: &RT,
    names: &[String],
    every: u32,
    input: &mut R,
    output: &mut W,
) -> u8
    ensures { PrintsWatch every (R.remaining input.old) (R.remaining input.new) (W.contents output.old) (W.contents output.new) result }
{
    let Some(name) = names.first() else {
        say(rt, NO_BUNDLE);
        return REFUSED;
    };
    match open(rt, name.as_str(), Limit::Whole) {
        Ok(mut file) => print_by(rt, &mut file, every, input, output),
        Err(status) => status,
    }
}
