//! Reads layout files.

ghost use Rattle.std.specs.Prelude.{◌≡◌, ◌⊎◌, IfErr, IfOk};
ghost use Rattle.ringplan_run.specs.Run.{HasLayout, IsRead, unlaid};

use crate::files::{Harmless, Limit, open, say};
use crate::program::NO_MEMORY;
use change_text::{Layout, Options, read_layout};
use ring_names::Refusal;
use ringplan_answers::read_all;
use ringplan_reports::layout_fault;
use std::alloc::Global;
use std::rt::Files;

fn layout_of(alloc: Global, bytes: &[u8]) -> Result<Layout, Refusal>
    ensures { IfOk result IsRead }
{
    read_layout(alloc, bytes)
}

fn status_of(refusal: Refusal) -> u8
    ensures { (result ≡ 2) ⊎ (result ≡ 3) }
{
    match refusal {
        Refusal::OutOfMemory | Refusal::ReadFailed => 3,
        _ => 2,
    }
}

fn tell<RT: AllocGlobal + Eprint>(rt: &RT, refusal: Refusal, name: &str, bytes: &[u8]) {
    let Ok(words) = layout_fault(rt.alloc(), bytes, &refusal) else {
        say(rt, NO_MEMORY);
        return;
    };
    let name = Harmless { text: name };
    let _ = match refusal {
        Refusal::BadLine(line) | Refusal::TooLarge(line) | Refusal::Repeated(line) if line > 0 => {
            eprint!(rt; "ringplan: line {line} of the layout {name}: ")
        }
        _ => eprint!(rt; "ringplan: the layout {name}: "),
    };
    say(rt, words.as_slice());
}

fn layout_in<RT: AllocGlobal + Files + Eprint>(rt: &RT, name: &str) -> Result<Layout, u8>
    ensures read { IfOk result IsRead }
    ensures status { IfErr result (λ status. (status ≡ 2) ⊎ (status ≡ 3)) }
{
    let mut file = open(rt, name, Limit::Whole)?;
    let bytes = match read_all(rt.alloc(), &mut file) {
        Ok(bytes) => bytes,
        Err(refusal) => {
            tell(rt, refusal, name, &[]);
            return Err(status_of(refusal));
        }
    };
    match layout_of(rt.alloc(), bytes.as_slice()) {
        Ok(layout) => Ok(layout),
        Err(refusal) => {
            tell(rt, refusal, name, bytes.as_slice());
            Err(status_of(refusal))
        }
    }
}

/// Reads the layout if the options name one. On a fault says why, and returns the exit status.
pub(crate) fn with_layout<RT: AllocGlobal + Files + Eprint>(
    rt: &RT,
    options: Options,
) -> Result<Options, u8>
    ensures same { IfOk result (λ made. unlaid made ≡ unlaid options) }
    ensures layout { IfOk result HasLayout }
    ensures status { IfErr result (λ status. (status ≡ 2) ⊎ (status ≡ 3)) }
{
    let mut options = options;
    let layout = match &options.layout_file {
        Some(name) => layout_in(rt, name.as_str())?,
        None => Layout::new(rt.alloc()),
    };
    options.layout = layout;
    Ok(options)
}
