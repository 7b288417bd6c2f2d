//! Calls that judge a growing history. A judge lives in the caller's handle from `ringplan_watch_new` to
//! `ringplan_watch_free`.

ghost use Rattle.std.specs.Prelude.{◌≡◌, Err};
ghost use Rattle.texts.specs.Judging.{map_ok};
ghost use Rattle.ringplan_c.specs.Held.{HasCount, HasWatch, IsEmpty};
ghost use Rattle.ringplan_c.specs.Judged.{Begins, EndsIn, Opens, TakesIn, Tells};

use crate::calls::{FAILED, NO_MEMORY};
use crate::handle::Handle;
use crate::room::fill;
use history_watch::{Judge, start_judge};
use ring_names::Refusal;
use ringplan_answers::{MAX_INPUT, answer_of};
use std::alloc::Global;

// The status of a yes.
const DONE: u8 = 0;

// Begins a judge. Refuses a bundle that is too large, as the program does.
fn begin(alloc: Global, bundle: &[u8]) -> Result<Box<Judge>, Refusal>
    ensures { Begins bundle.now (map_ok (λ judge. judge.value) result) }
{
    if bundle.len() > MAX_INPUT {
        return Err(Refusal::TooLarge(0));
    }
    let judge = start_judge(alloc, bundle)?;
    let judge = Box::new(alloc, judge)?;
    Ok(judge)
}

fn refuse(alloc: Global, refusal: Refusal, output: &mut [u8], length: &mut usize) -> u8
    ensures { Tells (Err refusal) output.old output.new length.new result }
{
    match answer_of(alloc, Err(refusal)) {
        Ok(answer) => fill(answer.output.as_slice(), answer.status, output, length),
        Err(_) => fill(NO_MEMORY, FAILED, output, length),
    }
}

/// Begins a judge by a bundle, in the empty handle. The text is empty, or a refusal's line as in `ringplan_check`.
#[unsafe(no_mangle)]
pub extern "C" fn ringplan_watch_new(
    alloc: Global,
    handle: &mut Handle,
    bundle: &[u8],
    output: &mut [u8],
    length: &mut usize,
) -> u8
    requires { IsEmpty handle.old }
    ensures { Opens handle.new bundle.now output.old output.new length.new result }
{
    match begin(alloc, bundle) {
        Ok(judge) => {
            handle.put(judge);
            fill(b"", DONE, output, length)
        }
        Err(refusal) => refuse(alloc, refusal, output, length),
    }
}

/// Gives the judge its history's next bytes. The text is empty until an entry is refused, then always the refusal's
/// line.
#[unsafe(no_mangle)]
pub extern "C" fn ringplan_watch_take(
    alloc: Global,
    handle: &mut Handle,
    bytes: &[u8],
    output: &mut [u8],
    length: &mut usize,
) -> u8
    requires { HasWatch handle.old }
    ensures { TakesIn handle.old handle.new bytes.now output.old output.new length.new result }
{
    let mut judge = handle.take(alloc);
    let taken = judge.take(alloc, bytes);
    handle.put(judge);
    match taken {
        Ok(()) => fill(b"", DONE, output, length),
        Err(refusal) => refuse(alloc, refusal, output, length),
    }
}

/// Returns how many entries the judge has followed.
#[unsafe(no_mangle)]
pub extern "C" fn ringplan_watch_count(alloc: Global, handle: &mut Handle) -> u32
    requires { HasWatch handle.old }
    ensures { HasCount handle.old handle.new result }
{
    let judge = handle.take(alloc);
    let count = judge.count();
    handle.put(judge);
    count
}

/// Answers as a replay of the history so far does. The judge may take more bytes.
#[unsafe(no_mangle)]
pub extern "C" fn ringplan_watch_end(
    alloc: Global,
    handle: &mut Handle,
    output: &mut [u8],
    length: &mut usize,
) -> u8
    requires { HasWatch handle.old }
    ensures { EndsIn handle.old handle.new output.old output.new length.new result }
{
    let mut judge = handle.take(alloc);
    let found = judge.end(alloc);
    handle.put(judge);
    match found {
        Ok(text) => fill(text.as_slice(), DONE, output, length),
        Err(refusal) => refuse(alloc, refusal, output, length),
    }
}

/// Frees the judge, if any. Then the handle is empty.
#[unsafe(no_mangle)]
pub extern "C" fn ringplan_watch_free(alloc: Global, handle: &mut Handle)
    ensures { IsEmpty handle.new }
{
    if handle.is_held() {
        drop(handle.take(alloc));
    }
}
