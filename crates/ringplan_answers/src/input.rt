//! Reads inputs.

ghost use Rattle.std.specs.Prelude.{ℕ, List};
ghost use Rattle.ringplan_answers.specs.Io.{Reads, Tells};

use plan_cert::MAX_INPUT;
use ring_names::Refusal;
use std::alloc::Global;
use std::io::{ErrorKind, Read};

// The most bytes of one read.
const CHUNK: usize = 65_536;

/// Reads until the input ends. Fails with `TooLarge(0)` above `MAX_INPUT` bytes, `ReadFailed` or `OutOfMemory`. Repeats
/// interrupted reads.
pub fn read_all<R: Read + Drop>(alloc: Global, input: &mut R) -> Result<Vec<u8>, Refusal>
    ensures { (bytes : List ℕ) × Tells (R.remaining input.old) bytes × Reads bytes result }
{
    let mut chunk = vec![in alloc; 0u8; CHUNK]?;
    let mut bytes = Vec::new(alloc);
    for turn in 0..u64::MAX {
        match input.read(chunk.as_mut_slice()) {
            Ok(0) => return Ok(bytes),
            Ok(count) => {
                if count > MAX_INPUT - bytes.len() {
                    return Err(Refusal::TooLarge(0));
                }
                bytes.extend_from_slice(&chunk[..count])?;
            }
            Err(error) => {
                if error.kind() != ErrorKind::Interrupted {
                    return Err(Refusal::ReadFailed);
                }
            }
        }
    }
    Err(Refusal::ReadFailed)
}
