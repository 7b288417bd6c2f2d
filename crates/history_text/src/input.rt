//! Reads an input piece by piece.

ghost use Rattle.std.specs.Prelude.{◌≡◌, ◌<◌, ◌≤◌, ℕ, List, Option, length, IfOk, IfErr};
ghost use Rattle.std.specs.Io.KnownBytes.{Consumes};
ghost use Rattle.ring_names.specs.declared.refusal.Refusal.TheVariants.{ReadFailed};
ghost use Rattle.history_text.specs.Input.{Takes, IsNext, IsHead, IsOutside};

use ring_names::Refusal;
use std::alloc::Global;
use std::io::{ErrorKind, Read};

/// The most entries of a part: as many as `replay` takes.
pub const MOST_ENTRIES: u64 = 1_000_000;

/// The bytes of one read.
pub const CHUNK: usize = 65_536;

// Reads some bytes to the start of the chunk, and counts them: 0 only at the input's end. Tries again after a signal.
fn read_chunk<R: Read + Drop>(input: &mut R, chunk: &mut [u8]) -> Result<usize, Refusal>
    requires { 0 < length chunk.old }
    ensures ok { IfOk result (λ n. Takes (R.remaining input.old) (R.remaining input.new) chunk.new n) }
    ensures err { IfErr result (λ e. e ≡ ReadFailed) }
{
    'turns: for turn in 0..u64::MAX {
        match input.read(chunk) {
            Ok(count) => return Ok(count),
            Err(error) => {
                if error.kind() != ErrorKind::Interrupted {
                    return Err(Refusal::ReadFailed);
                }
            }
        }
    }
    Err(Refusal::ReadFailed)
}

/// Reads the next bytes, at most `most`: none only at the input's end.
pub fn read_some<R: Read + Drop>(
    alloc: Global,
    input: &mut R,
    most: usize,
) -> Result<Vec<u8>, Refusal>
    requires { 0 < most }
    ensures ok { IfOk result (λ bytes. IsNext (R.remaining input.old) (R.remaining input.new) most bytes.items) }
    ensures err { IfErr result (λ e. IsOutside e) }
{
    let mut bytes = vec![in alloc; 0u8; most]?;
    let count = read_chunk(input, bytes.as_mut_slice())?;
    bytes.truncate(count);
    Ok(bytes)
}

/// An input's first bytes.
#[derive(Drop)]
pub struct Head {
    pub bytes: Vec<u8>,
    /// Whether the input ends after them.
    pub is_whole: bool,
}

/// Reads on until it has the input's first `most` bytes, or all.
pub fn read_head<R: Read + Drop>(
    alloc: Global,
    bytes: Vec<u8>,
    input: &mut R,
    most: usize,
) -> Result<Head, Refusal>
    requires { length bytes.items ≤ most }
    ensures ok { (start : Option (List ℕ)) → Consumes start (R.remaining input.old) bytes.items → IfOk result (λ head. IsHead start (R.remaining input.new) most head) }
    ensures err { IfErr result (λ e. IsOutside e) }
{
    let mut bytes = bytes;
    'reads: while bytes.len() < most {
        let more = read_some(alloc, input, CHUNK.min(most - bytes.len()))?;
        if more.is_empty() {
            return Ok(Head {
                bytes,
                is_whole: true,
            });
        }
        bytes.extend_from_slice(more.as_slice())?;
    }
    Ok(Head {
        bytes,
        is_whole: false,
    })
}
