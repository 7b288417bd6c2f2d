//! Writes outputs.

ghost use Rattle.std.specs.Prelude.{◌≡◌, IfErr, OnOk, OnErr};
ghost use Rattle.std.specs.Io.KnownBytes.{Appends, Keeps};
ghost use Rattle.ringplan_answers.specs.Io.{AppendsPart};

use ring_names::Refusal;
use std::io::{ErrorKind, Write};

fn flush<W: Write>(output: &mut W) -> Result<(), Refusal>
    ensures bytes { Keeps (W.contents output.old) (W.contents output.new) }
    ensures fault { IfErr result (λ e. e ≡ Refusal.WriteFailed) }
{
    for turn in 0..u64::MAX {
        match output.flush() {
            Ok(()) => return Ok(()),
            Err(error) => {
                if error.kind() != ErrorKind::Interrupted {
                    return Err(Refusal::WriteFailed);
                }
            }
        }
    }
    Err(Refusal::WriteFailed)
}

/// Writes all bytes, and flushes. Fails with `WriteFailed` if a write fails or takes no byte, or a flush fails; then a
/// prefix was written. Repeats interrupted calls.
pub fn write_all<W: Write>(output: &mut W, bytes: &[u8]) -> Result<(), Refusal>
    ensures whole { OnOk result (Appends (W.contents output.old) (W.contents output.new) bytes.now) }
    ensures part { OnErr result (AppendsPart (W.contents output.old) (W.contents output.new) bytes.now) }
    ensures fault { IfErr result (λ e. e ≡ Refusal.WriteFailed) }
{
    let mut rest = bytes;
    for turn in 0..u64::MAX {
        if rest.is_empty() {
            return flush(output);
        }
        match output.write(rest) {
            Ok(0) => return Err(Refusal::WriteFailed),
            Ok(count) => rest = &rest[count..],
            Err(error) => {
                if error.kind() != ErrorKind::Interrupted {
                    return Err(Refusal::WriteFailed);
                }
            }
        }
    }
    Err(Refusal::WriteFailed)
}
