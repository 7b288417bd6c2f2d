//! Writes numbers.

ghost use Rattle.std.specs.Prelude.{◌≡◌, ◌++◌, map, OnOk};
ghost use Rattle.std.specs.Fmt.{decimal};
ghost use Rattle.texts.specs.Parts.{spaced};

use ring_names::push_decimal;
use std::alloc::AllocError;

/// Adds the numbers, each after a space.
pub fn push_numbers(out: &mut Vec<u8>, numbers: &[u32]) -> Result<(), AllocError>
    ensures { OnOk result (out.new.items ≡ out.old.items ++ spaced (map decimal numbers.now)) }
{
    for number in numbers {
        out.push(b' ')?;
        push_decimal(out, *number)?;
    }
    Ok(())
}
