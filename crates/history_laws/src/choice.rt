//! The partitions that a part sees.

ghost use Rattle.std.specs.Prelude.{◌≡◌, ◌<◌, ℕ, IfOk};
ghost use Rattle.history_laws.specs.Parts.{is_marked};
ghost use Rattle.history_laws.specs.Choices.{is_chosen, IsChoice};

use ring_names::Choice;
use std::alloc::{AllocError, Global};

fn is_chosen(choice: Choice, partition: u32) -> bool
    requires { IsChoice choice }
    ensures { result ≡ is_chosen choice partition }
{
    match choice {
        Choice::Share { of, part } => partition % of == part,
        Choice::Range { first, last } => first <= partition && partition <= last,
    }
}

/// Returns for each partition whether it is chosen.
pub fn mark_chosen(alloc: Global, choice: Choice, partitions: u32) -> Result<Vec<bool>, AllocError>
    requires { IsChoice choice }
    ensures { IfOk result (λ marks. (p : ℕ) → p < partitions → is_marked marks.items p ≡ is_chosen choice p) }
{
    let mut marks = Vec::new(alloc);
    for partition in 0..partitions {
        marks.push(is_chosen(choice, partition))?;
    }
    Ok(marks)
}
