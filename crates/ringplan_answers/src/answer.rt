//! The program's answers.

ghost use Rattle.std.specs.Prelude.{◌≡◌, IfOk};
ghost use Rattle.ring_names.specs.Refusals.{number_of};
ghost use Rattle.ringplan_answers.specs.Answers.{output_of, refused_status, status_of, texts_of};

use ring_names::Refusal;
use std::alloc::{AllocError, Global};

/// The output and exit status.
#[derive(Debug, Drop)]
pub struct Answer {
    pub output: Vec<u8>,
    pub status: u8,
}

/// A refusal's exit status: 2 for a text (numbers up to 20), 3 for memory, input or output (60 to 62), otherwise 1.
pub fn status_of(refusal: &Refusal) -> u8
    ensures { result ≡ refused_status (number_of refusal.now) }
{
    match refusal.number() {
        0..=20 => 2,
        60..=62 => 3,
        _ => 1,
    }
}

/// Returns the answer to a job: its text, or the refusal's line.
pub fn answer_of(alloc: Global, found: Result<Vec<u8>, Refusal>) -> Result<Answer, AllocError>
    ensures output { IfOk result (λ answer. answer.output.items ≡ output_of (texts_of found)) }
    ensures status { IfOk result (λ answer. answer.status ≡ status_of (texts_of found)) }
{
    match found {
        Ok(output) => Ok(Answer { output, status: 0 }),
        Err(refusal) => {
            let mut output = Vec::new(alloc);
            refusal.write_line(&mut output)?;
            let status = status_of(&refusal);
            Ok(Answer { output, status })
        }
    }
}
