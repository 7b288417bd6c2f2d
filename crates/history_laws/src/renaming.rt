//! Events with renamed steps.

ghost use Rattle.std.specs.Prelude.{◌≡◌, true, IfOk};
ghost use Rattle.history_laws.specs.Past.{is_of_step, renamed};

use crate::names::number_in;
use plan_runs::Event;
use ring_names::Refusal;

fn renamed_step(numbers: &[Option<u32>], event: &Event) -> Option<Event>
    requires { is_of_step event.now ≡ true }
    ensures { result ≡ renamed numbers.now event.now }
{
    match event {
        Event::Do(step) => Some(Event::Do(number_in(numbers, *step)?)),
        Event::OpenCopy(step) => Some(Event::OpenCopy(number_in(numbers, *step)?)),
        Event::ChunkCopy(step, chunk) => {
            Some(Event::ChunkCopy(number_in(numbers, *step)?, *chunk))
        }
        Event::CloseCopy(step) => Some(Event::CloseCopy(number_in(numbers, *step)?)),
        Event::AbortCopy(step) => Some(Event::AbortCopy(number_in(numbers, *step)?)),
        _ => unreachable!(),
    }
}

fn is_of_step(event: &Event) -> bool
    ensures { result ≡ is_of_step event.now }
{
    matches!(
        event,
        Event::Do(_)
            | Event::OpenCopy(_)
            | Event::ChunkCopy(_, _)
            | Event::CloseCopy(_)
            | Event::AbortCopy(_)
    )
}

/// Returns the event with its step's number in the other plan. Events of no step stay.
pub fn renamed(numbers: &[Option<u32>], event: &Event) -> Result<Option<Event>, Refusal>
    ensures { IfOk result (λ v. v ≡ renamed numbers.now event.now) }
{
    if is_of_step(event) {
        return Ok(renamed_step(numbers, event));
    }
    let same = event.try_copy()?;
    Ok(Some(same))
}
