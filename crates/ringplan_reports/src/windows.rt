//! A plan's windows.

ghost use Rattle.std.specs.Prelude.{List, IfOk};
ghost use Rattle.ring_table.specs.Value.{RingValue};
ghost use Rattle.plan_text.specs.declared.step.Planned.{Planned};
ghost use Rattle.plan_check.specs.Approval.{IsApproved};
ghost use Rattle.plan_goal.specs.Windows.{AreAskedOf};
ghost use Rattle.ringplan_reports.specs.Studies.{IsStudyOf};

use crate::racks::push_racks;
use crate::reporting::GivenBundle;
use crate::study::{Study, studied};
use crate::why::push_words_of;
use change_text::Options;
use plan_goal::cut_plan;
use ring_names::Refusal;
use ringplan_request::Cut;
use std::alloc::Global;
use texts::Words;

const TOO_MANY: &[u8; 123] =
    b"refused: the windows have more than 67,108,864 bytes together, as each has the whole ring\n  Let a window have more rounds.\n";

/// Cuts a plan into windows, or returns one.
///
/// Ignores a history. Refuses as `studied` and `cut_plan` do.
pub fn windows_bundle(
    alloc: Global,
    bytes: &[u8],
    cut: Cut,
    options: &Options,
    words: &mut Words,
) -> Result<Vec<u8>, Refusal>
    ensures windows { IfOk result (λ text. (ring : RingValue) × (plan : List Planned)
        × IsStudyOf bytes.now ring plan × IsApproved ring plan × AreAskedOf ring plan cut.only text.items) }
{
    let found = studied(alloc, bytes, options)?;
    push_racks(alloc, words, bytes, &found.approved, options)?;
    cut_plan(alloc, &found.approved, cut.rounds, cut.only)
}

/// Adds why `windows_bundle` refuses.
pub(crate) fn push_windows_words(
    alloc: Global,
    out: &mut Words,
    given: GivenBundle,
    cut: Cut,
    refusal: &Refusal,
) -> Result<(), Refusal> {
    let GivenBundle { bytes, options } = given;
    match refusal {
        Refusal::TooLarge(0) => {
            out.text(TOO_MANY);
            Ok(())
        }
        Refusal::NoPlan => push_no_window(alloc, out, bytes, cut, options),
        _ => push_words_of(alloc, out, bytes, refusal),
    }
}

// For a plan that is itself accepted.
fn push_no_window(
    alloc: Global,
    out: &mut Words,
    bytes: &[u8],
    cut: Cut,
    options: &Options,
) -> Result<(), Refusal> {
    match studied(alloc, bytes, options) {
        Ok(found) => push_count(alloc, out, &found, cut),
        Err(Refusal::OutOfMemory) => Err(Refusal::OutOfMemory),
        Err(_) => push_words_of(alloc, out, bytes, &Refusal::NoPlan),
    }
}

// Says how many windows there are, or that a window leaves no ring.
fn push_count(alloc: Global, out: &mut Words, found: &Study, cut: Cut) -> Result<(), Refusal> {
    match cut_plan(alloc, &found.approved, cut.rounds, None) {
        Ok(text) => {
            let windows = count_rings(text.as_slice());
            out.fill(
                if windows == 1 {
                    b"refused: there is # window, and none of number #\n"
                } else {
                    b"refused: there are # windows, and none of number #\n"
                },
                &[],
                &[windows, cut.only.unwrap_or(0)],
            );
        }
        Err(Refusal::OutOfMemory) => return Err(Refusal::OutOfMemory),
        Err(_) => out.text(
            b"refused: the plan has no window of that number, or no ring can say what one of its windows leaves\n",
        ),
    }
    Ok(())
}

fn count_rings(text: &[u8]) -> u32 {
    let mut count = 0u32;
    for line in text.split(|byte| *byte == b'\n') {
        if line.starts_with(b"ring ") {
            count = count.saturating_add(1);
        }
    }
    count
}
