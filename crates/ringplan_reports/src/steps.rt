//! A plan's steps, for another store.

ghost use Rattle.std.specs.Prelude.{◌≡◌, List, IfOk};
ghost use Rattle.ring_table.specs.Value.{RingValue};
ghost use Rattle.plan_text.specs.declared.step.Planned.{Planned};
ghost use Rattle.plan_check.specs.Approval.{IsApproved};
ghost use Rattle.plan_moves.specs.Lines.{steps_text};
ghost use Rattle.plan_moves.specs.MoveLines.{moves_text};
ghost use Rattle.ringplan_reports.specs.Studies.{IsStudyOf};

use crate::racks::push_racks;
use crate::study::studied;
use change_text::Options;
use plan_check::Approved;
use plan_moves::{write_moves, write_steps};
use ring_names::Refusal;
use std::alloc::Global;
use texts::Words;

fn steps_of(alloc: Global, approved: &Approved) -> Result<Vec<u8>, Refusal>
    ensures text { IfOk result (λ v. v.items ≡ steps_text approved.now.ring approved.now.plan) }
    ensures approved { IsApproved approved.now.ring approved.now.plan }
{
    write_steps(alloc, approved.ring(), approved.plan())
}

/// Writes a plan's steps as lines of JSON. Ignores a history. Refuses as `studied` does.
pub fn steps_bundle(
    alloc: Global,
    bytes: &[u8],
    options: &Options,
    words: &mut Words,
) -> Result<Vec<u8>, Refusal>
    ensures steps { IfOk result (λ text. (ring : RingValue) × (plan : List Planned)
        × IsStudyOf bytes.now ring plan × IsApproved ring plan × (text.items ≡ steps_text ring plan)) }
{
    let found = studied(alloc, bytes, options)?;
    push_racks(alloc, words, bytes, &found.approved, options)?;
    steps_of(alloc, &found.approved)
}

fn moves_of(alloc: Global, approved: &Approved) -> Result<Vec<u8>, Refusal>
    ensures text { IfOk result (λ v. v.items ≡ moves_text approved.now.ring approved.now.plan) }
    ensures approved { IsApproved approved.now.ring approved.now.plan }
{
    write_moves(alloc, approved.ring(), approved.plan())
}

/// Writes the moving slots as lines of JSON. Refuses as `studied` does.
pub fn moves_bundle(
    alloc: Global,
    bytes: &[u8],
    options: &Options,
    words: &mut Words,
) -> Result<Vec<u8>, Refusal>
    ensures moves { IfOk result (λ text. (ring : RingValue) × (plan : List Planned)
        × IsStudyOf bytes.now ring plan × IsApproved ring plan × (text.items ≡ moves_text ring plan)) }
{
    let found = studied(alloc, bytes, options)?;
    push_racks(alloc, words, bytes, &found.approved, options)?;
    moves_of(alloc, &found.approved)
}
