//! Slots on a command line.

ghost use Rattle.std.specs.Prelude.{[], IfOk, MatchOption, codes, unwrap_or};
ghost use Rattle.clap.specs.Words.{all_of, found_of, rows_of};
ghost use Rattle.ring_names.specs.declared.ids.Slot.{Slot as TheSlot};
ghost use Rattle.ringplan_command.specs.Slots.{AreSlots, HasNoSlot, IsSlot};

use clap::ArgMatches;
use ring_names::Slot;
use std::alloc::{AllocError, Global};

// Reads `P.I`.
fn slot_named(text: &str) -> Option<Slot>
    ensures { MatchOption result ((slot : TheSlot) → IsSlot text.now slot → ⊥) (IsSlot text.now) }
{
    let (before, after) = text.split_once('.')?;
    let Ok(partition) = before.parse::<u32>() else {
        return None;
    };
    let Ok(index) = after.parse::<u32>() else {
        return None;
    };
    Some(Slot { partition, index })
}

/// Returns the slots of `--leave`. None if one is malformed.
pub(crate) fn slots_of(alloc: Global, matches: &ArgMatches) -> Result<Option<Vec<Slot>>, AllocError>
    ensures { IfOk result (λ o. MatchOption o (HasNoSlot (unwrap_or (all_of (codes "leave") (rows_of (found_of matches.now))) []))
        (λ slots. AreSlots (unwrap_or (all_of (codes "leave") (rows_of (found_of matches.now))) []) slots.items)) }
{
    let mut slots = Vec::new(alloc);
    let Some(texts) = matches.get_strs("leave") else {
        return Ok(Some(slots));
    };
    for text in texts {
        let Some(slot) = slot_named(text) else {
            return Ok(None);
        };
        slots.push(slot)?;
    }
    Ok(Some(slots))
}
