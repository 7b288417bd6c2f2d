//! A history's wanted part.

ghost use Rattle.std.specs.Prelude.{◌≡◌, ℕ, codes, MatchOption};
ghost use Rattle.clap.specs.Words.{first_value, found_of, one_text};
ghost use Rattle.ring_names.specs.declared.choice.Choice.{Choice as TheChoice};
ghost use Rattle.ring_names.specs.declared.choice.Choice.TheVariants.{Range, Share};
ghost use Rattle.ringplan_command.specs.Parts.{IsRange, IsShare, MeansChoice, PartTexts, ReadsPart, texts_in};

use crate::counts::{Count, MOST_PARTS, count_of};
use clap::ArgMatches;
use ring_names::Choice;

const MOST_ENTRY: u32 = 999_999;

/// A history's wanted part.
#[derive(Clone, Copy, Debug)]
pub struct PartWish {
    /// The part's partitions.
    pub choice: Choice,
    /// An entry of the part, 0 to 999,999. Its place in the whole history is printed instead of the part.
    pub entry: Option<u32>,
}

fn share_of(options: &ArgMatches) -> Option<Choice>
    ensures { MatchOption result
        ((of part : ℕ) → IsShare (one_text (found_of options.now) (codes "of")) (one_text (found_of options.now) (codes "part")) of part → ⊥)
        (λ choice. (of : ℕ) × (part : ℕ) × (choice ≡ Share of part)
        × IsShare (one_text (found_of options.now) (codes "of")) (one_text (found_of options.now) (codes "part")) of part) }
{
    let Count::Many(of) = count_of(options, "of", 1, MOST_PARTS) else {
        return None;
    };
    let Count::Many(part) = count_of(options, "part", 0, MOST_PARTS - 1) else {
        return None;
    };
    if part < of {
        Some(Choice::Share { of, part })
    } else {
        None
    }
}

// Reads `A-B`.
fn range_of(text: &str) -> Option<Choice>
    ensures { MatchOption result
        ((first last : ℕ) → IsRange text.now first last → ⊥)
        (λ choice. (first : ℕ) × (last : ℕ) × (choice ≡ Range first last) × IsRange text.now first last) }
{
    let (before, after) = text.split_once('-')?;
    let Ok(first) = before.parse::<u32>() else {
        return None;
    };
    let Ok(last) = after.parse::<u32>() else {
        return None;
    };
    if first <= last {
        Some(Choice::Range { first, last })
    } else {
        None
    }
}

fn choice_of(options: &ArgMatches) -> Option<Choice>
    ensures { MatchOption result
        ((choice : TheChoice) → MeansChoice (texts_in (found_of options.now)) choice → ⊥)
        (λ choice. MeansChoice (texts_in (found_of options.now)) choice) }
{
    let Some(text) = options.get_str("partitions") else {
        return share_of(options);
    };
    let Count::Unnamed = count_of(options, "of", 1, MOST_PARTS) else {
        return None;
    };
    let Count::Unnamed = count_of(options, "part", 0, MOST_PARTS - 1) else {
        return None;
    };
    range_of(text)
}

pub(crate) fn part_of(options: &ArgMatches) -> Option<PartWish>
    ensures { ReadsPart (texts_in (found_of options.now)) result }
{
    let entry = match count_of(options, "map", 0, MOST_ENTRY) {
        Count::Unnamed => None,
        Count::Many(entry) => Some(entry),
        Count::NoNumber => return None,
    };
    match choice_of(options) {
        Some(choice) => Some(PartWish { choice, entry }),
        None => None,
    }
}
