//! Reads options.

ghost use Rattle.std.specs.Prelude.{◌≡◌, ◌↔◌, IsTrue, Some, codes, option_map};
ghost use Rattle.clap.specs.Words.{first_of, found_of, one_of, one_text, rows_of};
ghost use Rattle.ringplan_command.specs.Makings.{IsSet};
ghost use Rattle.ringplan_command.specs.Numbers.{MeansCount};

use crate::counts::{Count, count_of};
use clap::ArgMatches;

fn has_flag(options: &ArgMatches, word: &str) -> bool
    ensures { IsTrue result ↔ (one_text (found_of options.now) word.now ≡ Some (codes "true")) }
{
    matches!(options.try_get_one::<bool>(word), Ok(Some(true)))
}

pub(crate) fn is_set(options: &ArgMatches, word: &str) -> bool
    ensures { IsTrue result ↔ IsSet word.now (rows_of (found_of options.now)) }
{
    has_flag(options, word)
}

pub(crate) fn text_of<'a>(options: &ArgMatches<'a>, word: &str) -> Option<&'a str>
    ensures { option_map (λ text. text.now) result ≡ first_of word.now (rows_of (found_of options.now)) }
{
    options.get_str(word)
}

pub(crate) fn number_of(options: &ArgMatches, word: &str, most: u32) -> Count
    ensures { MeansCount 1 most (one_of word.now (rows_of (found_of options.now))) result }
{
    count_of(options, word, 1, most)
}
