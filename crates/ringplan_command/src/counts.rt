//! Numbers on a command line.

ghost use Rattle.clap.specs.Words.{found_of, one_text};
ghost use Rattle.ringplan_command.specs.Numbers.{MeansCount};

use clap::ArgMatches;

/// The most parts of a history.
pub const MOST_PARTS: u32 = 4_096;

pub(crate) const MOST_WORKERS: u32 = 64;

/// A number: missing, in range, or wrong.
#[derive(Clone, Copy)]
pub(crate) enum Count {
    Unnamed,
    Many(u32),
    NoNumber,
}

pub(crate) fn count_of(options: &ArgMatches, word: &str, least: u32, most: u32) -> Count
    ensures { MeansCount least most (one_text (found_of options.now) word.now) result }
{
    match options.try_get_one::<u32>(word) {
        Ok(None) => Count::Unnamed,
        Ok(Some(number)) => {
            if number < least {
                return Count::NoNumber;
            }
            if number > most {
                return Count::NoNumber;
            }
            Count::Many(number)
        }
        Err(_) => Count::NoNumber,
    }
}
