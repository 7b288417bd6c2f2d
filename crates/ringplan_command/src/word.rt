//! Commands for people.

ghost use Rattle.std.specs.Prelude.{◌≡◌};
ghost use Rattle.clap.specs.Words.{subcommand_rows_of};
ghost use Rattle.ringplan_command.specs.Command.{guide_named, more_named, word_named};

use clap::ArgMatches;

/// A command for people.
#[derive(Clone, Copy, Debug, PartialEq, Eq)]
pub enum Word {
    Why,
    Show,
    Draw,
    Steps,
    Goal,
    Windows,
    Cert,
    After,
    Around,
}

/// A text about the program, without a bundle.
#[derive(Clone, Copy, Debug, PartialEq, Eq)]
pub enum Guide {
    Completions,
    Manual,
}

pub(crate) fn guide_of(matches: &ArgMatches) -> Option<Guide>
    ensures { result ≡ guide_named (subcommand_rows_of matches.now) }
{
    if matches.subcommand_matches("completions").is_some() {
        return Some(Guide::Completions);
    }
    match matches.subcommand_matches("man") {
        Some(_) => Some(Guide::Manual),
        None => None,
    }
}

pub(crate) fn people_word(matches: &ArgMatches) -> Option<Word>
    ensures { result ≡ word_named (subcommand_rows_of matches.now) }
{
    if matches.subcommand_matches("why").is_some() {
        return Some(Word::Why);
    }
    if matches.subcommand_matches("show").is_some() {
        return Some(Word::Show);
    }
    if matches.subcommand_matches("draw").is_some() {
        return Some(Word::Draw);
    }
    if matches.subcommand_matches("steps").is_some() {
        return Some(Word::Steps);
    }
    more_of(matches)
}

fn more_of(matches: &ArgMatches) -> Option<Word>
    ensures { result ≡ more_named (subcommand_rows_of matches.now) }
{
    if matches.subcommand_matches("goal").is_some() {
        return Some(Word::Goal);
    }
    if matches.subcommand_matches("windows").is_some() {
        return Some(Word::Windows);
    }
    if matches.subcommand_matches("cert").is_some() {
        return Some(Word::Cert);
    }
    if matches.subcommand_matches("after").is_some() {
        return Some(Word::After);
    }
    match matches.subcommand_matches("around") {
        Some(_) => Some(Word::Around),
        None => None,
    }
}
