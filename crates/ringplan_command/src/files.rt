//! Named files.

ghost use Rattle.std.specs.Prelude.{◌≡◌, [], IfOk, codes, map, option_map, string_bytes, unwrap_or};
ghost use Rattle.std.specs.List.{list_all};
ghost use Rattle.std.specs.Str.{bytes_eq};
ghost use Rattle.clap.specs.Words.{all_of, first_value, found_of, rows_of, subcommand_rows_of};
ghost use Rattle.ringplan_command.specs.Files.{are_dashes, but_dash, but_dashes, files_in, files_named, no_files};

use crate::naming::texts_of;
use clap::ArgMatches;
use std::alloc::{AllocError, Global};

/// The files of a command line.
#[derive(Debug, Drop)]
pub struct Files {
    /// The inputs in order. `-` is standard input, the default.
    pub inputs: Vec<String>,
    /// The output; standard output by default.
    pub output: Option<String>,
}

impl Files {
    pub(crate) fn none(alloc: Global) -> Files
        ensures { files_in result ≡ no_files }
    {
        Files {
            inputs: Vec::new(alloc),
            output: None,
        }
    }

    pub(crate) fn of(alloc: Global, matches: &ArgMatches) -> Result<Files, AllocError>
        ensures { IfOk result (λ f. files_in f ≡ files_named (subcommand_rows_of matches.now)) }
    {
        let Some((_, options)) = matches.subcommand() else {
            return Ok(Files::none(alloc));
        };
        let inputs = inputs_of(alloc, options)?;
        let output = named(alloc, options, "output")?;
        Ok(Files { inputs, output })
    }
}

// None if all inputs are `-`.
fn inputs_of(alloc: Global, options: &ArgMatches) -> Result<Vec<String>, AllocError>
    ensures { IfOk result (λ inputs. map string_bytes inputs.items
        ≡ but_dashes (unwrap_or (all_of (codes "file") (rows_of (found_of options.now))) [])) }
{
    let texts = texts_of(alloc, options, "file")?;
    if are_dashes(texts.as_slice()) {
        return Ok(Vec::new(alloc));
    }
    Ok(texts)
}

fn is_dash(text: &String) -> bool
    ensures { result ≡ bytes_eq (string_bytes text.now) (codes "-") }
{
    text.as_str() == "-"
}

fn each_is_dash(texts: &[String]) -> bool
    ensures { result ≡ list_all (λ text. bytes_eq (string_bytes text) (codes "-")) texts.now }
{
    texts.iter().all(|text| is_dash(text))
}

fn are_dashes(texts: &[String]) -> bool
    ensures { result ≡ are_dashes (map string_bytes texts.now) }
{
    each_is_dash(texts)
}

/// Returns an argument's text. None for `-`, a standard stream.
pub(crate) fn named(
    alloc: Global,
    options: &ArgMatches,
    word: &str,
) -> Result<Option<String>, AllocError>
    ensures { IfOk result (λ o. option_map string_bytes o ≡ but_dash (first_value (found_of options.now) word.now)) }
{
    let Some(text) = options.get_str(word) else {
        return Ok(None);
    };
    if text == "-" {
        return Ok(None);
    }
    let name = String::from_str(alloc, text)?;
    Ok(Some(name))
}
