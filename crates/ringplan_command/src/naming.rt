//! Repeated arguments.

ghost use Rattle.std.specs.Prelude.{◌≡◌, [], IfOk, map, string_bytes, unwrap_or};
ghost use Rattle.clap.specs.Words.{all_of, found_of, rows_of};

use clap::ArgMatches;
use std::alloc::{AllocError, Global};

/// Returns a repeated option's texts, in order.
pub(crate) fn names_of(
    alloc: Global,
    matches: &ArgMatches,
    word: &str,
) -> Result<Vec<Vec<u8>>, AllocError>
    ensures { IfOk result (λ names. map (λ name. name.items) names.items ≡ unwrap_or (all_of word.now (rows_of (found_of matches.now))) []) }
{
    let mut names = Vec::new(alloc);
    let Some(texts) = matches.get_strs(word) else {
        return Ok(names);
    };
    for text in texts {
        names.push(Vec::from_slice(alloc, text.as_bytes())?)?;
    }
    Ok(names)
}

/// Returns a repeated argument's strings, in order.
pub(crate) fn texts_of(
    alloc: Global,
    matches: &ArgMatches,
    word: &str,
) -> Result<Vec<String>, AllocError>
    ensures { IfOk result (λ texts. map string_bytes texts.items ≡ unwrap_or (all_of word.now (rows_of (found_of matches.now))) []) }
{
    let mut texts = Vec::new(alloc);
    let Some(found) = matches.get_strs(word) else {
        return Ok(texts);
    };
    for text in found {
        texts.push(String::from_str(alloc, text)?)?;
    }
    Ok(texts)
}
