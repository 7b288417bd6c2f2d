//! The command line behind a call.

ghost use Rattle.std.specs.List.{slice_split};
ghost use Rattle.std.specs.Prelude.{◌==◌, ◌≡◌, IfOk, map};
ghost use Rattle.ringplan_c.specs.Line.{line_of, words_in};
ghost use Rattle.ringplan_command.specs.Command.{Answers, asked};
ghost use Rattle.ringplan_command.specs.Files.{IsJob, files_in, files_of};

use ringplan_command::{CommandLine, parse};
use std::alloc::{AllocError, Global};

fn cut<'a>(alloc: Global, options: &'a str) -> Result<Vec<&'a str>, AllocError>
    ensures { IfOk result (λ parts. map (λ part. part.now) parts.items ≡ slice_split (λ b. b == 0) options.now) }
{
    options.split('\0').collect(alloc)
}

fn split_options<'a>(alloc: Global, options: &'a str) -> Result<Vec<&'a str>, AllocError>
    ensures { IfOk result (λ words. map (λ word. word.now) words.items ≡ words_in options.now) }
{
    let mut words = cut(alloc, options)?;
    match words.pop() {
        None => Ok(words),
        Some(last) => {
            if last.is_empty() {
                return Ok(words);
            }
            words.push(last)?;
            Ok(words)
        }
    }
}

fn write_line<'a>(
    alloc: Global,
    command: &'a str,
    options: &'a str,
) -> Result<Vec<&'a str>, AllocError>
    ensures { IfOk result (λ words. map (λ word. word.now) words.items ≡ line_of command.now options.now) }
{
    let mut line = Vec::new(alloc);
    line.push("ringplan")?;
    line.push(command)?;
    let mut words = split_options(alloc, options)?;
    line.append(&mut words)?;
    Ok(line)
}

pub(crate) fn read_line(
    alloc: Global,
    command: &str,
    options: &str,
) -> Result<CommandLine, AllocError>
    ensures asks { IfOk result (λ line. Answers (asked (line_of command.now options.now)) line.request) }
    ensures files { IfOk result (λ line. IsJob line.request → files_in line.files ≡ files_of (line_of command.now options.now)) }
{
    let words = write_line(alloc, command, options)?;
    Ok(parse(alloc, words.as_slice()))
}
