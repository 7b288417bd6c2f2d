//! Texts about the program.

ghost use Rattle.std.specs.Prelude.{IfOk};
ghost use Rattle.ringplan_command.specs.Command.{IsOfGuide};
ghost use Rattle.ringplan_command.specs.declared.word.Guide.TheVariants.{Completions};

use crate::command::Request;
use crate::help::NO_SHELL;
use crate::line::mistaken;
use crate::manual::manual;
use crate::shells::{Shell, completions};
use crate::word::Guide;
use clap::ArgMatches;
use std::alloc::{AllocError, Global};

pub(crate) fn write_guide(
    alloc: Global,
    options: &ArgMatches,
    guide: Guide,
) -> Result<Request, AllocError>
    ensures { IfOk result (IsOfGuide guide) }
{
    match guide {
        Guide::Completions => completions_line(alloc, options),
        Guide::Manual => Ok(Request::Describe(manual(alloc)?)),
    }
}

fn completions_line(alloc: Global, options: &ArgMatches) -> Result<Request, AllocError>
    ensures { IfOk result (IsOfGuide Completions) }
{
    match options.get_str("shell").and_then(Shell::named) {
        Some(shell) => Ok(Request::Describe(completions(alloc, shell)?)),
        None => mistaken(alloc, NO_SHELL),
    }
}
