//! Checks the receipts of a script's client.

ghost use Rattle.std.specs.Prelude.{◌≡◌, ◌↔◌, IfOk, IfErr, IsTrue};
ghost use Rattle.ring_names.specs.declared.refusal.Refusal.TheVariants.{OutOfMemory};
ghost use Rattle.ring_board.specs.Blocks.{IsClient};

use crate::blocks::behind_line;
use crate::receipt::Receipt;
use plan_runs::Event;
use ring_names::Refusal;
use std::alloc::Global;

pub(crate) fn is_client(alloc: Global, script: &[Event], list: &[Receipt]) -> Result<bool, Refusal>
    ensures exactly { IfOk result (λ b. IsTrue b ↔ IsClient script.now list.now) }
    ensures memory { IfErr result (λ e. e ≡ OutOfMemory) }
{
    let mut asked = Vec::new(alloc);
    let mut lines = script;
    let mut rest = list;
    'lines: while let Some((line, later)) = lines.split_first() {
        match behind_line(&mut asked, line, rest)? {
            Some(left) => rest = left,
            None => return Ok(false),
        }
        lines = later;
    }
    Ok(rest.is_empty())
}
