//! Gets that start and end.

ghost use Rattle.std.specs.Prelude.{◌≡◌, ◌<◌, length, IfOk, IfErr, OnErr};
ghost use Rattle.ring_names.specs.declared.refusal.Refusal.TheVariants.{OutOfMemory};
ghost use Rattle.plan_stage.specs.Clauses.{first_failing};
ghost use Rattle.plan_runs.specs.declared.event.Event.TheVariants.{StartGet, EndGet};
ghost use Rattle.store_parts.specs.Parts.{IsSound, Follows, Tests, Passes, Answers, Stays};
ghost use Rattle.store_clients.specs.Gets.{end_guards_kept};

use crate::keys::number_of;
use plan_runs::{Key, Reply};
use ring_names::{Listed, Refusal};
use ring_versions::Found;
use store_parts::{GetNow, Gets, Marks, Parts};

/// Starts a get of the key.
pub fn start_get(parts: &mut Parts, key: &Key) -> Result<Reply, Refusal>
    requires sound { IsSound parts.old }
    requires few { length parts.old.gets < 4294967295 }
    ensures ok { IfOk result (λ r. Answers parts.old (StartGet key.now) r parts.new) }
    ensures same { OnErr result (Stays parts.old parts.new) }
    ensures memory { IfErr result (λ e. e ≡ OutOfMemory) }
    ensures follows { Follows parts.old parts.new }
{
    let number = parts.gets.len() as u32;
    let key_number = number_of(&mut parts.keys, key.as_slice())?;
    let get = GetNow {
        key: key_number,
        read: Marks::none(),
        found: Found::new(parts.alloc),
        reply: None,
    };
    parts.gets.push(get)?;
    Ok(Reply::Get(number))
}

fn refusal_of(gets: &Gets, needed: u32, get: u32) -> Option<Refusal>
    ensures { result ≡ first_failing (end_guards_kept gets.now needed get) }
{
    let Some(now) = gets.get(get) else {
        return Some(Refusal::UnknownNumber);
    };
    if now.reply.is_some() {
        return Some(Refusal::AlreadyDone);
    }
    let read = gets.read_count(get);
    if read < needed {
        return Some(Refusal::TooFewSlots(read));
    }
    None
}

/// Returns why a get cannot end now: unknown, already ended, or fewer than R slots read.
pub fn end_refusal(parts: &Parts, get: u32) -> Option<Refusal>
    requires { IsSound parts.now }
    ensures { Tests parts.now (EndGet get) result }
{
    refusal_of(&parts.gets, parts.approved.ring().r(), get)
}

/// Ends the get. The reply has the newest puts found, by number. Costs a sort.
pub fn end_get(parts: &mut Parts, get: u32) -> Result<Reply, Refusal>
    requires sound { IsSound parts.old }
    requires passes { Passes parts.old (EndGet get) }
    ensures ok { IfOk result (λ r. Answers parts.old (EndGet get) r parts.new) }
    ensures same { OnErr result (Stays parts.old parts.new) }
    ensures memory { IfErr result (λ e. e ≡ OutOfMemory) }
    ensures follows { Follows parts.old parts.new }
{
    let Some(now) = parts.gets.get(get) else {
        unreachable!();
    };
    let reply = now.found.puts()?;
    let kept = Vec::from_slice(parts.alloc, reply.as_slice())?;
    parts.gets.end(get, Listed::from_vec(kept));
    Ok(Reply::Answer(reply))
}

/// Ends the get as `end_get` does, and returns the reply twice.
pub fn end_get_with_copy(parts: &mut Parts, get: u32) -> Result<(Reply, Reply), Refusal>
    requires sound { IsSound parts.old }
    requires passes { Passes parts.old (EndGet get) }
    ensures ok { IfOk result (λ r. Answers parts.old (EndGet get) r.0 parts.new) }
    ensures copy { IfOk result (λ r. r.1 ≡ r.0) }
    ensures same { OnErr result (Stays parts.old parts.new) }
    ensures memory { IfErr result (λ e. e ≡ OutOfMemory) }
    ensures follows { Follows parts.old parts.new }
{
    let Some(now) = parts.gets.get(get) else {
        unreachable!();
    };
    let reply = now.found.puts()?;
    let kept = Vec::from_slice(parts.alloc, reply.as_slice())?;
    let copy = Vec::from_slice(parts.alloc, reply.as_slice())?;
    parts.gets.end(get, Listed::from_vec(kept));
    Ok((Reply::Answer(reply), Reply::Answer(Listed::from_vec(copy))))
}
