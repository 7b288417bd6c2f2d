//! Puts that start.

ghost use Rattle.std.specs.Prelude.{◌≡◌, ◌<◌, ◌++◌, ◌∷◌, ◌&&◌, ◌==◌, ℕ, [], List, Some, length, if◌then◌else◌, IfOk};
ghost use Rattle.std.specs.Prelude.{IfErr, OnOk, OnErr};
ghost use Rattle.std.specs.List.{list_all};
ghost use Rattle.ring_names.specs.declared.refusal.Refusal.TheVariants.{OutOfMemory};
ghost use Rattle.ring_clock.specs.declared.entry.Entry.{Entry as TheEntry};
ghost use Rattle.ring_clock.specs.Clock.{counter};
ghost use Rattle.plan_stage.specs.Clauses.{first_failing};
ghost use Rattle.plan_runs.specs.declared.event.Event.TheVariants.{StartPut};
ghost use Rattle.store_parts.specs.Lasts.{last_of};
ghost use Rattle.store_parts.specs.Found.{IsJoinOfFound};
ghost use Rattle.store_parts.specs.PutsMeet.{clock_at};
ghost use Rattle.store_parts.specs.GetsMeet.{found_at};
ghost use Rattle.store_parts.specs.GetsTests.{is_of_number, has_ended_at};
ghost use Rattle.store_parts.specs.Parts.{IsSound, Follows, Tests, Answers, Passes, Stays};
ghost use Rattle.store_clients.specs.Puts.{IsNewPut, seen_guards_kept};

use crate::clocks::{Knowing, next_clock};
use crate::keys::number_of;
use plan_runs::{Key, Reply, Seen};
use ring_names::{Refusal, Value, WriterId};
use ring_versions::{Version, Versions};
use store_parts::{Gets, Lasts, Parts, PutNow, Puts};

fn is_of_key(gets: &Gets, key: usize, get: u32) -> bool
    ensures { result ≡ is_of_number gets.now key get }
{
    match gets.get(get) {
        Some(now) => now.key == key,
        None => false,
    }
}

fn has_ended(gets: &Gets, get: u32) -> bool
    ensures { result ≡ has_ended_at gets.now get }
{
    match gets.get(get) {
        Some(now) => now.reply.is_some(),
        None => false,
    }
}

fn are_of_key(gets: &Gets, key: usize, seen: &[u32]) -> bool
    ensures { result ≡ list_all (is_of_number gets.now key) seen.now }
{
    seen.iter().all(|get| is_of_key(gets, key, *get))
}

fn have_ended(gets: &Gets, seen: &[u32]) -> bool
    ensures { result ≡ list_all (has_ended_at gets.now) seen.now }
{
    seen.iter().all(|get| has_ended(gets, *get))
}

fn seen_refusal(gets: &Gets, key: usize, seen: &[u32]) -> Option<Refusal>
    ensures { result ≡ first_failing (seen_guards_kept gets.now key seen.now) }
{
    if !are_of_key(gets, key, seen) {
        return Some(Refusal::UnknownNumber);
    }
    if !have_ended(gets, seen) {
        return Some(Refusal::NotReady);
    }
    None
}

/// Returns why a put cannot start now: a named get is unknown, of another key, or has not ended.
///
/// Costs a look-up for each named get.
pub fn put_refusal(
    parts: &Parts,
    writer: WriterId,
    key: &Key,
    value: &Value,
    seen: &Seen,
) -> Option<Refusal>
    requires { IsSound parts.now }
    ensures { Tests parts.now (StartPut writer key.now value.now seen.now) result }
{
    let named = seen.as_slice();
    match parts.keys.number_of(key.as_slice()) {
        Some(number) => seen_refusal(&parts.gets, number, named),
        None if named.is_empty() => None,
        None => Some(Refusal::UnknownNumber),
    }
}

fn new_put(
    parts: &Parts,
    key: usize,
    writer: WriterId,
    value: &Value,
    seen: &[u32],
) -> Result<PutNow, Refusal>
    requires few { length parts.now.puts < 4294967295 }
    requires clocks { (d : List TheEntry) → IsJoinOfFound (clock_at parts.now.puts) (found_at parts.now.gets) seen.now
        (last_of parts.now.lasts key writer.0) d
        → counter d writer.0 < 18446744073709551615 }
    ensures ok { IfOk result
        (IsNewPut parts.now.puts parts.now.gets (last_of parts.now.lasts) key writer.0 value.now seen.now) }
    ensures memory { IfErr result (λ e. e ≡ OutOfMemory) }
{
    let alloc = parts.alloc;
    let put = parts.puts.len() as u32;
    let last = parts.lasts.get(key, writer);
    let knowing = Knowing { last, seen };
    let clock = next_clock(alloc, &parts.puts, &parts.gets, &knowing, writer)?;
    let value = value.try_copy()?;
    let version = Versions::of(alloc, Version { put, clock, value })?;
    Ok(PutNow {
        key,
        version,
        tickets: [None; 7],
        acked: false,
    })
}

// Adds a put as the writer's last of the key. Returns its number.
fn push_put(
    puts: &mut Puts,
    lasts: &mut Lasts,
    writer: WriterId,
    put: PutNow,
) -> Result<u32, Refusal>
    requires { length puts.old < 4294967295 }
    ensures number { IfOk result (λ n. n ≡ length puts.old) }
    ensures puts { OnOk result (puts.new ≡ puts.old ++ put ∷ []) }
    ensures lasts { OnOk result ((k w : ℕ)
        → last_of lasts.new k w
        ≡ (if (k == put.key) && (w == writer.0) then Some (length puts.old) else last_of lasts.old k w)) }
    ensures same_puts { OnErr result (puts.new ≡ puts.old) }
    ensures same_lasts { OnErr result ((k w : ℕ) → last_of lasts.new k w ≡ last_of lasts.old k w) }
    ensures memory { IfErr result (λ e. e ≡ OutOfMemory) }
{
    let number = puts.len() as u32;
    let key = put.key;
    puts.push(put)?;
    if let Err(refusal) = lasts.set(key, writer, number) {
        puts.pop();
        return Err(refusal);
    }
    Ok(number)
}

/// Starts a put of a writer that knows these gets' replies. Costs a join for each version that the gets found.
pub fn start_put(
    parts: &mut Parts,
    writer: WriterId,
    key: &Key,
    value: &Value,
    seen: &Seen,
) -> Result<Reply, Refusal>
    requires sound { IsSound parts.old }
    requires passes { Passes parts.old (StartPut writer key.now value.now seen.now) }
    requires few { length parts.old.puts < 4294967295 }
    ensures ok { IfOk result (λ r. Answers parts.old (StartPut writer key.now value.now seen.now) r parts.new) }
    ensures same { OnErr result (Stays parts.old parts.new) }
    ensures memory { IfErr result (λ e. e ≡ OutOfMemory) }
    ensures follows { Follows parts.old parts.new }
{
    let key_number = number_of(&mut parts.keys, key.as_slice())?;
    let put = new_put(parts, key_number, writer, value, seen.as_slice())?;
    let number = push_put(&mut parts.puts, &mut parts.lasts, writer, put)?;
    Ok(Reply::Put(number))
}
