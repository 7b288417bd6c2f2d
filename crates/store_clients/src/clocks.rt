//! A put's clock: the inputs' clocks joined, with one more for the writer.

ghost use Rattle.std.specs.Prelude.{◌≡◌, ◌<◌, ℕ, List, max, IfOk, IfErr, OnOk};
ghost use Rattle.ring_names.specs.declared.refusal.Refusal.TheVariants.{OutOfMemory};
ghost use Rattle.ring_clock.specs.declared.entry.Entry.{Entry as TheEntry};
ghost use Rattle.ring_clock.specs.Clock.{counter};
ghost use Rattle.store_parts.specs.Found.{IsJoinOfFound};
ghost use Rattle.store_parts.specs.PutsMeet.{clock_at};
ghost use Rattle.store_parts.specs.GetsMeet.{found_at};
ghost use Rattle.ring_versions.specs.Raised.{RaisesTo, IsClockIn};
ghost use Rattle.store_clients.specs.Clocks.{IsFoundClock, IsNextOfFound};

use ring_clock::Clock;
use ring_names::{Refusal, WriterId};
use std::alloc::Global;
use store_parts::{Gets, Puts};

fn raise_to_get(clock: &mut Clock, gets: &Gets, get: u32) -> Result<(), Refusal>
    ensures ok { OnOk result (RaisesTo clock.old (IsClockIn (found_at gets.now get)) clock.new) }
    ensures memory { IfErr result (λ e. e ≡ OutOfMemory) }
{
    match gets.get(get) {
        Some(now) => clock.raise(now.found.join()),
        None => Ok(()),
    }
}

fn raise_to_gets(clock: &mut Clock, gets: &Gets, seen: &[u32]) -> Result<(), Refusal>
    ensures ok { OnOk result (RaisesTo clock.old (IsFoundClock (found_at gets.now) seen.now) clock.new) }
    ensures memory { IfErr result (λ e. e ≡ OutOfMemory) }
{
    let mut rest = seen;
    'gets: while let Some((get, later)) = rest.split_first() {
        raise_to_get(clock, gets, *get)?;
        rest = later;
    }
    Ok(())
}

fn raise_to_put(clock: &mut Clock, puts: &Puts, put: u32) -> Result<(), Refusal>
    ensures ok { OnOk result
        ((w : ℕ) → counter clock.new w ≡ max (counter clock.old w) (counter (clock_at puts.now put) w)) }
    ensures memory { IfErr result (λ e. e ≡ OutOfMemory) }
{
    let Some(now) = puts.get(put) else {
        return Ok(());
    };
    match now.version.versions().next() {
        Some(version) => clock.raise(&version.clock),
        None => Ok(()),
    }
}

/// A put's inputs: the writer's last put of the key, and the named gets.
#[derive(Clone, Copy)]
pub struct Knowing<'s> {
    pub last: Option<u32>,
    pub seen: &'s [u32],
}

fn input_clock(alloc: Global, puts: &Puts, gets: &Gets, knowing: &Knowing) -> Result<Clock, Refusal>
    ensures ok { IfOk result
        (IsJoinOfFound (clock_at puts.now) (found_at gets.now) knowing.now.seen.now knowing.now.last) }
    ensures memory { IfErr result (λ e. e ≡ OutOfMemory) }
{
    let mut clock = Clock::new(alloc);
    raise_to_gets(&mut clock, gets, knowing.seen)?;
    let last = knowing.last;
    if let Some(put) = last {
        raise_to_put(&mut clock, puts, put)?;
    }
    Ok(clock)
}

/// Returns the clock of a put by this writer, who knows `knowing`.
pub fn next_clock(
    alloc: Global,
    puts: &Puts,
    gets: &Gets,
    knowing: &Knowing,
    writer: WriterId,
) -> Result<Clock, Refusal>
    requires { (d : List TheEntry)
        → IsJoinOfFound (clock_at puts.now) (found_at gets.now) knowing.now.seen.now knowing.now.last d
        → counter d writer.0 < 18446744073709551615 }
    ensures ok { IfOk result
        (IsNextOfFound (clock_at puts.now) (found_at gets.now) knowing.now.seen.now knowing.now.last writer.0) }
    ensures memory { IfErr result (λ e. e ≡ OutOfMemory) }
{
    let clock = input_clock(alloc, puts, gets, knowing)?;
    clock.bump(writer)
}
