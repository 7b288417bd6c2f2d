//! The clocks of one key's puts.

ghost use Rattle.std.specs.Prelude.{◌≡◌, ◌+◌, ◌<◌, ◌≤◌, ◌==◌, [], ℕ, length, get_or, true, max, Some, None};
ghost use Rattle.std.specs.Prelude.{if◌then◌else◌, IfOk, IfErr, OnOk, IfSome};
ghost use Rattle.ring_names.specs.Lists.{has};
ghost use Rattle.ring_names.specs.declared.refusal.Refusal.TheVariants.{OutOfMemory};
ghost use Rattle.ring_clock.specs.Clock.{counter};
ghost use Rattle.ring_clock.specs.Causes.{IsEarlier, IsSuccession};
ghost use Rattle.ring_clock.specs.Built.{IsJoinOf, IsInput, IsNext, AreClocks, last_of};

use crate::clock::Clock;
use ring_names::{Refusal, WriterId};
use std::alloc::Global;
use std::collections::HashMap;

/// A put's causes: its writer's earlier puts, and the puts that it has seen.
#[derive(Debug, Drop)]
pub struct Cause {
    pub writer: WriterId,
    pub seen: Vec<u32>,
}

fn raise_to_seen(clock: &mut Clock, clocks: &[Clock], seen: &[u32]) -> Result<(), Refusal>
    requires none { clock.old ≡ [] }
    requires earlier { (v : ℕ) → has v seen.now ≡ true → v < length clocks.now }
    ensures ok { OnOk result (IsJoinOf (λ v. get_or clocks.now v []) (λ v. has v seen.now ≡ true) clock.new) }
    ensures memory { IfErr result (λ e. e ≡ OutOfMemory) }
{
    let mut rest = seen;
    'seen: while let Some((put, later)) = rest.split_first() {
        clock.raise(&clocks[*put as usize])?;
        rest = later;
    }
    Ok(())
}

fn raise_to_inputs(
    clock: &mut Clock,
    cause: &Cause,
    last: Option<usize>,
    clocks: &[Clock],
) -> Result<(), Refusal>
    requires none { clock.old ≡ [] }
    requires seen { (v : ℕ) → has v cause.now.seen.items ≡ true → v < length clocks.now }
    requires last { IfSome last (λ v. v < length clocks.now) }
    ensures ok { OnOk result (IsJoinOf (λ v. get_or clocks.now v []) (IsInput cause.now last) clock.new) }
    ensures memory { IfErr result (λ e. e ≡ OutOfMemory) }
{
    raise_to_seen(clock, clocks, cause.seen.as_slice())?;
    if let Some(put) = last {
        clock.raise(&clocks[put])?;
    }
    Ok(())
}

fn next_clock(
    alloc: Global,
    cause: &Cause,
    last: Option<usize>,
    clocks: &[Clock],
) -> Result<Clock, Refusal>
    requires seen { (v : ℕ) → has v cause.now.seen.items ≡ true → v < length clocks.now }
    requires last { IfSome last (λ v. v < length clocks.now) }
    requires few { (v w : ℕ) → counter (get_or clocks.now v []) w ≤ length clocks.now }
    requires room { length clocks.now < 18446744073709551615 }
    ensures ok { IfOk result (λ c. IsNext (λ v. get_or clocks.now v []) (IsInput cause.now last) cause.now.writer.0 c) }
    ensures few { IfOk result (λ c. (w : ℕ) → counter c w ≤ length clocks.now + 1) }
    ensures memory { IfErr result (λ e. e ≡ OutOfMemory) }
{
    let mut clock = Clock::new(alloc);
    raise_to_inputs(&mut clock, cause, last, clocks)?;
    clock.bump(cause.writer)
}

#[derive(Drop)]
struct LastPuts {
    places: HashMap<u32, usize>,
}

impl LastPuts {
    fn new(alloc: Global) -> LastPuts
        ensures { (w : ℕ) → last_of result w ≡ None }
    {
        LastPuts {
            places: HashMap::new(alloc),
        }
    }

    fn of(&self, writer: WriterId) -> Option<usize>
        ensures { result ≡ last_of self.now writer.0 }
    {
        match self.places.get(&writer.0) {
            Some(place) => Some(*place),
            None => None,
        }
    }

    fn set(&mut self, writer: WriterId, place: usize) -> Result<(), Refusal>
        ensures ok { OnOk result
            ((w : ℕ) → last_of self.new w ≡ (if w == writer.0 then Some place else last_of self.old w)) }
        ensures memory { IfErr result (λ e. e ≡ OutOfMemory) }
    {
        self.places.insert(writer.0, place)?;
        Ok(())
    }
}

fn push_clocks(
    alloc: Global,
    out: &mut Vec<Clock>,
    last: &mut LastPuts,
    causes: &[Cause],
) -> Result<(), Refusal>
    requires earlier { IsEarlier causes.now }
    requires empty { out.old.items ≡ [] }
    requires none { (w : ℕ) → last_of last.old w ≡ None }
    ensures each { OnOk result (length out.new.items ≡ length causes.now) }
    ensures clocks { OnOk result (AreClocks causes.now (λ v. get_or out.new.items v [])) }
    ensures memory { IfErr result (λ e. e ≡ OutOfMemory) }
{
    for place in 0..causes.len() {
        let cause = &causes[place];
        let clock = next_clock(alloc, cause, last.of(cause.writer), out.as_slice())?;
        out.push(clock)?;
        last.set(cause.writer, place)?;
    }
    Ok(())
}

/// Returns the clocks of a key's puts, by start. Costs a join for each put and each put seen.
///
/// A put's clock joins the causes' clocks, and raises the writer's counter by one.
pub fn clocks(alloc: Global, causes: &[Cause]) -> Result<Vec<Clock>, Refusal>
    requires { IsEarlier causes.now }
    ensures each { IfOk result (λ clocks. length clocks.items ≡ length causes.now) }
    ensures clocks { IfOk result (λ clocks. AreClocks causes.now (λ v. get_or clocks.items v [])) }
    ensures succession { IfOk result (λ clocks. IsSuccession causes.now (λ v. get_or clocks.items v [])) }
    ensures memory { IfErr result (λ e. e ≡ OutOfMemory) }
{
    let mut out = Vec::new(alloc);
    let mut last = LastPuts::new(alloc);
    push_clocks(alloc, &mut out, &mut last, causes)?;
    Ok(out)
}
