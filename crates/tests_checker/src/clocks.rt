//! Clocks and versions of three puts: two concurrent ones, and one that has seen both.

ghost use Rattle.std.specs.Prelude.{◌≡◌, ◌≢◌, [], IfOk, length};

use crate::same::{holds, same};
use ring_clock::{Cause, Clock, Entry, clocks};
use ring_names::{Refusal, Value, WriterId};
use ring_versions::{Version, Versions};
use std::alloc::Global;
use std::process::Abort;
use std::test::Fail;

pub fn entry(writer: u32, counter: u64) -> Entry {
    Entry {
        writer: WriterId(writer),
        counter,
    }
}

pub fn raised(clock: &Clock, writer: u32) -> Result<Clock, Refusal> {
    if clock.counter(WriterId(writer)) == u64::MAX {
        return Err(Refusal::TooLarge(0));
    }
    clock.bump(WriterId(writer))
}

fn three_clocks(alloc: Global) -> Result<Vec<Clock>, Refusal>
    ensures { IfOk result (λ c. length c.items ≡ 3) }
{
    let causes = vec![in alloc;
        Cause {
            writer: WriterId(1),
            seen: vec![in alloc; 0; 0]?
        },
        Cause {
            writer: WriterId(2),
            seen: vec![in alloc; 0; 0]?
        },
        Cause {
            writer: WriterId(1),
            seen: vec![in alloc; 0, 1]?
        },
    ]?;
    clocks(alloc, causes.as_slice())
}

fn told<RT: Abort>(rt: &RT, alloc: Global, clocks: &[Clock]) -> Result<(), Fail> {
    assert_eq!(rt; clocks.len(), 3);
    same!(rt; clocks[0].list(alloc)?.as_slice(), [entry(1, 1)].as_slice());
    same!(rt; clocks[1].list(alloc)?.as_slice(), [entry(2, 1)].as_slice());
    same!(rt; clocks[2].list(alloc)?.as_slice(), [entry(1, 2), entry(2, 1)].as_slice());
    holds!(rt; clocks[0].le(&clocks[2]));
    holds!(rt; clocks[1].le(&clocks[2]));
    holds!(rt; !clocks[0].le(&clocks[1]));
    Ok(())
}

#[test]
fn clocks_of_three_puts(rt: HostRuntime) -> Result<(), Fail> {
    let clocks = three_clocks(rt.alloc())?;
    told(&rt, rt.alloc(), clocks.as_slice())
}

#[test]
fn one_clock_more(rt: HostRuntime) -> Result<(), Fail> {
    let clock = Clock::new(rt.alloc()).bump(WriterId(3))?;
    same!(rt; clock.counter(WriterId(3)), 1);
    let both = clock.join(&clock)?;
    same!(rt; both.list(rt.alloc())?.as_slice(), [entry(3, 1)].as_slice());
    Ok(())
}

fn version(alloc: Global, put: u32, clock: &Clock) -> Result<Version, Refusal> {
    let clock = clock.try_copy()?;
    let bytes = Vec::from_slice(alloc, b"1")?;
    match Value::of(alloc, bytes)? {
        Some(value) => Ok(Version { put, clock, value }),
        None => Err(Refusal::TooLarge(0)),
    }
}

pub fn set_of(alloc: Global, put: u32, clock: &Clock) -> Result<Versions, Refusal>
    ensures { IfOk result (λ set. set ≢ []) }
{
    Versions::of(alloc, version(alloc, put, clock)?)
}

pub fn listed(alloc: Global, set: &Versions) -> Result<Vec<Version>, Refusal> {
    let mut out = Vec::new(alloc);
    let mut walk = set.versions();
    'versions: while let Some(version) = walk.next() {
        out.push(version.try_copy()?)?;
    }
    Ok(out)
}

// Two concurrent versions stay. The third version succeeds both for good.
fn merged<RT: Abort>(
    rt: &RT,
    alloc: Global,
    all: &mut Versions,
    second: &Versions,
    third: &Versions,
) -> Result<(), Fail> {
    all.merge(second)?;
    same!(rt; listed(alloc, all)?.len(), 2);
    all.merge(third)?;
    same!(rt; listed(alloc, all)?.len(), 1);
    all.merge(second)?;
    let left = listed(alloc, all)?;
    assert_eq!(rt; left.len(), 1);
    same!(rt; left[0].put, 2);
    same!(rt; left[0].value.as_slice(), b"1".as_slice());
    Ok(())
}

#[test]
fn conflicts_stay_and_ancestors_go(rt: HostRuntime) -> Result<(), Fail> {
    let alloc = rt.alloc();
    let clocks = three_clocks(alloc)?;
    let mut all = set_of(alloc, 0, &clocks[0])?;
    holds!(rt; !all.covers(&clocks[1]));
    let second = set_of(alloc, 1, &clocks[1])?;
    let third = set_of(alloc, 2, &clocks[2])?;
    merged(&rt, alloc, &mut all, &second, &third)
}

#[test]
fn sets_copied(rt: HostRuntime) -> Result<(), Fail> {
    let alloc = rt.alloc();
    let clock = Clock::new(alloc).bump(WriterId(3))?;
    let set = set_of(alloc, 4, &clock)?;
    let copy = set.try_copy()?;
    same!(rt; listed(alloc, &copy)?.len(), 1);
    holds!(rt; copy.covers(&clock));
    holds!(rt; copy.top().is_some());
    Ok(())
}
