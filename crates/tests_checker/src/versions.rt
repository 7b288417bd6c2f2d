//! Merges hundreds of concurrent versions with large shared clocks: with themselves, newer ones and ancestors. A walk
//! over all pairs tells what must stay.

use crate::clocks::{listed, raised, set_of};
use ring_clock::Clock;
use ring_names::{Refusal, WriterId};
use ring_versions::{Version, Versions};
use std::alloc::{AllocError, Global};
use std::process::Abort;
use std::test::Fail;

const SHARED: u32 = 500;

const MANY: u32 = 600;

// A clock of many writers with odd numbers.
fn shared(alloc: Global) -> Result<Clock, Refusal> {
    let mut clock = Clock::new(alloc);
    for place in 0..SHARED {
        clock = raised(&clock, 2 * place + 1)?;
    }
    Ok(clock)
}

// Concurrent versions by many writers with even numbers, who have seen the same.
fn in_conflict(alloc: Global) -> Result<Versions, Refusal> {
    let seen = shared(alloc)?;
    let mut set = Versions::new(alloc);
    for put in 0..MANY {
        let clock = raised(&seen, 2 * put)?;
        set.merge(&set_of(alloc, put, &clock)?)?;
    }
    Ok(set)
}

// A later clock by the version's writer, or by one who has also seen the first. None for every third version.
fn after(version: &Version, first: &Version) -> Result<Option<Clock>, Refusal> {
    match version.put % 3 {
        0 => Ok(Some(raised(&version.clock, version.clock.own().0)?)),
        1 => {
            let seen = version.clock.join(&first.clock)?;
            Ok(Some(raised(&seen, version.put.wrapping_add(10_000))?))
        }
        _ => Ok(None),
    }
}

fn newer(alloc: Global, set: &Versions) -> Result<Versions, Refusal> {
    let mut more = Versions::new(alloc);
    for version in &listed(alloc, set)? {
        if let Some(first) = set.first()
            && let Some(clock) = after(version, first)?
        {
            more.merge(&set_of(alloc, version.put.wrapping_add(MANY), &clock)?)?;
        }
    }
    Ok(more)
}

fn is_seen(version: &Version, others: &[Version]) -> bool {
    let own = version.clock.own();
    let counter = version.clock.counter(own);
    others.iter().any(|other| other.put != version.put && counter <= other.clock.counter(own))
}

fn push_unseen(
    puts: &mut Vec<u32>,
    versions: &[Version],
    others: &[Version],
) -> Result<(), AllocError> {
    for version in versions {
        if !is_seen(version, versions) && !is_seen(version, others) {
            puts.push(version.put)?;
        }
    }
    Ok(())
}

// The puts of both sets that no other put has seen.
fn unseen(alloc: Global, first: &[Version], second: &[Version]) -> Result<Vec<u32>, AllocError> {
    let mut puts = Vec::new(alloc);
    push_unseen(&mut puts, first, second)?;
    push_unseen(&mut puts, second, first)?;
    puts.sort_unstable();
    puts.dedup();
    Ok(puts)
}

fn merged<RT: Abort>(
    rt: &RT,
    alloc: Global,
    first: &Versions,
    second: &Versions,
) -> Result<(), Fail> {
    let (ours, theirs) = (listed(alloc, first)?, listed(alloc, second)?);
    let puts = unseen(alloc, ours.as_slice(), theirs.as_slice())?;
    let mut set = first.try_copy()?;
    set.merge(second)?;
    assert_eq!(rt; set.puts()?.as_slice(), puts.as_slice());
    assert_eq!(rt; listed(alloc, &set)?.len(), puts.len());
    set.merge(first)?;
    assert_eq!(rt; listed(alloc, &set)?.len(), puts.len());
    Ok(())
}

#[test]
fn many_in_conflict(rt: HostRuntime) -> Result<(), Fail> {
    let alloc = rt.alloc();
    let set = in_conflict(alloc)?;
    assert_eq!(rt; listed(alloc, &set)?.len(), MANY as usize);
    assert!(rt; set.top().is_some());
    merged(&rt, alloc, &set, &set)
}

#[test]
fn many_newer_and_ancestors(rt: HostRuntime) -> Result<(), Fail> {
    let alloc = rt.alloc();
    let set = in_conflict(alloc)?;
    let more = newer(alloc, &set)?;
    merged(&rt, alloc, &set, &more)?;
    merged(&rt, alloc, &more, &set)
}
