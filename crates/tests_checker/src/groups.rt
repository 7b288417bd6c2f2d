//! Clocks of writers in different groups. Writers of a group share entries.

use crate::clocks::{entry, raised};
use crate::same::{holds, same};
use ring_clock::{Clock, Entry};
use ring_names::{Refusal, WriterId};
use std::alloc::Global;
use std::process::Abort;
use std::test::Fail;

const LAST: u32 = 4_294_967_295;

fn raised_by(clock: &Clock, writers: &[u32]) -> Result<Clock, Refusal> {
    let mut clock = clock.try_copy()?;
    for writer in writers {
        clock = raised(&clock, *writer)?;
    }
    Ok(clock)
}

fn clock_of(alloc: Global, writers: &[u32]) -> Result<Clock, Refusal> {
    raised_by(&Clock::new(alloc), writers)
}

fn told<RT: Abort>(rt: &RT, alloc: Global, clock: &Clock, wanted: &[Entry]) -> Result<(), Fail> {
    same!(rt; clock.list(alloc)?.as_slice(), wanted);
    let mut walk = clock.entries();
    for entry in wanted {
        same!(rt; walk.next(), Some(*entry));
        same!(rt; clock.counter(entry.writer), entry.counter);
    }
    same!(rt; walk.next(), None);
    Ok(())
}

#[test]
fn raised_in_any_order(rt: HostRuntime) -> Result<(), Fail> {
    let alloc = rt.alloc();
    let wanted = [
        entry(0, 1),
        entry(63, 1),
        entry(64, 1),
        entry(65, 1),
        entry(1023, 1),
        entry(LAST, 1),
    ];
    let up = clock_of(alloc, &[0, 63, 64, 65, 1023, LAST])?;
    told(&rt, alloc, &up, wanted.as_slice())?;
    let down = clock_of(alloc, &[LAST, 1023, 65, 64, 63, 0])?;
    told(&rt, alloc, &down, wanted.as_slice())?;
    holds!(rt; up.le(&down));
    holds!(rt; down.le(&up));
    for absent in [1, 62, 66, 127, 128, 1022, 1024, 4_294_967_294] {
        same!(rt; up.counter(WriterId(absent)), 0);
    }
    Ok(())
}

#[test]
fn raised_once_more(rt: HostRuntime) -> Result<(), Fail> {
    let alloc = rt.alloc();
    let writers = [0, 63, 64, 65, 1023, LAST];
    let clock = clock_of(alloc, writers.as_slice())?;
    for writer in writers {
        let more = raised(&clock, writer)?;
        holds!(rt; clock.le(&more));
        holds!(rt; !more.le(&clock));
        for other in writers {
            let counter = if other == writer { 2 } else { 1 };
            same!(rt; more.counter(WriterId(other)), counter);
        }
        same!(rt; clock.counter(WriterId(writer)), 1);
    }
    Ok(())
}

fn joined<RT: Abort>(
    rt: &RT,
    alloc: Global,
    first: &Clock,
    second: &Clock,
    wanted: &[Entry],
) -> Result<(), Fail> {
    let join = first.join(second)?;
    told(rt, alloc, &join, wanted)?;
    told(rt, alloc, &second.join(first)?, wanted)?;
    holds!(rt; first.le(&join));
    holds!(rt; second.le(&join));
    let mut raised = first.try_copy()?;
    raised.raise(second)?;
    told(rt, alloc, &raised, wanted)
}

#[test]
fn joins_of_groups(rt: HostRuntime) -> Result<(), Fail> {
    let alloc = rt.alloc();
    let none = Clock::new(alloc);
    let first = clock_of(alloc, &[0, 64, 1023])?;
    let second = clock_of(alloc, &[63, 65, LAST])?;
    holds!(rt; !first.le(&second));
    holds!(rt; !second.le(&first));
    joined(
        &rt,
        alloc,
        &first,
        &none,
        &[entry(0, 1), entry(64, 1), entry(1023, 1)],
    )?;
    let wanted = [
        entry(0, 1),
        entry(63, 1),
        entry(64, 1),
        entry(65, 1),
        entry(1023, 1),
        entry(LAST, 1),
    ];
    joined(&rt, alloc, &first, &second, wanted.as_slice())
}

#[test]
fn joins_of_one_group_each(rt: HostRuntime) -> Result<(), Fail> {
    let alloc = rt.alloc();
    let none = Clock::new(alloc);
    let one = clock_of(alloc, &[65])?;
    let other = clock_of(alloc, &[1023])?;
    joined(&rt, alloc, &one, &none, &[entry(65, 1)])?;
    joined(&rt, alloc, &one, &other, &[entry(65, 1), entry(1023, 1)])?;
    joined(
        &rt,
        alloc,
        &one,
        &clock_of(alloc, &[64])?,
        &[entry(64, 1), entry(65, 1)],
    )
}

#[test]
fn each_the_greater_in_some_group(rt: HostRuntime) -> Result<(), Fail> {
    let alloc = rt.alloc();
    let both = clock_of(alloc, &[0, 65, 1023])?;
    let first = raised_by(&both, &[0, 1023])?;
    let second = raised_by(&both, &[65, 65, 1022])?;
    let wanted = [entry(0, 2), entry(65, 3), entry(1022, 1), entry(1023, 2)];
    joined(&rt, alloc, &first, &second, wanted.as_slice())?;
    holds!(rt; both.le(&first));
    holds!(rt; both.le(&second));
    holds!(rt; !first.le(&second));
    holds!(rt; !second.le(&first));
    Ok(())
}

#[test]
fn a_thousand_writers(rt: HostRuntime) -> Result<(), Fail> {
    let alloc = rt.alloc();
    let mut clock = Clock::new(alloc);
    for place in 0..1024 {
        clock = raised(&clock, place * 37 % 1024)?;
    }
    let entries = clock.list(alloc)?;
    assert_eq!(rt; entries.len(), 1024);
    for (place, found) in entries.iter().enumerate() {
        same!(rt; *found, entry(place as u32, 1));
    }
    Ok(())
}
