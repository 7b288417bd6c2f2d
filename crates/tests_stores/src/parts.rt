//! Histories cut into partitions: the parts are runs exactly if the whole is.

use crate::answering::{STAND_IN, approved};
use history_laws::part;
use history_text::read_history;
use plan_check::Approved;
use plan_runs::Entry;
use ring_core::replay;
use ring_names::{Names, Refusal};
use std::alloc::Global;
use std::process::Abort;
use std::test::Fail;

// Puts in partitions 0 and 2, one hinted and handed off, and gets of both. A put names a get of its key.
const RUN: &str = "\
put w1 a x31 = put 0
put w1 b x32 = put 1
down c = ok
write 1 0 = ticket 2 0 0
write 0 0 = ticket 0 0 0
write 1 1 = ticket 2 1 0
write 0 1 = ticket 0 1 0
hint 0 2 d = ticket 0 2 0
ack 1 = ok
ack 0 = ok
up c = ok
get b = get 0
get a = get 1
read 0 0 = found 1
read 1 2 = found 0
read 0 1 = found 1
read 1 0 = found 0
endget 0 = reply 1
endget 1 = reply 0
handoff d 0 2 = ok
put w2 b x33 seen 0 = put 2
write 2 1 = ticket 2 1 0
";

// One or two more entries. The history is still a run, or not.
const GOES_ON: [&str; 5] = [
    "write 2 2 = ticket 2 2 0\n",
    "get c = get 2\n",
    "put w1 e x = put 3\n",
    "get a = get 2\nread 2 1 = found 0\n",
    "down a = ok\n",
];

const ENDS: [&str; 11] = [
    "ack 7 = ok\n",
    "ack 2 = ok\n",
    "write 2 2 = ticket 0 2 0\n",
    "put w1 c x seen 1 = put 3\n",
    "put w1 c x = put 4\n",
    "get c = get 3\n",
    "get a = get 2\nread 2 1 = found 1\n",
    "get a = get 2\nread 2 1 = found 0 1\n",
    "endget 1 = reply 0\n",
    "handoff d 9 0 = ok\n",
    "handoff d 0 2 = ok\n",
];

fn is_run<RT: AllocGlobal + Abort>(
    rt: &RT,
    approved: &Approved,
    entries: &[Entry],
) -> Result<bool, Fail> {
    assert!(rt; entries.len() <= 1000);
    match replay(rt.alloc(), approved, entries) {
        Ok(_) => Ok(true),
        Err(Refusal::OutOfMemory) => Err(Fail::from(Refusal::OutOfMemory)),
        Err(_) => Ok(false),
    }
}

fn are_runs<RT: AllocGlobal + Abort>(
    rt: &RT,
    approved: &Approved,
    entries: &[Entry],
) -> Result<bool, Fail> {
    assert!(rt; entries.len() <= 1000);
    let mut all = true;
    for partition in 0usize..4 {
        let mut marks = vec![in rt.alloc(); false; 4]?;
        if let Some(mark) = marks.get_mut(partition) {
            *mark = true;
        }
        let cut = part(rt.alloc(), approved.ring(), marks.as_slice(), entries)?;
        all = is_run(rt, approved, cut.as_slice())? && all;
    }
    Ok(all)
}

fn entries_of(
    alloc: Global,
    approved: &Approved,
    first: &str,
    more: &str,
) -> Result<Vec<Entry>, Refusal> {
    let mut names = Names::new(alloc);
    let text = format!(in alloc; "history 1\n{first}{more}end\n")?;
    read_history(alloc, approved.ring(), &mut names, text.as_bytes())
}

fn decided<RT: AllocGlobal + Abort>(
    rt: &RT,
    approved: &Approved,
    more: &str,
    wanted: bool,
) -> Result<(), Fail> {
    let entries = entries_of(rt.alloc(), approved, RUN, more)?;
    let whole = is_run(rt, approved, entries.as_slice())?;
    let parts = are_runs(rt, approved, entries.as_slice())?;
    assert_eq!(rt; (whole, parts), (wanted, wanted));
    Ok(())
}

fn all_decided<RT: AllocGlobal + Abort>(rt: &RT, approved: &Approved) -> Result<(), Fail> {
    decided(rt, approved, "", true)?;
    for more in GOES_ON {
        decided(rt, approved, more, true)?;
    }
    for more in ENDS {
        decided(rt, approved, more, false)?;
    }
    Ok(())
}

#[test]
fn parts_decide(rt: HostRuntime) -> Result<(), Fail> {
    let approved = approved(rt.alloc(), &STAND_IN)?;
    all_decided(&rt, &approved)
}
