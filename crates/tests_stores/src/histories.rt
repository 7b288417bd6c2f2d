//! Histories are written as they were read, and faulty lines are refused.

use crate::answering::{LOSS, RING, approved};
use history_text::{are_known, push_history, read_history, read_replay};
use plan_check::Approved;
use plan_runs::Entry;
use ring_names::{Names, Refusal};
use ring_table::{Ring, read_ring};
use std::alloc::Global;
use std::process::Abort;
use std::test::Fail;

// Each kind of reply, with the greatest number, and unordered numbers.
const HISTORY: &[u8] = b"\
history 1
put w1 a x31 = put 0
write 0 1 = ticket 0 4294967295 2
get a = get 0
read 0 0 = found
read 0 1 = found 0
endget 0 = reply 3 0 4294967295 0
endget 1 = reply
put w2 b x = put 1
down b = ok
end
";

fn written<RT: AllocGlobal + Abort>(
    rt: &RT,
    approved: &Approved,
    names: &Names,
    history: &[Entry],
) -> Result<Vec<u8>, Refusal> {
    assert!(rt; history.len() <= 1000000);
    assert!(rt; are_known(approved.ring(), names, history));
    let mut text = Vec::new(rt.alloc());
    push_history(&mut text, approved, names, history)?;
    Ok(text)
}

fn is_as_read<RT: Abort>(rt: &RT, len: usize, second: Option<u32>, text: &[u8]) {
    assert_eq!(rt; len, 9);
    assert_eq!(rt; text, HISTORY);
    assert_eq!(rt; second, Some(1));
}

fn history_written<RT: AllocGlobal + Abort>(rt: &RT, approved: &Approved) -> Result<(), Fail> {
    let mut names = Names::new(rt.alloc());
    let history = read_history(rt.alloc(), approved.ring(), &mut names, HISTORY)?;
    let text = written(rt, approved, &names, history.as_slice())?;
    is_as_read(rt, history.len(), names.number_of(b"w2"), text.as_slice());
    Ok(())
}

#[test]
fn histories_written(rt: HostRuntime) -> Result<(), Fail> {
    let approved = approved(rt.alloc(), &LOSS)?;
    history_written(&rt, &approved)
}

fn entries_of(alloc: Global, ring: &Ring, lines: &str) -> Result<usize, Refusal> {
    let mut names = Names::new(alloc);
    let text = format!(in alloc; "history 1\n{lines}end\n")?;
    let history = read_history(alloc, ring, &mut names, text.as_bytes())?;
    Ok(history.len())
}

fn lines_read<RT: AllocGlobal + Abort>(
    rt: &RT,
    ring: &Ring,
    lines: &str,
    said: Result<usize, Refusal>,
) {
    assert_eq!(rt; entries_of(rt.alloc(), ring, lines), said);
}

// The sign is missing, twice, first and last.
fn signs_read<RT: AllocGlobal + Abort>(rt: &RT, ring: &Ring) {
    let bad = Err(Refusal::BadLine(2));
    lines_read(rt, ring, "ack 0 = ok\n", Ok(1));
    lines_read(rt, ring, "ack 0 ok\n", bad);
    lines_read(rt, ring, "ack 0 = = ok\n", bad);
    lines_read(rt, ring, "ack 0 = ok = ok\n", bad);
    lines_read(rt, ring, "= ok\n", bad);
    lines_read(rt, ring, "ack 0 =\n", bad);
    lines_read(rt, ring, "=\n", bad);
    lines_read(rt, ring, "\n", bad);
    lines_read(rt, ring, "ack 0 = ok 1\n", bad);
    lines_read(rt, ring, "ack 0 = ticket 1 2\n", bad);
    lines_read(rt, ring, "ack 0 = found 1 x\n", bad);
}

// Reading returns the first faulty line's least fault.
fn faults_read<RT: AllocGlobal + Abort>(rt: &RT, ring: &Ring) {
    lines_read(
        rt,
        ring,
        "ack 0 = put 4294967296\n",
        Err(Refusal::TooLarge(2)),
    );
    lines_read(
        rt,
        ring,
        "ack 0 = found 0 4294967296\n",
        Err(Refusal::TooLarge(2)),
    );
    lines_read(rt, ring, "down z = ok\n", Err(Refusal::UnknownNode(2)));
    lines_read(
        rt,
        ring,
        "down z = get 4294967296\n",
        Err(Refusal::TooLarge(2)),
    );
    lines_read(rt, ring, "down z = no\n", Err(Refusal::BadLine(2)));
    lines_read(rt, ring, "no = get 4294967296\n", Err(Refusal::BadLine(2)));
    lines_read(rt, ring, "ack 4294967296 = no\n", Err(Refusal::BadLine(2)));
    lines_read(rt, ring, "down z = ok\nno\n", Err(Refusal::UnknownNode(2)));
}

#[test]
fn lines_refused(rt: HostRuntime) -> Result<(), Fail> {
    let ring = read_ring(rt.alloc(), RING)?;
    signs_read(&rt, &ring);
    faults_read(&rt, &ring);
    Ok(())
}

const BUNDLE: &[u8] = b"\
ring 1
space 1
quorum 1 1 1
node a 1 in
slots 0 a
end
plan 1
end
cert 1
end
history 1
put w1 k x31 = put 0
write 0 0 = ticket 0 0 0
end
";

fn replayed(alloc: Global, bytes: &[u8]) -> Result<usize, Refusal> {
    let bundle = read_replay(alloc, bytes)?;
    Ok(bundle.history.len())
}

#[test]
fn replays_read(rt: HostRuntime) -> Result<(), Fail> {
    assert_eq!(rt; replayed(rt.alloc(), BUNDLE), Ok(2));
    Ok(())
}
