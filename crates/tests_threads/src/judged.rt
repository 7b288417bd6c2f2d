//! The judge refuses lists that are not a drive's.

use crate::inputs::{JOIN, NO_CHAINS, RING, SILENCE, approved, ring, script};
use plan_check::Approved;
use plan_runs::{Entry, Event, Reply};
use ring_board::{Board, ClosedBoard, Outcome, Receipt, agrees};
use ring_names::{Listed, NodeId, Refusal};
use script_text::Script;
use std::alloc::{AllocError, Global};
use std::slice;

type Given = (u32, Event, Reply);

fn step() -> Option<Given> {
    Some((0, Event::Do(0), Reply::Plain))
}

fn list_of(alloc: Global, given: Option<Given>) -> Result<Listed<Receipt>, AllocError> {
    let mut list = Vec::new(alloc);
    if let Some((index, event, reply)) = given {
        list.push(Receipt {
            index,
            event,
            reply,
        })?;
    }
    Ok(Listed::from_vec(list))
}

fn history(alloc: Global) -> Result<Vec<Entry>, AllocError> {
    let mut history = Vec::new(alloc);
    history.push(Entry {
        event: Event::Do(0),
        reply: Reply::Plain,
    })?;
    Ok(history)
}

fn lists(
    alloc: Global,
    work: Option<Given>,
    client: Option<Given>,
    handoff: Option<Given>,
) -> Result<Vec<Listed<Receipt>>, AllocError> {
    let mut lists = Vec::new(alloc);
    lists.push(list_of(alloc, work)?)?;
    lists.push(list_of(alloc, client)?)?;
    lists.push(list_of(alloc, handoff)?)?;
    Ok(lists)
}

// An empty closed board, which the judge ignores.
fn board(alloc: Global) -> Result<ClosedBoard, Refusal> {
    let (board, seat) = Board::new(alloc, 0, 0)?;
    let mut seats = Vec::new(alloc);
    seats.push(seat)?;
    board.end(seats)
}

fn judged(
    alloc: Global,
    approved: &Approved,
    script: &Script,
    receipts: Vec<Listed<Receipt>>,
    finisher: u32,
) -> Result<bool, Refusal> {
    let history = history(alloc)?;
    let finishers = vec![in alloc; finisher; 1]?;
    let outcome = Outcome {
        history,
        receipts,
        finishers,
        board: board(alloc)?,
    };
    agrees(alloc, approved, slice::from_ref(script), 1, &outcome)
}

fn judge(
    alloc: Global,
    work: Option<Given>,
    client: Option<Given>,
    handoff: Option<Given>,
    finisher: u32,
) -> Result<bool, Refusal> {
    let ring = ring(alloc, RING)?;
    let script = script(alloc, &ring, SILENCE)?;
    let approved = approved(alloc, ring, JOIN, NO_CHAINS)?;
    let receipts = lists(alloc, work, client, handoff)?;
    judged(alloc, &approved, &script, receipts, finisher)
}

#[test]
fn the_worker_did_the_step(rt: HostRuntime) {
    assert_eq!(rt; judge(rt.alloc(), step(), None, None, 0), Ok(true));
}

#[test]
fn another_thread_did_the_step(rt: HostRuntime) {
    assert_eq!(rt; judge(rt.alloc(), None, None, step(), 0), Ok(false));
    assert_eq!(rt; judge(rt.alloc(), None, step(), None, 0), Ok(false));
}

#[test]
fn receipts_that_are_no_drive(rt: HostRuntime) {
    let elsewhere = Some((1, Event::Do(0), Reply::Plain));
    let another = Some((0, Event::Up(NodeId(0)), Reply::Plain));
    let other_reply = Some((0, Event::Do(0), Reply::Put(0)));
    assert_eq!(rt; judge(rt.alloc(), None, None, None, 0), Ok(false));
    assert_eq!(rt; judge(rt.alloc(), step(), None, step(), 0), Ok(false));
    assert_eq!(rt; judge(rt.alloc(), elsewhere, None, None, 0), Ok(false));
    assert_eq!(rt; judge(rt.alloc(), another, None, None, 0), Ok(false));
    assert_eq!(rt; judge(rt.alloc(), other_reply, None, None, 0), Ok(false));
    assert_eq!(rt; judge(rt.alloc(), step(), None, None, 1), Ok(false));
}
