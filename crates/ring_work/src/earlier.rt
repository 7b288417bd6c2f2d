//! What precedes a resumed drive's threads.

ghost use Rattle.std.specs.Prelude.{◌≡◌, ◌==◌, ◌<◌, ◌≤◌, ℕ, true, false, cond, is_some, length, vec_len};
ghost use Rattle.std.specs.Prelude.{slice_index_or, IfOk, IfErr, OnOk};
ghost use Rattle.ring_names.specs.declared.refusal.Refusal.TheVariants.{OutOfMemory};
ghost use Rattle.ring_work.specs.Resumed.{receipt_at, receipts_from, open_behind, is_open, open_copies, Breaks};
ghost use Rattle.ring_work.specs.Resumed.{Continues};

use crate::noting::note;
use crate::site::LockedStore;
use plan_runs::{Entry, Event, Reply};
use ring_board::{Board, Claim, Receipt, Seat};
use ring_exec::{RunLedger, Share};
use ring_names::{Listed, Refusal};
use std::alloc::{AllocError, Global};
use std::sync::Wait;

fn numbers(alloc: Global, given: &Listed<u32>) -> Result<Listed<u32>, AllocError>
    ensures { IfOk result (λ list. list ≡ given.now) }
{
    let numbers = Vec::from_slice(alloc, given.as_slice())?;
    Ok(Listed::from_vec(numbers))
}

fn copy_of(alloc: Global, reply: &Reply) -> Result<Reply, AllocError>
    ensures { IfOk result (λ r. r ≡ reply.now) }
{
    match reply {
        Reply::Plain => Ok(Reply::Plain),
        Reply::Put(put) => Ok(Reply::Put(*put)),
        Reply::Ticket(slot, generation) => Ok(Reply::Ticket(*slot, *generation)),
        Reply::Get(get) => Ok(Reply::Get(*get)),
        Reply::Found(puts) => Ok(Reply::Found(numbers(alloc, puts)?)),
        Reply::Answer(puts) => Ok(Reply::Answer(numbers(alloc, puts)?)),
    }
}

fn receipt_of(alloc: Global, index: u32, entry: &Entry) -> Result<Receipt, AllocError>
    ensures { IfOk result (λ r. r ≡ receipt_at index entry.now) }
{
    let event = entry.event.try_copy()?;
    let reply = copy_of(alloc, &entry.reply)?;
    Ok(Receipt {
        index,
        event,
        reply,
    })
}

fn receipts_of(alloc: Global, entries: &[Entry]) -> Result<Vec<Receipt>, Refusal>
    requires { length entries.now ≤ 1000000 }
    ensures ok { IfOk result (λ v. v.items ≡ receipts_from 0 entries.now) }
    ensures memory { IfErr result (λ e. e ≡ OutOfMemory) }
{
    let mut receipts = Vec::with_capacity(alloc, entries.len())?;
    let mut place = 0u32;
    let mut rest = entries;
    'entries: while let Some((first, later)) = rest.split_first() {
        receipts.push(receipt_of(alloc, place, first)?)?;
        place += 1;
        rest = later;
    }
    Ok(receipts)
}

fn note_copy(flags: &mut Vec<bool>, step: u32, is: bool)
    ensures len { vec_len flags.new ≡ vec_len flags.old }
    ensures flags { (n : ℕ) → n < vec_len flags.old
        → slice_index_or flags.new.items n false ≡ cond (step == n) is (slice_index_or flags.old.items n false) }
{
    let step = step as usize;
    if step < flags.len() {
        flags[step] = is;
    }
}

fn look(flags: &mut Vec<bool>, event: &Event)
    ensures len { vec_len flags.new ≡ vec_len flags.old }
    ensures flags { (n : ℕ) → n < vec_len flags.old
        → slice_index_or flags.new.items n false ≡ open_behind n event.now (slice_index_or flags.old.items n false) }
{
    match event {
        Event::OpenCopy(step) => note_copy(flags, *step, true),
        Event::CloseCopy(step) | Event::AbortCopy(step) => note_copy(flags, *step, false),
        _ => {}
    }
}

fn flags_of(alloc: Global, steps: u32, entries: &[Entry]) -> Result<Vec<bool>, Refusal>
    ensures len { IfOk result (λ v. vec_len v ≡ steps) }
    ensures flags { IfOk result
        (λ v. (n : ℕ) → n < steps → slice_index_or v.items n false ≡ is_open n entries.now false) }
    ensures memory { IfErr result (λ e. e ≡ OutOfMemory) }
{
    let mut flags = vec![in alloc; false; steps as usize]?;
    let mut rest = entries;
    'entries: while let Some((first, later)) = rest.split_first() {
        look(&mut flags, &first.event);
        rest = later;
    }
    Ok(flags)
}

fn copies_of(alloc: Global, steps: u32, entries: &[Entry]) -> Result<Vec<u32>, Refusal>
    ensures ok { IfOk result (λ v. v.items ≡ open_copies steps entries.now) }
    ensures memory { IfErr result (λ e. e ≡ OutOfMemory) }
{
    let flags = flags_of(alloc, steps, entries)?;
    let mut copies = Vec::new(alloc);
    for step in 0..steps {
        if flags[step as usize] {
            copies.push(step)?;
        }
    }
    Ok(copies)
}

fn break_off<L: RunLedger, R: Wait>(
    store: &LockedStore<L, R>,
    share: &mut Share<L>,
    receipts: &mut Vec<Receipt>,
    copies: &[u32],
) -> Result<(), Refusal>
    ensures ok { OnOk result (Breaks copies.now receipts.old.items receipts.new.items) }
    ensures parts { share.new.token.parts ≡ share.old.token.parts }
{
    for copy in copies {
        note(store, share, receipts, Event::AbortCopy(*copy))?;
    }
    Ok(())
}

/// Returns the entries' receipts, then those of aborting open copies.
pub(crate) fn earlier_list<L: RunLedger, R: Wait>(
    store: &LockedStore<L, R>,
    alloc: Global,
    share: &mut Share<L>,
    steps: u32,
    entries: &[Entry],
) -> Result<Listed<Receipt>, Refusal>
    requires few { length entries.now ≤ 1000000 }
    ensures ok { IfOk result (λ list. Continues steps entries.now list) }
    ensures parts { share.new.token.parts ≡ share.old.token.parts }
{
    let mut receipts = receipts_of(alloc, entries)?;
    let copies = copies_of(alloc, steps, entries)?;
    break_off(store, share, &mut receipts, copies.as_slice())?;
    Ok(Listed::from_vec(receipts))
}

fn finished(event: &Event) -> Option<u32> {
    match event {
        Event::Do(step) | Event::CloseCopy(step) => Some(*step),
        _ => None,
    }
}

fn finish(board: &Board, seat: &mut Seat, step: u32)
    requires board { seat.old.board ≡ board.now.id }
    requires worker { is_some seat.old.worker ≡ true }
    requires step { step < board.now.steps }
    ensures board { seat.new.board ≡ board.now.id }
    ensures worker { seat.new.worker ≡ seat.old.worker }
{
    if let Claim::Won = board.claim(seat, step) {
        board.mark_done(seat, step);
    }
}

/// Claims and finishes the steps that the entries finish.
pub(crate) fn finish_all(board: &Board, seat: &mut Seat, entries: &[Entry])
    requires board { seat.old.board ≡ board.now.id }
    requires worker { is_some seat.old.worker ≡ true }
    ensures board { seat.new.board ≡ board.now.id }
    ensures worker { seat.new.worker ≡ seat.old.worker }
{
    for entry in entries {
        if let Some(step) = finished(&entry.event) {
            if step < board.steps() {
                finish(board, seat, step);
            }
        }
    }
}
