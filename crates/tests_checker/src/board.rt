//! The board: claims in turn, and by two threads at once.

ghost use Rattle.std.specs.Prelude.{◌≡◌, true, is_some};

use crate::same::{holds, same};
use ring_board::{Board, Claim, Seat};
use std::test::Fail;
use std::thread;

#[test]
fn a_step_from_hand_to_hand(rt: HostRuntime) -> Result<(), Fail> {
    let (board, mut first) = Board::new(rt.alloc(), 2, 2)?;
    let mut a = board.seat(&mut first, 0)?;
    let mut b = board.seat(&mut first, 1)?;
    let Claim::Won = board.claim(&mut a, 0) else {
        panic!(rt; "step 0 was not free");
    };
    same!(rt; board.claim(&mut b, 0), Claim::Taken(1));
    board.give_back(&mut a, 0);
    let Claim::Won = board.claim(&mut b, 0) else {
        panic!(rt; "step 0 was not given back");
    };
    board.mark_done(&mut b, 0);
    holds!(rt; board.is_done(&mut a, 0));
    holds!(rt; !board.is_done(&mut a, 1));
    same!(rt; board.claim(&mut a, 0), Claim::Taken(129));
    let mut seats = Vec::new(rt.alloc());
    seats.push(a)?;
    seats.push(b)?;
    let words = board.close(seats)?;
    same!(rt; words.as_slice(), [129, 0].as_slice());
    Ok(())
}

fn took(board: &Board, seat: &mut Seat, step: u32) -> bool
    requires board { seat.old.board ≡ board.now.id }
    requires worker { is_some seat.old.worker ≡ true }
    ensures board { seat.new.board ≡ seat.old.board }
    ensures worker { seat.new.worker ≡ seat.old.worker }
{
    if step >= board.steps() {
        return false;
    }
    match board.claim(seat, step) {
        Claim::Won => {
            board.mark_done(seat, step);
            true
        }
        Claim::Taken(_) => false,
    }
}

// Claims every step in turn. Returns how many succeeded, with the seat.
fn took_all(board: &Board, mut seat: Seat) -> (Seat, u32)
    requires board { seat.board ≡ board.now.id }
    requires worker { is_some seat.worker ≡ true }
    ensures { result.0.board ≡ board.now.id }
{
    let mut taken = 0u32;
    for step in 0..board.steps() {
        if took(board, &mut seat, step) {
            taken = taken.saturating_add(1);
        }
    }
    (seat, taken)
}

fn count(words: &[u64], wanted: u64) -> u32 {
    let mut found = 0u32;
    for word in words {
        if *word == wanted {
            found = found.saturating_add(1);
        }
    }
    found
}

#[test]
fn two_threads_take_each_step_once(rt: HostRuntime) -> Result<(), Fail> {
    let (board, mut first) = Board::new(rt.alloc(), 1000, 2)?;
    let a = board.seat(&mut first, 0)?;
    let b = board.seat(&mut first, 1)?;
    let shared = &board;
    let (one, other) = thread::join(
        &rt,
        || -> (Seat, u32)
            requires { (a.board ≡ shared.now.id) × (is_some a.worker ≡ true) }
            ensures { result.0.board ≡ shared.entry.now.id }
        { took_all(shared, a) },
        || -> (Seat, u32)
            requires { (b.board ≡ shared.now.id) × (is_some b.worker ≡ true) }
            ensures { result.0.board ≡ shared.entry.now.id }
        { took_all(shared, b) },
    );
    let mut seats = Vec::new(rt.alloc());
    seats.push(one.0)?;
    seats.push(other.0)?;
    let words = board.close(seats)?;
    same!(rt; words.len(), 1000);
    same!(rt; count(words.as_slice(), 128), one.1);
    same!(rt; count(words.as_slice(), 129), other.1);
    same!(rt; one.1.saturating_add(other.1), 1000);
    Ok(())
}
