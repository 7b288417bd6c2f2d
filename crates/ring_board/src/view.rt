//! The seats' knowledge, for proofs only, and its relation to the words.

use atomic_table::{Join, Play, Split, TableRule};
use std::collections::LinkedList;

/// A board's numbers of steps and workers.
#[derive(Clone, Copy)]
pub struct Size {
    pub steps: u32,
    pub workers: u32,
}

/// A step, and the worker that has it.
pub struct Mark {
    pub step: u32,
    pub worker: u32,
}

/// A step, and the word that a lost claim read.
pub struct Sight {
    pub step: u32,
    pub word: u64,
}

/// A seat's steps: held, finished, known to be done, and read by lost claims. Also its parts of the board.
///
/// Part e is one of 2^e equal parts. All seats together have the board once.
pub struct View {
    pub held: LinkedList<Mark>,
    pub finished: LinkedList<Mark>,
    pub known: LinkedList<u32>,
    pub seen: LinkedList<Sight>,
    pub parts: LinkedList<u32>,
}

pub(crate) struct Rule;

impl TableRule<Option<()>, View, Size> for Rule {
    ghost use Rattle.ring_board.specs.Views.{first_view};
    ghost use Rattle.ring_board.specs.Kept.{Kept};

    ghost holds = { Kept };

    ghost first = { λ _. first_view };
}

pub(crate) struct Claiming;

impl Play<Option<()>, View> for Claiming {
    ghost use Rattle.ring_board.specs.Kept.{claims};

    ghost then = { claims };
}

pub(crate) struct GivingBack;

impl Play<Option<()>, View> for GivingBack {
    ghost use Rattle.ring_board.specs.Kept.{gives_back};

    ghost then = { gives_back };
}

pub(crate) struct Finishing;

impl Play<Option<()>, View> for Finishing {
    ghost use Rattle.ring_board.specs.Kept.{finishes};

    ghost then = { finishes };
}

pub(crate) struct Looking;

impl Play<Option<()>, View> for Looking {
    ghost use Rattle.ring_board.specs.Kept.{looks};

    ghost then = { looks };
}

pub(crate) struct Seating;

impl Split<View> for Seating {
    ghost use Rattle.ring_board.specs.Views.{with_half, half_of};

    ghost left = { with_half };

    ghost right = { half_of };
}

pub(crate) struct Closing;

impl Join<View> for Closing {
    ghost use Rattle.ring_board.specs.Views.{nothing, together};

    ghost both = { together };

    ghost spent = { nothing };
}
