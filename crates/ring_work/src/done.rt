//! A thread's result.

use crate::noting::note;
use crate::site::LockedStore;
use plan_runs::Event;
use ring_board::{Receipt, Seat};
use ring_exec::{RunLedger, Share};
use ring_names::Refusal;
use std::alloc::Global;
use std::sync::Wait;

#[derive(Drop)]
pub(crate) struct Done<L: RunLedger> {
    pub receipts: Vec<Receipt>,
    pub share: Share<L>,
    pub stopped: Option<Refusal>,
    pub complete: bool,
}

#[derive(Drop)]
pub(crate) struct Sat<L: RunLedger> {
    pub done: Done<L>,
    pub worker: u32,
    pub seat: Seat,
}

impl<L: RunLedger> Done<L> {
    pub fn new(alloc: Global, share: Share<L>) -> Done<L> {
        Done {
            receipts: Vec::new(alloc),
            share,
            stopped: None,
            complete: true,
        }
    }

    pub fn note<R: Wait>(
        &mut self,
        store: &LockedStore<L, R>,
        event: Event,
    ) -> Result<(), Refusal> {
        note(store, &mut self.share, &mut self.receipts, event)
    }

    /// Submits events under one lock, up to the first refusal. Keeps their receipts.
    pub fn note_row<R: Wait>(
        &mut self,
        store: &LockedStore<L, R>,
        events: &[Event],
    ) -> Result<(), Refusal> {
        store
            .executor
            .submit_row(store.rt, events, &mut self.share, &mut self.receipts)
    }
}
