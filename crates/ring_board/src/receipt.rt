//! A reply to an event, and its place.

use plan_runs::{Event, Reply};

/// An event's place in the history, from 0, the event and its reply.
#[derive(Debug, Drop)]
pub struct Receipt {
    pub index: u32,
    pub event: Event,
    pub reply: Reply,
}
