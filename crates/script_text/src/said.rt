//! What an event's line says, still text.

use crate::words::{KeyWord, SeenRow, ValueWord, Word};
use plan_runs::Event;
use ring_names::WriterId;

/// A put's writer: a seen number, or a new name.
#[derive(Drop)]
pub enum SaidWriter<'a> {
    Known(WriterId),
    New(Word<'a>),
}

/// A put that starts.
#[derive(Drop)]
pub struct SaidPut<'a> {
    pub writer: SaidWriter<'a>,
    pub key: KeyWord<'a>,
    pub value: ValueWord<'a>,
    pub seen: SeenRow<'a>,
}

/// An event without memory of its own.
#[derive(Drop)]
pub enum SaidEvent<'a> {
    /// A put starts.
    Put(SaidPut<'a>),
    /// A get starts.
    Get(KeyWord<'a>),
    /// Any other event.
    Plain(Event),
}
