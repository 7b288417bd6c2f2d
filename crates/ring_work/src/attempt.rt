//! A put's or get's result.

use ring_board::Receipt;
use ring_names::Refusal;

/// A put's or get's receipts, and its last refusal: none if acknowledged or ended.
#[derive(Debug, Drop)]
pub struct Attempt {
    pub receipts: Vec<Receipt>,
    pub refusal: Option<Refusal>,
}
