//! Clients' puts and gets. Each event has a test, which returns the first failing guard's refusal, and an act, which
//! leads to the next world.
//!
//! A function without a `Result` takes no memory. A refused act changes nothing that a run can see.
#![tactic(auto)]

mod acks;
mod clocks;
mod gets;
mod keepers;
mod keys;
mod looks;
mod puts;
mod reads;

pub use acks::{ack, ack_refusal};
pub use gets::{end_get, end_get_with_copy, end_refusal, start_get};
pub use puts::{put_refusal, start_put};
pub use reads::{read, read_refusal, read_with_copy};
