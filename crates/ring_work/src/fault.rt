//! The result of a failed drive.

use plan_runs::Entry;
use ring_names::Refusal;

/// Why a drive failed, and the history up to then.
///
/// The history is empty if no store was made, or if the threads' counts do not add up to its length.
#[derive(Debug, Drop)]
pub struct Fault {
    pub refusal: Refusal,
    pub history: Vec<Entry>,
}
