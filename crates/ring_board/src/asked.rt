//! A script's gets.

use plan_runs::Key;

/// A script's get: number in the history, key, and whether it has ended.
#[derive(Debug, Drop)]
pub struct Asked {
    pub number: u32,
    pub key: Key,
    pub ended: bool,
}
