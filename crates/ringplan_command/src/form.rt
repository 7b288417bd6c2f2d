//! A drive's output.

/// How a drive's outcome is printed.
#[derive(Clone, Copy, Debug, PartialEq, Eq)]
pub enum Form {
    History,
    /// A line of JSON: history, who finished each step, number of workers.
    Report,
}
