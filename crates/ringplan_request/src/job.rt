//! The jobs with a bundle.

/// A job with a bundle.
#[derive(Clone, Copy, Debug, PartialEq, Eq)]
pub enum Job {
    /// Tells whether the plan is accepted.
    Check,
    /// Prints the texts with the ring in its next format.
    Migrate,
    /// Prints the answers to a script's events.
    Play,
    /// Prints a change's plan and certificate.
    Plan,
    /// Tells whether a history is a run of the plan, and prints the owners after it.
    Replay,
}
