//! Whether a change may be partly undone.

/// Whether a plan around dead nodes may undo begun mirrors.
#[derive(Clone, Copy, Debug, PartialEq, Eq)]
pub enum Back {
    /// Mirrors stay.
    Never,
    /// Mirrors that no copy can fill any more are undone.
    Allowed,
}
