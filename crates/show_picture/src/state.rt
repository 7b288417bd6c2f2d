//! Progress of moves.

use crate::sheet::Sheet;
use show_plan::ShownMove;

/// The state of a bar's copy.
#[derive(Clone, Copy, Debug, PartialEq, Eq)]
pub enum BarState {
    /// Without a history.
    Planned,
    Copied,
    /// Open, with this many of 16 chunks copied.
    Open(u32),
    /// Still to do.
    Left,
}

/// The state of the move's copy.
pub fn state_of(sheet: &Sheet, shown: &ShownMove) -> BarState {
    let Some(progress) = sheet.progress else {
        return BarState::Planned;
    };
    let Some(copy) = shown.copy else {
        return BarState::Left;
    };
    if progress.is_done(copy) {
        BarState::Copied
    } else if progress.is_open(copy) {
        BarState::Open(progress.chunks(copy))
    } else {
        BarState::Left
    }
}
