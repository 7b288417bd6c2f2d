//! Chooses a picture.

use crate::dense::dense_picture;
use crate::full::{Plot, full_picture};
use crate::lanes::Lanes;
use crate::order::in_order;
use crate::sheet::Sheet;
use ring_names::Refusal;

// The most rounds and lanes of a full picture.
const ROUNDS: u32 = 40;

const LANES: u32 = 90;

/// Draws a plan and a run's progress as SVG.
///
/// Equal plans give equal bytes. Fails only with `OutOfMemory`.
///
/// Shows every copy up to 40 rounds and 90 lanes, if each bar has room for its partition's number. Otherwise shows
/// sums, in at most 60 columns and 31 rows.
pub fn picture(sheet: &Sheet) -> Result<Vec<u8>, Refusal> {
    let nodes = in_order(sheet)?;
    if sheet.scene.round_count() > ROUNDS || nodes.len() > LANES as usize {
        return dense_picture(sheet, nodes.as_slice());
    }
    let lanes = counted(sheet, nodes.as_slice())?;
    let mut needed = 0u32;
    for row in 0..nodes.len() {
        needed = needed.saturating_add(lanes.needed(row).max(1));
    }
    if needed > LANES {
        return dense_picture(sheet, nodes.as_slice());
    }
    let plot = Plot::of(sheet, nodes.as_slice(), &lanes)?;
    if !plot.has_room(sheet) {
        return dense_picture(sheet, nodes.as_slice());
    }
    full_picture(sheet, nodes.as_slice(), &plot)
}

fn counted(sheet: &Sheet, nodes: &[u32]) -> Result<Lanes, Refusal> {
    let mut lanes = Lanes::new(sheet, nodes)?;
    for shown in sheet.scene.shown.moves.as_slice() {
        if shown.round > 0 {
            lanes.count(sheet, shown);
        }
    }
    Ok(lanes)
}
