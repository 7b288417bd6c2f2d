//! Draws a plan as SVG: which node gives which slot to which, by round.
#![tactic(auto)]

mod bands;
mod bars;
mod cells;
mod columns;
mod dense;
mod drawing;
mod fitting;
mod frame;
mod full;
mod lanes;
mod mapping;
mod order;
mod sheet;
mod slots;
mod state;
mod style;
mod svg;
mod widths;

pub use drawing::picture;
pub use mapping::map_picture;
pub use sheet::Sheet;
