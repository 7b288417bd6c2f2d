//! Changes of a ring's members, and layouts: racks, weights, sizes, aliases and dead nodes. Reads and writes their
//! texts.
#![tactic(auto)]

mod change;
mod draft;
mod fact;
mod field;
mod layout;
mod layout_draft;
mod layout_lines;
mod layout_reading;
mod lines;
mod marks;
mod number;
mod options;
mod reading;
mod wanted;
mod writing;

pub use change::Change;
pub use layout::{Entry, Fact, Layout};
pub use layout_reading::read_layout;
pub use options::{Options, RackRule, Unreadable};
pub use reading::read_change;
pub use wanted::{Wanted, read_wanted};
pub use writing::write_change;
