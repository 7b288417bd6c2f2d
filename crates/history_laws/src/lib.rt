//! What holds of histories: a history is a run exactly if its parts, by partitions, are. A history may match one by
//! another plan: steps are renamed, and entries of restarted copies and undone mirrors are left out.
#![tactic(auto)]

mod choice;
mod cut;
mod laws;
mod marks;
mod names;
mod past;
mod renaming;
mod same;
mod slots;
mod telling;

pub use choice::mark_chosen;
pub use cut::{Cut, part};
pub use laws::{parts_decide, parts_end, parts_follow};
pub use marks::Marks;
pub use past::{SamePast, Told, is_same_past};
pub use renaming::renamed;
pub use same::have_same;
pub use slots::{SlotSet, is_slot};
