//! Explains why a bundle is refused, and how to mend it. No words are proved; the checker says whether a mend works. A
//! `tell_..` function that returns a `bool` says whether it reported a fault.
#![tactic(auto)]

mod amounts;
mod events;
mod faults;
mod fields;
mod foreign;
mod forms;
mod habit;
mod layouts;
mod limits;
mod line;
mod lines;
mod names;
mod near;
mod order;
mod page;
mod quorum;
mod said;
mod spacing;
mod telling;

pub use layouts::tell_layout;
pub use near::Nearest;
pub use page::{Page, Place, Span, cut_line, field, place_of, span_of};
pub use said::{Said, push_printed};
pub use telling::tell_text;
