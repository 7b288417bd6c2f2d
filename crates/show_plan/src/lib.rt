//! A plan in words: moves, rounds, loads, and a run's progress. Only moves, rounds and owners are proved, by
//! `plan_moves`.
#![tactic(auto)]

mod change;
mod domains;
mod failing;
mod loads;
mod names;
mod overview;
mod pieces;
mod present;
mod ring;
mod rounds;
mod running;
mod scene;
mod shown;
mod silent;
mod span;
mod table;
mod volumes;
mod writing;

pub use change::{fewest_moves, push_change, push_moves};
pub use loads::Loads;
pub use names::{NodeNames, push_many, push_names, push_quorum, short_labels};
pub use overview::{Overview, Sized, SummaryShape, summary};
pub use present::PresentRing;
pub use ring::{RingFacts, ring_summary, stored_by};
pub use scene::Scene;
pub use shown::{AllShown, ShownMove};
pub use volumes::{Left, Volumes};
pub use writing::{push_long, push_short};
