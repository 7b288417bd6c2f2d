//! Finds owners: hands slots on along paths of nodes. Only termination is proved.
#![tactic(auto)]

mod copies;
mod grouped;
mod levels;
mod meeting;
mod members;
mod mending;
mod offers;
mod racks;
mod search;
mod seats;
mod volumes;
mod wish;

pub use grouped::Grouped;
pub use members::{Members, Role};
pub use mending::{balance_all, raise_all};
pub use racks::Racks;
pub use search::PathSearch;
pub use seats::Seats;
pub use volumes::NodeVolumes;
pub use wish::WishedChange;
