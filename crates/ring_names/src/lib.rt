//! Refusals, names, and numbers of nodes, writers and slots.
//!
//! A function without a `Result` takes no memory.
#![tactic(auto)]

mod choice;
mod decimal;
mod finder;
mod ids;
mod listed;
mod lists;
mod names;
mod noted;
mod numbered;
mod refusal;
mod rows;
mod value;

pub use choice::Choice;
pub use decimal::push_decimal;
pub use ids::{NodeId, Slot, WriterId};
pub use listed::Listed;
pub use lists::Lists;
pub use names::Names;
pub use numbered::Numbered;
pub use refusal::Refusal;
pub use rows::Rows;
pub use value::Value;
