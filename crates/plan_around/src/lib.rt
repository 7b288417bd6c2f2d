//! Plans around nodes that died during a change. The checker accepts them, and the rewritten history follows them.
#![tactic(auto)]

mod ahead;
mod alike;
mod apart;
mod around;
mod chosen;
mod chunks;
mod ending;
mod going;
mod led;
mod marking;
mod over;
mod retelling;
mod returns;
mod storing;

pub use around::{around_bundle, follow};
