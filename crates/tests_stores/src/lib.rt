//! Tests running stores and scripts beyond contracts: calls succeed with enough memory, and texts are as foretold.
#![tactic(auto)]

#[cfg(test)]
mod answering;
#[cfg(test)]
mod histories;
#[cfg(test)]
mod parts;
#[cfg(test)]
mod replays;
#[cfg(test)]
mod scripts;
#[cfg(test)]
mod streams;
#[cfg(test)]
mod worlds;
