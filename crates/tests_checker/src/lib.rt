//! Tests checker, planner and their parts beyond contracts: calls succeed with enough memory, workers overlap, plans
//! are good, texts and clocks are known.
#![tactic(auto)]

#[cfg(test)]
mod board;
#[cfg(test)]
mod checks;
#[cfg(test)]
mod clocks;
#[cfg(test)]
mod drains;
#[cfg(test)]
mod event_words;
#[cfg(test)]
mod figures;
#[cfg(test)]
mod groups;
#[cfg(test)]
mod names;
#[cfg(test)]
mod planning;
#[cfg(test)]
mod plans;
#[cfg(test)]
mod readers;
#[cfg(test)]
mod ring_texts;
#[cfg(test)]
mod rings;
#[cfg(test)]
mod same;
#[cfg(test)]
mod states;
#[cfg(test)]
mod stores;
#[cfg(test)]
mod versions;
#[cfg(test)]
mod wishes;
#[cfg(test)]
mod workers;
