//! Tests the lock around a store, and drives, beyond contracts: overlapping threads, gates, full, restored and resumed
//! histories, and lists that the judge refuses.
#![tactic(auto)]

#[cfg(test)]
mod attempts;
#[cfg(test)]
mod came;
#[cfg(test)]
mod drives;
#[cfg(test)]
mod executors;
#[cfg(test)]
mod half;
#[cfg(test)]
mod inputs;
#[cfg(test)]
mod judged;
#[cfg(test)]
mod receipts;
#[cfg(test)]
mod restores;
#[cfg(test)]
mod resumes;
#[cfg(test)]
mod same;
#[cfg(test)]
mod turnstile;
#[cfg(test)]
mod waiting;
