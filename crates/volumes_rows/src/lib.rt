//! Volumes whose depots stay open, and tests of the calls on volumes with depots in memory.
#![tactic(auto)]

#[cfg(test)]
mod by_hand;
#[cfg(test)]
mod deliveries;
#[cfg(test)]
mod newest;
#[cfg(test)]
mod numbers;
pub mod open_volumes;
#[cfg(test)]
mod samples;
pub mod spare;
