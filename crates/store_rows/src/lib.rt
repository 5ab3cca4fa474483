//! Tests of the store and of the calls on a depot, over their public calls, and what they share with the tests above.
#![tactic(auto)]

#[cfg(test)]
mod altered_programs;
#[cfg(test)]
mod failing_disks;
pub mod held;
pub mod samples;
#[cfg(test)]
mod store;
#[cfg(test)]
mod together;
