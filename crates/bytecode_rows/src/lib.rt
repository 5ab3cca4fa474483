//! Tests of the bytecode's crates on every small program and on the largest lists and texts that are allowed, and of a
//! script traced to a sink that fails. The crate `tables` has the tests that rows of data can describe, and `cases` those
//! of what a command prints.
#![tactic(auto)]

#[cfg(test)]
mod failing_sink;
#[cfg(test)]
mod large;
#[cfg(test)]
mod listings;
#[cfg(test)]
mod plain_loops;
#[cfg(test)]
mod programs;
#[cfg(test)]
mod small_loops;
