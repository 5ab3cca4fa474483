//! Tests of commands over their public calls, and a host with known files, so that the premises of contracts about a
//! host hold.
#![tactic(auto)]

#[cfg(test)]
mod answers;
#[cfg(test)]
mod batches;
#[cfg(test)]
mod by_lines;
#[cfg(test)]
mod calls;
#[cfg(test)]
mod exports;
#[cfg(test)]
mod failing_sinks;
#[cfg(test)]
mod groups;
#[cfg(test)]
mod inspecting;
#[cfg(test)]
mod known;
#[cfg(test)]
mod readings;
#[cfg(test)]
mod runs;
pub mod shelf;
