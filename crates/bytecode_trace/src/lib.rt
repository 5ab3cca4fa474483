//! The steps of a program's run on a message, printed as they are taken: the trace.
//!
//! [`trace`] runs an accepted program and writes a line for each step: the instruction at its place, what it charged
//! and the sum up to there, the current part if a loop is open, and the value that the instruction left, took or gave
//! a variable. `specs/Steps` defines the steps, `specs/Printed` their lines.
//!
//! No step is held in memory, and all lines are made in the memory of one. A line is printed on a
//! [`Page`](devices::Page) and flushed before the next step is taken, so it goes out in one call if the sink takes it
//! whole.
//!
//! # Promises
//!
//! ## The trace of a program
//!
//! A trace of a program is a line for each step of its run, in order: the instruction at its place, the charge of the
//! step, the total up to there, the current part, and a value. The steps lead from the start to the end, as many as
//! the run takes (`steps_lead_from_the_start_to_the_end`). Each takes an instruction of the program and charges what
//! that costs (`steps_charge_what_their_instructions_cost`); together they charge what the run charges
//! (`charges_of_steps_are_that_of_the_run`). If the writer fails or memory is refused, a prefix of this text was
//! written. No clause says at which moment of the run a line is written.
//!
//! By `trace`, and of `Progress` of sieve_vm: `begin`, `goes_on`, `advance`, `instruction`, `place`, `charged`,
//! `part`, `top`, `variable`, `into_outcome`; laws `steps_lead_from_the_start_to_the_end`,
//! `steps_charge_what_their_instructions_cost`, `charges_of_steps_are_that_of_the_run`.
#![tactic(auto)]

pub mod laws;
mod line;
mod telling;
mod tracing;

pub use tracing::trace;
