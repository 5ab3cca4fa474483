//! What scripts mean.
//!
//! `specs/Meaning` defines it, by recursion on the typed form of a script; it has no stack, place or jump.
//! [`plain_eval`] answers exactly the final actions of the meaning. `specs/Traced` has the meaning event by event. An
//! [`Evaluator`] represents what the script has done (`specs/Evaluation`). It tells each event to a [`Watching`], which
//! is how a trace reports them (`specs/Watched`).
//!
//! STORE leaves the implicit keep: a message whose parts were stored is also kept, unless the script says otherwise. No
//! standard has STORE.
//!
//! # Promises
//!
//! ## The meaning of a script
//!
//! Evaluating a checked script gives exactly the final actions of its meaning.
//!
//! By `plain_eval`.
//!
//! ## Events and the meaning
//!
//! If you leave out tests and turns, what remains of the events of a script are its final actions: the actions listed,
//! and the keep if no action cancels it. So they are those of a delivery by the script's program. For a test that
//! compares values with keys an event has the first value and key that match, or how many values there were. It has a
//! pair exactly if the test is true.
//!
//! By `Evaluator`; laws `events_come_to_the_meaning`, `findings_agree_with_answers`.
#![tactic(auto)]

mod evaluator;
mod expanded_list;
mod expansion;
pub mod laws;
mod questions;
mod subject;
mod tests_hold;
mod variables;
mod watching;

pub use evaluator::{Evaluator, Flow, plain_eval};
pub use subject::Subject;
pub use watching::{Nobody, Told, Watching};
