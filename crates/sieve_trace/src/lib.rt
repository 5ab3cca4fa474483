//! What a script does on a message, printed as it goes: the trace.
//!
//! [`trace`] evaluates a script and writes a line for each of its events (`specs/Traced` of sieve_meaning): a test
//! that was asked, an action that was done, a turn of a loop. `specs/Printed` has the line of an event, and
//! `specs/Words` what differs in it from one simple test or action to another. The actions that [`trace`] answers are
//! the script's meaning, so by a law of sieve_meaning (`events_come_to_the_meaning`) they are those of the events. A
//! test of other tests, such as `not`, has a line of its own after theirs, so the last line before a block says why the
//! block was reached.
//!
//! No event is held in memory; each line goes out in one call if the sink takes it whole, and all lines are made in
//! the memory of one. [`token_places`] gives the line and the column of each token, by which the lines begin as those
//! of an explanation of a fault do.
//!
//! # Promises
//!
//! ## The trace of a script
//!
//! A trace is a line for each event of a script's run, in order. The events are a recursion on the script, parallel to
//! that of its meaning: each simple test that is asked, with its truth; each `not`, `allof` and `anyof`, after the
//! tests that it asked; each action, with its text or the value that it set; and each turn of a loop, with its part.
//! What isn't reached has no event. If the writer fails or memory is refused, a prefix of the trace was written. No
//! clause says at which moment of the run a line is written.
//!
//! By `trace`, `token_places`.
#![tactic(auto)]

mod error;
mod label;
mod lines;
mod places;
mod printer;
mod scene;
mod tracing;
mod words;

pub use error::TraceError;
pub use places::{Places, token_places};
pub use tracing::trace;
