//! References to variables and captures in the strings of a script (RFC 5229, section 3).
//!
//! [`first_segment`] cuts a string into its references and the stretches between them, one after the other, without
//! memory. `specs/References` defines references and the segments of a string. The rules ask for them to find faults
//! and names, the typed form to get its pieces; both use this call.
//!
//! # Promises
//!
//! ## References to variables
//!
//! A string is cut into its references and the longest stretches between them, one after another, without memory; they
//! are written with no more bytes than the string has.
//!
//! By `first_segment`, `is_identifier`; laws `segments_are_within_their_text`, `each_segment_is_within_its_text`,
//! `segments_are_well_formed`.
#![tactic(auto)]

mod identifier;
pub mod laws;
mod reading;
mod run;
mod segment;

pub use identifier::is_identifier;
pub use segment::{Segment, first_segment};
