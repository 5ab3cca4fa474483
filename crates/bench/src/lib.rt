//! The project's jobs for the benchmarks, as functions on numbers and octets that a program in plain Rust calls.
//!
//! Each takes the input and a number of rounds. The answer is the sum of the lengths of all answers or, if the number
//! of rounds is 0, the checksum of one round's answer. [`checksum::REFUSED`] is the answer if a job is refused.
//!
//! # Promises
//!
//! ## What measures
//!
//! No answer of these functions is promised. As everywhere, no number overflows in them and no index is out of range.
//!
//! By every function.
#![tactic(auto)]

mod checksum;
pub mod codecs;
pub mod depot;
pub mod mail;
pub mod matching;
pub mod programs;
pub mod scripts;
