//! The verifier: which programs are accepted, and what an accepted program can charge.
//!
//! A program is accepted exactly if it breaks no rule of `specs/Rules`; otherwise [`verify`] answers the first broken
//! rule, at the least place, and returns the program. [`Verified`] is an accepted program with its budget
//! (`specs/Budget`): only `verify` makes one.
//!
//! The verifier goes over the instructions four times. One loop marks the targets of jumps, two find the loops, the
//! last checks all rules. All are linear. A single loop would have to carry the marks of jumps that lead backward, for
//! a refusal that never names them.
//!
//! The caps of HEADER and PARTBODY have a factor of N + 1; what PARTSIZE, PARTDIGEST and TAKE decode is decoded at most
//! once a run for each of them. A cap is the bound that mail_matching proves for the question, and one charge.
//!
//! # Promises
//!
//! ## Acceptance
//!
//! The verifier accepts exactly by the rules, and otherwise answers the first broken rule at its least place.
//!
//! By `verify`; law `accepted_or_refused`.
//!
//! ## A refused program comes back
//!
//! A refusal returns the same program (clause `same`).
//!
//! By `verify`.
//!
//! ## What each instruction adds
//!
//! For each instruction of an accepted program there is an answer to what it adds to the budget: how many loops are
//! open there, and its cap. The budget's sums are made of these.
//!
//! By `Verified::shares`.
//!
//! ## Budgets of accepted programs
//!
//! The budget of an accepted program is below 2^128 at every message. What is accepted in version 1 is accepted in
//! version 2, with the same sums and a budget that is nowhere larger.
//!
//! By laws `budgets_fit_every_message`, `accepted_programs_go_on_in_version_two`,
//! `budgets_do_not_grow_in_version_two`.
//!
//! ## What a filter can file
//!
//! For each accepted program two limits of a delivery are given exactly as they are defined: how many entries it files
//! at most, and how many bytes their contents have together at most, each content once. The first is the number of
//! instructions that list an action, each counted once for each of its turns, and one for the implicit keep. The second
//! is the bytes of the message, and as many again each time that a part can be stored, 32 times at most: whatever the
//! filter, at most 33 times the message. For a message of more bytes and parts neither limit is less. A run lists no
//! more ("What a run lists"), and a delivery files no more ("What a delivery files at most").
//!
//! By `Verified::entries`, `Verified::octets`; laws `limits_grow_with_the_message`,
//! `octets_have_a_bound_for_all_programs`.
#![tactic(auto)]

mod cap;
mod counting;
mod error;
pub mod laws;
mod loop_rules;
mod nest;
mod pass;
mod places;
mod row;
mod rules;
mod shape;
mod share;
mod targets;
mod verified;

pub use cap::Cap;
pub use error::Refusal;
pub use row::{Range, Row, Table, row_of};
pub use share::Share;
pub use verified::{Verified, verify};
