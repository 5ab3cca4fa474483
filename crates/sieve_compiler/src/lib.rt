//! The compiler: a checked script as a program.
//!
//! `specs/Coding` defines the code of each command and test, by recursion on the typed form. A loop over parts is its
//! block between two instructions that name each other's places, and a `break` has the number of loops that it leaves.
//! [`compile`] answers exactly the program of that code: no instruction more or less, each number and each string of
//! the script once in its table, in the order of their first use.
//!
//! # Promises
//!
//! ## The code of a script
//!
//! A checked script's program is exactly its code, is accepted, and on every message its run ends with the final
//! actions of the meaning. Compiling is refused only for memory.
//!
//! By `compile`; laws `code_is_accepted`, `code_means_its_script`.
#![tactic(auto)]

mod coder;
mod compiler;
mod exits;
mod instructions;
pub mod laws;
mod lengths;
mod numbering;
mod numbers;
mod tables;

pub use compiler::compile;
