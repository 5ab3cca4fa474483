//! The budget of a program: eight sums, and what they allow at a message.
//!
//! The budget is stated in whole numbers (`specs/Sums`): nothing saturates and nothing wraps. Within the limits of a
//! message its value is below 2^128 ([`laws`]), so [`Budget::at`] answers it exactly.
//!
//! This crate has the sums of a budget and their value, and knows no operation; the caps of instructions are in
//! bytecode_verifier.
//!
//! # Promises
//!
//! ## The budget
//!
//! A budget is an exact whole number, by chains of parts in version 2 and by powers of their number in version 1. It
//! is below 2^128 within the limits, and prints its line. In version 2 what is inside k loops counts once for each set
//! of k parts. The numbers of these sets are the known products, such as `n (n - 1) / 2` for two parts, and no larger
//! than the powers; so with the same sums the budget of version 2 is no larger than that of version 1. For a message
//! of more bytes and parts a budget is nowhere less.
//!
//! By `Budget`; laws `budget_fits`, `chains_of_one`, `chains_of_two`, `chains_of_three`, `chains_within_powers`,
//! `chains_never_cost_more`, `turns_are_sets_or_powers`, `budgets_grow_with_the_message`.
#![tactic(auto)]

mod budget;
pub mod laws;

pub use budget::Budget;
