//! The syntax tree of a Sieve script (RFC 5228, section 8.2).
//!
//! [`parse`], or [`parse_tokens`] if the tokens were read already, gives the tree whose spelling by `specs/Grammar` is
//! the script's tokens, or names the token at fault by `specs/Faults`. The proofs use a reading machine,
//! `specs/TokenMachine`: what it reads can be completed to a script, and where it stops nothing can ([`laws`]).
//!
//! `proofs/Unique` spells trees with the rest as an argument, so no `++` is left. Private clauses quantify over the
//! machine's stack and over where the reading began, so that an error clause passes through `?`.
//!
//! # Promises
//!
//! ## Grammar
//!
//! The answer is a tree exactly if the grammar relates that tree to the tokens, within the depth; otherwise the exact
//! token at fault. Tokens, and so a script, have at most one tree. A script has at most one refusal, and one that has
//! a tree has none.
//!
//! By `parse`, `parse_tokens`; laws `what_is_read_begins_a_script`, `what_is_wrong_begins_no_script`,
//! `what_is_open_is_no_script`, `scripts_are_unique`, `parsed_trees_are_unique`, `scripts_are_as_long_as_their_trees`,
//! `refusals_are_unique`, `parsed_scripts_have_no_fault`.
#![tactic(auto)]

mod arguments;
mod command;
mod error;
mod invocation;
pub mod laws;
mod parser;
mod strings;
mod token_at;
mod tree;

pub use error::ParseError;
pub use parser::{parse, parse_tokens};
pub use tree::{Argument, Command, Head, Invocation, Script};

/// The largest number of braces and test names that enclose a token, its own included.
pub const MAX_NESTING: usize = 32;
