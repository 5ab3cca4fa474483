//! What simple tests ask about a message: `header`, `exists` and `size` (RFC 5228, sections 5.5, 5.7 and 5.9; RFC
//! 5703, section 4), `string` (RFC 5229, section 5), and ours about the current part's content, its size and its
//! digest.
//!
//! [`ask`] answers a question in the [`Progress`] that it is given, and what asking it costs; [`ask_and_find`] also
//! what it found: the first value and key that match, or how many values there were. `specs/` defines what matches
//! first, which captures it leaves, and what is charged; the [`laws`] say how much that is at most on a message that
//! was read. Names, sources and keys are lent by any [`Texts`], and the current part's content by the caller, if the
//! question [`Need`]s it. A field's value is copied only if it is folded, or if its type or a parameter is asked for.
//! From any other value that isn't lent by the message only the captures are copied.
//!
//! One definition for all scopes and selectors says which parts a test compares, and what it selects there
//! (`specs/Selection`), over the types of the bytecode. `specs/Visited` of mime_decode has the parts that a loop
//! visits.
//!
//! A unit of charge can be more work than one byte's: an absent parameter charges nothing for its value, and a digest
//! is charged for its 64 characters. The budget counts that work, so an operator who bounds the budget and the size of
//! a mail bounds the work of a run.
//!
//! # Promises
//!
//! ## Tests on a message
//!
//! ### What a test finds
//!
//! The test `header` results in the first match with its keys of what it selects in the parts in scope: part by part,
//! name by name, field by field, parameter by parameter, each value with the keys in order. It sets the captures of
//! that match, and none if it fails. The test `string` does the same with its sources, and the tests of a part with
//! its content or its digest. `exists` is true exactly if each name is that of a field in scope. `ask` leaves the
//! result in the `Progress` that it is given (clause `asked`). `decide` answers at once whether a test without keys is
//! true, and answers nothing exactly if the test has keys (clauses `keys`, `value`). If the caller asks what a test
//! found that compares values with keys, a pair of a value and a key is found exactly if the test is true, and the
//! captures are those of the first such pair.
//!
//! ### What a test costs and takes
//!
//! Each test answers exactly what it costs, whatever it found, and the laws bound that cost by the message's bytes.
//! The bound is the answer of `TestOperation::most`, from which the verifier's caps are made. If the caller doesn't
//! ask what matched, `ask` allocates nothing (clause `no_memory`) for: a test of fields that takes whole, unfolded
//! values; a test of texts or of a content that sets no captures; a content that is lent; a test that compares no
//! values with keys; a digest. From a value that isn't lent only the captured texts are kept.
//!
//! By `ask`, `ask_and_find`, `decide`, `Need::of`, `Progress::new`, and `TestOperation::most` of bytecode_format; laws
//! `question_cost_is_within_the_message`, `values_cost_is_within_the_message`, `digest_cost_is_fixed`,
//! `values_cost_is_a_product`, `captures_stay_ten`, `a_pair_is_found_where_a_test_holds`,
//! `captures_are_those_after_the_first_pair`.
#![tactic(auto)]

mod asked;
mod bigrams;
mod comparing;
mod cost;
mod existence;
mod finding;
mod header_test;
mod headers;
pub mod laws;
mod outcome;
mod part_tests;
mod progress;
mod questions;
mod reading;
mod string_test;
mod texts;
mod typed;

pub use finding::{Finding, Nobody, Telling};
pub use outcome::{Answer, Captured, Outcome};
pub use progress::Progress;
pub use questions::{Need, Shown, TestTexts, ask, ask_and_find, decide};
pub use texts::Texts;
