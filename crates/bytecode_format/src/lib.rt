//! The bytecode of mail filters: programs as values and as octets, and the actions of a run.
//!
//! A [`Program`] is read from octets exactly if they are the spelling of a program (`specs/Spelling`), and is written
//! as that spelling; octets spell at most one program. [`ActionList`] keeps the actions of a run, and makes them final
//! (`specs/Actions`). [`Modifiers`] change a text before it becomes a variable's value (`specs/Modifiers`).
//! [`FieldTest`] and [`TestCounts`] describe a test in an instruction, each by its number (`specs/Selection`). A
//! [`StringTable`] gathers the strings of a program.
//!
//! The eight operations that ask are one, `Test`, so a definition over operations has one row for them. Their bytes,
//! names and fields, what they ask (`question_in`) and what asking costs at most (`most_of`) have rows of their own.
//! What an operation is in a version is a field of its row (`since_two`), so the same definitions read, verify and run
//! version 1; byte 1A is no operation there.
//!
//! # Promises
//!
//! ## Reading a program
//!
//! A program is read exactly if the bytes spell it; otherwise it is refused `Spelling`. More bytes than the limit are
//! refused `Spelling` even if memory has run out.
//!
//! By `Program::read`; law `one_program_for_octets`.
//!
//! ## Writing a program
//!
//! A program is written as its one spelling, which has its version.
//!
//! By `Program::write`.
//!
//! ## Parts and versions of a program
//!
//! Parts are a program exactly if they are within the limits, in version 1 or 2. A program has its version; in version
//! 2 it is the same program, without memory.
//!
//! By `Program::build`, `version`, `in_version_two`; law `programs_go_on_in_version_two`.
//!
//! ## Operations
//!
//! Each operation has its byte. The calls of a program return its parts: how many variables it has, its numbers,
//! strings and instructions.
//!
//! By `Operation::of`, `octet`; `Program::variables`, `numbers`, `strings`, `instructions`.
//!
//! ## Final actions
//!
//! The final actions are those that the run listed, each once, where it was first; then Keep, if the implicit keep
//! holds and Keep isn't among them. `==` of actions is equality.
//!
//! By `final_actions`, `ActionList`; laws `one_more_action`, `same_actions_are_equal`.
//!
//! ## Modifiers
//!
//! What modifiers make of a text is their definition, cut to a limit. Each set of modifiers has one number, and no
//! other number means it.
//!
//! By `Modifiers`; law `one_number_for_modifiers`.
//!
//! ## Numbers of a test
//!
//! These have one number each: how a test matches, which parts it compares, what it takes from a field, whether a size
//! is over or under a number, and how many parameters and keys it has. The number determines what was put in, and no
//! other number does. A question of a test has one instruction, which determines the question and its number of
//! strings.
//!
//! By `FieldTest`, `TestCounts`, `Scope`, `Selector`, `Order`, `match_number`, `match_of`, `Question::instruction`,
//! `TestOperation::question_in`, `counts_in`; laws `one_number_for_field_tests`, `one_number_for_matches`,
//! `one_number_for_scopes`, `one_number_for_orders`, `one_number_for_counts`, `one_instruction_for_questions`.
//!
//! ## Tables of strings
//!
//! A table of strings gives each string its first place. `add` lists a string that isn't listed, and nothing else;
//! `push` lists any. If memory is refused, the table stays as it was.
//!
//! By `StringTable`.
#![tactic(auto)]

mod action;
mod action_list;
mod building;
mod error;
mod instruction;
pub mod laws;
mod limits;
mod modifiers;
mod operation;
mod program;
mod question;
mod reading;
mod selection;
mod string_table;
mod writing;

pub use action::Action;
pub use action_list::{ActionList, final_actions};
pub use error::FormatError;
pub use instruction::Instruction;
pub use limits::{MAX_LOOPS, MAX_SEGMENTS, MAX_TEST_STRINGS, MAX_VARIABLES};
pub use modifiers::{Case, Modifiers};
pub use operation::{Operation, TestOperation};
pub use program::{Program, VERSION_ONE, VERSION_TWO};
pub use question::{Counts, Most, Order, Question, Sizes, Takes};
pub use selection::{FieldTest, Scope, Selector, TestCounts, match_number, match_of};
pub use string_table::StringTable;
