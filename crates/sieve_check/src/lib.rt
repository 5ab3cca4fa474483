//! The static rules of Sieve scripts, and the typed form of scripts that keep them (RFC 5228; RFC 5229; RFC 5703,
//! sections 3 and 4).
//!
//! [`check`] gives a script as [`Checked`], or names the fault by `specs/Rules`. [`reasons_of`] goes the same way and
//! gives all that is refused: which command or test, for what kind of reason, and what in it is at fault. The fault is
//! a function of the first one's kind ([`ReasonKind::fault`]). Each rule is a cause, and the first that applies to a
//! command or test is named. Faults of arguments are found when they are read (`specs/Arguments`).
//!
//! Each command and test has one row in `specs/Rows`: its word, what it needs and takes, how it ends, where it is
//! allowed, how variables are used in its strings, and what can follow it. Each tag has one row in `specs/TagRows`.
//! The head of `specs/Lib` explains the words for what is wrong: cause, reason, fault, refusal.
//!
//! The meaning and the code of a script depend only on its typed form (`specs/Typed`), which `specs/FormOf` reads off
//! the tree. In it a simple test is a question and its strings, and an action an act and its string. Questions differ
//! by their rows in `specs/Questions` here (how each is made of tags, and its name) and in that of bytecode_format
//! (what each takes), acts by their rows in `specs/Acts`. A `break` says how many of the loops around it are left, so
//! only scripts have names of loops. A string is its segments: text as it is and, if `variables` was required,
//! references. `specs/Variables` has the variables of a typed form, and `specs/Bounded` the greatest sizes of it, of
//! its strings and lists, and the greatest depth of its loops.
//!
//! The other public items are for crates that describe a refusal in words: names and limits.
//!
//! A list or a string that a test or an act doesn't take is empty, so it can be expanded like any other; length,
//! limits, variables and size of the code follow from the row, and are proved once. A visit is refused if something is
//! wrong with it by itself, or if it brings a name of a variable after the 128th; each missing capability is reported
//! once. (`loops_opened` is the loop that a command opens around its block, `loops_left` how many loops a `break`
//! leaves.)
//!
//! # Promises
//!
//! ## What is allowed in a script
//!
//! A script is accepted exactly if no command or test has a fault, with its one typed form. Otherwise the first
//! visited one that has a fault is named, with the least number among its faults (`the_fault_is_the_least`: to know
//! what is accepted read `LeastFault`, without the reasons). A fault is answered even if memory has run out.
//!
//! By `check`, `Checked`; laws `faultless_scripts_have_a_form`, `the_fault_is_the_least`.
//!
//! ## Why a script is refused
//!
//! The reasons why commands and tests of a script are refused are the definition's, in order, the first twenty, and
//! one more if there are more: each with its kind, and with what is at fault. Each missing capability is reported
//! once, and so are too many variables. The number of the refusal is a function of the first reason's kind. Arguments
//! have a cause exactly if their signature can't read them.
//!
//! ### What a script lacks
//!
//! Every capability that a command or test needs but the script didn't require is reported, and so is every string in
//! a `require` that isn't a capability. A loop whose arguments can't be read counts as a loop of every name, so no
//! `break` in it is reported for a name.
//!
//! By `reasons_of`, `ReasonKind::fault`; within the crate `Signature::read`.
//!
//! ## Names of tests and actions
//!
//! A test has the name of the script's test that it is made of, and an action that of the script's command.
//!
//! By `name_of`, `comparison_of`, `Act::name`; laws `questions_are_called_as_their_tests`,
//! `acts_are_called_as_their_commands`.
#![tactic(auto)]

mod argument_strings;
mod arguments;
mod causes;
mod checked;
mod checker;
mod error;
mod findings;
mod form_error;
mod forming;
pub mod laws;
mod loops;
mod mentions;
mod names;
mod questions;
mod references;
mod rules;
mod sequence;
mod signature;
mod string_flaws;
mod strings;
mod surroundings;
mod table;
mod tag_table;
mod test_forms;
mod typed;
mod variable_names;

pub use bytecode_format::{MAX_LOOPS, MAX_SEGMENTS, MAX_TEST_STRINGS, MAX_VARIABLES};
pub use causes::{Reason, ReasonKind, Refused};
pub use checked::Checked;
pub use checker::{check, reasons_of};
pub use error::{CheckError, Fault};
pub use findings::{MAX_FOUND, MAX_REASONS};
pub use names::{Capability, Tag};
pub use questions::{comparison_of, name_of};
pub use references::MAX_NAME;
pub use signature::{Ending, Positional, Tests};
pub use table::{
    CommandName, TestName, all_commands, all_tests, command_named, command_word, test_named,
    test_word,
};
pub use tag_table::kind_word;
pub use typed::{Act, Branch, Command, Segment, Strings, Test};
