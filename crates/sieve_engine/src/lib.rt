//! Programs and scripts on messages, from octets to final actions.
//!
//! Two calls are the headline of this project. [`execute`] runs a program (`specs/Execution`): every program that the
//! verifier accepts, wherever its octets came from, runs on every read message without a trap, charges at most the
//! budget, and ends with an action list, or memory was refused. [`evaluate`] runs a script (`specs/Evaluation`): the
//! list is the script's meaning over the message. The [`laws`] say the same of [`execute`] on the octets that the
//! compiled program was written as.
//!
//! The definitions: *accepts* is `IsAccepted` of bytecode_verifier; *runs*, *traps* and *charges* are `step`, `Run`
//! and `charge` of sieve_vm; the *budget* is `budget_of`, and a report's limit its value at the message; a *read
//! message* is `mail_of` any octets up to the limits; *compiled* is `code_of` of sieve_compiler, and the *meaning*
//! `meaning` of sieve_meaning.
//!
//! In version 2 the budget counts chains of parts, and can't be lowered for programs that only store and file: on a
//! message whose parts are a single chain they charge all of it (`plain_programs_charge_their_budget_on_chains` of
//! sieve_vm).
//!
//! `evaluate` verifies the compiled program again. That costs one pass, and there is only one way to run a program:
//! the budget comes from the verifier.
//!
//! # Promises
//!
//! ## Execution
//!
//! The report's actions and charge are those of the one run, the charge is at most the limit, and the limit is the
//! program's budget at the message.
//!
//! By `execute`, `check_program`.
//!
//! ## Evaluation
//!
//! Evaluation is the meaning: the first refusal of the script, then of the message; otherwise the final actions of the
//! meaning. Bytes that spell a script's code, when executed, also result in the final actions of its meaning.
//!
//! By `evaluate`, `check_script`, `compile_script`, `code_octets`; law `written_code_means_its_script`.
#![tactic(auto)]

mod evaluation;
mod execution;
pub mod laws;

pub use evaluation::{check_script, code_octets, compile_script, evaluate};
pub use execution::{Report, check_program, execute};
pub use refusals::Refusal;
