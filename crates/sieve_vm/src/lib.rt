//! The machine that runs the bytecode of mail filters.
//!
//! `specs/Machine` defines a step, and `specs/Charge` its cost. [`run`] is the run of a program, and [`Progress`] the
//! same run step by step. The machine decodes what it needs of a part's content at most once for each stay of a loop
//! on the part, and nothing of parts that no instruction asks for. It keeps the decoded content that a loop left last
//! until another has to be decoded, so nested loops don't decode a part each time they come to it.
//!
//! # Promises
//!
//! ## Runs
//!
//! ### A run and its end
//!
//! Accepted programs never trap. The potential is the budget at the start and falls by each charge. A run ends with
//! its actions and its charge, after at most as many steps as its budget; each Store in it names a part of the
//! message. The current parts of open loops are a chain, each below that of the loop around it, as many as loops are
//! open at the place. What a loop has still to visit comes after its part, and the parts below that one are among it.
//!
//! ### What a run lists
//!
//! A run lists at most as many actions as the instructions that list one have turns together, and stores parts at most
//! as often as those that store one have turns (`runs_list_what_is_counted`). Its final actions are at most one more,
//! for the implicit keep (`outcomes_have_few_actions`).
//!
//! ### Runs in version 2
//!
//! What is accepted in version 1 takes the same steps in version 2, from every state, so it has the same run and end
//! (`programs_run_the_same_in_version_two`).
//!
//! ### Programs that charge all of their budget
//!
//! A program of version 2 that only stores, files, keeps and discards, with texts of its own, in loops or not, charges
//! exactly its budget on a message whose parts are a single chain (`plain_programs_charge_their_budget_on_chains`).
//!
//! By `run`; laws `accepted_programs_never_trap`, `potential_falls_by_each_charge`, `runs_stay_within_the_budget`,
//! `turns_are_chains`, `runs_list_what_is_counted`, `outcomes_have_few_actions`, `runs_reach_their_end`,
//! `runs_have_one_end`, `runs_store_parts_of_the_message`, `outcomes_store_parts_of_the_message`,
//! `programs_run_the_same_in_version_two`, `plain_programs_charge_their_budget_on_chains`.
//!
//! ## Contents within a run
//!
//! A run finds the length of a part's content at most once, its digest at most once, and for `take` the first bytes of
//! a content that has to be decoded at most once. No step forgets what is known about parts. A step that looks for
//! what is known changes nothing that is known or held. Looking for a length or digest that is known, or for a content
//! that is held, can't be refused; the copy that `take` makes of known first bytes can be, for memory. A content stays
//! held as long as its loop stays on the part, whatever is found for that loop or an inner one; `partbody` leaves the
//! content held. First bytes are kept only of a content that has to be decoded.
//!
//! The law is about every chain of such steps. No clause of `run` says that a run is one: `run` and `Progress` step by
//! `Machine::advance` alone, whose clause `looked` gives for each step what the law assumes. A content that is decoded
//! and dropped at once can't be seen by any clause.
//!
//! By law `what_is_sought_is_found_once`; within the crate `Machine::advance`, `Machine::ask`, `Machine::set_content`,
//! and of `Loops`: `find`, `shown`, `fetch`, `find_length`, `find_digest`, `beginning`.
#![tactic(auto)]

mod entry;
mod frame;
mod held_captures;
mod joining;
mod known;
mod last_content;
pub mod laws;
mod loops;
mod machine;
mod outcome;
mod progress;
mod shared_text;
mod testing;
mod value;
mod workspace;

pub use outcome::{Outcome, run};
pub use progress::Progress;
pub use value::StackValue;
