//! The depot: what users have filed, and their filters.
//!
//! A [`Depot`] carries out the commands of users (`specs/DepotState`): it stores filters, delivers messages by them,
//! lists, exports and removes entries. One command names no user: it gives all filters the latest version of the
//! bytecode. Each call is one step of the definition, or is refused for a cause that the definition names
//! (`specs/Causes`) and changes nothing (`specs/History`, [`laws`]). Several deliveries are committed together, all or
//! none ([`Depot::deliver_all`], `specs/Deliveries`). `specs/Drafts` defines what the actions of a filter file, and
//! `specs/Users` the names of users.
//!
//! For the operator, [`Depot::inspect`] reports what a depot holds, user by user (`specs/Overviews`), and
//! [`Depot::scrub`] which contents are damaged.
//!
//! A filter is checked when it is run: of a user's commands `deliver` alone verifies the stored program, and answers
//! Database if it no longer reads or isn't accepted. The others work on such a depot as on any.
//!
//! # Promises
//!
//! ## Commands on a depot
//!
//! Which refusals a command can get is promised whatever the disk does (`MayRefuse`). Everything else is promised if
//! the disk returns what was written.
//!
//! ### Commands are steps
//!
//! Each call of a depot is a step of one definition, or a refusal for a cause that the definition names, which changes
//! nothing. Whatever calls there are, a depot then holds what the accepted ones make, one after another.
//!
//! ### When a command is refused
//!
//! A command is refused if the name is no user's name, the entry doesn't exist, or the numbers don't suffice. It is
//! refused `Database` only if the store can't work, what is to be put in has no room though its numbers suffice, a
//! stored filter that it needs no longer reads and verifies, or the bytes that are to be exported were altered; a
//! catalog, if the bytes of one of the user's entries were altered or can't be read as the message that the entry is;
//! another command that only reads or removes only for the first of these. For `migrate`, `inspect` and `scrub` that holds if
//! users' names are UTF-8. `inspect` and `scrub` are also refused if there are more bytes than 64 bits can count.
//!
//! ### What a delivery files
//!
//! A stored filter is the code of a script without faults, or an accepted program. A delivery files an entry for each
//! final action of the user's filter, in order, under the user's next numbers, with the bytes of the message or the
//! decoded content of a part. In a depot that commands made of nothing, no media type of an entry has a line break
//! (`media_types_have_no_line_break`).
//!
//! ### What a delivery files at most
//!
//! A delivery appends no more entries, and no more bytes, than its limit says (`deliveries_stay_within_their_limit`;
//! see "What a filter can file").
//!
//! ### What a migration changes
//!
//! A migration gives every stored program version 2, all or none: the same code, which has on every message the same
//! final actions and the same charge, and no others, within a limit that is no larger
//! (`migrated_programs_run_as_before`; `migrations_change_no_actions` also covers users without a program).
//!
//! ### What an export writes
//!
//! An export is the entry's text and nothing else; if the writer fails or memory is refused, a prefix. The SHA-256 of
//! the bytes is the digest that they are stored under, whatever rows the tables have, if the disk returned what was
//! written. If the stored bytes don't have it, or nothing is stored under the digest, the export is refused `Database`,
//! and nothing is written. If each content has its digest, no export is refused for this (see "Bytes that are read have
//! their digest").
//!
//! ### What a catalog says
//!
//! A catalog of a user is exactly the text of its definition: a line for each entry above the number, in the order of
//! the numbers, made of the entries and their bytes alone. Which messages and parts belong together is looked for among
//! all entries of the user. It changes nothing. It is not proved that each content is read once.
//!
//! ### Scrubbing a depot
//!
//! A scrub of an open depot counts the contents and their bytes, and the damaged contents: those whose bytes don't have
//! the SHA-256 that they are stored under. It lists exactly the entries that refer to a damaged content: users in the
//! order of their names, the entries of a user in the order of their numbers. It changes nothing, whatever it finds.
//!
//! ### A crash in a command
//!
//! A crash leaves what it could have left before, or the state after the command. Commands can be done over two files
//! in several runs, whatever disk each run is over. A run ends by itself or in a crash; the crash can also come within
//! the close, or after a failure has shut the depot. The runs leave files that hold what the commands make of what was
//! held, one after another, from files without tables on (`sessions_are_steps`, `runs_are_a_fold`). For a run whose
//! close succeeded the only premise is the disk; for the others see "What is left of a premise".
//!
//! ### Opens that come to nothing
//!
//! Opens between such runs that are refused `Database`, or that a crash cuts off, also while the tables are made,
//! change nothing of that, under the same premise.
//!
//! ### Several deliveries at once
//!
//! Messages for several users are filed in one transaction, in their order: each as a delivery of its own would file
//! it, after those before it, with the same replies; all or none. If one is refused, the answer has its place in the
//! list and its refusal, for a cause in the state that those before it make, and nothing is changed. A crash leaves
//! the state before all of them, or after all. `batch` uses this ("Lines that are done together").
//!
//! ### Open and shut
//!
//! Only an open depot does a command, and only an open one answers `NoSuchEntry`, `NumberFull` or `Collision`. A
//! command that changes something leaves the depot open, with what it holds committed; a crash then leaves exactly
//! that. If the disk fails, the depot can be shut. It then accepts and commits nothing more, and what it held is what
//! the accepted commands before make.
//!
//! By `Depot`: `set_script`, `set_code`, `deliver`, `deliver_all`, `list`, `list_since`, `catalog`, `program_of`,
//! `export`, `remove`, `migrate`, `inspect`, `scrub`; laws `commands_are_a_fold`, `open_stores_leave_what_is_committed`,
//! `sessions_are_steps`, `runs_are_a_fold`, `accepted_commands_have_no_cause`, `migrations_change_no_actions`,
//! `migrated_programs_run_as_before`, `deliveries_stay_within_their_limit`, `media_types_have_no_line_break`.
#![tactic(auto)]

mod cataloguing;
mod checked_program;
mod checking;
mod contents;
mod deliveries;
mod delivery;
mod depot;
mod entries;
mod inspecting;
mod kept_parts;
pub mod laws;
mod naming;
mod overview;
mod refusing;
mod renewing;
mod rows;
mod stored_part;
mod user;

pub use deliveries::{Delivery, RefusedDelivery};
pub use depot::Depot;
pub use overview::{Overview, ProgramState, UserOverview};
pub use refusals::Refusal;
pub use user::{MAX_USER, is_user_name};
