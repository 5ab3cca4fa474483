//! The store of the depot: entries, programs and last numbers in three tables of one SQLite database.
//!
//! `specs/Entries` defines what the store holds, without digests, and `specs/Standing` how the tables represent it.
//! Each call of [`PartStore`] is one transaction: its step on the state that the tables represent, or a refusal that
//! leaves the state as it was. [`PartStore::transact`] does work of several calls in one transaction. A step
//! that is done is committed, and the store is open. Only a failure of the disk shuts a store, which then does nothing
//! more; its files then hold what the calls promise for a crash. Octets are kept once under their SHA-256, as long as
//! an entry names them.
//!
//! An open that is refused `43 Database` has no cause in a clause: the kit gives none if the system refuses, so a
//! clause that allowed for it would allow for every refusal. A store that a fault of the disk has shut shows nothing,
//! and each later call is refused: the clauses of `sqlite` speak of the tables only while the connection is open. So a
//! command that only reads can be answered, and the store be shut after it. After a writer that was refused and shut
//! the store, the file holds the state before or after.
//!
//! Of the crates within `sqlite`, code names four: `sqlite_value` (values), `sqlite_schema` (the schema),
//! `sqlite_std_file` (the two files at a path) and `sqlite_disk` (the trait `Disk`, in contracts about stores over two
//! files; only tests use its disks `Memory`, `Fuse` and `Crash`).
//!
//! # Promises
//!
//! ## The store
//!
//! ### Calls of the store
//!
//! The store's tables represent a state of programs, entries and last numbers. If the disk returns what was written,
//! `set_program`, `replace_programs`, `put_users`, `add_entries`, `add_sharing_entries` and `remove_entry` are exactly
//! their steps on it, committed once, and `program_of`, `programs`, `users`, `last_of`, `contents`, `entries_of`,
//! `entries_since` and `bytes_of` give exactly what is there. `sharing_entries_of` gives exactly the entries, and for each
//! the place of one that has the same octets.
//!
//! ### Users that are put in
//!
//! `put_users` gives each listed user the listed program, or none, and the listed last number if that is larger than
//! the one before; a last number never falls. Users that one store returned, put into an empty store, give it exactly
//! the programs and last numbers of the first store, and no entries (`users_carry_over`).
//!
//! ### Open stores and transactions
//!
//! A call that succeeds found the store open; a writer leaves it open, with its step committed. No call leaves a
//! transaction open. `transact` does a `Work` in a transaction of its own: what the work leaves is committed if it is done,
//! and rolled back if it is refused. `Within` has the calls of a work: `program_of` and `add_sharing_entries` give and do
//! there what the store's calls of these names do, and commit nothing. The connection is private.
//!
//! ### What the store refuses
//!
//! Only an open store refuses `NumberFull`, `Collision` and `NoSuchEntry`, and only for their cause, and no call with
//! such a cause succeeds. A collision is found by comparing bytes, not digests. A refusal leaves the tables and the
//! last commit as they were. Only a failure of the disk shuts a store, and it stays shut.
//!
//! ### When the database refuses
//!
//! A call is refused `Database` only if the disk failed in it, an earlier failure had shut the store, or the
//! connection has a limit on steps. For a call that adds or replaces rows there are two more causes: a table has no
//! rowid left, or a row, or its key in an index, is more than the database can store; for `add_entries` these count
//! only if the numbers suffice. For `bytes_of` there is one more cause: the bytes were altered. For `programs` and
//! `users` this holds if users' names are UTF-8. `contents` is also refused if there are 2^64 bytes or more.
//!
//! ### Bytes that are read have their digest
//!
//! `bytes_of` returns only bytes whose SHA-256 is the digest that they are stored under, whatever rows the store's three
//! tables have, if the disk returned what was written. If they were altered (they don't have it, or nothing is stored
//! under the digest), it is refused `Database`, and nothing changes. Calls add contents only under their digests, also
//! in what a crash leaves, and the empty store has none (`contents_keep_their_digests`). So if each content of a store has its digest, each has it after any
//! calls, and no read is refused for this. A store is opened with the contents that its files held, and closed into
//! files that hold the same ones (clause `same` of `close_files`).
//!
//! ### What a scrub reports
//!
//! `scrub` counts the contents and their bytes, and those contents whose SHA-256 isn't the digest that they are stored
//! under. It lists exactly the entries that refer to such a content: users in the order of their names, the entries of
//! a user in the order of their numbers. It reports none exactly if each content has its digest
//! (`scrubs_report_all_damage`). It changes nothing. It is refused `Database` for the causes of `users` and `contents`.
//!
//! ### A crash in a call of the store
//!
//! A crash leaves what it could have left before the call, or the state after it. A call that finds the store shut
//! commits nothing; `replace_programs` and `put_users` promise that only if their list isn't empty.
//!
//! ### Taking a connection
//!
//! A connection that has tables is taken as it is. If it has none, the tables of the empty state are made and
//! committed, or the connection is refused. A refused one that is still open is as it was. If a failure shut it in the
//! call, a crash leaves what it could have left before, or these tables; one that was shut before commits nothing. No
//! connection is taken inside of a transaction.
//!
//! By `PartStore`: `set_program`, `replace_programs`, `put_users`, `add_entries`, `add_sharing_entries`, `remove_entry`,
//! `program_of`, `programs`, `users`, `last_of`, `contents`, `entries_of`, `entries_since`, `sharing_entries_of`,
//! `bytes_of`, `scrub`, `adopt`, `in_memory`, `release`, `transact`; by `Within`: `program_of`, `add_sharing_entries`; laws
//! `open_stores_list_their_tables`, `calls_leave_what_was_or_is`, `contents_keep_their_digests`, `scrubs_report_all_damage`, `users_carry_over`.
//!
//! ## Connections that are taken as they are
//!
//! A connection is taken as it is, with nothing read or written, if it is in no transaction and has tables of the
//! names of a store's with as many columns, and otherwise returned. Outside of transactions a connection with the
//! tables of a store is never returned.
//!
//! By `PartStore::adopt_as_is`, `PartStore::look`; law `stores_are_not_told_as_others`.
//!
//! ## The files of a store
//!
//! ### Opening files
//!
//! If a file and its log held a store, the opened store has that state, committed. If they held no tables, or what an
//! open that was cut off left half made, it has the empty state. A connection that has tables and is in no transaction
//! is never refused (`adopt`), and a refused one stays out of a transaction.
//!
//! ### Why a file isn't opened
//!
//! No contract says why opening a store fails with `Database`, because failures of the operating system are not
//! modelled. A file that is looked at is reported as damaged, or as on a disk that failed, only if the database's open
//! said so of files that it had, and as having other tables only if it found others (clause `cause` of `look_from`).
//! Files that hold a store aren't reported as having others (`stores_are_not_told_as_others`).
//!
//! ### Closing files
//!
//! A store that is closed leaves files that hold its state, as they read and as a crash can leave them; so the next
//! open finds it.
//!
//! ### If closing or opening fails
//!
//! A close that fails or that a crash cuts off leaves the same store (clause `survives` of `close_files`). A close of a
//! store that a failure had shut leaves what a crash could have left (`each_image_holds_one_left`). If an open is
//! refused `Database` and the files are still there, they hold what they held, however far it got, provided that they
//! have no checksums; files that `depot` makes have none, but no clause says so. If a crash cuts an open off before
//! the first command, they hold what they held, too (`refused_opens_leave_the_state`).
//!
//! ### What is left of a premise
//!
//! What a crash leaves of a store that isn't closed, or whose close failed, is promised under one premise: its trees
//! are numbered. The proofs of the database's crate show this, but no contract of it says so. Nothing is promised of an
//! open that is refused `Memory`, or that leaves no files.
//!
//! By `PartStore::open_from`, `look_from`, `adopt`, `close_files`; laws `each_image_holds_one_left`,
//! `trees_are_numbered`, `numbered_over_files`, `refused_opens_leave_the_state`, `stores_are_not_told_as_others`.
#![tactic(auto)]

mod adding;
mod all_users;
mod contents;
mod entries;
mod entry;
mod error;
mod filing;
pub mod laws;
mod listing;
mod looking;
mod opening;
mod scrubbing;
mod shared;
mod store;
mod stored_programs;
mod tables;
mod totals;
mod user_row;
mod users;
mod within;

pub use entry::{EntryRow, Kind, NewEntry, SharingRow};
pub use error::StoreError;
pub use looking::Unopened;
pub use scrubbing::{DamagedEntry, Scrubbed};
pub use shared::Shared;
pub use store::{Again, PartStore};
pub use totals::ContentTotal;
pub use user_row::UserRow;
pub use within::{Undone, Within, Work};
