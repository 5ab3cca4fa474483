//! A depot in volumes: what it is, its laws, and calls over whatever holds the volumes.
//!
//! Volumes are depots that follow one another and answer as one. Each begins with the programs and last numbers of the
//! one before it. From then on only the newest is changed, except by removals. `specs/Volumes` defines when depots are
//! volumes of one depot, and what they hold together; `specs/OnVolumes` which volume a command is done on;
//! `specs/Beginning` which files count while a volume begins; `specs/Folders` sessions over files. The trait
//! [`Volumes`] opens volumes one by one, and the calls are functions over it; `specs/Holding` and `specs/Applying` say
//! what both promise.
//!
//! What a crash leaves of volumes is not in the contracts of the calls, and neither is what they hold after a failure
//! has shut a depot. The laws have both for sessions over files.
//!
//! # Promises
//!
//! ## Depots in volumes
//!
//! These are laws about the definitions, and calls over a trait. `depot_cli` does tasks with the calls ("Tasks on
//! volumes").
//!
//! The crate of tests `volumes_rows` implements the trait for depots that stay open, over any store; this is proved. Its
//! tests run the calls on one to nine volumes in memory. The program implements the trait over a folder of files. That
//! files keep what the trait promises is tested, not proved.
//!
//! ### What volumes hold together
//!
//! Together, volumes hold all their entries, and the programs and last numbers of the newest. A volume that begins
//! changes nothing of that. If the oldest are removed and others are left, the entries are gone whose numbers had been given
//! up to the last removed one, and nothing else. A user's list is the lists of the volumes, one after the other, and
//! numbers rise through all of them.
//!
//! If a volume was being begun, as when a crash came, its file can be missing, or hold nothing although the volume before
//! it has users. Such a file doesn't count; what counts holds what the volumes held before.
//!
//! ### Commands on volumes
//!
//! A command on volumes is done on one of them: an export and a removal on the first in which the user's last number is
//! at least the entry's, and any other on the newest; a list and a catalog go through all. With its reply it is a step of
//! all volumes as one depot, and they stay volumes of one depot. If that volume has a cause to refuse the command (see "When
//! a command is refused"), all volumes together have it. Whatever is called, and whenever a volume begins, together they
//! hold what the accepted commands make, one after another. The same holds for sessions over the files of volumes, each
//! over the files of one, also if crashes end them.
//!
//! ### Calls on volumes
//!
//! Each call is, with its reply, a step of all volumes as one depot; or it is refused, and what they hold together is as
//! it was. They stay volumes of one depot. That holds whatever volumes there are, as long as no depot is shut by a
//! failure. Besides the refusals that its command can get, a call can be refused `Memory` or `Database`, because the
//! volumes can't be opened, read or begun. `NoSuchEntry` and `NumberFull` have their cause in all volumes together. An
//! export writes what its entry's text is, or a beginning of it. If the next volume begins before a delivery, it counts
//! only with the users of the newest. When it begins is not promised. No call makes a catalog of volumes.
//!
//! ### The volume of a number
//!
//! Only the first volume in which a user's last number is at least a number can have his entry of that number.
//! `place_of` finds the place of that volume, or that there is none among the first so many. Of n volumes it asks at most
//! as many as the logarithm of n to base 2, rounded down, and 1. It is refused only if a question is, with its refusal.
//! `export` and `remove` open at most as many of n volumes as the logarithm of n to base 2, rounded up, and 1. Volumes in
//! which the user's last number isn't above a number have none of his entries above it.
//!
//! By `set_script`, `set_code`, `program_of`, `migrate`, `deliver`, `export`, `remove`, `list`, `list_since`, `place_of`;
//! laws `begun_volumes_change_nothing`, `unfinished_volumes_change_nothing`,
//! `removed_volumes_take_their_entries_alone`, `volumes_are_listed_in_order`, `commands_on_volumes_are_steps`,
//! `commands_on_volumes_are_a_fold`, `sessions_on_volumes_are_steps`, `runs_on_volumes_are_a_fold`,
//! `numbers_lead_to_their_volume`.
#![tactic(auto)]

mod beginning;
mod commands;
mod failing;
mod holding;
pub mod laws;
mod listing;
mod searching;

pub use commands::{
    VOLUME_SIZE, deliver, export, migrate, program_of, remove, set_code, set_script,
};
pub use failing::failure_of;
pub use holding::{Shown, Volumes};
pub use listing::{list, list_since};
pub use searching::place_of;
