//! The command line of `depot`: what it does with a depot, and what it prints about one.
//!
//! [`run`] goes from the words to the status (`specs/Running`). `depot_jobs` does what needs no depot. A
//! [`Request`](depot_jobs::Request) to a depot is a [`Task`](depot_jobs::Task) once its file is read
//! (`specs/Requests`). [`perform`] has the depot do a task: it writes exactly the reply, or the line of the refusal
//! (`specs/Tasks`, `specs/Printed`). The caller that opened the depot's file passes a task to [`carry`] as a
//! [`PendingTask`] (`specs/Carrying`), a program that is saved to [`save`] (`specs/Saving`), and a file that is
//! inspected or scrubbed to [`look_opened`] (`specs/Looking`). For a depot in volumes it is [`carry_on_volumes`] and
//! [`save_on_volumes`] (`specs/VolumeTasks`). What comes of a task, and of a program that is saved, is defined once for
//! both, by when the command was done with a reply and when it was refused.
//!
//! Replies and reports are printed on a [`Page`](devices::Page), which the call that has the sink makes and flushes.
//! So the text of up to 65,536 bytes is one write, and a longer one is written in pieces of that size. Only an export
//! writes its text itself.
//!
//! Opening comes before the user's name is looked at, and makes the tables of a new file: a refused name can leave an
//! empty depot if there was no file. A file that is no database stays as it is, but the database leaves an empty log
//! next to it.
//!
//! # Promises
//!
//! ## From the words to the status
//!
//! What a command reads is read in the order of its words, then its job is answered with these bytes. A command on a
//! depot is returned as a pending task, with the bytes that were read; one that looks at a file or takes a batch as the
//! name of its file; one that saves a program as its names, with nothing done.
//!
//! By `run`; `carry_out`, `read_file_of` of depot_jobs.
//!
//! ## A task on a depot
//!
//! A task on a depot is one command of it. Its reply is printed whole with status 0, or breaks off with status 1 while
//! the command stays done, if the writer fails or memory is refused for a piece of an export. Or the one line of its
//! refusal is printed, and the depot is as it was.
//!
//! ### Which refusal a task reports
//!
//! A refusal is one that the command can get, whatever the disk does. If the disk returns what was written, an export
//! is reported as a failed write only if the writer failed, and `Database` is reported only for a cause that the
//! definition names ("When a command is refused").
//!
//! By `perform`.
//!
//! ## Tasks
//!
//! A task is carried once to the depot that was opened for it, with the status and the texts of its command; or the
//! refusal of opening is reported, with status 1. If an inspection or a scrub finds no depot, the
//! status is 1, too: the inspection prints the reason, the scrub reports `Database`, and each reports `Memory` if memory
//! was refused. The words of the process are taken as they are, all of them and in their order.
//!
//! By `carry`, `look_opened`, `NoDepot::of`; `words`, `texts` of depot_jobs.
//!
//! ## Tasks on volumes
//!
//! A task on a depot in volumes is one command of all volumes together as one depot. Its reply is printed whole with
//! status 0, or breaks off with status 1 while the command stays done, if the writer fails or memory is refused for a
//! piece of an export. Or the one line of its refusal is printed, with status 1, and what the volumes hold together is
//! as it was; the next volume can have begun. Such a refusal is one that the command can get, or `Memory` or
//! `Database`, because the volumes can't be opened, read or begun. `NoSuchEntry` and `NumberFull` have their cause in
//! what the volumes hold together. An export is reported as a failed write only if the writer failed. If opening the
//! volumes was refused, that refusal is printed, and nothing else is done.
//!
//! A program that is saved is the user's program in the newest volume. It is made a file as a program of one depot is
//! ("Saving a program").
//!
//! The status and which refusals can come are promised always. That the reply is that of the command, and what becomes
//! of the volumes, is promised as long as no depot is shut by a failure. The contracts say neither why `Database` is
//! reported nor what a crash leaves. A catalog of volumes is refused as `Database`.
//!
//! All this holds for whatever implements the trait `Volumes`. That a folder of files keeps what the trait promises is
//! tested, not proved.
//!
//! By `carry_on_volumes`, `perform_on_volumes`, `reply_on_volumes`, `save_on_volumes`; the calls of volumes.
//!
//! ## Saving a program
//!
//! A user's program is saved as it is stored, as a file that is made whole or not at all, and its length in bytes is
//! printed; if that breaks off, the file stays and the line of `Write` is printed. Otherwise the line of the reason is
//! printed: the depot's refusal, a missing program, a file that could not be made, or the refusal of opening. No file
//! is made under the name of the depot with `-wal`, `-shm` or `-journal` appended, nor by an export of a batch. The
//! depot stays as it is, also in a crash.
//!
//! By `save`; for an export of a batch by `answer_to` of depot_batch.
//!
//! ## Inspecting
//!
//! Inspecting a depot reports exactly the users that have a row, in the order of their names, each with the last
//! number, the number and the bytes of the entries and the state of the filter by reading and verifying it, and the
//! size of the contents; the depot stays as it is. The report is printed whole with status 0, or breaks off with
//! status 1; or the line of `Memory` or `Database` is printed. The reason why a file is no depot is printed in the
//! words of its kind, with status 1.
//!
//! By `look_over`, `tell_no_depot`, `NoDepot`; `Depot::inspect` of depot_actions.
//!
//! ## Scrubbing
//!
//! A scrub reports the number and the size of the contents, how many of them don't have the SHA-256 under which they
//! are stored, and exactly the entries that have one of these: the number, the user and the folder of each, by users in
//! the order of their names. The depot stays as it is. The status is 0 exactly if the report is printed whole and
//! nothing is damaged. With damage, the report is printed and then the line of `Database`; or the report breaks off; or
//! the line of `Memory` or `Database` is printed alone.
//!
//! By `look_over`; `Depot::scrub` of depot_actions.
#![tactic(auto)]

mod carrying;
mod entries;
mod inspection;
mod looks;
mod no_depot;
mod on_volumes;
mod pending_task;
mod running;
mod saving;
mod scrubbing;
mod task;

pub use carrying::{carry, look_opened};
pub use entries::{Detail, kind_name, print_entries};
pub use looks::{Look, Seen, look_over};
pub use no_depot::{NoDepot, tell_no_depot};
pub use on_volumes::{carry_on_volumes, perform_on_volumes, reply_on_volumes, save_on_volumes};
pub use pending_task::PendingTask;
pub use running::{Next, run};
pub use saving::{Saving, save};
pub use task::{Reply, WithReply, perform, reply_to};
