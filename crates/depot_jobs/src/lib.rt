//! What the words of a command line ask for, and the jobs that need no depot: what is read, which job that is, what
//! the job does, and what is printed.
//!
//! [`line_of`] interprets the words (`specs/Words`) by the commands of `depot_words`: as [`Work`] that needs no depot,
//! or a [`Request`] to one, each with the names of its files. A [`Host`] opens and makes files; a contract sees what
//! it was asked for, and what it gave. [`System`] is the host of a real system. [`read_limited`] reads a
//! [`Source`](devices::Source) up to a limit (`specs/LimitedReading`). With its files, once they are read
//! (`specs/Inputs`), work is a [`Job`]. [`answer`] carries out a job, and [`carry_out`] reads and does it
//! (`specs/Working`): it writes exactly the answer, or the line of the refusal (`specs/Jobs`, `specs/Printed`). An answer is printed on one
//! [`Page`](devices::Page), so it goes out in one write if it has at most 65,536 bytes. The lines of a trace go out as
//! they are made, and the lines of its run after them in one piece. Writing takes no memory, except for a trace, and
//! what a failed sink has got is a prefix of the text.
//!
//! A failed write of standard output gives status 1 and the line of Write on standard error; what the job did stays
//! done. `Work` and `Job` are one enum, [`WithoutDepot`], as `Request` and `Task` are [`OnDepot`].
//!
//! # Promises
//!
//! ## Words
//!
//! The words are read by the rules of the command line; others are refused as `clap` defines. NUMBER, OCTETS, PARTS
//! and ENCODING are those that the words write. Where NUMBER can be left out it is 0 then.
//!
//! ### What is printed for wrong words
//!
//! A text for the user is printed on standard error as one that anyone can have written ("What is printed on a page"),
//! or a prefix of it if the writer fails. The text for wrong words isn't promised.
//!
//! By `line_of`, `tell_usage`; law `numbers_and_encodings_are_said`.
//!
//! ## What is read
//!
//! A file or standard input is read to its end, or refused if it has more than the limit, which is found without
//! reading on.
//!
//! By `read_limited`.
//!
//! ## Answers
//!
//! ### What is printed
//!
//! An answer is printed whole with status 0, or the one line of its refusal with status 1; if a writer fails, a
//! prefix, with status 1 and the line of `Write`. A script or program above its limit is reported as that even if
//! memory has run out; only to explain a script takes memory, however long it is.
//!
//! ### The list of parts
//!
//! A message's parts are listed in their order: each with its depth, media type, and the length and digest of its
//! content.
//!
//! ### Traces
//!
//! The answer of a trace of a script is that of `eval`, with the lines of its events before. For bytes that begin with
//! `SVBC`, as those of every program do (`programs_are_taken_for_programs`), it is that of `run`, with the lines of
//! its steps before. It goes out as it is made, so it can also break off because memory is refused, with the line of
//! `Memory`, after some of it was written. No other answer can.
//!
//! ### Explanations and listings
//!
//! For a script that is explained, and for a listing with a fault, the words go to standard output and the line of the
//! refusal to standard error. For a script without faults the answer is `ok`, and its notes. A program is listed
//! whatever the verifier answers, and that follows as a comment. The refusal of a listed program is also at its place.
//!
//! By `answer`; law `programs_are_taken_for_programs`.
//!
//! ## Files that are made
//!
//! The file of a program that was compiled or assembled is made whole or not at all, at the place where the given name
//! leads. A file that is made from a depot is never made under the name of the depot with `-wal`, `-shm` or `-journal`
//! appended, because a database has files of these names. It is tested, not proved, that no file is made under such
//! a name of any database that is there.
//!
//! By `answer`, `Host`, `System`, `make_file`; within the crate `NewFile`.
#![tactic(auto)]

mod arguments;
mod beside;
mod host;
mod inputs;
mod job;
pub mod laws;
mod limit;
mod line;
mod listing;
mod making;
mod new_file;
mod process_words;
mod reading;
mod request;
mod system;
mod tracing;
mod usage;
mod work;
mod working;

pub use beside::is_beside;
pub use host::{Host, Input, MadeFrom};
pub use inputs::read_file_of;
pub use job::{REFUSED, SUCCESS, answer, tell};
pub use line::{CommandLine, line_of};
pub use making::make_file;
pub use process_words::{tell_no_words, texts, words};
pub use reading::read_limited;
pub use request::{Access, Deposit, OnDepot, Request, Task};
pub use system::System;
pub use usage::{tell_fault, tell_usage};
pub use work::{File, Job, Runner, Tool, WithoutDepot, Work};
pub use working::carry_out;
