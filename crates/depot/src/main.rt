//! Hands the words and the system to the command line, and its tasks to the depot that they name.
//!
//! # Promises
//!
//! ## The files of a depot
//!
//! ### From the open to the close
//!
//! If the files represented a state, a task that ends with status 0 was accepted, and its reply was written
//! completely. If the close also succeeded and the disk returned no wrong data, the files hold the state after it,
//! even after a crash. A refused task reports its refusal, and if the close succeeded the files hold the state as it
//! was.
//!
//! If opening the files is refused, that refusal is reported and nothing else is written; a batch then reads none of its
//! input, and neither it nor the saving of a program asks the host for a file. These theorems do not say what the files
//! hold then: see "If closing or opening fails".
//!
//! Only then are no files returned. The theorems hold for every `Opener`. It opens the files once, and that it refused
//! is known only from the call that it refused. So no task, batch, saved program or look can open a depot, change it,
//! and then report that it could not be opened. The program passes `OnDisk`; only its two bodies, of one call each, show
//! that it opens the files at the path and does nothing else.
//!
//! ### Why it is refused
//!
//! A refusal is one that the command can get. `NoSuchEntry`, `NumberFull` and `Collision` have their cause in the
//! state; nothing is said of `Memory`. The clauses of `carry`, `save`, `batch` and `look_opened` say exactly why
//! `Database` is reported, in terms of the depot before and after.
//!
//! The theorems from the open to the close say the same, of a depot with this state and without a limit of steps. For a
//! task, a saved program and a look it is the depot that was found in the files, with their tables; for a line of a
//! batch it is some depot at the state of that turn. The files at the end have counted at least as many faults as that
//! depot after the call.
//!
//! Two things stay open. A counted fault can be another than that of this call, for example one of the close. And a
//! limit of the format that was met counts as a fault like any other: after a close that succeeded only the files tell
//! what was counted, so these theorems don't rule out that `43` is reported for a limit that nothing met.
//!
//! ### A batch, from the open to the close
//!
//! The lines of a batch bring that state to the one after them, each line as it was answered: what it asks was
//! accepted by the state that the lines before it left, or it was refused, as in "Why it is refused", and changed
//! nothing. Each delivery of a group was accepted by the state that the one before it left. If the close succeeded the
//! files hold the state after them, also after a crash.
//!
//! ### Looks, from the open to the close
//!
//! A saved program is the one that the user has in that state. A look reports the overview of that state, or what is
//! damaged in it, by the tables that were found in the files, if they held a store. All of them leave the files with
//! the state that they represented, whatever the close does.
//!
//! Each reason not to open a file for a look follows from what the system reported about the file or its log, or from
//! the file's first bytes. No clause says that all of this is asked.
//!
//! ### If the close fails
//!
//! The files hold what was answered. If the answer of a task changed nothing, for example a refusal, they can also
//! hold what its command makes of the state. For a batch they can also hold what one of its turns makes of the state
//! that was answered, whole, at which a failure shut the depot, with the bytes of its files as the host gave them in
//! that turn. A premise is left ("What is left of a premise").
//!
//! By `carry_from`, `serve_from`, `save_from`, `look_from`; `Depot::open_from`, `look_from` of depot_actions.
//!
//! ## A depot in a folder
//!
//! The line of a folder that was made is written whole, or breaks off with status 1. What is reported of each volume is
//! promised as of any file ("Looks, from the open to the close"); which volumes are reported isn't. What is done with the volumes of a
//! folder is promised for any that follow one another ("Tasks on volumes"), and not for files of the system.
//!
//! By `tell_made`; `carry_on_volumes`, `save_on_volumes` of depot_cli.
#![tactic(auto)]

mod batches;
mod closing;
mod folders;
mod looks;
mod opening;
mod place;
mod programs;
mod streams;
mod tasks;
mod telling;
mod volume_looks;

use crate::batches::serve_from;
use crate::folders::{init_folder, is_folder, perform_in_folder, save_from_folder};
use crate::looks::look_from;
use crate::opening::OnDisk;
use crate::place::{Obstacle, look_at, tell_obstacle};
use crate::programs::save_from;
use crate::streams::hold_closed;
use crate::tasks::carry_from;
use crate::volume_looks::inspect_folder;
use depot_cli::{Look, Next, PendingTask, Saving, run};
use depot_jobs::{Host, System, tell, tell_no_words, texts, words};
use devices::{OfRead, OfWrite, Sink};
use refusals::Refusal;
use sqlite::Unknown;
use std::io::{BufReader, BufWriter};
use std::process::ExitCode;
use std::{env, io, process};

/// How many bytes of a batch's lines are read, and how many of its answers are held back, at a time.
const PIECE: usize = 65_536;

fn main(rt: HostRuntime) -> ExitCode {
    let mut out = OfWrite::new(rt.stdout());
    let mut err = OfWrite::new(rt.stderr());
    let status = match hold_closed(&rt) {
        Ok(_held) => start(&rt, &mut out, &mut err),
        Err(_) => tell(&mut err, &Refusal::Read),
    };
    ExitCode::from(status)
}

// Runs the command line on the words of the process, and returns its status.
fn start<O: Sink, E: Sink>(rt: &HostRuntime, out: &mut O, err: &mut E) -> u8 {
    let words = match words_of(rt) {
        Ok(words) => words,
        Err(fault) => return tell_no_words(err, &fault),
    };
    let texts = match texts(rt.alloc(), &words) {
        Ok(texts) => texts,
        Err(_) => return tell(err, &Refusal::Memory),
    };
    let mut host = System::new(rt, process::id(rt.process()));
    match run(rt.alloc(), &texts, &mut host, out, err) {
        Next::Exit(status) => status,
        Next::Init(name) => init_folder(rt, name, out, err),
        Next::Perform(pending) => perform_task(rt, &pending, out, err),
        Next::Inspect(name) => inspect_depot(rt, name, out, err),
        Next::Scrub(name) => scrub_file(rt, name, out, err),
        Next::Save(saving) => save_program(rt, saving, &mut host, out, err),
        Next::Batch(name) => take_batch(rt, name, &mut host, err),
    }
}

// The words of the process.
fn words_of(rt: &HostRuntime) -> io::Result<Vec<String>> {
    Ok(words(rt.alloc(), env::args(rt)?)?)
}

// What opens files of the system, about which nothing is known.
fn on_disk(rt: &HostRuntime) -> OnDisk<'_, Unknown> {
    OnDisk { rt, start: Unknown }
}

// Opens the depot of a task, in a file or a folder, and does the task on it.
fn perform_task<O: Sink, E: Sink>(
    rt: &HostRuntime,
    pending: &PendingTask<'_>,
    out: &mut O,
    err: &mut E,
) -> u8 {
    if is_folder(rt, pending.name) {
        return perform_in_folder(rt, pending, out, err);
    }
    let (status, _left) = carry_from(rt.alloc(), pending, on_disk(rt), out, err);
    status
}

// Opens the depot of a user, in a file or a folder, and saves the user's program from it.
fn save_program<H: Host, O: Sink, E: Sink>(
    rt: &HostRuntime,
    saving: Saving<'_>,
    host: &mut H,
    out: &mut O,
    err: &mut E,
) -> u8 {
    if is_folder(rt, saving.name) {
        return save_from_folder(rt, saving, host, out, err);
    }
    let (status, _left) = save_from(rt.alloc(), saving, on_disk(rt), host, out, err);
    status
}

// Opens the depot of a batch, and does the lines of standard input on it.
fn take_batch<H: Host, E: Sink>(rt: &HostRuntime, name: &str, host: &mut H, err: &mut E) -> u8 {
    let Ok(reader) = BufReader::with_capacity(rt.alloc(), PIECE, rt.reader()) else {
        return tell(err, &Refusal::Memory);
    };
    let Ok(writer) = BufWriter::with_capacity(rt.alloc(), PIECE, rt.stdout()) else {
        return tell(err, &Refusal::Memory);
    };
    let mut input = OfRead::new(reader);
    let mut out = OfWrite::new(writer);
    let (status, _left) = serve_from(
        rt.alloc(),
        name,
        on_disk(rt),
        host,
        &mut input,
        &mut out,
        err,
    );
    status
}

// Reports what a file or a folder is, and returns the status.
fn inspect_depot<O: Sink, E: Sink>(rt: &HostRuntime, name: &str, out: &mut O, err: &mut E) -> u8 {
    if is_folder(rt, name) {
        return inspect_folder(rt, name, out, err);
    }
    inspect_file(rt, name, out, err)
}

// Reports what a file is, and returns the status. What can be seen without opening it is looked at first.
fn inspect_file<O: Sink, E: Sink>(rt: &HostRuntime, name: &str, out: &mut O, err: &mut E) -> u8 {
    match look_at(rt, name) {
        Ok(log) => {
            let look = Look::Inspect(log);
            let (status, _left) = look_from(rt.alloc(), name, look, on_disk(rt), out, err);
            status
        }
        Err(obstacle) => tell_obstacle(out, err, obstacle),
    }
}

// Reports what is damaged in a depot, and returns the status. What can be seen without opening it is looked at first.
fn scrub_file<O: Sink, E: Sink>(rt: &HostRuntime, name: &str, out: &mut O, err: &mut E) -> u8 {
    match look_at(rt, name) {
        Ok(_) => {
            let (status, _left) = look_from(rt.alloc(), name, Look::Scrub, on_disk(rt), out, err);
            status
        }
        Err(Obstacle::NoDepot(_)) => tell(err, &Refusal::Database),
        Err(Obstacle::Memory) => tell(err, &Refusal::Memory),
    }
}
