// From the words of a command line to its status.
ghost use Rattle.std.specs.Prelude.{◌≡◌, IfErr, IfOk, map};
ghost use Rattle.depot_jobs.specs.Inputs.{HasNotReadFile, file_of};
ghost use Rattle.depot_jobs.specs.Jobs.{host_and_outputs};
ghost use Rattle.depot_cli.specs.Running.{HasPrepared, HasRun, LeadsTo};

use crate::pending_task::PendingTask;
use crate::saving::Saving;
use depot_jobs::{CommandLine, Host, Request, carry_out, line_of, read_file_of, tell, tell_fault};
use devices::Sink;
use refusals::Refusal;
use std::alloc::Global;

/// What remains to be done after [`run`]. If the command needs no depot, only the exit status is left; otherwise the
/// program opens the depot's file and continues with [`crate::carry`], [`crate::look_opened`], [`crate::save`] or a
/// batch.
#[derive(Drop)]
pub enum Next<'a> {
    /// End with this status: 0 for success, 1 for a refusal or an answer that broke off, 2 for words that aren't a
    /// command, and for help.
    Exit(u8),
    /// Make a folder with this name, and the first volume of a depot in it. Nothing was made.
    Init(&'a str),
    /// Perform a task on a depot. Its file was read; nothing was done with the depot.
    Perform(PendingTask<'a>),
    /// Report what the file with this name is, and what the depot in it holds. Nothing was opened.
    Inspect(&'a str),
    /// Compare the contents of the depot in the file with this name with their SHA-256. Nothing was opened.
    Scrub(&'a str),
    /// Save a user's program as a file. Nothing was opened.
    Save(Saving<'a>),
    /// Do commands on the depot in the file with this name, one after another. None was read.
    Batch(&'a str),
}

/// Carries out what the words say; the first is the program's name. A command on a depot is handed back, so that the
/// caller opens the depot and performs it, and so is a command that makes a folder of volumes, looks at a file, saves a
/// program, or reads commands.
///
/// The files of the command are read in the order of its words, before anything is done with them, each at most one
/// byte past the limit of 67,108,864. If one can't be read, its refusal is written to `err`, and nothing after it is
/// opened. Then the job is answered with these bytes.
pub fn run<'a, H: Host, O: Sink, E: Sink>(
    alloc: Global,
    words: &'a [&'a str],
    host: &mut H,
    out: &mut O,
    err: &mut E,
) -> Next<'a>
    ensures { HasRun (map (λ w. w.now) words.entry.now) result
        (host_and_outputs (H.state host.old) (O.output out.old) (E.output err.old))
        (host_and_outputs (H.state host.new) (O.output out.new) (E.output err.new)) }
{
    match line_of(alloc, words) {
        Ok(line) => lead(alloc, line, host, out, err),
        Err(fault) => Next::Exit(tell_fault(alloc, words, fault, err)),
    }
}

// Carries a command out, or hands it back.
fn lead<'a, H: Host, O: Sink, E: Sink>(
    alloc: Global,
    line: CommandLine<'a>,
    host: &mut H,
    out: &mut O,
    err: &mut E,
) -> Next<'a>
    ensures { LeadsTo line.entry result
        (host_and_outputs (H.state host.old) (O.output out.old) (E.output err.old))
        (host_and_outputs (H.state host.new) (O.output out.new) (E.output err.new)) }
{
    match line {
        CommandLine::Alone(work) => Next::Exit(carry_out(alloc, work, host, out, err)),
        CommandLine::Init { folder } => Next::Init(folder),
        CommandLine::OnDepot { depot, request } => match prepare(alloc, depot, request, host) {
            Ok(pending) => Next::Perform(pending),
            Err(refusal) => Next::Exit(tell(err, &refusal)),
        },
        CommandLine::Program { depot, user, out } => Next::Save(Saving {
            name: depot,
            user,
            out,
        }),
        CommandLine::Inspect { depot } => Next::Inspect(depot),
        CommandLine::Scrub { depot } => Next::Scrub(depot),
        CommandLine::Batch { depot } => Next::Batch(depot),
    }
}

// Reads the file of a request, and makes the task for the depot with this name.
fn prepare<'a, H: Host>(
    alloc: Global,
    name: &'a str,
    request: Request<'a>,
    host: &mut H,
) -> Result<PendingTask<'a>, Refusal>
    ensures prepared { IfOk result (λ pending. HasPrepared name.entry.now request.entry pending
        (H.state host.old) (H.state host.new)) }
    ensures unread { IfErr result (λ e. HasNotReadFile e (file_of request.entry)
        (H.state host.old) (H.state host.new)) }
{
    match read_file_of(alloc, request, host) {
        Ok(octets) => Ok(PendingTask {
            name,
            task: request.with_octets(octets),
        }),
        Err(refusal) => Err(refusal),
    }
}
