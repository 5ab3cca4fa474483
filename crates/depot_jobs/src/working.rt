// From work to its status.
//
// `disassemble` returns 0 also for a program that isn't accepted, because its listing is what was asked for. The line
// of the verifier is the last one, a comment.
ghost use Rattle.std.specs.Prelude.{◌⊎◌};
ghost use Rattle.depot_jobs.specs.Jobs.{host_and_outputs};
ghost use Rattle.depot_jobs.specs.Working.{HasNotWorked, HasWorked, IsJobOf, IsRead};

use crate::host::{Host, Input};
use crate::inputs::read_inputs;
use crate::job::{answer, tell};
use crate::work::{File, Job, Work};
use devices::Sink;
use std::alloc::Global;

/// Reads what the work reads, in the order of its words, answers its job with [`crate::answer`], and returns the exit
/// status. If something can't be read, the line of its refusal is written to `err`, nothing after it is opened, and the
/// status is 1.
pub fn carry_out<H: Host, O: Sink, E: Sink>(
    alloc: Global,
    work: Work<'_>,
    host: &mut H,
    out: &mut O,
    err: &mut E,
) -> u8
    ensures { HasWorked work.entry result
        (host_and_outputs (H.state host.old) (O.output out.old) (E.output err.old))
        (host_and_outputs (H.state host.new) (O.output out.new) (E.output err.new))
        ⊎ HasNotWorked work.entry result
        (host_and_outputs (H.state host.old) (O.output out.old) (E.output err.old))
        (host_and_outputs (H.state host.new) (O.output out.new) (E.output err.new)) }
{
    match read_inputs(alloc, work, host) {
        Ok((first, second)) => {
            let job = job_of(work, &first, &second);
            answer(alloc, job, host, out, err)
        }
        Err(refusal) => tell(err, &refusal),
    }
}

// The job of this work, with the bytes that were read.
fn job_of<'a>(work: Work<'a>, first: &'a [u8], second: &'a [u8]) -> Job<'a>
    ensures { IsJobOf work.entry first.entry.now second.entry.now result }
{
    match work {
        Work::OnFile(tool, file) => Job::OnFile(tool, file_read(file, first)),
        Work::OnMessage(runner, file, message) => {
            Job::OnMessage(runner, file_read(file, first), file_read(message, second))
        }
    }
}

// A file, or standard input, with the bytes that were read.
fn file_read<'a>(input: Input<'a>, octets: &'a [u8]) -> File<'a>
    ensures { IsRead input.entry octets.entry.now result }
{
    match input {
        Input::Standard => File { name: "", octets },
        Input::File(name) => File { name, octets },
    }
}
