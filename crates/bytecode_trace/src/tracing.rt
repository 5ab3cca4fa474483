// The trace of a program.
ghost use Rattle.std.specs.Prelude.{IfOk};
ghost use Rattle.devices.specs.Device.{HasPutUnless, HasStopped};
ghost use Rattle.sieve_vm.specs.Ending.{IsOutcome};
ghost use Rattle.bytecode_trace.specs.Printed.{trace_text};

use crate::line::take_step;
use bytecode_verifier::Verified;
use devices::{Page, Sink};
use mime_decode::Message;
use refusals::Refusal;
use sieve_vm::{Outcome, Progress};
use std::alloc::Global;

/// Writes the trace of an accepted program on a message, each line when its step was taken, and returns the outcome of
/// the run.
///
/// A line has the instruction at its place, as a listing has it; after a stroke, what the step charged and the sum up
/// to then; and after further strokes, if there are any, the number of the current part after the step, and a value.
/// This is the value that the instruction left on top of the stack; for an instruction that leaves none, the value that
/// it took from there, or gave to a variable. A text is printed between quotes: its first 80 bytes, followed by two
/// dots if there are more. The sum of the last line is what the run charged.
///
/// For example, the first line for the program of `examples/keep.svbc` is `0 KEEP | 1 1`: the instruction at place 0
/// keeps the message, and charges 1 of a sum of 1.
///
/// # Errors
///
/// The beginning of the trace was written then.
///
/// - `Write` if a call of `out` fails.
/// - `Memory` if memory is refused.
pub fn trace<O: Sink>(
    alloc: Global,
    verified: &Verified,
    message: &Message<'_>,
    out: &mut O,
) -> Result<Outcome, Refusal>
    ensures outcome { IfOk result (λ outcome. IsOutcome verified.now message.now
        outcome.actions.items outcome.charged) }
    ensures put { HasPutUnless HasStopped result (trace_text verified.now message.now)
        (O.output out.old) (O.output out.new) }
{
    let mut run = Progress::begin(alloc, verified, message)?;
    let mut line = Vec::new(alloc);
    let mut page = Page::new(out);
    'steps: while run.goes_on() {
        run = take_step(alloc, run, &mut line)?;
        page.write(&line);
        page.flush()?;
    }
    Ok(run.into_outcome()?)
}
