// The printer of a trace, which watches an evaluation.
ghost use Rattle.std.specs.Prelude.{◌≡◌};
ghost use Rattle.devices.specs.Device.{HasPutUnless};
ghost use Rattle.sieve_meaning.specs.Traced.{event};
ghost use Rattle.sieve_meaning.specs.Watched.{occurrence_of};
ghost use Rattle.sieve_trace.specs.Printed.{event_line};
ghost use Rattle.sieve_trace.specs.Private.{sheet_of};
ghost use Rattle.sieve_trace.specs.Written.{HasStopped};

use crate::error::TraceError;
use crate::lines::{Lines, MAX_KEPT};
use crate::scene::Scene;
use devices::{Sink, put};
use sieve_meaning::{Told, Watching};

/// The printer of a trace: it writes the line of each event that it is told to a sink, in one call if the sink takes it
/// whole.
pub struct Printer<'o, 'a, 'l, 's, 'm, O: Sink> {
    /// The sink.
    pub out: &'o mut O,
    /// The lines.
    pub lines: &'a mut Lines<'l>,
    /// The message, and the part that the last line is about.
    pub scene: &'a mut Scene<'s, 'm>,
}

impl<'o, 'a, 'l, 's, 'm, O: Sink> Watching for Printer<'o, 'a, 'l, 's, 'm, O> {
    ghost use Rattle.sieve_trace.specs.Private.{HasEnded, HasPrinted, sheet_of};
    ghost use Rattle.sieve_trace.specs.PrinterFacts.{ended_by_refusal, ended_in_more};

    type Failure = TraceError;

    ghost most = { 81 };

    ghost has_heard = { λ start events now. HasPrinted start.out.ghost_name now.out.ghost_name
        (sheet_of start.lines.now start.scene.now) (sheet_of now.lines.now now.scene.now) events
        (O.output start.out.now) (O.output now.out.now) };

    ghost has_stopped = { λ start why events now. HasEnded why start.out.ghost_name now.out.ghost_name
        (sheet_of start.lines.now start.scene.now) events (O.output start.out.now) (O.output now.out.now) };

    fn most(&self) -> usize {
        MAX_KEPT
    }

    fn tell(&mut self, at: usize, part: Option<usize>, what: Told<'_>) -> Result<(), TraceError> {
        put_line(self.out, self.lines, self.scene, at, part, what)
    }

    ghost refused = { λ start watcher why events gives heard. ended_by_refusal gives heard };

    ghost goes_on = { λ start watcher why events more stopped. ended_in_more why more stopped };
}

impl<'o, 'a, 'l, 's, 'm, O: Sink> Drop for Printer<'o, 'a, 'l, 's, 'm, O> {
    fn drop(self)
        ensures { self.exit.0.now ≡ self.entry.out.now }
    {
        let Printer {
            out: _,
            lines: _,
            scene: _,
        } = self;
    }
}

// Writes the line of an event.
#[inline(always)]
fn put_line<O: Sink>(
    out: &mut O,
    lines: &mut Lines<'_>,
    scene: &mut Scene<'_, '_>,
    at: usize,
    part: Option<usize>,
    what: Told<'_>,
) -> Result<(), TraceError>
    ensures sheet { sheet_of lines.new scene.new ≡ sheet_of lines.old scene.old }
    ensures put { HasPutUnless HasStopped result
        (event_line (sheet_of lines.old scene.old) (event at part (occurrence_of what.entry)))
        (O.output out.old) (O.output out.new) }
{
    scene.move_to(part)?;
    lines.set(scene, at, what)?;
    Ok(put(out, lines.line.as_slice())?)
}
