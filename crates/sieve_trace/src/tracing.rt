// The trace of a script.
//
// A trace is written as it is made: three loops over 4,096 parts have more lines than memory can hold. So it is the
// only answer that can break off because memory is refused after some of it was written.
ghost use Rattle.std.specs.Prelude.{◌≡◌, IfOk};
ghost use Rattle.devices.specs.Device.{HasPutUnless};
ghost use Rattle.sieve_check.specs.Bounded.{AreBoundedCommands};
ghost use Rattle.sieve_check.specs.TypedView.{commands_form};
ghost use Rattle.sieve_meaning.specs.Meaning.{meaning};
ghost use Rattle.sieve_meaning.specs.Traced.{script_events};
ghost use Rattle.sieve_trace.specs.Printed.{sheet, told};
ghost use Rattle.sieve_trace.specs.Private.{labelled, sheet_of};
ghost use Rattle.sieve_trace.specs.Written.{HasStopped, trace_text};

use crate::error::TraceError;
use crate::label::label_of;
use crate::lines::Lines;
use crate::places::Places;
use crate::printer::Printer;
use crate::scene::Scene;
use bytecode_format::Action;
use devices::Sink;
use mime_decode::Message;
use sieve_check::{Checked, Command};
use sieve_meaning::{Evaluator, Subject};
use std::alloc::Global;

/// Writes the trace of a script on a message, each event as it comes, and returns the script's final actions: exactly
/// those that the script means.
///
/// A line begins with the name, as far as it can be printed, and the line and the column of the token at which the test
/// or the command begins ([`token_places`](crate::token_places)). In a loop the part follows, by its number and media
/// type. Then come the word of the test or command, and its result. For a test, the result is `yes` or `no`; for a test
/// that compares values with keys, it also has what was found: the first value and key that match, with the word of the
/// comparison between them, or how many values were compared if none matches. For an action it has the folder after
/// expansion, the value that a variable has then, or how many loops are left. A text is printed between quotes: its
/// first 80 bytes, followed by two dots if there are more.
///
/// # Errors
///
/// The beginning of the trace was written then.
///
/// - [`TraceError::Write`] if a call of `out` fails.
/// - [`TraceError::Memory`] if memory is refused.
pub fn trace<O: Sink>(
    alloc: Global,
    name: &str,
    places: &Places,
    checked: &Checked,
    message: &Message<'_>,
    out: &mut O,
) -> Result<Vec<Action>, TraceError>
    ensures actions { IfOk result (λ actions. actions.items
        ≡ meaning message.now (commands_form checked.now.commands)) }
    ensures put { HasPutUnless HasStopped result
        (trace_text (sheet name.now places.now message.now) (commands_form checked.now.commands))
        (O.output out.old) (O.output out.new) }
{
    let label = label_of(alloc, name)?;
    trace_commands(alloc, &label, places, checked.commands(), message, out)
}

// The same for the script's commands, with the name as lines begin with it.
fn trace_commands<'l, 's, 'm, O: Sink>(
    alloc: Global,
    label: &'l [u8],
    places: &'l Places,
    commands: &[Command],
    message: &'s Message<'m>,
    out: &mut O,
) -> Result<Vec<Action>, TraceError>
    requires { AreBoundedCommands (commands_form commands.now) }
    ensures actions { IfOk result (λ actions. actions.items
        ≡ meaning message.now (commands_form commands.now)) }
    ensures put { HasPutUnless HasStopped result
        (trace_text (labelled label.now places.now message.now) (commands_form commands.now))
        (O.output out.old) (O.output out.new) }
{
    let mut lines = Lines {
        label,
        places,
        line: Vec::new(alloc),
    };
    let mut scene = Scene::of(alloc, message);
    let mut printer = Printer {
        out,
        lines: &mut lines,
        scene: &mut scene,
    };
    print_events(alloc, commands, message, &mut printer)
}

// Evaluates the commands, and prints their events.
fn print_events<O: Sink>(
    alloc: Global,
    commands: &[Command],
    message: &Message<'_>,
    printer: &mut Printer<'_, '_, '_, '_, '_, O>,
) -> Result<Vec<Action>, TraceError>
    requires { AreBoundedCommands (commands_form commands.now) }
    ensures same_reference { printer.new.out.ghost_name ≡ printer.old.out.ghost_name }
    ensures actions { IfOk result (λ actions. actions.items
        ≡ meaning message.now (commands_form commands.now)) }
    ensures put { HasPutUnless HasStopped result
        (told (sheet_of printer.old.lines.now printer.old.scene.now)
        (script_events message.now (commands_form commands.now)))
        (O.output printer.old.out.now) (O.output printer.new.out.now) }
{
    let mut run = Evaluator::new(alloc);
    let _flow = run.commands(alloc, commands, Subject::of(message), printer)?;
    Ok(run.actions.into_final(run.implicit_keep)?)
}
