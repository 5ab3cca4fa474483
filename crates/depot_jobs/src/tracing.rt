// Traces of scripts and of programs.
ghost use Rattle.std.specs.Prelude.{◌≡◌, ◌<◌, true, false, List, IfErr, IfOk, IsErrAnd, length};
ghost use Rattle.octets.specs.Limits.{max_program, max_script};
ghost use Rattle.devices.specs.Device.{HasPut, HasPutUnless, HasStopped};
ghost use Rattle.printing.specs.Printed.{report_text};
ghost use Rattle.refusals.specs.Scripts.{IsScriptRefusal};
ghost use Rattle.refusals.specs.declared.refusal.Refusal.TheVariants.{ScriptTooLong, Spelling};
ghost use Rattle.sieve_engine.specs.Evaluation.{IsEvaluationRefusal};
ghost use Rattle.sieve_engine.specs.Execution.{IsRefusal};
ghost use Rattle.sieve_lexer.specs.Tokens.{AreTokens};
ghost use Rattle.sieve_lexer.specs.declared.token.Token.{Token};
ghost use Rattle.sieve_trace.specs.Places.{places_of};
ghost use Rattle.depot_jobs.specs.Private.{program_text, script_text, traced_text};
ghost use Rattle.depot_jobs.specs.Tracing.{IsTraceRefusal, IsTraced, IsTracedProgram, IsTracedScript, is_program};

use bytecode_verifier::Verified;
use devices::{DeviceFailed, Page, Sink};
use mime_decode::Message;
use printing::print_run;
use refusals::Refusal;
use sieve_check::Checked;
use sieve_engine::{Report, check_program, check_script, evaluate, execute};
use sieve_parser::ParseError;
use sieve_trace::{Places, TraceError, token_places};
use std::alloc::Global;

/// Everything that a trace is made from. [`trace_of`] makes it, and [`put_traced`] writes the trace.
#[derive(Drop)]
pub enum Traced<'a> {
    /// The trace of a script.
    Script(TracedScript<'a>),
    /// The trace of a program.
    Program(TracedProgram<'a>),
}

/// A script without a fault, a message, and the report of the script's run on it.
#[derive(Drop)]
pub struct TracedScript<'a> {
    /// The name of the script's file.
    pub name: &'a str,
    /// The places of the script's tokens in the file.
    pub places: Places,
    /// The script.
    pub checked: Checked,
    /// The message.
    pub message: Message<'a>,
    /// The report of the run of the script's program.
    pub report: Report,
}

/// An accepted program, a message, and the report of the program's run on it.
#[derive(Drop)]
pub struct TracedProgram<'a> {
    /// The program.
    pub verified: Verified,
    /// The message.
    pub message: Message<'a>,
    /// The report of its run.
    pub report: Report,
}

/// Prepares the trace of a script or a program on a message; `name` is the name of its file. Bytes that begin as a
/// program does, with `SVBC`, are taken for a program.
///
/// # Errors
///
/// - The first refusal of the script or of the program, as `sieve_engine::check_script` and `check_program` list them.
/// - If the script or the program is accepted: `MessageTooLarge` or `TooManyParts` if the message is too long or has
///   too many parts.
/// - `Memory` if memory is refused.
pub fn trace_of<'a>(
    alloc: Global,
    name: &'a str,
    octets: &[u8],
    message: &'a [u8],
) -> Result<Traced<'a>, Refusal>
    ensures traced { IfOk result (λ traced. IsTraced name.entry.now octets.now message.entry.now
        (traced_text traced)) }
    ensures refused { IfErr result (λ e. IsTraceRefusal octets.now message.entry.now e) }
    ensures long_script { is_program octets.now ≡ false → max_script < length octets.now
        → IsErrAnd result (λ e. e ≡ ScriptTooLong) }
    ensures long_program { is_program octets.now ≡ true → max_program < length octets.now
        → IsErrAnd result (λ e. e ≡ Spelling) }
{
    if is_program(octets) {
        return Ok(Traced::Program(program_trace(alloc, octets, message)?));
    }
    Ok(Traced::Script(script_trace(alloc, name, octets, message)?))
}

// Whether bytes are taken for a program.
fn is_program(octets: &[u8]) -> bool
    ensures { result ≡ is_program octets.now }
{
    octets.starts_with(b"SVBC")
}

// Everything that the trace of a program is made from.
fn program_trace<'a>(
    alloc: Global,
    octets: &[u8],
    message: &'a [u8],
) -> Result<TracedProgram<'a>, Refusal>
    ensures traced { IfOk result (λ traced. IsTracedProgram octets.now message.entry.now
        (program_text traced)) }
    ensures refused { IfErr result (λ e. IsRefusal octets.now message.entry.now e) }
    ensures large { max_program < length octets.now → IsErrAnd result (λ e. e ≡ Spelling) }
{
    let report = execute(alloc, octets, message)?;
    let verified = check_program(alloc, octets)?;
    let message = Message::read(alloc, message)?;
    Ok(TracedProgram {
        verified,
        message,
        report,
    })
}

// Everything that the trace of a script is made from.
fn script_trace<'a>(
    alloc: Global,
    name: &'a str,
    script: &[u8],
    message: &'a [u8],
) -> Result<TracedScript<'a>, Refusal>
    ensures traced { IfOk result (λ traced. IsTracedScript name.entry.now script.now
        message.entry.now (script_text traced)) }
    ensures refused { IfErr result (λ e. IsEvaluationRefusal script.now message.entry.now e) }
    ensures large { max_script < length script.now → IsErrAnd result (λ e. e ≡ ScriptTooLong) }
{
    let report = evaluate(alloc, script, message)?;
    let checked = check_script(alloc, script)?;
    let places = places_in(alloc, script)?;
    let message = Message::read(alloc, message)?;
    Ok(TracedScript {
        name,
        places,
        checked,
        message,
        report,
    })
}

// The places of a script's tokens.
fn places_in(alloc: Global, script: &[u8]) -> Result<Places, Refusal>
    ensures places { IfOk result (λ places. (tokens : List Token) × AreTokens script.now tokens
        × (places ≡ places_of script.now tokens)) }
    ensures refused { IfErr result (λ e. IsScriptRefusal script.now e) }
{
    match token_places(alloc, script) {
        Ok(places) => Ok(places),
        Err(error) => Err(Refusal::from(ParseError::from(error))),
    }
}

/// Writes a trace, each line as it is made, and then the report.
///
/// # Errors
///
/// The beginning of the text was written then.
///
/// - `Write` if a call of `out` fails.
/// - `Memory` if memory is refused.
pub fn put_traced<O: Sink>(alloc: Global, out: &mut O, traced: &Traced<'_>) -> Result<(), Refusal>
    ensures { HasPutUnless HasStopped result (traced_text traced.now) (O.output out.old)
        (O.output out.new) }
{
    match traced {
        Traced::Script(script) => put_script(alloc, out, script),
        Traced::Program(program) => put_program(alloc, out, program),
    }
}

// Writes the trace of a script, and then the report.
fn put_script<O: Sink>(alloc: Global, out: &mut O, traced: &TracedScript<'_>) -> Result<(), Refusal>
    ensures { HasPutUnless HasStopped result (script_text traced.now) (O.output out.old)
        (O.output out.new) }
{
    match sieve_trace::trace(
        alloc,
        traced.name,
        &traced.places,
        &traced.checked,
        &traced.message,
        out,
    ) {
        Ok(_actions) => {}
        Err(TraceError::Memory) => return Err(Refusal::Memory),
        Err(TraceError::Write) => return Err(Refusal::Write),
    }
    match put_report(out, &traced.report) {
        Ok(()) => Ok(()),
        Err(DeviceFailed) => Err(Refusal::Write),
    }
}

// Writes the trace of a program, and then the report.
fn put_program<O: Sink>(
    alloc: Global,
    out: &mut O,
    traced: &TracedProgram<'_>,
) -> Result<(), Refusal>
    ensures { HasPutUnless HasStopped result (program_text traced.now) (O.output out.old)
        (O.output out.new) }
{
    bytecode_trace::trace(alloc, &traced.verified, &traced.message, out)?;
    Ok(put_report(out, &traced.report)?)
}

// Writes the lines of a run in one piece.
fn put_report<O: Sink>(out: &mut O, report: &Report) -> Result<(), DeviceFailed>
    ensures { HasPut result
        (report_text report.now.outcome.actions.items report.now.outcome.charged report.now.limit)
        (O.output out.old) (O.output out.new) }
{
    let outcome = &report.outcome;
    let mut page = Page::new(out);
    print_run(&mut page, &outcome.actions, outcome.charged, report.limit);
    page.flush()
}
