// One line of a batch.
//
// If the input ends within a line, the line isn't done: its writer can have died within it, and `remove ann 1` can be
// the beginning of `remove ann 12`. It is reported as no command. Nothing is read after it, because on a growing file
// the rest of the line would be taken for a command of its own.
ghost use Rattle.std.specs.Prelude.{◌≡◌, [], IfErr, IfOk, OnErr, map};
ghost use Rattle.sqlite.specs.Held.{state};
ghost use Rattle.sqlite.specs.State.{Survives};
ghost use Rattle.devices.specs.Device.{HasPut};
ghost use Rattle.depot_actions.specs.Applying.{MayAdd};
ghost use Rattle.depot_batch.specs.Answers.{AreNoTexts, HasComeOf, HasLineWords, HasPutReport, IsReportOn, IsUnasked, outcome_of, unasked_report};
ghost use Rattle.depot_batch.specs.Batch.{Did, Happens};
ghost use Rattle.depot_batch.specs.Effects.{MayMake};
ghost use Rattle.depot_batch.specs.Private.{on, places_of};
ghost use Rattle.depot_batch.specs.Turns.{Alone, Broken, Whole};
ghost use Rattle.depot_batch.specs.declared.outcome.Outcome.{Outcome};

use crate::answering::answer_to;
use crate::asked::{Asked, LineFault, asked_by};
use crate::desk::Desk;
use crate::format::Format;
use crate::made::{Made, Short};
use crate::outcome::Outcome;
use crate::report::Report;
use crate::values::{report_line, short_line};
use crate::words::words_of;
use depot_actions::Depot;
use depot_jobs::Host;
use devices::{DeviceFailed, OfWrite, Sink};
use printing::{Printable, put_printed};
use refusals::Refusal;
use sqlite::Alter;
use std::alloc::{AllocError, Global};
use std::io::Write;
use std::str;

/// Why nothing is done for a line.
#[derive(Drop)]
pub enum Unasked {
    /// The line is no command.
    Wrong(LineFault),
    /// Memory was refused for its words.
    NoMemory,
}

impl Unasked {
    // Returns what the line is answered with.
    fn report(self) -> Report
        ensures { result ≡ unasked_report self }
    {
        match self {
            Unasked::Wrong(fault) => Report::Wrong(fault),
            Unasked::NoMemory => Report::Refused(Refusal::Memory),
        }
    }
}

/// Answers a line: does its command, and writes the answer and the line that ends it.
///
/// # Errors
///
/// `DeviceFailed` if the writer fails. What the command did remains done.
pub fn serve<S: Alter, H: Host, W: Write + Drop>(
    desk: &mut Desk<'_, '_, '_, '_, S, H, W>,
    line: &[u8],
) -> Result<Outcome, DeviceFailed>
    ensures same { places_of desk.new ≡ places_of desk.old }
    ensures answered { IfOk result (λ outcome.
        Happens S.Store desk.old.name.now desk.old.format (Alone line.now outcome) Whole
        (on H.state W.contents desk.old) (on H.state W.contents desk.new)) }
    ensures broken { OnErr result ((outcome : Outcome)
        × Happens S.Store desk.old.name.now desk.old.format (Alone line.now outcome) Broken
        (on H.state W.contents desk.old) (on H.state W.contents desk.new)) }
{
    let report = report_on(desk.alloc, desk.name, line, desk.depot, desk.host);
    give(desk.alloc, desk.format, desk.out, report)
}

// Does the command of a line, and returns what the line is answered with.
fn report_on<S: Alter, H: Host>(
    alloc: Global,
    name: &str,
    line: &[u8],
    depot: &mut Depot<S>,
    host: &mut H,
) -> Report
    ensures { IsReportOn S.Store name.now line.now result depot.old depot.new (H.state host.old)
        (H.state host.new) }
{
    match line_words(alloc, line) {
        Ok(words) => match texts(alloc, &words) {
            Ok(texts) => match asked_by(&texts) {
                Ok(asked) => report_of(alloc, name, asked, depot, host),
                Err(fault) => Report::Wrong(fault),
            },
            Err(unasked) => unasked.report(),
        },
        Err(unasked) => unasked.report(),
    }
}

/// The words of a line that ends with a line break.
///
/// # Errors
///
/// - [`Unasked::Wrong`] if the line doesn't end with a line break, or isn't made of words.
/// - [`Unasked::NoMemory`] if memory is refused.
pub fn line_words(alloc: Global, line: &[u8]) -> Result<Vec<Vec<u8>>, Unasked>
    ensures words { IfOk result (λ words. HasLineWords line.now (map (λ w. w.items) words.items)) }
    ensures unasked { IfErr result (IsUnasked line.now) }
{
    let [text @ .., b'\n'] = line else {
        return Err(Unasked::Wrong(LineFault::Unfinished));
    };
    match words_of(alloc, text) {
        Ok(Some(words)) => Ok(words),
        Ok(None) => Err(Unasked::Wrong(LineFault::Words)),
        Err(AllocError) => Err(Unasked::NoMemory),
    }
}

/// Words as texts.
///
/// # Errors
///
/// - [`Unasked::Wrong`] if a word isn't UTF-8.
/// - [`Unasked::NoMemory`] if memory is refused.
pub fn texts<'a>(alloc: Global, words: &'a [Vec<u8>]) -> Result<Vec<&'a str>, Unasked>
    ensures texts { IfOk result (λ texts. map (λ t. t.now) texts.items
        ≡ map (λ w. w.items) words.entry.now) }
    ensures unasked { IfErr result (AreNoTexts (map (λ w. w.items) words.entry.now)) }
{
    let mut texts = Vec::new(alloc);
    for word in words {
        match str::from_utf8(word) {
            Ok(text) => match texts.push(text) {
                Ok(()) => {}
                Err(_) => return Err(Unasked::NoMemory),
            },
            Err(_) => return Err(Unasked::Wrong(LineFault::NotText)),
        }
    }
    Ok(texts)
}

// Does what is asked for, and returns what its line is answered with.
fn report_of<S: Alter, H: Host>(
    alloc: Global,
    name: &str,
    asked: Asked<'_>,
    depot: &mut Depot<S>,
    host: &mut H,
) -> Report
    ensures come { HasComeOf (Did S.Store depot.old depot.new) name.now asked.entry result
        (H.state host.old) (H.state host.new) }
    ensures survives { Survives (state S.Store depot.old) (state S.Store depot.new)
        (MayMake (λ command. MayAdd command (state S.Store depot.old)) asked.entry
        (H.state host.old) (H.state host.new)) }
{
    match answer_to(alloc, name, asked, depot, host) {
        Ok(answer) => Report::Done(answer),
        Err(refusal) => Report::Refused(refusal),
    }
}

// Writes a report as the answer to a line, and returns the outcome of the line.
fn give<W: Write + Drop>(
    alloc: Global,
    format: Format,
    out: &mut OfWrite<W>,
    report: Report,
) -> Result<Outcome, DeviceFailed>
    ensures outcome { IfOk result (λ outcome. outcome ≡ outcome_of report) }
    ensures put { HasPutReport result format report
        (⟦<OfWrite<W> as Sink>⟧.output out.old) (⟦<OfWrite<W> as Sink>⟧.output out.new) }
{
    match put_report(alloc, format, out, &report) {
        Ok(()) => Ok(report.outcome()),
        Err(DeviceFailed) => Err(DeviceFailed),
    }
}

// Writes a report as the answer to a line. The command is done then: if memory is refused for an object, a line that
// takes none has the status alone.
fn put_report<W: Write + Drop>(
    alloc: Global,
    format: Format,
    out: &mut OfWrite<W>,
    report: &Report,
) -> Result<(), DeviceFailed>
    ensures { HasPutReport result format report.now
        (⟦<OfWrite<W> as Sink>⟧.output out.old) (⟦<OfWrite<W> as Sink>⟧.output out.new) }
{
    match format {
        Format::Plain => put_whole(out, report),
        Format::Json => match report_line(alloc, report) {
            Ok(text) => put_whole(out, &Made { text }),
            Err(AllocError) => put_whole(
                out,
                &Short {
                    text: short_line(report),
                },
            ),
        },
    }
}

/// Writes the text of a value, and makes sure that all of it is written.
///
/// # Errors
///
/// `DeviceFailed` if the writer fails; the beginning of the text was written.
pub fn put_whole<P: Printable, W: Write + Drop>(
    out: &mut OfWrite<W>,
    value: &P,
) -> Result<(), DeviceFailed>
    ensures { HasPut result (P.text value.now)
        (⟦<OfWrite<W> as Sink>⟧.output out.old) (⟦<OfWrite<W> as Sink>⟧.output out.new) }
{
    put_printed(out, value)?;
    flush(out)
}

/// Writes what a writer holds back.
///
/// # Errors
///
/// `DeviceFailed` if the writer fails; the failure is counted.
pub fn flush<W: Write + Drop>(out: &mut OfWrite<W>) -> Result<(), DeviceFailed>
    ensures { HasPut result [] (⟦<OfWrite<W> as Sink>⟧.output out.old)
        (⟦<OfWrite<W> as Sink>⟧.output out.new) }
{
    match out.inner.flush() {
        Ok(()) => Ok(()),
        Err(_) => {
            out.faults = out.faults.saturating_add(1);
            Err(DeviceFailed)
        }
    }
}
