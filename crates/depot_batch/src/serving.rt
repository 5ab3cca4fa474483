// The lines of a batch.
//
// What lines do is defined by its effects on a depot (`specs/Effects`), and the turns of a batch for anything that can
// happen in them (`HasServedBy`). Both are used twice: over an open depot, as `batch` sees it, and over the state that
// the files represent, as `serve_from` does. Only what an effect is, is written for each of the two.
//
// An answer, or the answers to a group, are printed on one page: standard output isn't buffered, so each piece of a line
// would be a system call. The page is flushed after the line with the status, and so is the writer, before the next
// line is read; a caller that waits for the answer has all of it. An answer of more than 65,536 bytes is several
// writes.
ghost use Rattle.std.specs.Prelude.{◌≡◌, ◌<◌, ◌≤◌, ◌+◌, ◌^◌, ℕ, IfNone, IfSome, length};
ghost use Rattle.std.specs.List.{All, concat};
ghost use Rattle.refusals.specs.declared.refusal.Refusal.TheVariants.{Database};
ghost use Rattle.devices.specs.Supply.{Supply};
ghost use Rattle.depot_batch.specs.Batch.{HasServed, IsServed};
ghost use Rattle.depot_batch.specs.Effects.{depot_and_output, most_together};
ghost use Rattle.depot_batch.specs.Lines.{HasShown, IsDeliveryLine};
ghost use Rattle.depot_batch.specs.Private.{CanTake, HasBegun, HasFirst, HasTakenNext, HasTurned, format_of, lines_of, on, places_of};
ghost use Rattle.depot_batch.specs.declared.outcome.Outcome.TheVariants.{Refused};

use crate::ahead::{Ahead, look_ahead, take_lines};
use crate::desk::Desk;
use crate::first::{First, first_of};
use crate::line::serve;
use crate::outcome::Outcome;
use crate::reading::{Taken, next_line};
use crate::together::{Tried, serve_together};
use depot_actions::Depot;
use depot_jobs::{Host, tell};
use devices::{DeviceFailed, OfRead, OfWrite, Sink, Source};
use refusals::Refusal;
use sqlite::Alter;
use std::alloc::Global;
use std::io::{BufRead, Write};

/// The status of a batch whose input has ended.
const SUCCESS: u8 = 0;

/// The status of a batch that ended before its input.
const REFUSED: u8 = 1;

/// Serves a batch on the result of opening the depot in the file `name`, and returns the exit status. The commands in
/// the lines of the input are done one after another. A command that is done alone is answered before the next one is
/// done. Deliveries whose lines are already available, up to 64, are done together in one transaction, and answered
/// after it is committed; if one of them would be refused or can't be read, all are done one after another. If the open
/// was refused, the line of the refusal is written to `err`, and the status is 1. A depot that was opened stays open;
/// the caller closes it.
///
/// If the first line is `json`, it has no answer, and each answer to another line is a JSON object on one line. If memory
/// is refused for such an object, the command of the line is done or refused as its `status` says, and the object has
/// only this and the member `incomplete`.
///
/// The status is 0 at the end of the input. If the input ends within a line, the bytes after the last line break are
/// answered as no command, and nothing more is read. The status is 1 after a line that is refused with `Database`,
/// because a failure can have shut the depot's store. It is also 1 if the input or `out` fails, or memory is refused
/// while a line is read; then the line of `Read`, `Write` or `Memory` is written to `err`. If memory is refused for
/// what a line asks, this is that line's answer. A batch also ends, with status 0, after 2^64 - 1 turns; lines that are
/// done together, or were tried together without success, are one turn. It has then answered at least 2^63 - 1 lines.
pub fn batch<S: Alter, H: Host, R: BufRead + Drop, W: Write + Drop, E: Sink>(
    alloc: Global,
    name: &str,
    opened: &mut Result<Depot<S>, Refusal>,
    host: &mut H,
    input: &mut OfRead<R>,
    out: &mut OfWrite<W>,
    err: &mut E,
) -> u8
    ensures { IsServed S.Store name.now result (⟦<OfRead<R> as Source>⟧.supply input.old)
        (⟦<OfRead<R> as Source>⟧.supply input.new)
        opened.old opened.new (H.state host.old) (H.state host.new)
        (⟦<OfWrite<W> as Sink>⟧.output out.old) (⟦<OfWrite<W> as Sink>⟧.output out.new)
        (E.output err.old) (E.output err.new) }
{
    match opened {
        Ok(depot) => serve_depot(alloc, name, depot, host, input, out, err),
        Err(refusal) => tell(err, refusal),
    }
}

// Finds out how the batch begins, does its lines, and returns the status.
fn serve_depot<S: Alter, H: Host, R: BufRead + Drop, W: Write + Drop, E: Sink>(
    alloc: Global,
    name: &str,
    depot: &mut Depot<S>,
    host: &mut H,
    input: &mut OfRead<R>,
    out: &mut OfWrite<W>,
    err: &mut E,
) -> u8
    ensures { HasServed S.Store name.now result
        (⟦<OfRead<R> as Source>⟧.supply input.old) (⟦<OfRead<R> as Source>⟧.supply input.new)
        (depot_and_output depot.old (H.state host.old) (⟦<OfWrite<W> as Sink>⟧.output out.old))
        (depot_and_output depot.new (H.state host.new) (⟦<OfWrite<W> as Sink>⟧.output out.new))
        (E.output err.old) (E.output err.new) }
{
    match first_of(alloc, input) {
        Ok(first) => {
            let mut desk = Desk {
                alloc,
                name,
                format: first.format(),
                depot,
                host,
                out,
            };
            serve_lines(&mut desk, first, input, err)
        }
        Err(refusal) => tell(err, &refusal),
    }
}

// Does the commands in the lines of the input, turn by turn, and returns the status. A refusal that ends the batch is
// told here.
fn serve_lines<S: Alter, H: Host, R: BufRead + Drop, W: Write + Drop, E: Sink>(
    desk: &mut Desk<'_, '_, '_, '_, S, H, W>,
    first: First,
    input: &mut OfRead<R>,
    err: &mut E,
) -> u8
    ensures same { places_of desk.new ≡ places_of desk.old }
    ensures served { desk.old.format ≡ format_of first → (before : Supply)
        → HasFirst first before (⟦<OfRead<R> as Source>⟧.supply input.old)
        → HasServed S.Store desk.old.name.now result
        before (⟦<OfRead<R> as Source>⟧.supply input.new)
        (on H.state W.contents desk.old) (on H.state W.contents desk.new)
        (E.output err.old) (E.output err.new) }
{
    let mut alone = 0;
    match take_first(desk, first, &mut alone, input) {
        Ok(None) => {}
        Ok(Some(status)) => return status,
        Err(refusal) => return tell(err, &refusal),
    }
    'turns: for _ in 1..u64::MAX {
        match take_turn(desk, &mut alone, input) {
            Ok(None) => {}
            Ok(Some(status)) => return status,
            Err(refusal) => return tell(err, &refusal),
        }
    }
    SUCCESS
}

// Takes the first turn: answers what was taken of the input, or takes a turn as any other.
//
// # Requires
//
// No line is to be done alone.
//
// # Errors
//
// The refusal with which the batch ends: `Read`, `Write` or `Memory`.
fn take_first<S: Alter, H: Host, R: BufRead + Drop, W: Write + Drop>(
    desk: &mut Desk<'_, '_, '_, '_, S, H, W>,
    first: First,
    alone: &mut usize,
    input: &mut OfRead<R>,
) -> Result<Option<u8>, Refusal>
    requires none { alone.old ≡ 0 }
    ensures same { places_of desk.new ≡ places_of desk.old }
    ensures begun { desk.old.format ≡ format_of first → (before : Supply)
        → HasFirst first before (⟦<OfRead<R> as Source>⟧.supply input.old)
        → HasBegun S.Store desk.old.name.now desk.old.format result alone.new
        before (⟦<OfRead<R> as Source>⟧.supply input.new)
        (on H.state W.contents desk.old) (on H.state W.contents desk.new) }
{
    match first {
        First::Taken(taken, line) => answer_taken(desk, taken, &line),
        First::Json => take_turn(desk, alone, input),
        First::Ready => take_turn(desk, alone, input),
    }
}

// Takes a turn: does lines together that are ready and begin as deliveries do, or else the next line alone, also if so
// many lines are to be done alone. Returns the status of a batch that ends with this turn.
//
// # Errors
//
// The refusal with which the batch ends: `Read`, `Write` or `Memory`.
fn take_turn<S: Alter, H: Host, R: BufRead + Drop, W: Write + Drop>(
    desk: &mut Desk<'_, '_, '_, '_, S, H, W>,
    alone: &mut usize,
    input: &mut OfRead<R>,
) -> Result<Option<u8>, Refusal>
    ensures same { places_of desk.new ≡ places_of desk.old }
    ensures turned { HasTurned S.Store desk.old.name.now desk.old.format result alone.old alone.new
        (⟦<OfRead<R> as Source>⟧.supply input.old) (⟦<OfRead<R> as Source>⟧.supply input.new)
        (on H.state W.contents desk.old) (on H.state W.contents desk.new) }
{
    if *alone > 0 {
        *alone -= 1;
        return take_alone(desk, input);
    }
    match look_ahead(desk.alloc, input) {
        Ok(Ahead::Deliveries(lines)) => take_together(desk, lines, alone, input),
        Ok(Ahead::Other) => take_alone(desk, input),
        Ok(Ahead::End) => Ok(Some(SUCCESS)),
        Err(refusal) => Err(refusal),
    }
}

// Does lines together that the input has ready, and takes them; or, if they were withdrawn, notes that so many of them
// are to be done alone. The batch goes on after them.
//
// # Requires
//
// - No line is to be done alone.
// - There are 1 to 64 lines, each whole and beginning as a delivery does, with fewer than 2^64 bytes together.
//
// # Errors
//
// `Write` if the answers can't be written.
fn take_together<S: Alter, H: Host, R: BufRead + Drop, W: Write + Drop>(
    desk: &mut Desk<'_, '_, '_, '_, S, H, W>,
    lines: Vec<Vec<u8>>,
    alone: &mut usize,
    input: &mut OfRead<R>,
) -> Result<Option<u8>, Refusal>
    requires none { alone.old ≡ 0 }
    requires whole { All IsDeliveryLine (lines_of lines.items) }
    requires some { 0 < length (lines_of lines.items) }
    requires few { length (lines_of lines.items) ≤ most_together }
    requires small { length (concat (lines_of lines.items)) < 2 ^ 64 }
    ensures same { places_of desk.new ≡ places_of desk.old }
    ensures turned { (before : Supply)
        → CanTake (concat (lines_of lines.items)) before.left (R.consumable_len input.old.inner)
        → HasShown (concat (lines_of lines.items)) before (⟦<OfRead<R> as Source>⟧.supply input.old)
        → HasTurned S.Store desk.old.name.now desk.old.format result alone.old alone.new
        before (⟦<OfRead<R> as Source>⟧.supply input.new)
        (on H.state W.contents desk.old) (on H.state W.contents desk.new) }
{
    let mut lines = lines;
    match serve_together(desk, &mut lines) {
        Ok(Tried::Done) => {
            take_lines(input, &lines);
            Ok(None)
        }
        Ok(Tried::Withdrawn) => {
            *alone = lines.len();
            Ok(None)
        }
        Err(DeviceFailed) => {
            take_lines(input, &lines);
            Err(Refusal::Write)
        }
    }
}

// Does the command of the next line, or answers the rest of an input that has no line break. Returns the status of a
// batch that ends with it.
//
// # Errors
//
// The refusal with which the batch ends: `Read`, `Write` or `Memory`.
fn take_alone<S: Alter, H: Host, R: BufRead + Drop, W: Write + Drop>(
    desk: &mut Desk<'_, '_, '_, '_, S, H, W>,
    input: &mut OfRead<R>,
) -> Result<Option<u8>, Refusal>
    ensures same { places_of desk.new ≡ places_of desk.old }
    ensures turned { (alone later : ℕ) → alone ≤ later + 1
        → HasTurned S.Store desk.old.name.now desk.old.format result alone later
        (⟦<OfRead<R> as Source>⟧.supply input.old) (⟦<OfRead<R> as Source>⟧.supply input.new)
        (on H.state W.contents desk.old) (on H.state W.contents desk.new) }
{
    let mut line = Vec::new(desk.alloc);
    match next_line(input, &mut line) {
        Ok(taken) => answer_taken(desk, taken, &line),
        Err(refusal) => Err(refusal),
    }
}

// Answers what was taken of the input. Returns the status of a batch that ends with it.
//
// # Errors
//
// `Write` if the answer can't be written.
fn answer_taken<S: Alter, H: Host, W: Write + Drop>(
    desk: &mut Desk<'_, '_, '_, '_, S, H, W>,
    taken: Taken,
    line: &[u8],
) -> Result<Option<u8>, Refusal>
    ensures same { places_of desk.new ≡ places_of desk.old }
    ensures turned { (alone later : ℕ) (before after : Supply) → alone ≤ later + 1
        → HasTakenNext taken line.now before after
        → HasTurned S.Store desk.old.name.now desk.old.format result alone later before after
        (on H.state W.contents desk.old) (on H.state W.contents desk.new) }
{
    match taken {
        Taken::Line => match serve(desk, line) {
            Ok(outcome) => Ok(status_after(&outcome)),
            Err(DeviceFailed) => Err(Refusal::Write),
        },
        Taken::Unfinished => match serve(desk, line) {
            Ok(_) => Ok(Some(SUCCESS)),
            Err(DeviceFailed) => Err(Refusal::Write),
        },
        Taken::Nothing => Ok(Some(SUCCESS)),
    }
}

// The status of a batch that ends after this outcome of a line, because the depot can be shut.
fn status_after(outcome: &Outcome) -> Option<u8>
    ensures ends { IfSome result (λ status. (status ≡ 1) × (outcome.now ≡ Refused Database)) }
    ensures goes_on { IfNone result (outcome.now ≡ Refused Database → ⊥) }
{
    match outcome {
        Outcome::Refused(Refusal::Database) => Some(REFUSED),
        Outcome::Done | Outcome::Refused(_) | Outcome::Wrong => None,
    }
}
