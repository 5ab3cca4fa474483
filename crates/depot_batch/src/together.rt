// Lines that are done together.
//
// A group's files are read before its first delivery, so if a file can't be read, the trial ends before the depot is
// asked for anything. The lines are then done one by one, and their files read again. A file that changes in between is
// filed as it is then, and the trial uses up a pipe. Keeping what was read would avoid that, but then the contract
// would have to say, for a batch that ends at a line refused with `Database`, which files of later lines it had read.
ghost use Rattle.std.specs.Prelude.{◌<◌, ◌≡◌, ◌≤◌, ◌++◌, IfOk, IfSome, List, OnErr, IfNone, OnOk, Vec, length, map, ℕ};
ghost use Rattle.std.specs.List.{flat_map};
ghost use Rattle.std.specs.declared.alloc.Global.{Global};
ghost use Rattle.sqlite.specs.Held.{state};
ghost use Rattle.sqlite.specs.State.{HasCleanDisk};
ghost use Rattle.part_store.specs.Calls.{MayCommit};
ghost use Rattle.part_store.specs.Standing.{LeavesUnchanged, listed};
ghost use Rattle.devices.specs.Device.{HasBroken, HasTaken};
ghost use Rattle.devices.specs.Pages.{Wrote};
ghost use Rattle.depot_actions.specs.Deliveries.{DoesAll, MayLeaveAll, command_of as asked_of};
ghost use Rattle.depot_actions.specs.DepotState.{Listed};
ghost use Rattle.depot_batch.specs.Batch.{Happens};
ghost use Rattle.depot_batch.specs.Answers.{HasPutFiled};
ghost use Rattle.depot_batch.specs.Effects.{most_together};
ghost use Rattle.depot_batch.specs.Private.{HasTried, command_of, filed_by, lines_of, on, places_of};
ghost use Rattle.depot_batch.specs.Said.{InLines, filed_in};
ghost use Rattle.depot_batch.specs.Turns.{Broken, Together};

use crate::desk::Desk;
use crate::format::Format;
use crate::line::put_whole;
use crate::made::{FiledShort, Made};
use crate::mails::{Mail, read_mails};
use crate::values::filed_lines;
use depot_actions::{Delivery, Depot};
use depot_cli::{Detail, print_entries};
use depot_jobs::Host;
use devices::{DeviceFailed, OfWrite, Page, Sink};
use part_store::EntryRow;
use printing::{Printable, print_line};
use sqlite::Alter;
use std::alloc::{AllocError, Global};
use std::io::Write;

/// The result of lines that were to be done together.
#[derive(Clone, Copy)]
pub enum Tried {
    /// They were done and answered.
    Done,
    /// They were withdrawn: nothing has changed.
    Withdrawn,
}

/// If each of the lines asks for a delivery, does them in one transaction, and then writes the answers. If the messages
/// have more than 16 MiB together, only the first lines stay in `lines`, until their messages have that many bytes, and
/// only these are done.
///
/// # Requires
///
/// There are 1 to 64 lines.
///
/// # Errors
///
/// `DeviceFailed` if the writer fails. What the commands did remains done.
pub fn serve_together<S: Alter, H: Host, W: Write + Drop>(
    desk: &mut Desk<'_, '_, '_, '_, S, H, W>,
    lines: &mut Vec<Vec<u8>>,
) -> Result<Tried, DeviceFailed>
    requires some { 0 < length (lines_of lines.old.items) }
    requires few { length (lines_of lines.old.items) ≤ most_together }
    ensures same { places_of desk.new ≡ places_of desk.old }
    ensures first { (later : List (Vec ℕ Global)) × (lines.old.items ≡ lines.new.items ++ later) }
    ensures some { 0 < length (lines_of lines.new.items) }
    ensures tried { IfOk result (λ tried. HasTried S.Store desk.old.name.now desk.old.format tried
        (lines_of lines.new.items) (on H.state W.contents desk.old) (on H.state W.contents desk.new)) }
    ensures broken { OnErr result (Happens S.Store desk.old.name.now desk.old.format
        (Together (lines_of lines.new.items)) Broken
        (on H.state W.contents desk.old) (on H.state W.contents desk.new)) }
{
    let Some(mails) = read_mails(desk.alloc, lines, desk.host) else {
        return Ok(Tried::Withdrawn);
    };
    lines.truncate(mails.len());
    match deliver_mails(desk.alloc, &mails, desk.depot) {
        Some(replies) => {
            put_filed(desk.alloc, desk.format, desk.out, replies)?;
            Ok(Tried::Done)
        }
        None => Ok(Tried::Withdrawn),
    }
}

// Writes the answers to deliveries, which are done then.
fn put_filed<W: Write + Drop>(
    alloc: Global,
    format: Format,
    out: &mut OfWrite<W>,
    replies: Vec<Vec<EntryRow>>,
) -> Result<(), DeviceFailed>
    ensures { HasPutFiled result format (map filed_by replies.items)
        (⟦<OfWrite<W> as Sink>⟧.output out.old) (⟦<OfWrite<W> as Sink>⟧.output out.new) }
{
    match format {
        Format::Plain => put_whole(out, &Filed { replies }),
        Format::Json => match filed_lines(alloc, &replies) {
            Ok(text) => put_whole(out, &Made { text }),
            Err(AllocError) => put_whole(out, &FiledShort { replies }),
        },
    }
}

// Delivers messages in one transaction, and returns the new entries of each; `None` if they were refused.
fn deliver_mails<S: Alter>(
    alloc: Global,
    mails: &[Mail],
    depot: &mut Depot<S>,
) -> Option<Vec<Vec<EntryRow>>>
    ensures done { HasCleanDisk (state S.Store depot.new) → IfSome result
        (λ replies. DoesAll (map command_of mails.now) (map Listed (map filed_by replies.items))
        (state S.Store depot.old) (state S.Store depot.new)) }
    ensures unchanged { IfNone result (HasCleanDisk (state S.Store depot.new)
        → LeavesUnchanged (state S.Store depot.old) (state S.Store depot.new)) }
    ensures survives { MayCommit S.Store depot.old depot.new
        (MayLeaveAll (map command_of mails.now)) }
{
    let Ok(deliveries) = deliveries_of(alloc, mails) else {
        return None;
    };
    match depot.deliver_all(alloc, &deliveries) {
        Ok(replies) => Some(replies),
        Err(_) => None,
    }
}

// Messages as deliveries.
fn deliveries_of<'a>(alloc: Global, mails: &'a [Mail]) -> Result<Vec<Delivery<'a>>, AllocError>
    ensures { IfOk result (λ deliveries. map asked_of deliveries.items
        ≡ map command_of mails.entry.now) }
{
    let mut deliveries = Vec::new(alloc);
    for mail in mails {
        deliveries.push(Delivery {
            user: &mail.user,
            message: &mail.message,
        })?;
    }
    Ok(deliveries)
}

// The new entries of deliveries, which are answered one after the other.
#[derive(Drop)]
struct Filed {
    replies: Vec<Vec<EntryRow>>,
}

impl Printable for Filed {
    ghost text = { λ filed. flat_map (filed_in InLines) (map filed_by filed.replies.items) };

    fn print_on<O: Sink>(&self, page: &mut Page<'_, O>) {
        print_filed(page, &self.replies);
    }
}

// Prints the answers to deliveries.
fn print_filed<O: Sink>(page: &mut Page<'_, O>, replies: &[Vec<EntryRow>])
    ensures { Wrote (flat_map (filed_in InLines) (map filed_by replies.now)) page.old page.new }
{
    'replies: for rows in replies {
        print_one(page, rows);
    }
}

// Prints the answer to a delivery.
fn print_one<O: Sink>(page: &mut Page<'_, O>, rows: &[EntryRow])
    ensures { Wrote (filed_in InLines (map listed rows.now)) page.old page.new }
{
    print_entries(page, Detail::Brief, rows);
    print_line(page, "= 0");
}
