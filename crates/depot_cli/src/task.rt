// Tasks on a depot, and their replies.
//
// The tasks on a depot have a call of their own, `perform`, apart from `answer` for the jobs that need none: a depot is
// generic in its store, and a job isn't.
ghost use Rattle.std.specs.Prelude.{◌≡◌, IfErr, IfOk, OnErr, OnOk};
ghost use Rattle.sqlite.specs.Held.{state};
ghost use Rattle.sqlite.specs.State.{Survives};
ghost use Rattle.depot_actions.specs.Applying.{MayAdd};
ghost use Rattle.devices.specs.Pages.{Wrote};
ghost use Rattle.refusals.specs.declared.refusal.Refusal.TheVariants.{Write};
ghost use Rattle.depot_jobs.specs.Jobs.{HasTold};
ghost use Rattle.depot_cli.specs.Printed.{migrated_text, removed_text, text_in};
ghost use Rattle.depot_cli.specs.Requests.{command_of, command_with_reply};
ghost use Rattle.depot_cli.specs.Tasks.{HasAnswered, HasPerformed, HasRefused, store_and_outputs};

use crate::entries::{Detail, print_entries};
use depot_actions::Depot;
use depot_jobs::{Access, Deposit, SUCCESS, Task, tell};
use devices::{DeviceFailed, Page, Sink};
use part_store::EntryRow;
use printing::{Piece, Printable, print, print_line, put_printed};
use refusals::Refusal;
use sqlite::Alter;
use std::alloc::Global;

/// A command to which a depot has a [`Reply`]: any but an export, whose reply is the text that it writes. The type `F`
/// stands for the command's file, as in [`OnDepot`](depot_jobs::OnDepot).
#[derive(Clone, Copy)]
pub enum WithReply<'a, F> {
    /// Store a filter, or file a message, for the user with this name.
    FromFile(Deposit, &'a str, F),
    /// List, describe or remove entries of the user with this name.
    OnUser(Access, &'a str),
    /// Give all users' filters the latest version of the bytecode.
    Migrate,
}

/// What a depot replies to a command that it has done. [`reply_to`] makes it.
#[derive(Drop)]
pub enum Reply {
    /// A filter was stored.
    Stored,
    /// A message was filed: its new entries.
    Filed(Vec<EntryRow>),
    /// A user's entries, all of them or those above a number.
    Listed(Vec<EntryRow>),
    /// The catalog of a user's entries, all of them or those above a number.
    Catalog(Vec<u8>),
    /// The entry with this number was removed.
    Removed(u32),
    /// This many filters were given the latest version.
    Migrated(usize),
}

/// Has the depot do a task: writes its reply to `out` and returns 0, or writes the line of its refusal to `err` and
/// returns 1.
///
/// Writing begins after the command is done and allocates no memory, except for the text of an export, which is written
/// in pieces. If `out` fails, or memory is refused for a piece, the beginning of the reply was written there, what the
/// depot did remains done, the line of `Write` or of `Memory` is written to `err`, and the status is 1. As long as the
/// disk returns what was written, `Write` is reported in no other case.
///
/// A crash at any moment leaves what it could have left before, or what the command makes of it, and never a part of
/// that.
pub fn perform<S: Alter, O: Sink, E: Sink>(
    alloc: Global,
    task: &Task<'_>,
    depot: &mut Depot<S>,
    out: &mut O,
    err: &mut E,
) -> u8
    ensures performed { HasPerformed (command_of task.now) result
        (store_and_outputs (state S.Store depot.old) (O.output out.old) (E.output err.old))
        (store_and_outputs (state S.Store depot.new) (O.output out.new) (E.output err.new)) }
    ensures survives { Survives (state S.Store depot.old) (state S.Store depot.new)
        (MayAdd (command_of task.now) (state S.Store depot.old)) }
{
    match task {
        Task::Export {
            user,
            number,
            encoding,
        } => match depot.export(alloc, user, *number, *encoding, out) {
            Ok(()) => SUCCESS,
            Err(refusal) => tell(err, &refusal),
        },
        Task::FromFile(deposit, user, file) => {
            let asked = WithReply::FromFile(*deposit, user, file.as_slice());
            answer(alloc, asked, depot, out, err)
        }
        Task::OnUser(access, user) => {
            answer(alloc, WithReply::OnUser(*access, user), depot, out, err)
        }
        Task::Migrate => answer(alloc, WithReply::Migrate, depot, out, err),
    }
}

// Has the depot do a command, and writes its reply or the line of its refusal.
fn answer<S: Alter, O: Sink, E: Sink>(
    alloc: Global,
    asked: WithReply<'_, &[u8]>,
    depot: &mut Depot<S>,
    out: &mut O,
    err: &mut E,
) -> u8
    ensures performed { HasPerformed (command_with_reply asked.entry) result
        (store_and_outputs (state S.Store depot.old) (O.output out.old) (E.output err.old))
        (store_and_outputs (state S.Store depot.new) (O.output out.new) (E.output err.new)) }
    ensures survives { Survives (state S.Store depot.old) (state S.Store depot.new)
        (MayAdd (command_with_reply asked.entry) (state S.Store depot.old)) }
{
    match reply_to(alloc, asked, depot) {
        Ok(reply) => finish(err, put_printed(out, &reply)),
        Err(refusal) => tell(err, &refusal),
    }
}

/// Has the depot do a command, with the bytes of its file, and returns the reply. The caller prints it.
///
/// A crash at any moment leaves what it could have left before, or what the command makes of it, and never a part of
/// that.
///
/// # Errors
///
/// The refusal of the depot's command, as [`Depot`]'s call lists it; the depot is as it was.
pub fn reply_to<S: Alter>(
    alloc: Global,
    asked: WithReply<'_, &[u8]>,
    depot: &mut Depot<S>,
) -> Result<Reply, Refusal>
    ensures done { IfOk result (λ reply. HasAnswered (command_with_reply asked.entry) reply
        (state S.Store depot.old) (state S.Store depot.new)) }
    ensures refused { IfErr result (λ e. HasRefused (command_with_reply asked.entry) e
        (state S.Store depot.old) (state S.Store depot.new)) }
    ensures survives { Survives (state S.Store depot.old) (state S.Store depot.new)
        (MayAdd (command_with_reply asked.entry) (state S.Store depot.old)) }
{
    match asked {
        WithReply::FromFile(deposit, user, file) => match deposit {
            Deposit::Script => match depot.set_script(alloc, user, file) {
                Ok(()) => Ok(Reply::Stored),
                Err(refusal) => Err(refusal),
            },
            Deposit::Code => match depot.set_code(alloc, user, file) {
                Ok(()) => Ok(Reply::Stored),
                Err(refusal) => Err(refusal),
            },
            Deposit::Message => match depot.deliver(alloc, user, file) {
                Ok(rows) => Ok(Reply::Filed(rows)),
                Err(refusal) => Err(refusal),
            },
        },
        WithReply::OnUser(access, user) => match access {
            Access::List => match depot.list(user) {
                Ok(rows) => Ok(Reply::Listed(rows)),
                Err(refusal) => Err(refusal),
            },
            Access::Since { number } => match depot.list_since(user, number) {
                Ok(rows) => Ok(Reply::Listed(rows)),
                Err(refusal) => Err(refusal),
            },
            Access::Catalog { number } => match depot.catalog(alloc, user, number) {
                Ok(text) => Ok(Reply::Catalog(text)),
                Err(refusal) => Err(refusal),
            },
            Access::Remove { number } => match depot.remove(user, number) {
                Ok(()) => Ok(Reply::Removed(number)),
                Err(refusal) => Err(refusal),
            },
        },
        WithReply::Migrate => match depot.migrate(alloc) {
            Ok(count) => Ok(Reply::Migrated(count)),
            Err(refusal) => Err(refusal),
        },
    }
}

/// A reply is printed as its lines: for example `stored` for a filter, and `removed 1` for entry 1. A catalog is printed
/// as it is.
impl Printable for Reply {
    ghost text = { text_in };

    fn print_on<O: Sink>(&self, page: &mut Page<'_, O>) {
        match self {
            Reply::Stored => print_line(page, "stored"),
            Reply::Filed(rows) => print_entries(page, Detail::Brief, rows),
            Reply::Listed(rows) => print_entries(page, Detail::Full, rows),
            Reply::Catalog(text) => page.write(text.as_slice()),
            Reply::Removed(number) => print_removed(page, *number),
            Reply::Migrated(count) => print_migrated(page, *count),
        }
    }
}

// Prints the line of an entry that was removed.
fn print_removed<O: Sink>(page: &mut Page<'_, O>, number: u32)
    ensures { Wrote (removed_text number) page.old page.new }
{
    print(
        page,
        &[
            Piece::Text("removed "),
            Piece::Number(number as u128),
            Piece::Text("\n"),
        ],
    );
}

// Prints how many filters were given the latest version.
fn print_migrated<O: Sink>(page: &mut Page<'_, O>, count: usize)
    ensures { Wrote (migrated_text count) page.old page.new }
{
    print(
        page,
        &[
            Piece::Text("migrated "),
            Piece::Number(count as u128),
            Piece::Text("\n"),
        ],
    );
}

// The status of a command that was done, whose reply was written or broke off.
pub(crate) fn finish<E: Sink>(err: &mut E, written: Result<(), DeviceFailed>) -> u8
    ensures ok { OnOk written ((result ≡ 0) × (E.output err.new ≡ E.output err.old)) }
    ensures err { OnErr written ((result ≡ 1)
        × HasTold Write (E.output err.old) (E.output err.new)) }
{
    match written {
        Ok(()) => SUCCESS,
        Err(DeviceFailed) => tell(err, &Refusal::Write),
    }
}
