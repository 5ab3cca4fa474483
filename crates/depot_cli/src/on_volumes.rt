// Tasks on a depot in volumes, and programs that are saved from one.
//
// What opens the volumes is a parameter (`Volumes`): a folder of files in the program, depots in memory in tests.
ghost use Rattle.std.specs.Prelude.{◌≡◌, IfErr, IfOk, List, length, ℕ};
ghost use Rattle.depot_jobs.specs.Jobs.{host_and_outputs};
ghost use Rattle.depot_cli.specs.Requests.{command_of, command_with_reply};
ghost use Rattle.depot_cli.specs.Saving.{IsNoFile, IsSavedFile};
ghost use Rattle.depot_cli.specs.VolumeTasks.{AnswersOnVolumes, CarriesOnVolumes, GivesOnVolumes, PerformsOnVolumes, RefusesOnVolumes, ServesOnVolumes, WithholdsOnVolumes};

use crate::pending_task::PendingTask;
use crate::saving::Saving;
use crate::task::{Reply, WithReply, finish};
use depot_actions::Depot;
use depot_jobs::{Access, Deposit, Host, MadeFrom, SUCCESS, Task, make_file, tell};
use devices::Sink;
use printing::{WroteFile, put_printed};
use refusals::Refusal;
use sqlite::Alter;
use std::alloc::Global;
use volumes::{
    Volumes, deliver, export, list, list_since, migrate, program_of, remove, set_code, set_script,
};

/// Carries out a task on the result of opening the volumes of its depot, and returns the exit status. If they are open,
/// the task is performed on them once, as [`perform_on_volumes`] says. If opening them was refused, the line of the
/// refusal is written to `err`, and the status is 1.
pub fn carry_on_volumes<S: Alter, V: Volumes<S, Depot<S>>, O: Sink, E: Sink>(
    alloc: Global,
    pending: &PendingTask<'_>,
    opened: &mut Result<V, Refusal>,
    most: u64,
    out: &mut O,
    err: &mut E,
) -> u8
    ensures { CarriesOnVolumes V.holding (command_of pending.now.task) result opened.old opened.new
        (O.output out.old) (E.output err.old) (O.output out.new) (E.output err.new) }
{
    match opened {
        Ok(volumes) => perform_on_volumes(alloc, &pending.task, volumes, most, out, err),
        Err(refusal) => tell(err, refusal),
    }
}

/// Does a task on volumes, which answer as one depot: writes its reply to `out` and returns 0, or writes the line of
/// its refusal to `err` and returns 1. If the newest volume has `most` bytes or more, the next one begins before a
/// delivery.
///
/// Writing begins after the command is done and allocates no memory, except for the text of an export, which is
/// written in pieces. If `out` fails, or memory is refused for a piece, the beginning of the reply was written there,
/// what was done remains done, the line of `Write` or of `Memory` is written to `err`, and the status is 1. If the
/// command is refused, what the volumes hold together is as it was; the next volume can have begun.
pub fn perform_on_volumes<S: Alter, V: Volumes<S, Depot<S>>, O: Sink, E: Sink>(
    alloc: Global,
    task: &Task<'_>,
    volumes: &mut V,
    most: u64,
    out: &mut O,
    err: &mut E,
) -> u8
    ensures { PerformsOnVolumes V.holding (command_of task.now) result volumes.old volumes.new
        (O.output out.old) (E.output err.old) (O.output out.new) (E.output err.new) }
{
    match task {
        Task::Export {
            user,
            number,
            encoding,
        } => match export(volumes, alloc, user, *number, *encoding, out) {
            Ok(()) => SUCCESS,
            Err(refusal) => tell(err, &refusal),
        },
        Task::FromFile(deposit, user, file) => {
            let asked = WithReply::FromFile(*deposit, user, file.as_slice());
            answer_on_volumes(alloc, asked, volumes, most, out, err)
        }
        Task::OnUser(access, user) => {
            answer_on_volumes(
                alloc,
                WithReply::OnUser(*access, user),
                volumes,
                most,
                out,
                err,
            )
        }
        Task::Migrate => answer_on_volumes(alloc, WithReply::Migrate, volumes, most, out, err),
    }
}

// Does a command on volumes, and writes its reply or the line of its refusal.
fn answer_on_volumes<S: Alter, V: Volumes<S, Depot<S>>, O: Sink, E: Sink>(
    alloc: Global,
    asked: WithReply<'_, &[u8]>,
    volumes: &mut V,
    most: u64,
    out: &mut O,
    err: &mut E,
) -> u8
    ensures { PerformsOnVolumes V.holding (command_with_reply asked.entry) result
        volumes.old volumes.new (O.output out.old) (E.output err.old) (O.output out.new)
        (E.output err.new) }
{
    match reply_on_volumes(alloc, asked, volumes, most) {
        Ok(reply) => finish(err, put_printed(out, &reply)),
        Err(refusal) => tell(err, &refusal),
    }
}

/// Does a command on volumes, with the bytes of its file, and returns the reply. The caller prints it. If the newest
/// volume has `most` bytes or more, the next one begins before a delivery.
///
/// # Errors
///
/// What the volumes hold together is as it was; the next volume can have begun.
///
/// - `Memory` or `Database` if the volumes can't be opened, read or begun.
/// - The refusal of the command, as [`Depot`]'s call lists it.
/// - `Database` for a catalog: no call makes one of volumes.
pub fn reply_on_volumes<S: Alter, V: Volumes<S, Depot<S>>>(
    alloc: Global,
    asked: WithReply<'_, &[u8]>,
    volumes: &mut V,
    most: u64,
) -> Result<Reply, Refusal>
    ensures done { IfOk result
        (AnswersOnVolumes V.holding (command_with_reply asked.entry) volumes.old volumes.new) }
    ensures refused { IfErr result
        (RefusesOnVolumes V.holding (command_with_reply asked.entry) volumes.old volumes.new) }
{
    match asked {
        WithReply::FromFile(deposit, user, file) => match deposit {
            Deposit::Script => match set_script(volumes, alloc, user, file) {
                Ok(()) => Ok(Reply::Stored),
                Err(refusal) => Err(refusal),
            },
            Deposit::Code => match set_code(volumes, alloc, user, file) {
                Ok(()) => Ok(Reply::Stored),
                Err(refusal) => Err(refusal),
            },
            Deposit::Message => match deliver(volumes, alloc, user, file, most) {
                Ok(rows) => Ok(Reply::Filed(rows)),
                Err(refusal) => Err(refusal),
            },
        },
        WithReply::OnUser(access, user) => match access {
            Access::List => match list(volumes, alloc, user) {
                Ok(rows) => Ok(Reply::Listed(rows)),
                Err(refusal) => Err(refusal),
            },
            Access::Since { number } => match list_since(volumes, alloc, user, number) {
                Ok(rows) => Ok(Reply::Listed(rows)),
                Err(refusal) => Err(refusal),
            },
            Access::Catalog { .. } => Err(Refusal::Database),
            Access::Remove { number } => match remove(volumes, user, number) {
                Ok(()) => Ok(Reply::Removed(number)),
                Err(refusal) => Err(refusal),
            },
        },
        WithReply::Migrate => match migrate(volumes, alloc) {
            Ok(count) => Ok(Reply::Migrated(count)),
            Err(refusal) => Err(refusal),
        },
    }
}

/// Saves a user's program, read from the result of opening the volumes of a depot, as a file, whole or not at all.
/// Writes to `out` how many bytes it has and returns 0; or writes the line of its refusal, or of the open's refusal,
/// to `err` and returns 1. The volumes stay as they are, and open.
///
/// The refusals are those of [`program_of`]; `NoSuchEntry` if the user has no program; and `Memory` or `Write` if the
/// file can't be made. If `out` fails, the file exists, the beginning of the line was written to `out` and the line of
/// `Write` to `err`, and the status is 1.
///
/// The host is asked to make the file from `saving.name`, which stands for all volumes. It can't tell by that name
/// which files are volumes: the caller must not pass the name of one as `saving.out`.
pub fn save_on_volumes<S: Alter, V: Volumes<S, Depot<S>>, H: Host, O: Sink, E: Sink>(
    alloc: Global,
    saving: Saving<'_>,
    opened: &mut Result<V, Refusal>,
    host: &mut H,
    out: &mut O,
    err: &mut E,
) -> u8
    ensures { ServesOnVolumes V.holding saving.entry result opened.old opened.new
        (host_and_outputs (H.state host.old) (O.output out.old) (E.output err.old))
        (host_and_outputs (H.state host.new) (O.output out.new) (E.output err.new)) }
{
    match opened {
        Ok(volumes) => match save_program(alloc, saving, volumes, host) {
            Ok(octets) => finish(err, put_printed(out, &WroteFile { octets })),
            Err(refusal) => tell(err, &refusal),
        },
        Err(refusal) => tell(err, refusal),
    }
}

// Saves the user's program as a file, and returns how many bytes it has.
fn save_program<S: Alter, V: Volumes<S, Depot<S>>, H: Host>(
    alloc: Global,
    saving: Saving<'_>,
    volumes: &mut V,
    host: &mut H,
) -> Result<usize, Refusal>
    ensures saved { IfOk result (λ octets. (program : List ℕ) × (octets ≡ length program)
        × IsSavedFile (GivesOnVolumes V.holding saving.entry volumes.old volumes.new)
        (WithholdsOnVolumes V.holding saving.entry volumes.old volumes.new) saving.entry program
        (H.state host.old) (H.state host.new)) }
    ensures unsaved { IfErr result (λ e.
        IsNoFile (GivesOnVolumes V.holding saving.entry volumes.old volumes.new)
        (WithholdsOnVolumes V.holding saving.entry volumes.old volumes.new) saving.entry e
        (H.state host.old) (H.state host.new)) }
{
    match program_of(volumes, saving.user)? {
        Some(program) => {
            let folder = MadeFrom::Depot(saving.name);
            make_file(alloc, host, saving.out, folder, &program)?;
            Ok(program.len())
        }
        None => Err(Refusal::NoSuchEntry),
    }
}
