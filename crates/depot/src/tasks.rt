//! Tasks, from the open of their depot to its close.
//!
//! The promises hold for whatever opens the files. Batches, programs that are saved, and looks are opened and closed in
//! the same way.
ghost use Rattle.depot_cli.specs.Requests.{command_of};
ghost use Rattle.depot.specs.Tasks.{HasEnded, answer};

use crate::closing::{Left, close};
use crate::opening::Opener;
use depot_cli::{PendingTask, carry};
use devices::Sink;
use sqlite_disk::Disk;
use std::alloc::Global;

/// Opens the depot that a task names, does the task on it, and closes it. Returns the status, and what is left of the
/// files. That is `None` only if opening the files with this name was refused; this refusal was then reported.
///
/// `P` describes what the two files held. If they represented a state and the disk returned no wrong data, the status 0
/// means that the depot accepted the command, that its reply was written completely, and that the files hold the state
/// after it, also after a crash. The status 1 means that the command was refused, that this was reported, and that the
/// state is as it was; or that its reply broke off, and the files hold the state after it. If the close fails, or a
/// crash comes before its end, the files hold what was answered; if the answer changed nothing, they can hold what the
/// command makes.
pub fn carry_from<D: Disk + Drop, P: Opener<D>, O: Sink, E: Sink>(
    alloc: Global,
    pending: &PendingTask<'_>,
    opener: P,
    out: &mut O,
    err: &mut E,
) -> (u8, Option<Left<D>>)
    ensures ended { HasEnded
        (answer (command_of pending.now.task) result.0 (O.output out.old) (E.output err.old)
        (O.output out.new) (E.output err.new))
        (P.refuses pending.now.name.now) (P.image pending.now.name.now) result.1 }
{
    let mut opened = opener.open(pending.name);
    let status = carry(alloc, pending, &mut opened, out, err);
    let left = close(opened);
    (status, left)
}
