// Tasks and looks on the result of opening the file.
//
// `carry` takes the result of opening, a depot or the refusal, so that printing the refusal, performing the task once
// and returning its status are one contract. The way from the open to the close is `carry_from` of the program, over
// anything that opens files (`Opener`). `serve_from`, `save_from` and `look_from` are the same for a batch, `program`
// and a look. What is left of the files is stated once for the four (`EndsSo`), by how the request is answered and
// which state a failed close can keep.
ghost use Rattle.std.specs.Prelude.{◌≡◌, Some};
ghost use Rattle.sqlite.specs.Held.{state};
ghost use Rattle.depot_cli.specs.Carrying.{HasCarried, HasReported, HasToldWhy, OutlastsCarrying, OutlastsReporting};
ghost use Rattle.depot_cli.specs.Requests.{command_of};

use crate::looks::{Look, look_over};
use crate::no_depot::{NoDepot, tell_no_depot};
use crate::pending_task::PendingTask;
use crate::task::perform;
use depot_actions::Depot;
use depot_jobs::tell;
use devices::Sink;
use part_store::Unopened;
use refusals::Refusal;
use sqlite::Alter;
use std::alloc::Global;

/// Carries out a task on the result of opening its depot, and returns the exit status. If the depot is open, the task
/// is performed on it once, as [`perform`] says. If the open was refused, the line of the refusal is written to `err`,
/// and the status is 1. A depot that was opened stays open; the caller closes it.
///
/// A crash at any moment leaves what it could have left before, or what the command makes of it.
pub fn carry<S: Alter, O: Sink, E: Sink>(
    alloc: Global,
    pending: &PendingTask<'_>,
    opened: &mut Result<Depot<S>, Refusal>,
    out: &mut O,
    err: &mut E,
) -> u8
    ensures carried { HasCarried (state S.Store) (command_of pending.now.task) result
        opened.old opened.new
        (O.output out.old) (E.output err.old) (O.output out.new) (E.output err.new) }
    ensures survives { OutlastsCarrying (state S.Store) (command_of pending.now.task)
        opened.old opened.new }
{
    match opened {
        Ok(depot) => perform(alloc, &pending.task, depot, out, err),
        Err(refusal) => tell(err, refusal),
    }
}

/// Looks at what opening a file as it is resulted in, and returns the exit status. If the file is a depot, it is looked
/// at, as [`look_over`] says. If it isn't, an inspection writes the reason to `out`, as [`tell_no_depot`] says, a scrub
/// writes the line of `Database` to `err`, and the status is 1; if memory was refused, the line of `Memory` is written
/// to `err`, and the status is 1.
pub fn look_opened<S: Alter, O: Sink, E: Sink>(
    alloc: Global,
    look: Look,
    opened: &mut Result<Depot<S>, Unopened>,
    out: &mut O,
    err: &mut E,
) -> u8
    ensures reported { HasReported (state S.Store) look result
        opened.old opened.new
        (O.output out.old) (E.output err.old) (O.output out.new) (E.output err.new) }
    ensures survives { OutlastsReporting (state S.Store) opened.old opened.new }
{
    match opened {
        Ok(depot) => look_over(alloc, look, depot, out, err),
        Err(why) => match NoDepot::of(*why) {
            Some(reason) => tell_unseen(out, err, look, reason),
            None => tell(err, &Refusal::Memory),
        },
    }
}

// Reports why a file that is no depot can't be looked at, and returns 1, the status of a refusal.
fn tell_unseen<O: Sink, E: Sink>(out: &mut O, err: &mut E, look: Look, why: NoDepot) -> u8
    ensures status { result ≡ 1 }
    ensures told { HasToldWhy look (Some why) (O.output out.old) (E.output err.old)
        (O.output out.new) (E.output err.new) }
{
    match look {
        Look::Inspect(_) => tell_no_depot(out, err, why),
        Look::Scrub => tell(err, &Refusal::Database),
    }
}
