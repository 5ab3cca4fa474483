//! Programs that are saved, from the open of their depot to its close.
ghost use Rattle.depot_jobs.specs.Jobs.{host_and_outputs};
ghost use Rattle.depot.specs.Programs.{HasEnded, save_of};

use crate::closing::{Left, close};
use crate::opening::Opener;
use depot_cli::{Saving, save};
use depot_jobs::Host;
use devices::Sink;
use sqlite_disk::Disk;
use std::alloc::Global;

/// Opens the depot of a user, saves the user's program from it as a file, and closes it. Returns the status, and what
/// is left of the files of the depot. That is `None` only if opening the files with this name was refused; this refusal
/// was then reported, and the host was asked for no file.
///
/// `P` describes what the two files held. If they represented a state and the disk returned no wrong data, the status 0
/// means that the user has a program in that state, that the file has it, and that its length was written; the status 1
/// means that no file was made and the reason was reported, or that the writing broke off. The files of the depot then
/// hold the same state, also after a crash, and also if the close fails or a crash comes before its end.
pub fn save_from<D: Disk + Drop, P: Opener<D>, H: Host, O: Sink, E: Sink>(
    alloc: Global,
    saving: Saving<'_>,
    opener: P,
    host: &mut H,
    out: &mut O,
    err: &mut E,
) -> (u8, Option<Left<D>>)
    ensures ended { HasEnded
        (save_of saving.entry result.0
        (host_and_outputs (H.state host.old) (O.output out.old) (E.output err.old))
        (host_and_outputs (H.state host.new) (O.output out.new) (E.output err.new)))
        (P.refuses saving.entry.name.now) (P.image saving.entry.name.now) result.1 }
{
    let mut opened = opener.open(saving.name);
    let status = save(alloc, saving, &mut opened, host, out, err);
    let left = close(opened);
    (status, left)
}
