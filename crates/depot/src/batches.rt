//! Batches, from the open of their depot to its close.
ghost use Rattle.depot.specs.Batches.{HasEnded, batch_of};
ghost use Rattle.depot_jobs.specs.Jobs.{host_and_outputs};

use crate::closing::{Left, close};
use crate::opening::Opener;
use depot_batch::batch;
use depot_jobs::Host;
use devices::{OfRead, OfWrite, Sink, Source};
use sqlite_disk::Disk;
use std::alloc::Global;
use std::io::{BufRead, Write};

/// Opens the depot in the file `name`, does the lines of the input on it, and closes it. Returns the status, and what
/// is left of the files. That is `None` only if opening the files with this name was refused; this refusal was then
/// reported, none of the input was read, and the host was asked for no file.
///
/// `P` describes what the two files held. If they represented a state and the disk returned no wrong data, the turns of
/// the batch lead from that state to the one after them, as their lines were answered: a line alone, or deliveries
/// together, all of them or none. The files hold the state after them, also after a crash. If the close fails, or a
/// crash comes before its end, the files hold that state too, or what one whole turn, during which a failure shut the
/// depot, makes of it.
pub fn serve_from<
    D: Disk + Drop,
    P: Opener<D>,
    H: Host,
    R: BufRead + Drop,
    W: Write + Drop,
    E: Sink,
>(
    alloc: Global,
    name: &str,
    opener: P,
    host: &mut H,
    input: &mut OfRead<R>,
    out: &mut OfWrite<W>,
    err: &mut E,
) -> (u8, Option<Left<D>>)
    ensures ended { HasEnded
        (batch_of name.now result.0 (⟦<OfRead<R> as Source>⟧.supply input.old)
        (⟦<OfRead<R> as Source>⟧.supply input.new)
        (host_and_outputs (H.state host.old) (⟦<OfWrite<W> as Sink>⟧.output out.old) (E.output err.old))
        (host_and_outputs (H.state host.new) (⟦<OfWrite<W> as Sink>⟧.output out.new) (E.output err.new)))
        (P.refuses name.now) (P.image name.now) result.1 }
{
    let mut opened = opener.open(name);
    let status = batch(alloc, name, &mut opened, host, input, out, err);
    let left = close(opened);
    (status, left)
}
