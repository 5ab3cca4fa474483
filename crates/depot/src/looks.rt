//! Looks at a depot, from its open to its close.
ghost use Rattle.depot.specs.Looks.{HasEnded, answer};

use crate::closing::{Left, close};
use crate::opening::Opener;
use depot_cli::{Look, look_opened};
use devices::Sink;
use sqlite_disk::Disk;
use std::alloc::Global;

/// Opens the file `name` as it is, looks at the depot in it, and closes it. Returns the status, and what is left of the
/// files. That is `None` only if opening the files with this name as a depot was refused; the reason was then reported.
///
/// `P` describes what the two files held. If they held the store of a state and the disk returned no wrong data, the
/// status 0 means that what the look asks of that state was written completely, and that no content is damaged if it
/// asks that. The status 1 means that one is, that writing broke off, or that there is no answer for the reason that was
/// reported. The files then hold the same state, also after a crash, and also if the close fails or a crash comes before
/// its end.
pub fn look_from<D: Disk + Drop, P: Opener<D>, O: Sink, E: Sink>(
    alloc: Global,
    name: &str,
    look: Look,
    opener: P,
    out: &mut O,
    err: &mut E,
) -> (u8, Option<Left<D>>)
    ensures ended { HasEnded
        (answer look result.0 (O.output out.old) (E.output err.old)
        (O.output out.new) (E.output err.new))
        (P.refuses_look name.now) (P.image name.now) result.1 }
{
    let mut opened = opener.look(name);
    let status = look_opened(alloc, look, &mut opened, out, err);
    let left = close(opened);
    (status, left)
}
