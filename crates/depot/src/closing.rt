// The close of what was opened.
ghost use Rattle.depot.specs.Private.{IsShut};

use depot_actions::Depot;
use sqlite::{FileStore, Files};
use sqlite_disk::Disk;

/// What is left of files that were opened: both, closed; or the store, if its close failed.
pub type Left<D> = Result<Files<D>, FileStore<D>>;

/// Closes the depot that was opened, if one was: its log is copied into the file. If that fails, the log stays, and the
/// next open copies it.
pub(crate) fn close<D: Disk + Drop, W: Drop>(
    opened: Result<Depot<FileStore<D>>, W>,
) -> Option<Left<D>>
    ensures shut { IsShut opened result }
{
    match opened {
        Ok(depot) => match depot.release().close_files() {
            Ok(files) => Some(Ok(files)),
            Err((_, last)) => Some(Err(last)),
        },
        Err(_) => None,
    }
}
