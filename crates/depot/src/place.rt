// What is at a path, before anything there is opened.
//
// No clause can say what the system reports about a file, or which bytes it gives. The functions that draw a conclusion
// from it have clauses.
ghost use Rattle.std.specs.Prelude.{◌≡◌, ◌≢◌, ◌↔◌, Err, IfErr, IfOk, IfSome, IsTrue, None, Ok, Some};
ghost use Rattle.std.specs.Fs.{metadata_len};
ghost use Rattle.std.specs.Io.{StartsWith};
ghost use Rattle.std.specs.IoError.{error_kind};
ghost use Rattle.depot.specs.Obstacles.{obstacle_of};
ghost use Rattle.depot.specs.Places.{IsSeenAs, database_head};

use depot_cli::{NoDepot, tell_no_depot};
use depot_jobs::tell;
use devices::Sink;
use refusals::Refusal;
use std::alloc::{AllocError, Global};
use std::fs::{self, File, Metadata, OpenOptions};
use std::io::{self, ErrorKind, Read};
use std::os::unix::fs::MetadataExt;

/// What the name of a log adds to the name of its file.
const LOG_ENDING: &str = "-wal";

/// How a database begins.
const DATABASE_HEAD: &[u8; 16] = b"SQLite format 3\0";

/// Why nothing at a path is opened. [`look_at`] returns it, and `depot inspect` reports it.
#[derive(Clone, Copy)]
pub enum Obstacle {
    /// The file is no depot.
    NoDepot(NoDepot),
    /// Memory was refused.
    Memory,
}

impl From<io::Error> for Obstacle {
    ghost from_gives = { λ fault why. why ≡ obstacle_of (error_kind fault) };

    fn from(fault: io::Error) -> Obstacle {
        match fault.kind() {
            ErrorKind::OutOfMemory => Obstacle::Memory,
            ErrorKind::NotFound => Obstacle::NoDepot(NoDepot::NoFile),
            ErrorKind::NotADirectory => Obstacle::NoDepot(NoDepot::NoPath),
            ErrorKind::PermissionDenied | ErrorKind::ReadOnlyFilesystem => {
                Obstacle::NoDepot(NoDepot::NoRights)
            }
            _ => Obstacle::NoDepot(NoDepot::Disk),
        }
    }
}

impl From<AllocError> for Obstacle {
    fn from(_refused: AllocError) -> Obstacle {
        Obstacle::Memory
    }
}

/// Reports why nothing is opened, and returns 1, the status of a refusal.
pub fn tell_obstacle<O: Sink, E: Sink>(out: &mut O, err: &mut E, obstacle: Obstacle) -> u8
    ensures { result ≡ 1 }
{
    match obstacle {
        Obstacle::NoDepot(why) => tell_no_depot(out, err, why),
        Obstacle::Memory => tell(err, &Refusal::Memory),
    }
}

/// Looks at a file from outside, and returns the size in bytes of the log next to it, if there is one. The file can be
/// a depot: it is a regular file with one name, this process can read and write it, and it begins as a database does,
/// or it is empty and its log has the contents.
///
/// # Errors
///
/// Nothing was made or changed.
///
/// - [`Obstacle::NoDepot`] if the file can't be a depot, with the reason.
/// - [`Obstacle::Memory`] if memory is refused.
pub fn look_at(rt: &HostRuntime, path: &str) -> Result<Option<u64>, Obstacle> {
    let found = match fs::metadata(rt, path) {
        Ok(found) => found,
        Err(fault) if fault.kind() == ErrorKind::NotFound => return Err(missing(rt, path)),
        Err(fault) => return Err(fault.into()),
    };
    let log = octets_of_log(rt, path)?;
    if let Some(why) = fault_of(&found, found.nlink(), log) {
        return Err(Obstacle::NoDepot(why));
    }
    let mut file = OpenOptions::new().read(true).write(true).open(rt, path)?;
    if found.len() != 0 && !begins_as_database(rt.alloc(), &mut file)? {
        return Err(Obstacle::NoDepot(NoDepot::Damaged));
    }
    Ok(log)
}

// Whether a file begins as every database does. No log is made next to a file that doesn't.
fn begins_as_database<R: Read + Drop>(alloc: Global, file: R) -> io::Result<bool>
    ensures { IfOk result (λ begins. IfSome (R.remaining file)
        (λ left. IsTrue begins ↔ StartsWith left database_head)) }
{
    let mut head = Vec::new(alloc);
    file.take(DATABASE_HEAD.len() as u64)
        .read_to_end(&mut head)?;
    Ok(head.as_slice() == DATABASE_HEAD.as_slice())
}

// Why nothing has a name: there is no such file, or no such folder.
fn missing(rt: &HostRuntime, path: &str) -> Obstacle {
    let Some((folder, _)) = path.rsplit_once('/') else {
        return Obstacle::NoDepot(NoDepot::NoFile);
    };
    if folder.is_empty() {
        return Obstacle::NoDepot(NoDepot::NoFile);
    }
    match fs::metadata(rt, folder) {
        Ok(_) => Obstacle::NoDepot(NoDepot::NoFile),
        Err(fault) if fault.kind() == ErrorKind::NotFound => Obstacle::NoDepot(NoDepot::NoFolder),
        Err(fault) => fault.into(),
    }
}

// The size of the log, which is next to the file itself if the path leads to it by a link.
fn octets_of_log(rt: &HostRuntime, path: &str) -> Result<Option<u64>, Obstacle> {
    let real = fs::canonicalize(rt, path)?;
    let mut log = String::from_str(rt.alloc(), real.as_str())?;
    log.push_str(LOG_ENDING)?;
    size_of_log(fs::symlink_metadata(rt, log.as_str()))
}

// The size of a log, by what was found under its name. There is none only if nothing was found there.
fn size_of_log(found: io::Result<Metadata>) -> Result<Option<u64>, Obstacle>
    ensures size { IfOk found (λ log. result ≡ Ok (Some (metadata_len log))) }
    ensures none { IfErr found (λ fault. error_kind fault ≡ ErrorKind.NotFound → result ≡ Ok None) }
    ensures refused { IfErr found (λ fault. error_kind fault ≢ ErrorKind.NotFound
        → result ≡ Err (obstacle_of (error_kind fault))) }
{
    match found {
        Ok(found) => Ok(Some(found.len())),
        Err(fault) if fault.kind() == ErrorKind::NotFound => Ok(None),
        Err(fault) => Err(fault.into()),
    }
}

// What is wrong with a file, if that can be seen from outside. `names` is how many names it has.
fn fault_of(found: &Metadata, names: u64, log: Option<u64>) -> Option<NoDepot>
    ensures { IsSeenAs found.now names log result }
{
    if found.is_dir() {
        return Some(NoDepot::Directory);
    }
    if !found.is_file() {
        return Some(NoDepot::Special);
    }
    if names != 1 {
        return Some(NoDepot::SecondName);
    }
    if found.len() == 0 && log.unwrap_or(0) == 0 {
        return Some(NoDepot::Empty);
    }
    None
}
