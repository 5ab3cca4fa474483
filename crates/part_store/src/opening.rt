//! How the two files of a store are opened, with a cache that fits it.
//!
//! The database's own call that opens a path takes memory for 2,000 pages, and each open clears it. Here it is
//! [`CACHE_PAGES`]. The rest is as that call has it.
ghost use Rattle.std.specs.Prelude.{◌≡◌, ◌⊎◌, true, false, None, IsTrue, IfOk, IfErr, IfSome};
ghost use Rattle.sqlite_std_file.specs.File.{file_is_usable, IsFresh};
ghost use Rattle.sqlite.specs.declared.error.Error.TheVariants.{SqliteFailure};
ghost use Rattle.sqlite.specs.declared.error.ErrorCode.TheVariants.{CannotOpen, OutOfMemory, DatabaseBusy};
ghost use Rattle.sqlite.specs.State.{HasCleanDisk};
ghost use Rattle.sqlite.specs.Held.{IsNew};
ghost use Rattle.sqlite.specs.Start.{FindsIn};
ghost use Rattle.sqlite.specs.WalFiles.{image_at};
ghost use Rattle.sqlite.specs.Files.{file_state, IsOpened, IsCleanLeft, FailsToOpenFiles, LeavesFiles};

use sqlite::{Connection, Error, ErrorCode, FileFrom, FileStore, Files, Leftover, Options, Start};
use sqlite_std_file::OpenError;
use std::hash::{BuildHasher, RandomState};
use std::io::ErrorKind;

/// How many pages that were read are kept in memory.
const CACHE_PAGES: usize = 500;

const NO_MEMORY: Error = Error::SqliteFailure(ErrorCode::OutOfMemory);

const CANNOT_OPEN: Error = Error::SqliteFailure(ErrorCode::CannotOpen);

/// The log and the database file at a path. Names that SQLite takes for something else are refused.
fn open_pair<B: Start>(rt: &HostRuntime, path: &str, start: B) -> Result<Files<FileFrom<B>>, Error>
    ensures usable { IfOk result (λ files. IsTrue (file_is_usable B.Start files.log)
        × IsTrue (file_is_usable B.Start files.db)) }
    ensures fresh { IfOk result (λ files. IsFresh true files.log × IsFresh false files.db) }
    ensures kind { IfErr result (λ e. (e ≡ SqliteFailure CannotOpen)
        ⊎ ((e ≡ SqliteFailure OutOfMemory) ⊎ (e ≡ SqliteFailure DatabaseBusy))) }
{
    if path == ":memory:" || path.starts_with("file:") {
        return Err(CANNOT_OPEN);
    }
    match sqlite_std_file::open(rt, path, start) {
        Ok(files) => Ok(files),
        Err(OpenError::OutOfMemory) => Err(NO_MEMORY),
        Err(OpenError::Busy) => Err(Error::SqliteFailure(ErrorCode::DatabaseBusy)),
        Err(OpenError::Io(error)) if error.kind() == ErrorKind::OutOfMemory => Err(NO_MEMORY),
        Err(_) => Err(CANNOT_OPEN),
    }
}

/// The memory that the database may take.
fn options(rt: &HostRuntime) -> Result<Options, Error>
    ensures { IfErr result (λ e. e ≡ SqliteFailure CannotOpen) }
{
    let seed = RandomState::new(rt)
        .map_err(|_| CANNOT_OPEN)?
        .hash_one(&0u8);
    let mut options = Options::new(seed);
    options.cache_pages = CACHE_PAGES;
    Ok(options)
}

/// The database in the file at a path. An error comes with what is left of the files, once they were opened.
pub(crate) fn open_database<B: Start>(
    rt: &HostRuntime,
    path: &str,
    start: B,
) -> Result<Connection<FileStore<FileFrom<B>>>, (Error, Option<Leftover<FileFrom<B>>>)>
    ensures opened { IfOk result (λ c. HasCleanDisk (file_state c) → IsOpened c) }
    ensures found { IfOk result (λ c. HasCleanDisk (file_state c)
        → FindsIn (image_at B.Start) (file_state c)) }
    ensures fresh { IfOk result IsNew }
    ensures unopened { IfErr result (λ e. e.1 ≡ None
        → (e.0 ≡ SqliteFailure CannotOpen)
        ⊎ ((e.0 ≡ SqliteFailure OutOfMemory) ⊎ (e.0 ≡ SqliteFailure DatabaseBusy))) }
    ensures cause { IfErr result (λ e. IfSome e.1 (λ left. (files : _) × IsFresh true files.log
        × IsFresh false files.db
        × (IsCleanLeft left → FailsToOpenFiles files left e.0 × LeavesFiles files left))) }
{
    let files = match open_pair(rt, path, start) {
        Ok(files) => files,
        Err(error) => return Err((error, None)),
    };
    let options = match options(rt) {
        Ok(options) => options,
        Err(error) => return Err((error, None)),
    };
    match Connection::open_files_with(rt.alloc(), files, options, false) {
        Ok(conn) => Ok(conn),
        Err((error, left)) => Err((error, Some(left))),
    }
}
