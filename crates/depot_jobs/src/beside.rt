// The files that a database has next to its own.
ghost use Rattle.std.specs.Prelude.{◌≡◌, ◌++◌, IfSome, true};
ghost use Rattle.std.specs.Str.{bytes_eq};
ghost use Rattle.depot_jobs.specs.Host.{is_beside};

use std::alloc::Global;
use std::fs::{self, Files};
use std::io::{self, ErrorKind, Read};
use std::path::PathBuf;

/// How a database begins.
const DATABASE_HEAD: &[u8] = b"SQLite format 3\0";

/// How the log of a database begins; the next byte is 0x82 or 0x83.
const LOG_HEAD: &[u8] = &[0x37, 0x7f, 0x06];

/// What a file is, by its first 16 bytes.
#[derive(Clone, Copy)]
enum Head {
    /// A regular file that begins as a database does.
    Database,
    /// A regular file that begins as the log of a database does.
    Log,
    /// An empty regular file.
    Empty,
    /// Another regular file, another kind of file, or none.
    Other,
}

/// Whether `name` is the name of a file that the database called `database` has next to its own: its log (`-wal`), the
/// log's index (`-shm`), or its journal (`-journal`).
pub fn is_beside(database: &str, name: &str) -> bool
    ensures { result ≡ is_beside database.now name.now }
{
    is_joined(name, database, "-wal")
        || is_joined(name, database, "-shm")
        || is_joined(name, database, "-journal")
}

// Whether a text consists of two others, one after the other.
#[tactic(auto, using(crate::proofs::NameLemmas::is_both))]
fn is_joined(text: &str, first: &str, second: &str) -> bool
    ensures { result ≡ bytes_eq text.now (first.now ++ second.now) }
{
    match text.as_bytes().strip_prefix(first.as_bytes()) {
        Some(rest) => rest == second.as_bytes(),
        None => false,
    }
}

/// Whether a path is that of a file that a database in the same folder has next to its own. The database is there if its
/// file begins as one does, or is empty because everything is in the log.
///
/// # Errors
///
/// A fault of the system if a file there can't be read, or if memory is refused.
pub fn is_beside_database<R: Files>(rt: &R, alloc: Global, path: &PathBuf) -> io::Result<bool> {
    let Some(name) = path.file_name() else {
        return Ok(false);
    };
    let Some(database) = database_beside(name) else {
        return Ok(false);
    };
    let file = path.with_file_name(alloc, database)?;
    match head_of(rt, file.as_str())? {
        Head::Database => Ok(true),
        Head::Empty => {
            let name = format!(in alloc; "{database}-wal")?;
            let log = path.with_file_name(alloc, name.as_str())?;
            let head = head_of(rt, log.as_str())?;
            Ok(matches!(head, Head::Log))
        }
        Head::Log | Head::Other => Ok(false),
    }
}

// The name of the database that has a file of this name next to its own, if one can have it.
fn database_beside(name: &str) -> Option<&str>
    ensures { IfSome result (λ database. is_beside database.now name.now ≡ true) }
{
    let Some((database, _)) = name.rsplit_once('-') else {
        return None;
    };
    if is_beside(database, name) {
        Some(database)
    } else {
        None
    }
}

// What the file at a path is.
fn head_of<R: Files>(rt: &R, path: &str) -> io::Result<Head> {
    match rt.metadata(path) {
        Ok(found) if !found.is_file() => return Ok(Head::Other),
        Ok(found) if found.len() == 0 => return Ok(Head::Empty),
        Ok(_) => {}
        Err(fault) if fault.kind() == ErrorKind::NotFound => return Ok(Head::Other),
        Err(fault) => return Err(fault),
    }
    let mut file = fs::open(rt, path)?;
    let mut head = [0; 16];
    match file.read_exact(&mut head) {
        Ok(()) => Ok(kind_of(&head)),
        Err(fault) if fault.kind() == ErrorKind::UnexpectedEof => Ok(Head::Other),
        Err(fault) => Err(fault),
    }
}

// What a file is whose first bytes these are.
fn kind_of(head: &[u8]) -> Head {
    if head == DATABASE_HEAD {
        Head::Database
    } else if head.starts_with(LOG_HEAD) {
        Head::Log
    } else {
        Head::Other
    }
}
