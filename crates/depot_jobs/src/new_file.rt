// A file that is being made, next to the file whose name it is to have.
//
// A compiled program is made whole or not at all: it is written next to the file whose name it is to have, and gets the
// name at the end. If that fails, the old file stays. A device or a pipe can't be replaced, so it is written directly.
// The program's bytes are made before the file is, so a refused script never makes a file. The script's own file is
// never overwritten, also under another name or by a link; nor is a listing by `assemble`, nor a depot by `program`.
//
// A database has files next to its own, with its name and an ending. These names of a database that is there are
// refused, and those of a depot that the words name, whatever is there.
ghost use Rattle.std.specs.Prelude.{◌≡◌, false, IfOk, IfSome, OnOk};
ghost use Rattle.std.specs.Path.{path_buf_bytes, path_with_file_name};
ghost use Rattle.depot_jobs.specs.Files.{IsReached};
ghost use Rattle.depot_jobs.specs.Private.{new_name};
ghost use Rattle.depot_jobs.specs.Host.{IsApart, is_beside};

use crate::beside::{is_beside, is_beside_database};
use crate::host::MadeFrom;
use devices::{DeviceFailed, OfWrite, Sink};
use std::alloc::{AllocError, Global};
use std::fs::{File, Files, Metadata, OpenFile, OpenOptions};
use std::io;
use std::io::{Error, ErrorKind, Write};
use std::os::fd::AsFd;
use std::os::unix::fs::{MetadataExt, OpenOptionsExt, PermissionsExt, fchown};
use std::path::PathBuf;

/// How many symbolic links are followed one after another: as many as Linux follows.
const MAX_LINKS: u32 = 40;

/// How many names are tried for a new file, if other files have them.
const MAX_NAMES: u32 = 100;

/// The permissions of a file that replaces no other, as far as the process grants them.
const NEW_FILE: u32 = 0o666;

/// A file that is being made. [`begin`] makes it; [`persist`] gives it its name, and [`discard`] removes it.
pub struct NewFile<F: Write + Drop> {
    /// What takes the file's bytes.
    pub sink: OfWrite<F>,
    /// Where the file is and where it is to be; `None` if an existing device or pipe is written directly.
    pub paths: Option<Paths>,
}

/// Where a file that is being made is, and where it is to be.
#[derive(Drop)]
pub struct Paths {
    /// Where the file is while it is being made.
    pub made: PathBuf,
    /// Where the file is to be. This is no symbolic link.
    pub kept: PathBuf,
}

impl<F: Write + Drop> Sink for NewFile<F> {
    ghost output = { λ s. record { written = F.contents s.sink.inner; faults = s.sink.faults } };

    fn write(&mut self, octets: &[u8]) -> Result<usize, DeviceFailed> {
        self.sink.write(octets)
    }
}

/// Starts making a file that is to have this name. If a regular file has the name, or none, that stays as it is, and
/// the new file is made next to it; symbolic links are followed first. If a device or a pipe has the name, that is
/// written.
///
/// # Errors
///
/// - A fault of the system if the file can't be made, or the one with that name can't be written.
/// - A fault if the name leads to the file that the new one is made from, or to a file that a database has next to its
///   own: the depot that the new file is made from, or any that is there.
pub fn begin<R: Files>(
    rt: &R,
    alloc: Global,
    number: u32,
    name: &str,
    from: MadeFrom<'_>,
) -> io::Result<NewFile<R::File>>
where
    R::File: AsFd,
    ensures apart { OnOk result (IsApart from.entry name.now) }
    ensures faults { IfOk result (λ file. file.sink.faults ≡ 0) }
    ensures stands { IfOk result (λ file. IfSome file.paths
        (λ paths. IsReached name.now (path_buf_bytes paths.kept))) }
{
    if is_named_beside(from, name) {
        return Err(Error::from(ErrorKind::InvalidInput));
    }
    match File::options().write(true).open(rt, name) {
        Ok(file) => {
            let old = file.metadata()?;
            if old.is_file() {
                begin_in_place_of(rt, alloc, number, name, from, &old)
            } else {
                Ok(NewFile {
                    sink: OfWrite::new(file),
                    paths: None,
                })
            }
        }
        Err(fault) if fault.kind() == ErrorKind::NotFound => {
            let kept = without_links(rt, alloc, name)?;
            stay_apart(rt, alloc, from, &kept)?;
            begin_beside(rt, alloc, number, kept, NEW_FILE)
        }
        Err(fault) => Err(fault),
    }
}

// Makes a file that is to replace a regular one, with the permissions and the owner of that one.
fn begin_in_place_of<R: Files>(
    rt: &R,
    alloc: Global,
    number: u32,
    name: &str,
    from: MadeFrom<'_>,
    old: &Metadata,
) -> io::Result<NewFile<R::File>>
where
    R::File: AsFd,
    ensures faults { IfOk result (λ file. file.sink.faults ≡ 0) }
    ensures stands { IfOk result (λ file. IfSome file.paths
        (λ paths. IsReached name.now (path_buf_bytes paths.kept))) }
{
    let kept = without_links(rt, alloc, name)?;
    if is_same_file(rt, from.name(), old) || !is_same_file(rt, kept.as_str(), old) {
        return Err(Error::from(ErrorKind::InvalidInput));
    }
    stay_apart(rt, alloc, from, &kept)?;
    let file = begin_beside(rt, alloc, number, kept, old.permissions().mode())?;
    match take_after(&file.sink.inner, old) {
        Ok(()) => Ok(file),
        Err(fault) => {
            discard(rt, file);
            Err(fault)
        }
    }
}

// Gives a file the permissions of another, and its owner and group if the process has the right. This applies to the
// open file, whatever has its name by then.
fn take_after<F: OpenFile + AsFd>(file: &F, old: &Metadata) -> io::Result<()> {
    let _ = fchown(file, Some(old.uid()), Some(old.gid()));
    file.set_permissions(old.permissions())
}

// Whether a name is that of a file that a database with the depot's name has next to its own, if it is made from one.
fn is_named_beside(from: MadeFrom<'_>, name: &str) -> bool
    ensures { result ≡ false → IsApart from.entry name.now }
{
    match from {
        MadeFrom::Source(_) => false,
        MadeFrom::Depot(depot) => is_beside(depot, name),
    }
}

// Refuses a path that leads to a file that a database has next to its own.
fn stay_apart<R: Files>(
    rt: &R,
    alloc: Global,
    from: MadeFrom<'_>,
    kept: &PathBuf,
) -> io::Result<()> {
    if is_beside_depot(rt, alloc, from, kept)? || is_beside_database(rt, alloc, kept)? {
        return Err(Error::from(ErrorKind::InvalidInput));
    }
    Ok(())
}

// Whether a path leads, by whatever names and links, to a file that the depot from which the new file is made has next
// to its own.
fn is_beside_depot<R: Files>(
    rt: &R,
    alloc: Global,
    from: MadeFrom<'_>,
    kept: &PathBuf,
) -> io::Result<bool> {
    let MadeFrom::Depot(depot) = from else {
        return Ok(false);
    };
    match rt.canonicalize(alloc, depot) {
        Ok(real) => Ok(are_beside(rt, &real, kept)),
        Err(fault) if fault.kind() == ErrorKind::OutOfMemory => Err(fault),
        // something without a path, such as a pipe, is no database
        Err(_) => Ok(false),
    }
}

// Whether a path leads to a file that the database at another path has next to its own.
fn are_beside<R: Files>(rt: &R, database: &PathBuf, path: &PathBuf) -> bool {
    match (database.file_name(), path.file_name()) {
        (Some(base), Some(name)) => is_beside(base, name) && is_same_folder(rt, database, path),
        _ => false,
    }
}

// Whether two paths are in the same folder.
fn is_same_folder<R: Files>(rt: &R, first: &PathBuf, second: &PathBuf) -> bool {
    match rt.metadata(folder_of(first)) {
        Ok(folder) => is_same_file(rt, folder_of(second), &folder),
        Err(_) => false,
    }
}

// The folder of a path; the current folder if the path names none.
fn folder_of(path: &PathBuf) -> &str {
    match path.parent() {
        Some(folder) if !folder.as_str().is_empty() => folder.as_str(),
        _ => ".",
    }
}

// Makes a file in the folder in which it is to be, with a name that no other file has there.
fn begin_beside<R: Files>(
    rt: &R,
    alloc: Global,
    number: u32,
    kept: PathBuf,
    mode: u32,
) -> io::Result<NewFile<R::File>>
    ensures faults { IfOk result (λ file. file.sink.faults ≡ 0) }
    ensures stands { IfOk result (λ file. IfSome file.paths
        (λ paths. path_buf_bytes paths.kept ≡ path_buf_bytes kept)) }
{
    for n in 0..MAX_NAMES {
        let made = path_beside(alloc, &kept, number, n)?;
        match create_new(rt, made.as_str(), mode) {
            Ok(file) => {
                return Ok(NewFile {
                    sink: OfWrite::new(file),
                    paths: Some(Paths { made, kept }),
                });
            }
            Err(fault) if fault.kind() == ErrorKind::AlreadyExists => {}
            Err(fault) => return Err(fault),
        }
    }
    Err(Error::from(ErrorKind::AlreadyExists))
}

// Makes a file if there is none.
fn create_new<R: Files>(rt: &R, path: &str, mode: u32) -> io::Result<R::File> {
    OpenOptions::new()
        .write(true)
        .create_new(true)
        .mode(mode)
        .open(rt, path)
}

// The path of a new file, in the folder of another.
fn path_beside(alloc: Global, kept: &PathBuf, number: u32, n: u32) -> Result<PathBuf, AllocError>
    ensures { IfOk result (λ path. path_buf_bytes path
        ≡ path_with_file_name (path_buf_bytes kept.now) (new_name number n)) }
{
    let name = format!(in alloc; ".depot-{number}-{n}")?;
    kept.with_file_name(alloc, name.as_str())
}

// The path that a name leads to after symbolic links, also if there is no such file.
fn without_links<R: Files>(rt: &R, alloc: Global, name: &str) -> io::Result<PathBuf>
    ensures { IfOk result (λ path. IsReached name.now (path_buf_bytes path)) }
{
    let mut path = PathBuf::from_str(alloc, name)?;
    for _ in 0..MAX_LINKS {
        match rt.read_link(alloc, path.as_str()) {
            Ok(link) => path = path.with_file_name(alloc, link.as_str())?,
            // no link, or nothing with that name
            Err(fault) if matches!(fault.kind(), ErrorKind::InvalidInput | ErrorKind::NotFound) => {
                return Ok(path);
            }
            Err(fault) => return Err(fault),
        }
    }
    Err(Error::from(ErrorKind::FilesystemLoop))
}

// Whether a name leads to this file.
fn is_same_file<R: Files>(rt: &R, name: &str, file: &Metadata) -> bool {
    match rt.metadata(name) {
        Ok(other) => other.dev() == file.dev() && other.ino() == file.ino(),
        Err(_) => false,
    }
}

/// Gives a file that was made its name, after the system has stored its bytes.
///
/// # Errors
///
/// A fault of the system if the file can't have the name. The new file is gone, and the file that had the name stays as
/// it is.
pub fn persist<R: Files>(rt: &R, file: NewFile<R::File>) -> io::Result<()> {
    let NewFile { sink, paths } = file;
    let Some(Paths { made, kept }) = paths else {
        return Ok(());
    };
    let kept = sink
        .inner
        .sync_all()
        .and_then(|()| rt.rename(made.as_str(), kept.as_str()));
    if kept.is_err() {
        let _ = rt.remove_file(made.as_str());
    }
    kept
}

/// Removes a file that was made.
pub fn discard<R: Files>(rt: &R, file: NewFile<R::File>) {
    let NewFile { sink: _, paths } = file;
    if let Some(Paths { made, kept: _ }) = paths {
        let _ = rt.remove_file(made.as_str());
    }
}
