//! The file of one volume: how its depot is opened, made, filled and closed.
ghost use Rattle.std.specs.Prelude.{IfErr, IfOk};
ghost use Rattle.sqlite.specs.Files.{file_state};
ghost use Rattle.sqlite.specs.State.{HasCleanDisk};
ghost use Rattle.part_store.specs.Entries.{no_entries};
ghost use Rattle.part_store.specs.Opening.{IsAt};
ghost use Rattle.volumes.specs.Holding.{IsFailure};

use crate::names::path_of;
use depot_actions::Depot;
use part_store::{PartStore, UserRow};
use refusals::Refusal;
use sqlite::{Alter, FileFrom, FileStore, Unknown};
use std::fs;
use std::io::{self, ErrorKind};
use volumes::failure_of;

/// The depot of a volume, over files of the system, about which nothing is known.
pub type Volume = Depot<FileStore<FileFrom<Unknown>>>;

/// What the system answered.
///
/// # Errors
///
/// `Memory` if memory is refused; `Database` for any other fault.
pub fn answered<T>(answer: io::Result<T>) -> Result<T, Refusal>
    ensures which { IfErr result IsFailure }
{
    match answer {
        Ok(it) => Ok(it),
        Err(fault) if fault.kind() == ErrorKind::OutOfMemory => Err(Refusal::Memory),
        Err(_) => Err(Refusal::Database),
    }
}

/// Opens the volume with a number in a folder, which is there. This waits as [`Depot::open_from`] does.
///
/// # Errors
///
/// - `Memory` if memory is refused.
/// - `Database` if there is no such file, or it can't be opened as a depot.
pub fn open_volume(rt: &HostRuntime, folder: &str, number: u32) -> Result<Volume, Refusal>
    ensures which { IfErr result IsFailure }
{
    let path = path_of(rt.alloc(), folder, number)?;
    let found = answered(fs::symlink_metadata(rt, path.as_str()))?;
    if !found.is_file() {
        return Err(Refusal::Database);
    }
    Depot::open_from(rt, path.as_str(), Unknown)
}

/// Makes the volume with a number in a folder, which isn't there, and opens it. It is empty.
///
/// # Errors
///
/// - `Memory` if memory is refused.
/// - `Database` if the name is taken, or the file can't be made.
pub fn make_volume(rt: &HostRuntime, folder: &str, number: u32) -> Result<Volume, Refusal>
    ensures empty { IfOk result (λ d. HasCleanDisk (file_state d) → IsAt no_entries (file_state d)) }
    ensures which { IfErr result IsFailure }
{
    let path = path_of(rt.alloc(), folder, number)?;
    if answered(is_taken(rt, path.as_str()))? {
        return Err(Refusal::Database);
    }
    match Depot::open_from(rt, path.as_str(), Unknown) {
        Ok(volume) => Ok(volume),
        Err(refusal) => Err(refusal),
    }
}

// Whether something has the name at a path.
fn is_taken(rt: &HostRuntime, path: &str) -> io::Result<bool> {
    match fs::symlink_metadata(rt, path) {
        Ok(_) => Ok(true),
        Err(fault) if fault.kind() == ErrorKind::NotFound => Ok(false),
        Err(fault) => Err(fault),
    }
}

/// Closes a volume. If that fails, its log stays, and the next open copies it.
pub fn close_volume(volume: Volume) {
    let _left = volume.release().close_files();
}

/// Returns the size of the volume with a number in a folder: that of its file and of the log next to it, in bytes.
///
/// # Errors
///
/// - `Memory` if memory is refused.
/// - `Database` if there is no such file, or the system doesn't say its size.
pub fn size_of(rt: &HostRuntime, folder: &str, number: u32) -> Result<u64, Refusal>
    ensures which { IfErr result IsFailure }
{
    let mut path = path_of(rt.alloc(), folder, number)?;
    let file = answered(fs::metadata(rt, path.as_str()))?.len();
    path.push_str("-wal")?;
    let log = answered(size_if_there(rt, path.as_str()))?;
    Ok(file.saturating_add(log))
}

// The size of the file at a path, or 0 if there is none.
fn size_if_there(rt: &HostRuntime, path: &str) -> io::Result<u64> {
    match fs::metadata(rt, path) {
        Ok(found) => Ok(found.len()),
        Err(fault) if fault.kind() == ErrorKind::NotFound => Ok(0),
        Err(fault) => Err(fault),
    }
}

/// Returns the users that a store knows, as [`PartStore::users`] does.
///
/// # Errors
///
/// `Memory` or `Database` if they can't be read.
pub fn users_of<S: Alter>(store: &mut PartStore<S>) -> Result<Vec<UserRow>, Refusal>
    ensures which { IfErr result IsFailure }
{
    match store.users() {
        Ok(users) => Ok(users),
        Err(error) => Err(failure_of(error)),
    }
}

/// Puts users into a store, all or none, as [`PartStore::put_users`] does.
///
/// # Errors
///
/// `Memory` or `Database` if they can't be put in.
pub fn fill<S: Alter>(store: &mut PartStore<S>, users: &[UserRow]) -> Result<(), Refusal>
    ensures which { IfErr result IsFailure }
{
    match store.put_users(users) {
        Ok(()) => Ok(()),
        Err(error) => Err(failure_of(error)),
    }
}
