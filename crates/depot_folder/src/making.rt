//! The folder of a depot in volumes, made with its first volume.

use crate::volume::{answered, close_volume, make_volume};
use refusals::Refusal;
use std::fs;
use std::io::ErrorKind;

/// Makes the folder at a path, with the first volume of a depot. An empty folder can be there.
///
/// # Errors
///
/// - `Memory` if memory is refused.
/// - `Database` if something else is at the path, or the folder or the volume can't be made. The folder can remain,
///   without a whole volume.
pub fn make_folder(rt: &HostRuntime, path: &str) -> Result<(), Refusal> {
    match fs::create_dir(rt, path) {
        Ok(()) => {}
        Err(fault) if fault.kind() == ErrorKind::AlreadyExists => require_empty(rt, path)?,
        Err(fault) => return answered(Err(fault)),
    }
    let first = make_volume(rt, path, 1)?;
    close_volume(first);
    Ok(())
}

// Refuses anything but an empty folder.
fn require_empty(rt: &HostRuntime, path: &str) -> Result<(), Refusal> {
    let mut entries = answered(fs::read_dir(rt, path))?;
    match entries.next() {
        Some(_) => Err(Refusal::Database),
        None => Ok(()),
    }
}
