//! Commands on a depot in a folder.
//!
//! What is done with volumes is promised by `carry_on_volumes` and `save_on_volumes` of depot_cli. Nothing is promised of
//! the files of the system: which of them are opened is shown by these bodies, those of `Folder`, and tests.

use crate::telling::tell_made;
use depot_cli::{PendingTask, Saving, carry_on_volumes, save_on_volumes};
use depot_folder::{Folder, make_folder, number_of};
use depot_jobs::{Host, Task, is_beside, tell};
use devices::Sink;
use refusals::Refusal;
use std::fs;
use volumes::VOLUME_SIZE;

/// Returns whether there is a folder at a path.
pub fn is_folder(rt: &HostRuntime, path: &str) -> bool {
    match fs::metadata(rt, path) {
        Ok(found) => found.is_dir(),
        Err(_) => false,
    }
}

/// Makes a folder with the first volume of a depot, and returns the status.
pub fn init_folder<O: Sink, E: Sink>(rt: &HostRuntime, name: &str, out: &mut O, err: &mut E) -> u8 {
    match make_folder(rt, name) {
        Ok(()) => tell_made(name, out, err),
        Err(refusal) => tell(err, &refusal),
    }
}

/// Does a task on the volumes of a folder, and returns the status.
pub fn perform_in_folder<O: Sink, E: Sink>(
    rt: &HostRuntime,
    pending: &PendingTask<'_>,
    out: &mut O,
    err: &mut E,
) -> u8 {
    let mut opened = match &pending.task {
        Task::FromFile(_, _, _) | Task::Migrate => Folder::hold(rt, pending.name),
        Task::OnUser(_, _) | Task::Export { .. } => Folder::list(rt, pending.name),
    };
    let status = carry_on_volumes(rt.alloc(), pending, &mut opened, VOLUME_SIZE, out, err);
    close_folder(opened);
    status
}

// Whether a file is a volume of a folder, or one that the database has next to a volume, or a link to one.
fn is_volume_of(rt: &HostRuntime, file: &str, folder: &str) -> bool {
    let Ok(folder) = fs::canonicalize(rt, folder) else {
        return false;
    };
    if let Ok(file) = fs::canonicalize(rt, file) {
        return is_volume_name(file.as_str()) && parent_of(file.as_str()) == folder.as_str();
    }
    match fs::canonicalize(rt, parent_of(file)) {
        Ok(parent) => is_volume_name(file) && parent.as_str() == folder.as_str(),
        Err(_) => false,
    }
}

// Whether the last name of a path is that of a volume, or of a file that the database has next to one.
fn is_volume_name(path: &str) -> bool {
    let name = match path.rsplit_once('/') {
        Some((_, name)) => name,
        None => path,
    };
    if number_of(name).is_some() {
        return true;
    }
    match name.rsplit_once('-') {
        Some((volume, _)) => number_of(volume).is_some() && is_beside(volume, name),
        None => false,
    }
}

// The path of the folder of a file.
fn parent_of(path: &str) -> &str {
    match path.rsplit_once('/') {
        Some((parent, _)) if parent.is_empty() => "/",
        Some((parent, _)) => parent,
        None => ".",
    }
}

/// Saves a user's program from the newest volume of a folder, but not as one of its volumes, and returns the status.
pub fn save_from_folder<H: Host, O: Sink, E: Sink>(
    rt: &HostRuntime,
    saving: Saving<'_>,
    host: &mut H,
    out: &mut O,
    err: &mut E,
) -> u8 {
    if is_volume_of(rt, saving.out, saving.name) {
        return tell(err, &Refusal::Write);
    }
    let mut opened = Folder::hold(rt, saving.name);
    let status = save_on_volumes(rt.alloc(), saving, &mut opened, host, out, err);
    close_folder(opened);
    status
}

// Closes what is open of a folder.
fn close_folder(opened: Result<Folder<'_>, Refusal>) {
    if let Ok(folder) = opened {
        folder.close();
    }
}
