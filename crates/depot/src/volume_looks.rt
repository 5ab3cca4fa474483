//! Looks at the volumes of a folder, one after another.
//!
//! What is reported of each volume is what `inspect` reports of its file, which `look_from` promises. Nothing is promised
//! of the names that the system lists.

use crate::inspect_file;
use crate::place::{Obstacle, look_at, tell_obstacle};
use crate::telling::{VolumeAt, VolumeCount, tell_printed};
use depot_cli::{NoDepot, tell_no_depot};
use depot_folder::{number_of, path_of};
use depot_jobs::{SUCCESS, tell};
use devices::Sink;
use refusals::Refusal;
use std::fs;
use std::io::{self, ErrorKind};

/// The numbers of the oldest and the newest volume of a folder.
#[derive(Clone, Copy)]
struct Ends {
    oldest: u32,
    newest: u32,
}

/// Reports what each volume of a folder is, the oldest first, and then how many there are; or only up to the first that
/// is no depot. Returns the status. An empty file after the other volumes is one that hasn't begun, and doesn't count.
pub fn inspect_folder<O: Sink, E: Sink>(
    rt: &HostRuntime,
    name: &str,
    out: &mut O,
    err: &mut E,
) -> u8 {
    match ends_of(rt, name) {
        Ok(Some(ends)) => inspect_volumes(rt, name, ends, out, err),
        Ok(None) => tell_no_depot(out, err, NoDepot::Directory),
        Err(fault) => tell_obstacle(out, err, fault.into()),
    }
}

// The numbers of the oldest and the newest volume in a folder, by the names there; `None` if none is a volume's.
fn ends_of(rt: &HostRuntime, path: &str) -> io::Result<Option<Ends>> {
    let mut ends = None;
    for entry in fs::read_dir(rt, path)? {
        let number = match entry {
            Ok(entry) => number_of(entry.file_name()),
            // A name that isn't UTF-8 is no volume's.
            Err(fault) if fault.kind() == ErrorKind::InvalidFilename => None,
            Err(fault) => return Err(fault),
        };
        if let Some(number) = number {
            ends = Some(widened(ends, number));
        }
    }
    Ok(ends)
}

// The ends with one more volume.
fn widened(ends: Option<Ends>, number: u32) -> Ends {
    match ends {
        Some(Ends { oldest, newest }) => Ends {
            oldest: oldest.min(number),
            newest: newest.max(number),
        },
        None => Ends {
            oldest: number,
            newest: number,
        },
    }
}

// Reports what the volumes are, and how many, or only up to one that is no depot.
fn inspect_volumes<O: Sink, E: Sink>(
    rt: &HostRuntime,
    folder: &str,
    ends: Ends,
    out: &mut O,
    err: &mut E,
) -> u8 {
    let Ends { oldest, newest } = ends;
    let mut count: u32 = 0;
    for number in oldest..newest.saturating_add(1) {
        let Ok(path) = path_of(rt.alloc(), folder, number) else {
            return tell(err, &Refusal::Memory);
        };
        if number == newest && number != oldest && has_not_begun(rt, path.as_str()) {
            break;
        }
        let status = inspect_volume(rt, path.as_str(), out, err);
        if status != SUCCESS {
            return status;
        }
        count = count.saturating_add(1);
    }
    tell_printed(&VolumeCount { count }, out, err)
}

// Whether there is only an empty file for a volume, as a process leaves it that ends while it makes one.
fn has_not_begun(rt: &HostRuntime, path: &str) -> bool {
    matches!(look_at(rt, path), Err(Obstacle::NoDepot(NoDepot::Empty)))
}

// Reports what a volume is, after its path.
fn inspect_volume<O: Sink, E: Sink>(rt: &HostRuntime, path: &str, out: &mut O, err: &mut E) -> u8 {
    let status = tell_printed(&VolumeAt { path }, out, err);
    if status != SUCCESS {
        return status;
    }
    if is_no_file(rt, path) {
        return tell_no_depot(out, err, NoDepot::Special);
    }
    inspect_file(rt, path, out, err)
}

// Whether a path leads to something else than a regular file, for example to a link.
fn is_no_file(rt: &HostRuntime, path: &str) -> bool {
    match fs::symlink_metadata(rt, path) {
        Ok(found) => !found.is_file(),
        Err(_) => false,
    }
}
