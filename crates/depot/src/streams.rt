// Standard streams that are closed.

use std::fs::{File, OpenOptions};
use std::io;
use std::os::fd::AsFd;

/// A device that reads as empty and takes everything that is written to it.
const NULL_DEVICE: &str = "/dev/null";

/// The number of the error that a descriptor isn't open.
const NOT_OPEN: i32 = 9;

/// What is open instead of the standard streams that were closed. [`hold_closed`] makes it; keep it as long as the
/// program runs.
#[derive(Drop)]
pub struct Held {
    _input: Option<File>,
    _output: Option<File>,
    _errors: Option<File>,
}

/// Opens a null device instead of each standard stream that is closed, so that no file that is opened later gets its
/// number. The device is opened the other way round, so that reads from standard input and writes to the other two fail
/// as they do on a closed stream.
///
/// The lowest free number is the one that the system gives, so what is closed is opened in order.
///
/// # Errors
///
/// A fault of the system if the null device can't be opened.
pub fn hold_closed(rt: &HostRuntime) -> io::Result<Held> {
    Ok(Held {
        _input: hold_if_closed(rt, rt.stdin(), OpenOptions::new().write(true))?,
        _output: hold_if_closed(rt, rt.stdout(), OpenOptions::new().read(true))?,
        _errors: hold_if_closed(rt, rt.stderr(), OpenOptions::new().read(true))?,
    })
}

// Opens a null device if a standard stream is closed.
fn hold_if_closed<S: AsFd + Drop>(
    rt: &HostRuntime,
    stream: S,
    options: &OpenOptions,
) -> io::Result<Option<File>> {
    match stream.as_fd().try_clone_to_owned() {
        Ok(_) => Ok(None),
        Err(fault) if fault.raw_os_error() == Some(NOT_OPEN) => {
            Ok(Some(options.open(rt, NULL_DEVICE)?))
        }
        Err(fault) => Err(fault),
    }
}
