// What work and requests read: files and standard input.
//
// A listing can be as long as any file that is read, 67,108,864 bytes; a longer one is refused with
// `2 MessageTooLarge`.
ghost use Rattle.std.specs.Prelude.{IfErr, IfOk};
ghost use Rattle.depot_jobs.specs.Host.{origin_of};
ghost use Rattle.depot_jobs.specs.Inputs.{HasNotRead, HasNotReadFile, HasRead, HasReadFile, HaveNotRead, HaveRead, file_of};

use crate::host::{Host, Input};
use crate::reading::read_limited;
use crate::request::Request;
use crate::work::Work;
use mime_decode::MAX_MESSAGE;
use refusals::Refusal;
use std::alloc::Global;

/// Reads what work reads, in the order of its words. If it reads one file, the second bytes are empty.
///
/// # Errors
///
/// Those of [`read_input`], for the first that can't be read. Nothing after it is opened.
pub fn read_inputs<H: Host>(
    alloc: Global,
    work: Work<'_>,
    host: &mut H,
) -> Result<(Vec<u8>, Vec<u8>), Refusal>
    ensures read { IfOk result (λ octets. HaveRead work.entry octets.0.items octets.1.items
        (H.state host.old) (H.state host.new)) }
    ensures refused { IfErr result (λ e. HaveNotRead e work.entry (H.state host.old)
        (H.state host.new)) }
{
    match work {
        Work::OnFile(_, file) => Ok((read_input(alloc, file, host)?, Vec::new(alloc))),
        Work::OnMessage(_, file, message) => {
            let first = read_input(alloc, file, host)?;
            let second = read_input(alloc, message, host)?;
            Ok((first, second))
        }
    }
}

/// Reads a file or standard input: at most 67,108,864 bytes.
///
/// # Errors
///
/// - `MessageTooLarge` if there are more bytes; one more was read.
/// - `Read` if it can't be opened or read.
/// - `Memory` if memory is refused.
pub fn read_input<H: Host>(
    alloc: Global,
    input: Input<'_>,
    host: &mut H,
) -> Result<Vec<u8>, Refusal>
    ensures read { IfOk result (λ octets. HasRead (origin_of input.entry) octets.items
        (H.state host.old) (H.state host.new)) }
    ensures refused { IfErr result (λ e. HasNotRead e (origin_of input.entry) (H.state host.old)
        (H.state host.new)) }
{
    let mut reader = host.open(input)?;
    let octets = read_limited(alloc, &mut reader, MAX_MESSAGE);
    host.close(reader);
    octets
}

/// Reads the file of a request. A request without a file has no bytes.
///
/// # Errors
///
/// - `MessageTooLarge` if the file has more than 67,108,864 bytes; one more was read.
/// - `Read` if it can't be opened or read.
/// - `Memory` if memory is refused.
pub fn read_file_of<H: Host>(
    alloc: Global,
    request: Request<'_>,
    host: &mut H,
) -> Result<Vec<u8>, Refusal>
    ensures read { IfOk result (λ octets. HasReadFile (file_of request.entry) octets.items
        (H.state host.old) (H.state host.new)) }
    ensures unread { IfErr result (λ e. HasNotReadFile e (file_of request.entry)
        (H.state host.old) (H.state host.new)) }
{
    match request.file() {
        Some(file) => read_input(alloc, Input::File(file), host),
        None => Ok(Vec::new(alloc)),
    }
}
