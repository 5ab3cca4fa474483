// Making a file, whole or not at all.
ghost use Rattle.std.specs.Prelude.{IfErr, OnOk};
ghost use Rattle.depot_jobs.specs.Host.{HasMadeFile, HasNotMade, IsApart, made_from};

use crate::host::{Host, MadeFrom};
use devices::{DeviceFailed, put};
use refusals::Refusal;
use std::alloc::Global;

/// Makes the file `name` of these bytes, whole or not at all. The name must not lead to the file that they are made
/// from, or, if that is a depot, to a file that the depot has next to its own.
///
/// # Errors
///
/// The file that has the name stays as it is; but a device or a pipe can have taken the beginning of the bytes.
///
/// - `Memory` if memory is refused before the file is made.
/// - `Write` if a call on the file fails, or the name isn't allowed.
pub fn make_file<H: Host>(
    alloc: Global,
    host: &mut H,
    name: &str,
    from: MadeFrom<'_>,
    octets: &[u8],
) -> Result<(), Refusal>
    ensures apart { OnOk result (IsApart from.entry name.now) }
    ensures ok { OnOk result (HasMadeFile name.now (made_from from.entry) octets.now
        (H.state host.old) (H.state host.new)) }
    ensures err { IfErr result (λ e. HasNotMade e name.now (made_from from.entry)
        (H.state host.old) (H.state host.new)) }
{
    let mut file = host.create(alloc, name, from)?;
    match put(&mut file, octets) {
        Ok(()) => match host.persist(file) {
            Ok(()) => Ok(()),
            Err(DeviceFailed) => Err(Refusal::Write),
        },
        Err(DeviceFailed) => {
            host.discard(file);
            Err(Refusal::Write)
        }
    }
}
