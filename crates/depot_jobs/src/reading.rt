// Reading up to a limit.
ghost use Rattle.std.specs.Prelude.{◌≡◌, ◌+◌, ◌<◌, ◌≤◌, drop, take, vec_len, IfErr, IfOk, OnErr, OnOk};
ghost use Rattle.depot_jobs.specs.LimitedReading.{HasGivenUp};
ghost use Rattle.devices.specs.Supply.{HasEnded, HasFailedToGive, HasGiven};

use devices::{DeviceFailed, Source};
use refusals::Refusal;
use std::alloc::{AllocError, Global};

/// How many bytes are asked for first. Most messages aren't longer.
const FIRST_PIECE: usize = 4_096;

/// The most bytes that are asked for at a time.
const PIECE: usize = 65_536;

/// Reads all bytes of a source, up to its end, if there are at most `limit`.
///
/// # Errors
///
/// - `MessageTooLarge` only if the source gives more than `limit` bytes. At most one more than `limit` is read, also
///   from a source that never ends.
/// - `Read` if the source fails.
/// - `Memory` if memory is refused.
pub fn read_limited<R: Source>(
    alloc: Global,
    source: &mut R,
    limit: usize,
) -> Result<Vec<u8>, Refusal>
    ensures all { IfOk result (λ octets. HasGiven octets.items (R.supply source.old)
        (R.supply source.new)) }
    ensures ended { OnOk result (HasEnded (R.supply source.new)) }
    ensures small { IfOk result (λ octets. vec_len octets ≤ limit) }
    ensures refused { IfErr result (λ e. HasGivenUp e limit (R.supply source.old)
        (R.supply source.new)) }
{
    let mut octets = Vec::new(alloc);
    let mut filled = 0;
    'pieces: loop {
        make_room(&mut octets, filled, limit)?;
        match read_from(source, &mut octets, filled) {
            Ok(0) => {
                octets.truncate(filled);
                return Ok(octets);
            }
            Ok(n) => filled += n,
            Err(DeviceFailed) => return Err(Refusal::Read),
        }
        if filled > limit {
            return Err(Refusal::MessageTooLarge);
        }
    }
}

// Makes room after the bytes that are filled: for a piece, for as much again as there is, or for one byte more than the
// limit. So no byte is read for which memory is refused.
fn make_room(octets: &mut Vec<u8>, filled: usize, limit: usize) -> Result<(), AllocError>
    requires filled { filled ≤ vec_len octets.old }
    requires more { filled ≤ limit }
    requires small { vec_len octets.old ≤ limit + 1 }
    ensures kept { OnOk result (take filled octets.new.items ≡ take filled octets.old.items) }
    ensures some { OnOk result (filled < vec_len octets.new) }
    ensures small { OnOk result (vec_len octets.new ≤ limit + 1) }
{
    let piece = filled.max(FIRST_PIECE).min(PIECE);
    let end = limit.saturating_add(1).min(filled + piece);
    if octets.len() < end {
        octets.resize(end, 0)?;
    }
    Ok(())
}

// One read into the room after the bytes that are filled.
fn read_from<R: Source>(
    source: &mut R,
    octets: &mut Vec<u8>,
    filled: usize,
) -> Result<usize, DeviceFailed>
    requires { filled < vec_len octets.old }
    ensures len { vec_len octets.new ≡ vec_len octets.old }
    ensures kept { take filled octets.new.items ≡ take filled octets.old.items }
    ensures bound { IfOk result (λ n. filled + n ≤ vec_len octets.new) }
    ensures ok { IfOk result (λ n. HasGiven (take n (drop filled octets.new.items))
        (R.supply source.old) (R.supply source.new)) }
    ensures ended { IfOk result (λ n. n ≡ 0 → HasEnded (R.supply source.new)) }
    ensures err { OnErr result (HasFailedToGive (R.supply source.old) (R.supply source.new)) }
{
    source.read(&mut octets[filled..])
}
