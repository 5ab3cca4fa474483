// The lines that an input has ready.
ghost use Rattle.std.specs.Prelude.{◌≡◌, ◌⊎◌, ◌++◌, ◌<◌, ◌^◌, [], IfErr, IfOk, IfSome, length};
ghost use Rattle.std.specs.Io.KnownBytes.{Keeps};
ghost use Rattle.std.specs.List.{concat};
ghost use Rattle.devices.specs.Supply.{HasGiven, Supply};
ghost use Rattle.refusals.specs.declared.refusal.Refusal.TheVariants.{Memory, Read};
ghost use Rattle.depot_batch.specs.Lines.{HasNotTaken, HasShown, IsDeliveryLine};
ghost use Rattle.depot_batch.specs.Private.{AreShown, CanTake, IsAhead, IsSeen, MayTake, lines_of};
ghost use Rattle.depot_batch.specs.declared.ahead.Ahead.TheVariants.{Other};

use devices::{OfRead, Source};
use refusals::Refusal;
use std::alloc::{AllocError, Global};
use std::io::{BufRead, Error, ErrorKind};

/// The most lines that are done together.
const MOST_TOGETHER: usize = 64;

/// How each of these lines begins.
const DELIVER: &[u8] = b"deliver ";

/// What an input has ready. [`look_ahead`] finds it without taking anything; a batch then does the deliveries together,
/// or takes the next line alone.
#[derive(Drop)]
pub enum Ahead {
    /// At least two lines that begin as a delivery does, before anything else.
    Deliveries(Vec<Vec<u8>>),
    /// Anything else, or nothing that is known.
    Other,
    /// The end of the input.
    End,
}

/// Looks at what an input has ready, and takes nothing of it. It waits only if nothing is ready.
///
/// # Errors
///
/// - `Memory` if memory is refused.
/// - `Read` if a call on the input fails; the failure is counted.
pub fn look_ahead<R: BufRead + Drop>(alloc: Global, input: &mut OfRead<R>) -> Result<Ahead, Refusal>
    ensures ahead { IfOk result (λ ahead. IsAhead ahead (⟦<OfRead<R> as Source>⟧.supply input.old)
        (⟦<OfRead<R> as Source>⟧.supply input.new)) }
    ensures ready { IfOk result (λ ahead. MayTake ahead (R.remaining input.old.inner)
        (R.consumable_len input.new.inner)) }
    ensures refused { IfErr result (λ e. HasNotTaken e [] (⟦<OfRead<R> as Source>⟧.supply input.old)
        (⟦<OfRead<R> as Source>⟧.supply input.new)) }
{
    match look(alloc, &mut input.inner) {
        Ok(Ahead::End) => {
            input.has_ended = true;
            Ok(Ahead::End)
        }
        Ok(ahead) => Ok(ahead),
        Err(Refusal::Memory) => Err(Refusal::Memory),
        Err(refusal) => {
            input.faults = input.faults.saturating_add(1);
            Err(refusal)
        }
    }
}

// Looks at what a reader has ready.
fn look<R: BufRead>(alloc: Global, reader: &mut R) -> Result<Ahead, Refusal>
    ensures seen { IfOk result (λ ahead. IsSeen ahead (R.remaining reader.old)) }
    ensures kept { Keeps (R.remaining reader.old) (R.remaining reader.new) }
    ensures ready { IfOk result (λ ahead. MayTake ahead (R.remaining reader.old)
        (R.consumable_len reader.new)) }
    ensures refused { IfErr result (λ e. (e ≡ Memory) ⊎ (e ≡ Read)) }
{
    let shown = match reader.fill_buf() {
        Ok(shown) => shown,
        Err(fault) => return unseen(fault),
    };
    if shown.is_empty() {
        return Ok(Ahead::End);
    }
    match deliveries_in(alloc, shown) {
        Ok(lines) if lines.len() > 1 => Ok(Ahead::Deliveries(lines)),
        _ => Ok(Ahead::Other),
    }
}

// What is known after a failed look. If a signal interrupted it, the next read tries again.
fn unseen(fault: Error) -> Result<Ahead, Refusal>
    ensures other { IfOk result (λ ahead. ahead ≡ Other) }
    ensures refused { IfErr result (λ e. (e ≡ Memory) ⊎ (e ≡ Read)) }
{
    match fault.kind() {
        ErrorKind::Interrupted => Ok(Ahead::Other),
        ErrorKind::OutOfMemory => Err(Refusal::Memory),
        _ => Err(Refusal::Read),
    }
}

// The whole lines at the beginning of some bytes, as long as each begins as a delivery does.
fn deliveries_in(alloc: Global, octets: &[u8]) -> Result<Vec<Vec<u8>>, AllocError>
    ensures { IfOk result (λ lines. AreShown (lines_of lines.items) octets.now) }
{
    let mut lines = Vec::new(alloc);
    let mut rest = octets;
    'lines: while lines.len() < MOST_TOGETHER {
        match first_delivery(rest) {
            Some((line, later)) => {
                lines.push(line.to_vec(alloc)?)?;
                rest = later;
            }
            None => return Ok(lines),
        }
    }
    Ok(lines)
}

// The line at the beginning of some bytes, if it is whole and begins as a delivery does, and what comes after it.
fn first_delivery(octets: &[u8]) -> Option<(&[u8], &[u8])>
    ensures { IfSome result (λ parts. IsDeliveryLine parts.0.now
        × (octets.entry.now ≡ parts.0.now ++ parts.1.now)) }
{
    if !octets.starts_with(DELIVER) {
        return None;
    }
    match octets.iter().position(|octet| *octet == b'\n') {
        Some(len) => Some(octets.split_at(len + 1)),
        None => None,
    }
}

/// Takes lines that [`look_ahead`] found.
///
/// # Requires
///
/// The lines have fewer than 2^64 bytes together.
pub fn take_lines<R: BufRead + Drop>(input: &mut OfRead<R>, lines: &[Vec<u8>])
    requires { length (concat (lines_of lines.now)) < 2 ^ 64 }
    ensures { (before : Supply)
        → CanTake (concat (lines_of lines.now)) before.left (R.consumable_len input.old.inner)
        → HasShown (concat (lines_of lines.now)) before
        (⟦<OfRead<R> as Source>⟧.supply input.old)
        → HasGiven (concat (lines_of lines.now)) before
        (⟦<OfRead<R> as Source>⟧.supply input.new) }
{
    let len = length_of(lines);
    input.inner.consume(len);
    input.given = input.given.saturating_add(len as u64);
    input.has_ended = false;
}

// The number of bytes that lines have together. It is below 2^64.
fn length_of(lines: &[Vec<u8>]) -> usize
    requires { length (concat (lines_of lines.now)) < 2 ^ 64 }
    ensures { result ≡ length (concat (lines_of lines.now)) }
{
    let mut len = 0;
    for line in lines {
        len += line.len();
    }
    len
}
