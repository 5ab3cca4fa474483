// Sinks, and a writer as a sink.
ghost use Rattle.std.specs.Prelude.{◌≡◌, ◌<◌, ◌≤◌, length, take, IfOk, OnErr};
ghost use Rattle.std.specs.Io.KnownBytes.{Appends, Keeps};
ghost use Rattle.devices.specs.Device.{HasFailed, HasPut, HasTaken, Output};

use refusals::Refusal;
use std::io::{ErrorKind, Write};

/// The error of a sink or a source: its device refused a call. Converted, it is [`Refusal::Write`].
#[derive(Drop)]
pub struct DeviceFailed;

impl From<DeviceFailed> for Refusal {
    ghost use Rattle.std.specs.Prelude.{◌≡◌};
    ghost use Rattle.refusals.specs.declared.refusal.Refusal.TheVariants.{Write};

    ghost from_gives = { λ cause e. e ≡ Write };

    fn from(_cause: DeviceFailed) -> Refusal {
        Refusal::Write
    }
}

/// Something that takes bytes: standard output, a file, or a buffer in a test. The crates above write to a sink, and
/// their contracts say what it took.
///
/// A contract knows the bytes that it took, if they are observable, and how many of its calls have failed.
pub trait Sink {
    ghost output: { Self → Output };

    /// Takes the first of the bytes, at least one if there is one, and returns how many it took.
    ///
    /// # Errors
    ///
    /// `DeviceFailed` if the device fails. Then nothing was taken, and the failure is counted.
    fn write(&mut self, octets: &[u8]) -> Result<usize, DeviceFailed>
        ensures bound { IfOk result (λ n. n ≤ length octets.now) }
        ensures some { IfOk result (λ n. 0 < length octets.now → 0 < n) }
        ensures ok { IfOk result (λ n. HasTaken (take n octets.now) (output self.old)
            (output self.new)) }
        ensures err { OnErr result (HasFailed (output self.old) (output self.new)) };
}

/// How often a call is made that signals interrupt, before it counts as failed.
pub const MAX_TRIES: u32 = 16;

/// A writer as a sink, made by [`OfWrite::new`].
///
/// A call that a signal interrupts is made again, up to [`MAX_TRIES`] times in all. If the writer takes none of some
/// bytes, this is a failure.
#[derive(Drop)]
pub struct OfWrite<W: Write + Drop> {
    /// The writer that takes the bytes.
    pub inner: W,
    /// How many calls have failed, at most 2^64 - 1.
    pub faults: u64,
}

impl<W: Write + Drop> OfWrite<W> {
    /// Makes a sink of a writer. No call has failed, and the bytes that the writer already holds count as taken.
    pub fn new(inner: W) -> OfWrite<W>
        ensures fields { result ≡ record { inner = inner; faults = 0 } }
        ensures output { ⟦<OfWrite<W> as Sink>⟧.output result
            ≡ record { written = W.contents inner; faults = 0 } }
    {
        OfWrite { inner, faults: 0 }
    }
}

impl<W: Write + Drop> Sink for OfWrite<W> {
    ghost output = { λ s. record { written = W.contents s.inner; faults = s.faults } };

    fn write(&mut self, octets: &[u8]) -> Result<usize, DeviceFailed> {
        let written = write_some(&mut self.inner, octets);
        if written.is_err() {
            self.faults = self.faults.saturating_add(1);
        }
        written
    }
}

// One write, made again if a signal interrupts it.
fn write_some<W: Write>(writer: &mut W, octets: &[u8]) -> Result<usize, DeviceFailed>
    ensures bound { IfOk result (λ n. n ≤ length octets.now) }
    ensures some { IfOk result (λ n. 0 < length octets.now → 0 < n) }
    ensures ok { IfOk result (λ n. Appends (W.contents writer.old) (W.contents writer.new)
        (take n octets.now)) }
    ensures err { OnErr result (Keeps (W.contents writer.old) (W.contents writer.new)) }
{
    for _ in 0..MAX_TRIES {
        match writer.write(octets) {
            Ok(n) if n > 0 || octets.is_empty() => return Ok(n),
            Err(fault) if fault.kind() == ErrorKind::Interrupted => {}
            _ => break,
        }
    }
    Err(DeviceFailed)
}

/// Writes all of the bytes, unchanged, in as few calls as the sink takes them.
///
/// # Errors
///
/// `DeviceFailed` if a call of the sink fails; the sink has taken the first of the bytes.
pub fn put<W: Sink>(writer: &mut W, octets: &[u8]) -> Result<(), DeviceFailed>
    ensures { HasPut result octets.now (W.output writer.old) (W.output writer.new) }
{
    let mut done = 0;
    'pieces: while done < octets.len() {
        done += writer.write(&octets[done..])?;
    }
    Ok(())
}
