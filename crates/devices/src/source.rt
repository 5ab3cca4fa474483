// Sources, and a reader as a source.
ghost use Rattle.std.specs.Prelude.{◌≡◌, ◌<◌, ◌≤◌, false, length, take, IfOk, OnErr, OnOk};
ghost use Rattle.std.specs.Io.KnownBytes.{Consumes, IsAtEnd, Keeps};
ghost use Rattle.devices.specs.Supply.{HasEnded, HasFailedToGive, HasGiven, Supply};

use crate::sink::{DeviceFailed, MAX_TRIES};
use std::io::{ErrorKind, Read};

/// Something that gives bytes: standard input, a file, or a text in a test. The crates above read from a source, and
/// their contracts say what it gave.
///
/// A contract knows the bytes that are left, if they are observable, how many it gave, whether the last read met the
/// end, and how many reads have failed.
pub trait Source {
    ghost supply: { Self → Supply };

    /// Puts the next bytes at the start of `room` and returns how many they are: 0 only at the end, or if `room` is
    /// empty. If `room` is empty, the end isn't met.
    ///
    /// # Errors
    ///
    /// `DeviceFailed` if the device fails. Then nothing was given, and the failure is counted.
    fn read(&mut self, room: &mut [u8]) -> Result<usize, DeviceFailed>
        ensures bound { IfOk result (λ n. n ≤ length room.new) }
        ensures ok { IfOk result (λ n. HasGiven (take n room.new) (supply self.old)
            (supply self.new)) }
        ensures goes_on { IfOk result (λ n. 0 < n → (supply self.new).has_ended ≡ false) }
        ensures ended { IfOk result (λ n. n ≡ 0 → 0 < length room.new
            → HasEnded (supply self.new)) }
        ensures roomless { OnOk result (length room.new ≡ 0
            → (supply self.new).has_ended ≡ false) }
        ensures err { OnErr result (HasFailedToGive (supply self.old) (supply self.new)) };
}

/// A reader as a source, made by [`OfRead::new`].
///
/// A call that a signal interrupts is made again, up to [`MAX_TRIES`] times in all.
#[derive(Drop)]
pub struct OfRead<R: Read + Drop> {
    /// The reader that gives the bytes.
    pub inner: R,
    /// How many bytes it gave, at most 2^64 - 1.
    pub given: u64,
    /// Whether the last read met the end.
    pub has_ended: bool,
    /// How many reads have failed, at most 2^64 - 1.
    pub faults: u64,
}

impl<R: Read + Drop> OfRead<R> {
    /// Makes a source of a reader from which nothing was read.
    pub fn new(inner: R) -> OfRead<R>
        ensures fields { result ≡ record {
          inner = inner;
          given = 0;
          has_ended = false;
          faults =
              0;
        } }
        ensures supply { ⟦<OfRead<R> as Source>⟧.supply result
            ≡ record { left = R.remaining inner; given = 0; has_ended = false; faults = 0 } }
    {
        OfRead {
            inner,
            given: 0,
            has_ended: false,
            faults: 0,
        }
    }
}

impl<R: Read + Drop> Source for OfRead<R> {
    ghost supply = { λ s. record {
      left = R.remaining s.inner;
      given = s.given;
      has_ended =
          s.has_ended;
      faults = s.faults;
    } };

    fn read(&mut self, room: &mut [u8]) -> Result<usize, DeviceFailed> {
        match read_some(&mut self.inner, room) {
            Ok(n) => {
                self.given = self.given.saturating_add(n as u64);
                self.has_ended = n == 0 && !room.is_empty();
                Ok(n)
            }
            Err(DeviceFailed) => {
                self.faults = self.faults.saturating_add(1);
                Err(DeviceFailed)
            }
        }
    }
}

// One read, made again if a signal interrupts it.
fn read_some<R: Read>(reader: &mut R, room: &mut [u8]) -> Result<usize, DeviceFailed>
    ensures bound { IfOk result (λ n. n ≤ length room.new) }
    ensures ok { IfOk result (λ n. Consumes (R.remaining reader.old) (R.remaining reader.new)
        (take n room.new)) }
    ensures end { IfOk result (λ n. n ≡ 0 → 0 < length room.new
        → IsAtEnd (R.remaining reader.new)) }
    ensures err { OnErr result (Keeps (R.remaining reader.old) (R.remaining reader.new)) }
{
    for _ in 0..MAX_TRIES {
        match reader.read(room) {
            Ok(n) => return Ok(n),
            Err(fault) if fault.kind() == ErrorKind::Interrupted => {}
            Err(_) => break,
        }
    }
    Err(DeviceFailed)
}
