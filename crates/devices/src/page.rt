// Pages: text on its way to a sink.
ghost use Rattle.arrayvec.specs.ArrayVec.{array_vec_len};
ghost use Rattle.std.specs.Prelude.{◌≡◌, ◌<◌, ◌≤◌, false, true, [], ◌++◌, length, take, OnErr, OnOk};
ghost use Rattle.std.specs.Io.KnownBytes.{Appends};
ghost use Rattle.devices.specs.Device.{HasPut, HasTaken, counted};
ghost use Rattle.devices.specs.PageFacts.{Appends-prop, failures};

use crate::ghost_text::GhostText;
use crate::sink::{DeviceFailed, Sink};
use arrayvec::ArrayVec;
use std::snapshot::Snapshot;

/// How many bytes a page holds back.
const MAX_HELD: usize = 65_536;

// The bytes that a page holds back.
type Held = ArrayVec<u8, MAX_HELD>;

/// A buffer in front of a sink that remembers whether a call of the sink has failed. It holds back up to 65,536 bytes,
/// and takes no memory from an allocator. So functions that print return no result: the caller makes the page, hands it
/// to them, and looks for a failure once, in [`Page::flush`].
///
/// A contract sees the text that was written to the page, and what was known of the sink when the page was made. The
/// sink has taken that text except for the bytes that are held back, or the beginning of it if a call has failed.
pub struct Page<'a, O: Sink> {
    out: &'a mut O,
    held: Held,
    has_failed: bool,
    // The sink when the page was made.
    start: Snapshot<O>,
    // What the sink has taken since then.
    taken: GhostText,
    // What was written to the page and is dropped, because a call of the sink has failed.
    lost: GhostText,
    ghost written: { Appends (O.output start.value).written (O.output out.now).written
        taken } by { Appends-prop (O.output start.value).written (O.output out.now).written taken },
    ghost faults: { (O.output out.now).faults
        ≡ counted (failures has_failed) (O.output start.value).faults },
    ghost none_lost: { has_failed ≡ false → lost ≡ [] },
}

impl<'a, O: Sink> Page<'a, O> {
    ghost use Rattle.devices.specs.Pages.{Wrote, start_of, text_on, view_of};

    /// Makes an empty page.
    pub fn new(out: &'a mut O) -> Page<'a, O>
        ensures view { view_of result
            ≡ record { name = out.entry.ghost_name; start = O.output out.old; text = [] } }
        ensures sound { result.has_failed ≡ false }
        ensures sent { HasTaken (text_on result) (start_of result) (O.output result.out.now) }
    {
        let start = Snapshot::of(&*out);
        Page {
            out,
            held: ArrayVec::new(),
            has_failed: false,
            start,
            taken: GhostText::new(),
            lost: GhostText::new(),
        }
    }

    /// Writes bytes to the page. The sink gets them when the page is full or flushed. If a call of the sink has failed,
    /// they are dropped.
    pub fn write(&mut self, octets: &[u8])
        ensures { Wrote octets.now self.old self.new }
    {
        let mut done = 0;
        'pieces: while done < octets.len() {
            done += self.write_some(&octets[done..]);
        }
    }

    // Writes the first of some bytes, and returns how many.
    fn write_some(&mut self, octets: &[u8]) -> usize
        ensures bound { result ≤ length octets.now }
        ensures some { 0 < length octets.now → 0 < result }
        ensures wrote { Wrote (take result octets.now) self.old self.new }
    {
        if self.held.is_full() {
            self.send();
        }
        if self.has_failed {
            self.lost.extend(octets);
            return octets.len();
        }
        hold(&mut self.held, octets)
    }

    // Writes the bytes that are held back to the sink, unless a call of it has failed.
    fn send(&mut self)
        ensures same { view_of self.new ≡ view_of self.old }
        ensures none { self.new.has_failed ≡ false → self.new.held.items ≡ [] }
        ensures sound { self.new.has_failed ≡ false → self.old.has_failed ≡ false }
    {
        if self.has_failed {
            return;
        }
        let (taken, has_failed) = put_counted(self.out, self.held.as_slice());
        self.taken.extend(&self.held.as_slice()[..taken]);
        if has_failed {
            self.lost.extend(&self.held.as_slice()[taken..]);
        }
        self.held.clear();
        self.has_failed = has_failed;
    }

    /// Writes the bytes that are held back to the sink. The result is about all that was written to the page since it
    /// was made. A page that is dropped without this call loses what it holds back.
    ///
    /// # Errors
    ///
    /// `DeviceFailed` if a call of the sink has failed, now or before; the sink has taken the beginning of the text.
    pub fn flush(&mut self) -> Result<(), DeviceFailed>
        ensures same { view_of self.new ≡ view_of self.old }
        ensures put { HasPut result (text_on self.old) (start_of self.old)
            (O.output self.new.out.now) }
        ensures sound { OnOk result (self.old.has_failed ≡ false) }
        ensures failed { OnErr result (self.new.has_failed ≡ true) }
    {
        self.send();
        if self.has_failed {
            return Err(DeviceFailed);
        }
        Ok(())
    }

    /// Returns whether a call of the sink has failed. A long loop that prints asks this, and stops.
    pub fn has_failed(&self) -> bool
        ensures { result ≡ self.now.has_failed }
    {
        self.has_failed
    }
}

impl<'a, O: Sink> Drop for Page<'a, O> {
    fn drop(self)
        ensures { self.exit.0.now ≡ self.entry.out.now }
    {
        let Page {
            out: _,
            held: _,
            has_failed: _,
            start: _,
            taken: _,
            lost: _,
        } = self;
    }
}

// Adds bytes to those that are held back, as many as fit, and returns how many. There is room for one at least.
fn hold(held: &mut Held, octets: &[u8]) -> usize
    requires { array_vec_len held.old < MAX_HELD }
    ensures bound { result ≤ length octets.now }
    ensures some { 0 < length octets.now → 0 < result }
    ensures items { held.new.items ≡ held.old.items ++ take result octets.now }
{
    let n = octets.len().min(held.remaining_capacity());
    held.try_extend_from_slice(&octets[..n]).unwrap();
    n
}

// Writes bytes until the sink has taken all of them or a call has failed. Returns how many it took, and whether a call
// has failed.
fn put_counted<W: Sink>(writer: &mut W, octets: &[u8]) -> (usize, bool)
    ensures bound { result.0 ≤ length octets.now }
    ensures all { result.1 ≡ false → result.0 ≡ length octets.now }
    ensures written { Appends (W.output writer.old).written (W.output writer.new).written
        (take result.0 octets.now) }
    ensures faults { (W.output writer.new).faults
        ≡ counted (failures result.1) (W.output writer.old).faults }
{
    let mut done = 0;
    'pieces: while done < octets.len() {
        match writer.write(&octets[done..]) {
            Ok(n) => done += n,
            Err(DeviceFailed) => return (done, true),
        }
    }
    (done, false)
}
