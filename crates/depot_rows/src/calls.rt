// Devices that do little at a time, and fail.

use devices::{DeviceFailed, OfRead, OfWrite, Sink, Source};
use std::alloc::Global;
use std::io;
use std::io::{Error, ErrorKind, Read, Write};

/// Takes so many octets at a time, in so many calls, and fails then. It notes the lengths of what it was given.
#[derive(Drop)]
pub struct Calls {
    pub octets: Vec<u8>,
    pub lengths: Vec<usize>,
    pub most: usize,
    pub left: usize,
    pub faults: u64,
}

impl Calls {
    pub fn new(rt: &HostRuntime, most: usize, left: usize) -> Calls {
        Calls {
            octets: Vec::new(rt.alloc()),
            lengths: Vec::new(rt.alloc()),
            most,
            left,
            faults: 0,
        }
    }
}

impl Write for Calls {
    fn write(&mut self, octets: &[u8]) -> io::Result<usize> {
        if self.left == 0 {
            return Err(Error::from(ErrorKind::StorageFull));
        }
        self.left -= 1;
        let n = octets.len().min(self.most);
        self.octets.extend_from_slice(&octets[..n])?;
        self.lengths.push(octets.len())?;
        Ok(n)
    }

    fn flush(&mut self) -> io::Result<()> {
        Ok(())
    }
}

/// Is interrupted so often before it does what it is asked for.
#[derive(Drop)]
pub struct Interrupted<T> {
    pub inner: T,
    pub left: u32,
}

impl<T> Interrupted<T> {
    // Whether this call is interrupted.
    fn interrupts(&mut self) -> bool {
        if self.left == 0 {
            return false;
        }
        self.left -= 1;
        true
    }
}

impl<R: Read> Read for Interrupted<R> {
    fn read(&mut self, room: &mut [u8]) -> io::Result<usize> {
        if self.interrupts() {
            return Err(Error::from(ErrorKind::Interrupted));
        }
        self.inner.read(room)
    }
}

impl<W: Write> Write for Interrupted<W> {
    fn write(&mut self, octets: &[u8]) -> io::Result<usize> {
        if self.interrupts() {
            return Err(Error::from(ErrorKind::Interrupted));
        }
        self.inner.write(octets)
    }

    fn flush(&mut self) -> io::Result<()> {
        Ok(())
    }
}

/// Fails the first time that it is asked, and notes how often it was.
#[derive(Drop)]
struct FailsFirst<T> {
    inner: T,
    kind: ErrorKind,
    calls: u32,
}

impl<T> FailsFirst<T> {
    fn new(inner: T, kind: ErrorKind) -> FailsFirst<T> {
        FailsFirst {
            inner,
            kind,
            calls: 0,
        }
    }

    // Whether this call fails.
    fn fails(&mut self) -> bool {
        self.calls = self.calls.saturating_add(1);
        self.calls == 1
    }
}

impl<R: Read> Read for FailsFirst<R> {
    fn read(&mut self, room: &mut [u8]) -> io::Result<usize> {
        if self.fails() {
            return Err(Error::from(self.kind));
        }
        self.inner.read(room)
    }
}

impl<W: Write> Write for FailsFirst<W> {
    fn write(&mut self, octets: &[u8]) -> io::Result<usize> {
        if self.fails() {
            return Err(Error::from(self.kind));
        }
        self.inner.write(octets)
    }

    fn flush(&mut self) -> io::Result<()> {
        Ok(())
    }
}

// Whether a reader that fails in this way is asked once.
fn is_read_once(kind: ErrorKind) -> bool {
    let mut source = OfRead::new(FailsFirst::new(b"abc".as_slice(), kind));
    let mut room = [0; 8];
    let read = source.read(&mut room);
    matches!(read, Err(DeviceFailed)) && source.faults == 1 && source.inner.calls == 1
}

// Whether a writer that fails in this way is asked once, and has taken nothing.
fn is_written_once(alloc: Global, kind: ErrorKind) -> bool {
    let mut sink = OfWrite::new(FailsFirst::new(Vec::new(alloc), kind));
    let written = sink.write(b"abc");
    let is_once = sink.faults == 1 && sink.inner.calls == 1;
    matches!(written, Err(DeviceFailed)) && is_once && sink.inner.inner.is_empty()
}

#[test]
fn calls_that_fail_otherwise_are_not_made_again(rt: HostRuntime) {
    for kind in [ErrorKind::Other, ErrorKind::WouldBlock, ErrorKind::TimedOut] {
        assert!(rt; is_read_once(kind));
        assert!(rt; is_written_once(rt.alloc(), kind));
    }
}

// Whether a reader that is interrupted so often is read, or has failed.
fn is_read(left: u32, works: bool) -> bool {
    let mut source = OfRead::new(Interrupted {
        inner: b"abc".as_slice(),
        left,
    });
    let mut room = [0; 8];
    let read = source.read(&mut room);
    read.is_ok() == works && (source.faults == 0) == works
}

// Whether a writer that is interrupted so often takes octets, or has failed.
fn is_written(alloc: Global, left: u32, works: bool) -> bool {
    let mut sink = OfWrite::new(Interrupted {
        inner: Vec::new(alloc),
        left,
    });
    let written = sink.write(b"abc");
    let has_taken = sink.inner.inner.as_slice() == b"abc".as_slice();
    written.is_ok() == works && (sink.faults == 0) == works && has_taken == works
}

#[test]
fn interrupted_calls_are_made_again(rt: HostRuntime) {
    for (left, works) in [(0, true), (1, true), (15, true), (16, false)] {
        assert!(rt; is_read(left, works), "reading, {left}");
        assert!(rt; is_written(rt.alloc(), left, works), "writing, {left}");
    }
}

#[test]
fn a_writer_that_takes_nothing_has_failed(rt: HostRuntime) {
    let mut sink = OfWrite::new(Calls::new(&rt, 0, 10));
    assert!(rt; matches!(sink.write(b"abc"), Err(DeviceFailed)));
    assert_eq!(rt; sink.faults, 1);
    assert!(rt; matches!(sink.write(b""), Ok(0)));
}
