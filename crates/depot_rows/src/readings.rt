// Reading up to a limit.

use crate::calls::Interrupted;
use depot_jobs::read_limited;
use devices::OfRead;
use mime_decode::MAX_MESSAGE;
use refusals::Refusal;
use std::alloc::{AllocError, Global};
use std::io;
use std::io::{Error, ErrorKind, Read};
use std::test::Fail;

/// Gives its octets one at a time, and fails after the last.
#[derive(Drop)]
struct Failing<'a> {
    octets: &'a [u8],
}

impl Read for Failing<'_> {
    fn read(&mut self, room: &mut [u8]) -> io::Result<usize> {
        let Some((first, others)) = self.octets.split_first() else {
            return Err(Error::from(ErrorKind::Other));
        };
        if room.is_empty() {
            return Ok(0);
        }
        room[0] = *first;
        self.octets = others;
        Ok(1)
    }
}

const TEXT: &[u8] = b"abcdef";

// Whether the text is too large for a limit, of which one octet more is read.
fn is_too_large(alloc: Global, limit: usize) -> bool {
    let mut source = OfRead::new(TEXT);
    let read = read_limited(alloc, &mut source, limit);
    let given = (limit as u64).saturating_add(1);
    matches!(&read, Err(Refusal::MessageTooLarge)) && source.given == given && source.faults == 0
}

// Whether the text is read to its end up to a limit.
fn is_read(alloc: Global, limit: usize) -> bool {
    let mut source = OfRead::new(TEXT);
    let read = read_limited(alloc, &mut source, limit);
    let is_same = matches!(&read, Ok(octets) if octets.as_slice() == TEXT);
    is_same && source.has_ended && source.faults == 0
}

#[test]
fn the_limit_and_one_more(rt: HostRuntime) {
    for limit in 0..6usize {
        assert!(rt; is_too_large(rt.alloc(), limit), "{limit}");
    }
    for limit in [6, 7, 8, usize::MAX] {
        assert!(rt; is_read(rt.alloc(), limit), "{limit}");
    }
}

#[test]
fn a_source_that_never_ends(rt: HostRuntime) {
    let mut source = OfRead::new(io::repeat(7));
    let read = read_limited(rt.alloc(), &mut source, MAX_MESSAGE);
    assert!(rt; matches!(&read, Err(Refusal::MessageTooLarge)));
    assert_eq!(rt; source.given, 67_108_865);
}

// Reads three octets of a source that fails then, up to a limit, and gives what is refused and how many calls failed.
fn refused_of_three(alloc: Global, limit: usize) -> (Option<Refusal>, u64, u64) {
    let mut source = OfRead::new(Failing { octets: b"abc" });
    let read = read_limited(alloc, &mut source, limit);
    (read.err(), source.given, source.faults)
}

#[test]
fn a_source_that_fails(rt: HostRuntime) {
    let came = refused_of_three(rt.alloc(), 2);
    assert!(rt; matches!(came, (Some(Refusal::MessageTooLarge), 3, 0)));
    let came = refused_of_three(rt.alloc(), 3);
    assert!(rt; matches!(came, (Some(Refusal::Read), 3, 1)));
}

// Whether so many octets are read whole from a source that is interrupted thrice.
fn is_read_whole(alloc: Global, length: usize) -> Result<bool, AllocError> {
    let text = vec![in alloc; b'a'; length]?;
    let mut source = OfRead::new(Interrupted {
        inner: text.as_slice(),
        left: 3,
    });
    let read = read_limited(alloc, &mut source, length);
    Ok(matches!(&read, Ok(octets) if octets.as_slice() == text.as_slice()))
}

#[test]
fn large_texts_in_pieces(rt: HostRuntime) -> Result<(), Fail> {
    for length in [65_535usize, 65_536, 65_537, 1_000_000] {
        assert!(rt; is_read_whole(rt.alloc(), length)?, "{length}");
    }
    Ok(())
}
