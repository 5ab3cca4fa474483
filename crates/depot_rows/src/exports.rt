// Entries exported in pieces, from a depot in memory.
use crate::calls::Calls;
use depot_actions::{Depot, Refusal};
use devices::OfWrite;
use encodings::{Encoding, encode};
use sqlite::{Alter, MemStore};
use std::test::Fail;

/// The text of 4,561 octets `a` in an encoding.
#[derive(Clone, Copy)]
struct Text {
    encoding: Encoding,
    /// How long it is, and how it ends.
    length: usize,
    end: &'static [u8],
    /// How long the text of a whole piece is.
    piece: usize,
}

static TEXTS: [Text; 7] = [
    Text {
        encoding: Encoding::Raw,
        length: 4_561,
        end: b"a",
        piece: 4_560,
    },
    Text {
        encoding: Encoding::Base64,
        length: 6_084,
        end: b"YQ==",
        piece: 6_080,
    },
    Text {
        encoding: Encoding::Base64Mime,
        length: 6_246,
        end: b"YQ==\r\n",
        piece: 6_240,
    },
    Text {
        encoding: Encoding::Base32,
        length: 7_304,
        end: b"ME======",
        piece: 7_296,
    },
    Text {
        encoding: Encoding::Base32Hex,
        length: 7_304,
        end: b"C4======",
        piece: 7_296,
    },
    Text {
        encoding: Encoding::Base16,
        length: 9_122,
        end: b"61",
        piece: 9_120,
    },
    Text {
        encoding: Encoding::Qp,
        length: 4_741,
        end: b"a",
        piece: 78,
    },
];

/// Whether a text of this length was given a piece at a time.
fn are_pieces(lengths: &[usize], length: usize, piece: usize) -> bool {
    let mut left = length;
    for given in lengths {
        if *given != left.min(piece) {
            return false;
        }
        left = left.saturating_sub(*given);
    }
    left == 0
}

/// A depot with the message as the entry of a user without a filter.
fn holding(rt: &HostRuntime, message: &[u8]) -> Result<Depot<MemStore>, Refusal> {
    let mut depot = Depot::in_memory(rt.alloc())?;
    depot.deliver(rt.alloc(), "ann", message)?;
    Ok(depot)
}

// Exports ann's entry to a writer that takes so many octets at a time in so many calls, and gives the answer and the writer.
fn exported<S: Alter>(
    rt: &HostRuntime,
    depot: &mut Depot<S>,
    encoding: Encoding,
    most: usize,
    calls: usize,
) -> (Result<(), Refusal>, OfWrite<Calls>) {
    let mut out = OfWrite::new(Calls::new(rt, most, calls));
    let answer = depot.export(rt.alloc(), "ann", 1, encoding, &mut out);
    (answer, out)
}

// Whether the entry is exported as a text of this length and end, a piece at a time.
fn is_given_in_pieces<S: Alter>(rt: &HostRuntime, depot: &mut Depot<S>, text: &Text) -> bool {
    let (answer, out) = exported(rt, depot, text.encoding, 10_000, 100);
    let Calls {
        octets,
        lengths,
        ..
    } = &out.inner;
    answer.is_ok()
        && octets.len() == text.length
        && octets.ends_with(text.end)
        && are_pieces(lengths, text.length, text.piece)
}

#[test]
fn a_message_longer_than_a_piece(rt: HostRuntime) -> Result<(), Fail> {
    let message = vec![in rt.alloc(); b'a'; 4_561]?;
    let mut depot = holding(&rt, &message)?;
    for text in &TEXTS {
        assert!(rt;
            is_given_in_pieces(&rt, &mut depot, text),
            "a text of {}",
            text.length
        );
    }
    Ok(())
}

// Whether the entry is exported as this text of this length, in a call for each octet.
fn is_given_in_octets<S: Alter>(
    rt: &HostRuntime,
    depot: &mut Depot<S>,
    text: &Text,
    whole: &[u8],
) -> bool {
    let (answer, out) = exported(rt, depot, text.encoding, 1, 10_000);
    let Calls {
        octets,
        lengths,
        ..
    } = &out.inner;
    answer.is_ok() && lengths.len() == text.length && octets.as_slice() == whole
}

// How long the first text is that the message isn't exported as in this way.
fn first_not_in_octets<S: Alter>(
    rt: &HostRuntime,
    depot: &mut Depot<S>,
    message: &[u8],
) -> Result<Option<usize>, Fail> {
    for text in &TEXTS {
        let whole = encode(rt.alloc(), text.encoding, message)?;
        if !is_given_in_octets(rt, depot, text, &whole) {
            return Ok(Some(text.length));
        }
    }
    Ok(None)
}

#[test]
fn one_octet_a_call(rt: HostRuntime) -> Result<(), Fail> {
    let message = vec![in rt.alloc(); b'a'; 4_561]?;
    let mut depot = holding(&rt, &message)?;
    assert_eq!(rt; first_not_in_octets(&rt, &mut depot, &message)?, None);
    Ok(())
}

// Whether an export to a writer that takes 1,000 octets at a time breaks off after so many calls, with the beginning of the
// text written, and more than what all of these calls but the last can take.
fn breaks_off_within<S: Alter>(
    rt: &HostRuntime,
    depot: &mut Depot<S>,
    text: &Text,
    whole: &[u8],
    calls: usize,
) -> bool {
    let (answer, out) = exported(rt, depot, text.encoding, 1_000, calls);
    let written = out.inner.octets.as_slice();
    let least = calls
        .saturating_sub(1)
        .saturating_mul(text.piece.min(1_000));
    matches!(answer, Err(Refusal::Write))
        && out.faults == 1
        && (written.len() > least || calls == 0)
        && whole.starts_with(written)
}

// The first number of calls after which an export of a text doesn't.
fn first_not_within<S: Alter>(
    rt: &HostRuntime,
    depot: &mut Depot<S>,
    text: &Text,
    message: &[u8],
) -> Result<Option<usize>, Fail> {
    let whole = encode(rt.alloc(), text.encoding, message)?;
    for calls in 0..=text.length / 1_000 {
        if !breaks_off_within(rt, depot, text, &whole, calls) {
            return Ok(Some(calls));
        }
    }
    Ok(None)
}

// The same of the first text that has one, with its length.
fn first_text_not_within<S: Alter>(
    rt: &HostRuntime,
    depot: &mut Depot<S>,
    message: &[u8],
) -> Result<Option<(usize, usize)>, Fail> {
    for text in &TEXTS {
        if let Some(calls) = first_not_within(rt, depot, text, message)? {
            return Ok(Some((text.length, calls)));
        }
    }
    Ok(None)
}

#[test]
fn a_writer_that_fails_within_a_piece(rt: HostRuntime) -> Result<(), Fail> {
    let message = vec![in rt.alloc(); b'a'; 4_561]?;
    let mut depot = holding(&rt, &message)?;
    assert_eq!(rt; first_text_not_within(&rt, &mut depot, &message)?, None);
    Ok(())
}

// Whether an export to a writer that fails at its second call breaks off after a piece.
fn breaks_off_after_a_piece<S: Alter>(rt: &HostRuntime, depot: &mut Depot<S>, text: &Text) -> bool {
    let (answer, out) = exported(rt, depot, text.encoding, 10_000, 1);
    matches!(answer, Err(Refusal::Write)) && out.inner.octets.len() == text.piece
}

#[test]
fn a_writer_that_fails_at_its_second_call(rt: HostRuntime) -> Result<(), Fail> {
    let message = vec![in rt.alloc(); b'a'; 4_561]?;
    let mut depot = holding(&rt, &message)?;
    for text in &TEXTS {
        assert!(rt;
            breaks_off_after_a_piece(&rt, &mut depot, text),
            "a text of {}",
            text.length
        );
    }
    Ok(())
}
