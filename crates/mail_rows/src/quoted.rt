// Quoted-printable texts, read and written.
use crate::quoted_pieces::short_text;
use quoted_printable::{decode_qp, encode_qp};
use std::alloc::Global;

// Whether a text stands for these octets.
fn reads(alloc: Global, text: &[u8], want: &[u8]) -> bool {
    match decode_qp(alloc, text) {
        Ok(octets) => octets.as_slice() == want,
        Err(_) => false,
    }
}

// Whether octets are written as this text, and are read back from it.
fn writes(alloc: Global, octets: &[u8], want: &[u8]) -> bool {
    match encode_qp(alloc, octets) {
        Ok(text) => text.as_slice() == want && reads(alloc, want, octets),
        Err(_) => false,
    }
}

fn is_graphic(octet: u8) -> bool {
    octet > 32 && octet < 127 && octet != b'='
}

// The text of an octet that isn't written as it is, and the octet after it.
fn escaped(octet: u8, after: u8) -> [u8; 4] {
    let digits = b"0123456789ABCDEF";
    [
        b'=',
        digits[(octet / 16) as usize],
        digits[(octet % 16) as usize],
        after,
    ]
}

// Whether an octet alone is written as it has to be.
fn is_written_alone(alloc: Global, octet: u8) -> bool {
    if is_graphic(octet) {
        writes(alloc, &[octet], &[octet])
    } else {
        writes(alloc, &[octet], &escaped(octet, 0)[..3])
    }
}

// Whether it is with another one after it.
fn is_written_before_another(alloc: Global, octet: u8) -> bool {
    let octets = [octet, b'x'];
    if is_graphic(octet) || octet == b' ' || octet == b'\t' {
        writes(alloc, &octets, &octets)
    } else {
        writes(alloc, &octets, &escaped(octet, b'x'))
    }
}

// Each octet alone, and with another one after it.
#[test]
fn every_octet(rt: HostRuntime) {
    for octet in 0..=255u8 {
        assert!(rt; is_written_alone(rt.alloc(), octet), "{octet}");
        assert!(rt; is_written_before_another(rt.alloc(), octet), "{octet}");
    }
}

// Whether each text of so many octets stands for what a reader gives that goes octet by octet.
fn are_plainly_read(alloc: Global, length: usize, texts: u32) -> bool {
    for number in 0..texts {
        let text = short_text(number);
        if !is_plainly_read(alloc, &text[..length.min(6)]) {
            return false;
        }
    }
    true
}

fn is_plainly_read(alloc: Global, text: &[u8]) -> bool {
    match decode_qp(alloc, text) {
        Ok(octets) => stands_for(text, &octets),
        Err(_) => false,
    }
}

// Every text up to five octets of a small alphabet, against a reader that goes octet by octet.
#[test]
fn every_short_text(rt: HostRuntime) {
    for (length, texts) in [
        (0usize, 1u32),
        (1, 7),
        (2, 49),
        (3, 343),
        (4, 2401),
        (5, 16_807),
    ] {
        assert!(rt; are_plainly_read(rt.alloc(), length, texts), "{length}");
    }
}

// The same, without lines and searches: blanks and a `=` are kept back until it is known whether a line ends after them.
fn stands_for(text: &[u8], octets: &[u8]) -> bool {
    let mut place = 0usize;
    let mut found = 0usize;
    for _ in 0..text.len() {
        if place >= text.len() {
            break;
        }
        let (octet, after) = read_at(text, place);
        if octet.is_some() {
            if octets.get(found).copied() != octet {
                return false;
            }
            found = found.wrapping_add(1);
        }
        place = after;
    }
    found == octets.len()
}

// The octet that stands at a place, if one does, and the place after that.
fn read_at(text: &[u8], place: usize) -> (Option<u8>, usize) {
    let Some(octet) = text.get(place).copied() else {
        return (None, text.len());
    };
    let after = place.saturating_add(1);
    if octet == b'=' {
        return read_escape(text, after);
    }
    let blanks = blanks_from(text, after);
    if (octet == b' ' || octet == b'\t') && ends_at(text, blanks) {
        (None, blanks)
    } else {
        (Some(octet), after)
    }
}

// What stands at a place after a `=`.
fn read_escape(text: &[u8], after: usize) -> (Option<u8>, usize) {
    let blanks = blanks_from(text, after);
    if ends_at(text, blanks) {
        return (None, after_break(text, blanks));
    }
    let high = digit_at(text, after);
    let low = digit_at(text, after.saturating_add(1));
    if high < 16 && low < 16 {
        let octet = high.wrapping_mul(16).wrapping_add(low);
        (Some(octet), after.saturating_add(2))
    } else {
        (Some(b'='), after)
    }
}

// The first place from a start at which no blank stands.
fn blanks_from(text: &[u8], start: usize) -> usize {
    for place in start..text.len() {
        if text[place] != b' ' && text[place] != b'\t' {
            return place;
        }
    }
    text.len()
}

// Whether the text or a line ends here.
fn ends_at(text: &[u8], place: usize) -> bool {
    place >= text.len()
        || text[place] == b'\n'
        || (text[place] == b'\r' && place + 1 < text.len() && text[place + 1] == b'\n')
}

fn after_break(text: &[u8], place: usize) -> usize {
    if place >= text.len() {
        place
    } else if text[place] == b'\n' {
        place + 1
    } else {
        place.saturating_add(2)
    }
}

// The value of the hexadecimal digit at a place, or 16.
fn digit_at(text: &[u8], place: usize) -> u8 {
    let octet = text.get(place).copied().unwrap_or(b' ');
    match octet {
        b'0'..=b'9' => octet - b'0',
        b'A'..=b'F' => octet - b'A' + 10,
        b'a'..=b'f' => octet - b'a' + 10,
        _ => 16,
    }
}
