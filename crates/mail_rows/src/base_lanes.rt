// Thirty-two octets at once: classes, symbols, upper case.
use octet_lanes::{Alphabet, STRAY, ascii_upper_lanes, classify, close_up, spell};

const TEXT: &[u8; 32] = b"AZaz09+/=-_!AZaz09+/=-_!AZaz09+/";

// Whether the classes of the text begin with these.
fn classes_begin_with(want: &[u8]) -> bool {
    let classes = classify(TEXT, Alphabet::Base64);
    classes.starts_with(want)
}

// Whether lanes have these octets from a place on.
fn has_at(lanes: &[u8; 32], place: usize, want: &[u8]) -> bool {
    match lanes.get(place..) {
        Some(rest) => rest.starts_with(want),
        None => false,
    }
}

// Whether the text has so many classes that are no stray, and these among them, and strays after them.
fn is_closed_up(number: usize, place: usize, want: &[u8]) -> bool {
    let classes = classify(TEXT, Alphabet::Base64);
    let (values, n) = close_up(&classes);
    n == number && has_at(&values, place, want) && has_at(&values, number, &[STRAY; 8])
}

// Whether the last values of both alphabets of base32 are spelled by these symbols.
fn are_last_symbols(base32: u8, base32hex: u8) -> bool {
    let symbols = spell(&[31; 32], Alphabet::Base32);
    let symbols_hex = spell(&[31; 32], Alphabet::Base32Hex);
    has_at(&symbols, 0, &[base32; 32]) && has_at(&symbols_hex, 0, &[base32hex; 32])
}

fn is_in_upper_case(text: &[u8; 32], want: &[u8; 32]) -> bool {
    let upper = ascii_upper_lanes(text);
    has_at(&upper, 0, want)
}

#[test]
fn classes_and_symbols(rt: HostRuntime) {
    assert!(rt; classes_begin_with(&[0, 25, 26, 51, 52, 61, 62, 63, STRAY, STRAY, STRAY, STRAY]));
    assert!(rt; is_closed_up(24, 6, &[62, 63, 0, 25]));
    assert!(rt; are_last_symbols(b'7', b'V'));
    assert!(rt;
        is_in_upper_case(
            b"abcxyz`{AZ09 abcxyz`{AZ09 abcxyz",
            b"ABCXYZ`{AZ09 ABCXYZ`{AZ09 ABCXYZ"
        )
    );
}
