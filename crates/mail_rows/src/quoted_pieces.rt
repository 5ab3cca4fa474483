// Quoted-printable texts read in pieces.
use quoted_printable::{QpDecoder, decode_qp};
use std::alloc::{AllocError, Global};

// Reads pieces one after another.
fn feed(decoder: &mut QpDecoder, pieces: &[&[u8]], out: &mut Vec<u8>) -> Result<(), AllocError> {
    for piece in pieces {
        decoder.feed(piece, out)?;
    }
    Ok(())
}

// Whether pieces are read as these octets.
fn are_read_as(alloc: Global, pieces: &[&[u8]], want: &[u8]) -> bool {
    let mut out = Vec::new(alloc);
    let mut decoder = QpDecoder::new(alloc);
    let is_fed = feed(&mut decoder, pieces, &mut out).is_ok();
    let is_finished = decoder.finish(&mut out).is_ok();
    is_fed && is_finished && out.as_slice() == want
}

// Whether any two pieces of a text are.
fn reads_in_two(alloc: Global, text: &[u8], want: &[u8]) -> bool {
    for place in 0..=text.len() {
        let (first, second) = text.split_at(place);
        if !are_read_as(alloc, &[first, second], want) {
            return false;
        }
    }
    true
}

// Whether a first piece and any two pieces of others are.
fn reads_others_in_two(alloc: Global, first: &[u8], others: &[u8], want: &[u8]) -> bool {
    for place in 0..=others.len() {
        let (second, third) = others.split_at(place);
        if !are_read_as(alloc, &[first, second, third], want) {
            return false;
        }
    }
    true
}

// Whether any three pieces of a text are.
fn reads_in_three(alloc: Global, text: &[u8], want: &[u8]) -> bool {
    for place in 0..=text.len() {
        let (first, others) = text.split_at(place);
        if !reads_others_in_two(alloc, first, others, want) {
            return false;
        }
    }
    true
}

// Whether any two pieces of a text are read as the whole is, or any three.
fn is_read_in(alloc: Global, pieces: u8, text: &[u8]) -> bool {
    match decode_qp(alloc, text) {
        Ok(want) => {
            if pieces == 2 {
                reads_in_two(alloc, text, &want)
            } else {
                reads_in_three(alloc, text, &want)
            }
        }
        Err(_) => false,
    }
}

// Whether so many pieces of every text of a length are, of which there are so many.
fn are_read_in(alloc: Global, pieces: u8, length: usize, texts: u32) -> bool {
    for number in 0..texts {
        let text = short_text(number);
        if !is_read_in(alloc, pieces, &text[..length.min(6)]) {
            return false;
        }
    }
    true
}

// Whether those of every text up to a length are.
fn are_all_read_in(alloc: Global, pieces: u8, most: usize) -> bool {
    let mut texts = 1u32;
    for length in 0..=most {
        if !are_read_in(alloc, pieces, length, texts) {
            return false;
        }
        texts = texts.wrapping_mul(7);
    }
    true
}

// Every text up to six octets of a small alphabet, in two pieces.
#[test]
fn every_short_text_in_two(rt: HostRuntime) {
    assert!(rt; are_all_read_in(rt.alloc(), 2, 6));
}

// The same up to five octets, in three pieces.
#[test]
fn every_short_text_in_three(rt: HostRuntime) {
    assert!(rt; are_all_read_in(rt.alloc(), 3, 5));
}

/// The text of a small alphabet whose octets are the digits of a number to the base 7, of which it has six.
pub fn short_text(number: u32) -> [u8; 6] {
    let alphabet = b"=3Dg \r\n";
    let mut text = [0u8; 6];
    let mut left = number;
    for place in 0..6usize {
        text[place] = alphabet[(left % 7) as usize];
        left /= 7;
    }
    text
}
