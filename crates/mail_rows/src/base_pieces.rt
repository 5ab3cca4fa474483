// MIME base64 in pieces: whatever the pieces are, the text is read as it is whole.
use crate::base_texts::octets_up_to;
use lanes_base64_mime::{Decoder, decode_mime, encode_mime};
use std::alloc::{AllocError, Global};

/// A symbol, another one, a stray character and the padding.
const OCTETS: [u8; 4] = *b"Zv!=";

// Reads pieces one after another.
fn feed(decoder: &mut Decoder, pieces: &[&[u8]], out: &mut Vec<u8>) -> Result<(), AllocError> {
    for piece in pieces {
        decoder.feed(piece, out)?;
    }
    Ok(())
}

// Whether pieces give these octets, and leave so many bits.
fn give(alloc: Global, pieces: &[&[u8]], octets: &[u8], bits: u8) -> bool {
    let mut out = Vec::new(alloc);
    let mut decoder = Decoder::new();
    let is_fed = feed(&mut decoder, pieces, &mut out).is_ok();
    let left = decoder.finish();
    is_fed && out.as_slice() == octets && left == bits
}

// Whether a text cut at a place does, and one whose first piece is cut at any other place.
fn splits_give(alloc: Global, (front, back): (&[u8], &[u8]), octets: &[u8], bits: u8) -> bool {
    for start in 0..=front.len() {
        let (first, second) = front.split_at(start);
        if !give(alloc, &[first, second, back], octets, bits) {
            return false;
        }
    }
    give(alloc, &[front, back], octets, bits)
}

// Whether a text in one piece or in any two or three gives these octets, and leaves so many bits.
fn all_pieces_give(alloc: Global, text: &[u8], octets: &[u8], bits: u8) -> bool {
    for end in 0..=text.len() {
        if !splits_give(alloc, text.split_at(end), octets, bits) {
            return false;
        }
    }
    give(alloc, &[text], octets, bits)
}

// How many bits a text leaves, which is fewer than 8.
fn left_after(alloc: Global, text: &[u8]) -> u8 {
    let mut out = Vec::new(alloc);
    let mut decoder = Decoder::new();
    if decoder.feed(text, &mut out).is_err() {
        return 8;
    }
    decoder.finish()
}

// Whether a text in any two or three pieces gives what it gives whole.
fn is_read_in_pieces(alloc: Global, text: &[u8]) -> bool {
    match decode_mime(alloc, text) {
        Ok(whole) => all_pieces_give(alloc, text, &whole, left_after(alloc, text)),
        Err(_) => false,
    }
}

// The text that the digits of a number spell.
fn small_text(number: usize) -> [u8; 6] {
    let mut text = [0u8; 6];
    let mut digits = number;
    for octet in &mut text {
        *octet = OCTETS[digits % 4];
        digits /= 4;
    }
    text
}

// Whether each beginning of a text is.
fn beginnings_are_read_in_pieces(alloc: Global, text: &[u8]) -> bool {
    for len in 0..=text.len() {
        if !is_read_in_pieces(alloc, &text[..len]) {
            return false;
        }
    }
    true
}

#[test]
fn every_split_of_every_small_text(rt: HostRuntime) {
    for number in 0..4096usize {
        let text = small_text(number);
        assert!(rt;
            beginnings_are_read_in_pieces(rt.alloc(), &text),
            "{number}"
        );
    }
}

// Reads a text in pieces of one length.
fn feed_by(
    decoder: &mut Decoder,
    text: &[u8],
    piece: usize,
    out: &mut Vec<u8>,
) -> Result<(), AllocError> {
    for part in text.chunks(piece.max(1)) {
        decoder.feed(part, out)?;
    }
    Ok(())
}

// Whether a text in pieces of one length gives these octets; the last quantum is one octet.
fn gives_in_pieces(alloc: Global, text: &[u8], piece: usize, octets: &[u8]) -> bool {
    let mut out = Vec::new(alloc);
    let mut decoder = Decoder::new();
    let is_fed = feed_by(&mut decoder, text, piece, &mut out).is_ok();
    let left = decoder.finish();
    is_fed && out.as_slice() == octets && left == 4
}

// Whether a text in pieces of several lengths gives these octets.
fn is_read_in_all_pieces(alloc: Global, text: &[u8], octets: &[u8]) -> bool {
    gives_in_pieces(alloc, text, 76, octets)
        && gives_in_pieces(alloc, text, 77, octets)
        && gives_in_pieces(alloc, text, 4096, octets)
}

// Whether the text of octets does.
fn are_read_in_all_pieces(alloc: Global, octets: &[u8]) -> bool {
    match encode_mime(alloc, octets) {
        Ok(text) => is_read_in_all_pieces(alloc, &text, octets),
        Err(_) => false,
    }
}

#[test]
fn a_large_text_in_pieces(rt: HostRuntime) {
    let is_read = match octets_up_to(rt.alloc(), 10_000_000) {
        Ok(octets) => are_read_in_all_pieces(rt.alloc(), &octets),
        Err(_) => false,
    };
    assert!(rt; is_read);
}
