// Bytes to texts and back.
use crate::checksum::{REFUSED, told};
use encodings::{Encoding, decode, encode};
use lanes_base64_mime::Decoder;
use std::alloc::Global;

/// Encodes bytes in an encoding.
#[unsafe(no_mangle)]
pub extern "C" fn bench_encode(alloc: Global, encoding: u32, octets: &[u8], rounds: u32) -> u64 {
    encoded(alloc, encoding, octets, rounds).unwrap_or(REFUSED)
}

/// Decodes a text in an encoding.
#[unsafe(no_mangle)]
pub extern "C" fn bench_decode(alloc: Global, encoding: u32, text: &[u8], rounds: u32) -> u64 {
    decoded(alloc, encoding, text, rounds).unwrap_or(REFUSED)
}

/// Decodes a text in MIME base64 that comes in pieces of `piece` bytes.
#[unsafe(no_mangle)]
pub extern "C" fn bench_decode_pieces(
    alloc: Global,
    piece: usize,
    text: &[u8],
    rounds: u32,
) -> u64 {
    decoded_in_pieces(alloc, piece, text, rounds).unwrap_or(REFUSED)
}

fn encoding_of(number: u32) -> Option<Encoding> {
    match number {
        0 => Some(Encoding::Base64),
        1 => Some(Encoding::Base64Mime),
        2 => Some(Encoding::Base32),
        3 => Some(Encoding::Base32Hex),
        4 => Some(Encoding::Base16),
        5 => Some(Encoding::Qp),
        _ => None,
    }
}

fn encoded(alloc: Global, encoding: u32, octets: &[u8], rounds: u32) -> Option<u64> {
    let encoding = encoding_of(encoding)?;
    let mut sum: u64 = 0;
    for _ in 0..rounds.max(1) {
        let text = encode(alloc, encoding, octets).ok()?;
        sum = sum.wrapping_add(told(&text, rounds));
    }
    Some(sum)
}

fn decoded(alloc: Global, encoding: u32, text: &[u8], rounds: u32) -> Option<u64> {
    let encoding = encoding_of(encoding)?;
    let mut sum: u64 = 0;
    for _ in 0..rounds.max(1) {
        let octets = decode(alloc, encoding, text).ok()?;
        sum = sum.wrapping_add(told(&octets, rounds));
    }
    Some(sum)
}

fn decoded_in_pieces(alloc: Global, piece: usize, text: &[u8], rounds: u32) -> Option<u64> {
    let mut sum: u64 = 0;
    for _ in 0..rounds.max(1) {
        let mut octets = Vec::with_capacity(alloc, text.len()).ok()?;
        let mut decoder = Decoder::new();
        for part in text.chunks(piece.max(1)) {
            decoder.feed(part, &mut octets).ok()?;
        }
        sum = sum.wrapping_add(told(&octets, rounds));
    }
    Some(sum)
}
