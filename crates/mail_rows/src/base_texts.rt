// Each base on texts of every length, there and back, and with a stray character at each place.
use base64::engine::general_purpose::STANDARD;
use lanes_base32::{decode32, decode32hex, encode32, encode32hex};
use lanes_base64_mime::{decode_mime, encode_mime};
use std::alloc::{AllocError, Global};

/// Octets that differ from their neighbours.
pub fn octets_up_to(alloc: Global, n: usize) -> Result<Vec<u8>, AllocError> {
    let mut octets = Vec::new(alloc);
    let mut state: u32 = 7;
    for _ in 0..n {
        state = state.wrapping_mul(1_664_525).wrapping_add(1_013_904_223);
        octets.push((state >> 24) as u8)?;
    }
    Ok(octets)
}

// Whether a text of base32 is read as these octets.
fn is_base32_of(alloc: Global, text: &[u8], data: &[u8]) -> bool {
    match decode32(alloc, text) {
        Ok(octets) => octets.as_slice() == data,
        Err(_) => false,
    }
}

// The same of base32hex.
fn is_base32hex_of(alloc: Global, text: &[u8], data: &[u8]) -> bool {
    match decode32hex(alloc, text) {
        Ok(octets) => octets.as_slice() == data,
        Err(_) => false,
    }
}

// Whether a text of base64 is.
fn is_base64_of(alloc: Global, text: &[u8], data: &[u8]) -> bool {
    match decode_mime(alloc, text) {
        Ok(octets) => octets.as_slice() == data,
        Err(_) => false,
    }
}

// Whether octets are read back from their base32.
fn are_back_in_base32(alloc: Global, data: &[u8]) -> bool {
    match encode32(alloc, data) {
        Ok(text) => is_base32_of(alloc, &text, data),
        Err(_) => false,
    }
}

// The same of base32hex.
fn are_back_in_base32hex(alloc: Global, data: &[u8]) -> bool {
    match encode32hex(alloc, data) {
        Ok(text) => is_base32hex_of(alloc, &text, data),
        Err(_) => false,
    }
}

// Whether octets are read back from their base64 as MIME has it.
fn are_back_in_mime(alloc: Global, data: &[u8]) -> bool {
    match encode_mime(alloc, data) {
        Ok(text) => is_base64_of(alloc, &text, data),
        Err(_) => false,
    }
}

// Whether they are from their base64, also with a stray character at any place.
fn are_back_in_base64(alloc: Global, data: &[u8]) -> bool {
    match STANDARD.encode(alloc, data) {
        Ok(text) => {
            is_base64_of(alloc, text.as_bytes(), data)
                && is_read_past_strays(alloc, text.as_bytes(), data)
        }
        Err(_) => false,
    }
}

// How many octets the longest text has, with a stray character.
const MOST: usize = 269;

// Whether a text is read as these octets with a stray character at a place.
fn is_read_past_stray(alloc: Global, text: &[u8], at: usize, data: &[u8]) -> bool {
    if text.len() >= MOST || at > text.len() {
        return false;
    }
    let mut strayed = [b'!'; MOST];
    strayed[..at].copy_from_slice(&text[..at]);
    strayed[at + 1..text.len() + 1].copy_from_slice(&text[at..]);
    is_base64_of(alloc, &strayed[..text.len() + 1], data)
}

// Whether it is with one at any place.
fn is_read_past_strays(alloc: Global, text: &[u8], data: &[u8]) -> bool {
    for at in 0..text.len() {
        if !is_read_past_stray(alloc, text, at, data) {
            return false;
        }
    }
    true
}

// Whether octets are read back from each base.
fn are_back(alloc: Global, data: &[u8]) -> bool {
    are_back_in_base32(alloc, data)
        && are_back_in_base32hex(alloc, data)
        && are_back_in_mime(alloc, data)
        && are_back_in_base64(alloc, data)
}

// Whether each beginning of octets is.
fn beginnings_are_back(alloc: Global, data: &[u8]) -> bool {
    for n in 0..=data.len() {
        if !are_back(alloc, &data[..n]) {
            return false;
        }
    }
    true
}

#[test]
fn every_length_and_back(rt: HostRuntime) {
    let is_well = match octets_up_to(rt.alloc(), 200) {
        Ok(octets) => beginnings_are_back(rt.alloc(), &octets),
        Err(_) => false,
    };
    assert!(rt; is_well);
}
