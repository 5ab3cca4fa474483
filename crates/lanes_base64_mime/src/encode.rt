// Writing takes the 57 bytes of a line as three blocks if 80 bytes are left to read. The last line, and a line
// before it if fewer are left, go by pieces.
ghost use Rattle.std.specs.Prelude.{◌≡◌, ◌+◌, ◌*◌, ◌++◌, ◌<◌, ◌≤◌, IfOk, OnOk, drop, length, min, take};
ghost use Rattle.octet_lanes.specs.Encoding.{encoding_of};
ghost use Rattle.octet_lanes.specs.declared.alphabet.Alphabet.TheVariants.{Base64};
ghost use Rattle.lanes_base64_mime.specs.MimeBase64.{line_break, mime_encoding_of};

use octet_lanes::{Alphabet, append_encoding, block_symbols};
use std::alloc::{AllocError, Global};
use std::simd::prelude::*;

/// How many bytes a line of 76 characters has.
const LINE_OCTETS: usize = 57;

const LINE_BREAK: &[u8; 2] = b"\r\n";

/// How many bytes the three blocks of a line read: the third one starts after 48 bytes, and has 32 lanes.
const LANES: usize = 80;

/// The length of a whole line with its break, in bytes.
const LINE_LEN: usize = 78;

/// Returns the MIME base64 text of `octets` (RFC 2045, section 6.8): lines of 76 characters, the last one possibly
/// shorter, each with its CRLF. There are no lines if there are no bytes.
///
/// For example, `foo` becomes `Zm9v` and CRLF.
///
/// # Errors
///
/// `AllocError` if memory is refused.
pub fn encode_mime(alloc: Global, octets: &[u8]) -> Result<Vec<u8>, AllocError>
    ensures { IfOk result (λ text. text.items ≡ mime_encoding_of octets.now) }
{
    let mut out = Vec::with_capacity(alloc, text_room(octets))?;
    let mut rest = octets;
    'lines: while !rest.is_empty() {
        append_line(rest, &mut out)?;
        let (_, after) = rest.split_at(rest.len().min(LINE_OCTETS));
        rest = after;
    }
    Ok(out)
}

// Appends the first line.
#[inline(always)]
fn append_line(octets: &[u8], out: &mut Vec<u8>) -> Result<(), AllocError>
    ensures { OnOk result (out.new.items ≡ out.old.items
        ++ (encoding_of Base64 (take (min (length octets.now) 57) octets.now) ++ line_break)) }
{
    if let Some(lanes) = octets.first_chunk::<LANES>() {
        return append_whole_line(lanes, out);
    }
    let (line, _) = octets.split_at(octets.len().min(LINE_OCTETS));
    append_encoding(out, line, Alphabet::Base64)?;
    out.extend_from_slice(LINE_BREAK)
}

// Appends a line of 57 bytes: two blocks of 24, and the start of a third one.
#[inline(always)]
fn append_whole_line(octets: &[u8; LANES], out: &mut Vec<u8>) -> Result<(), AllocError>
    ensures { OnOk result (out.new.items ≡ out.old.items ++ (encoding_of Base64 (take 57 octets.now)
        ++ line_break)) }
{
    out.extend_from_slice(&symbols_at(octets, 0))?;
    out.extend_from_slice(&symbols_at(octets, 24))?;
    out.extend_from_slice(&symbols_at(octets, 48)[..12])?;
    out.extend_from_slice(LINE_BREAK)
}

// The text of the 24 bytes from a place on.
#[inline(always)]
fn symbols_at(octets: &[u8; LANES], at: usize) -> [u8; 32]
    requires { at ≤ 48 }
    ensures { result ≡ encoding_of Base64 (take 24 (drop at octets.now)) }
{
    let lanes = u8x32::from_slice(&octets[at..]);
    block_symbols(&lanes.to_array(), Alphabet::Base64)
}

// Room for the text of bytes: a whole line for each 57 of them, and one more.
fn text_room(octets: &[u8]) -> usize
    ensures enough { length (mime_encoding_of octets.now) ≤ result }
    ensures few { result ≤ 2 * length octets.now + 78 }
{
    (octets.len() / LINE_OCTETS + 1) * LINE_LEN
}
