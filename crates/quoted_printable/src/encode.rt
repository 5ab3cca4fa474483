// How texts are written.
ghost use Rattle.std.specs.Prelude.{◌≡◌, ◌++◌, ◌∷◌, [], ◌+◌, ◌/◌, ◌%◌, ◌-◌, ◌*◌, ◌^◌, ◌≤◌, ◌<◌, false, true, ℕ, IfOk, OnErr, OnOk, length, min, not, slice_index, take};
ghost use Rattle.std.specs.List.{filter};
ghost use Rattle.quoted_printable.specs.Written.{first_of, length_of};
ghost use Rattle.quoted_printable.specs.QuotedPrintable.{hex_of, encoding_of, escape_of, first_line, tokens_of, tokens_of_line, token_of, joined, run_of, is_literal, soft_break, stands};

use crate::lanes::standing_len;
use std::alloc::{AllocError, Global};

/// The bytes of a line without its break; the `=` of a soft break is one of them.
const LINE_OCTETS: usize = 76;

/// How many bytes are looked at together.
const LANES: usize = 32;

/// Room for a line, and for as many bytes as are written together at its end.
const LINE_ROOM: usize = 112;

const DIGITS: &[u8; 16] = b"0123456789ABCDEF";

// The first byte that each byte is written as, if another follows it: itself, or `=` if it is written with digits.
static FIRSTS: [u8; 256] = *b"\
    \x3d\x3d\x3d\x3d\x3d\x3d\x3d\x3d\x3d\x09\x3d\x3d\x3d\x3d\x3d\x3d\
    \x3d\x3d\x3d\x3d\x3d\x3d\x3d\x3d\x3d\x3d\x3d\x3d\x3d\x3d\x3d\x3d\
    \x20\x21\x22\x23\x24\x25\x26\x27\x28\x29\x2a\x2b\x2c\x2d\x2e\x2f\
    \x30\x31\x32\x33\x34\x35\x36\x37\x38\x39\x3a\x3b\x3c\x3d\x3e\x3f\
    \x40\x41\x42\x43\x44\x45\x46\x47\x48\x49\x4a\x4b\x4c\x4d\x4e\x4f\
    \x50\x51\x52\x53\x54\x55\x56\x57\x58\x59\x5a\x5b\x5c\x5d\x5e\x5f\
    \x60\x61\x62\x63\x64\x65\x66\x67\x68\x69\x6a\x6b\x6c\x6d\x6e\x6f\
    \x70\x71\x72\x73\x74\x75\x76\x77\x78\x79\x7a\x7b\x7c\x7d\x7e\x3d\
    \x3d\x3d\x3d\x3d\x3d\x3d\x3d\x3d\x3d\x3d\x3d\x3d\x3d\x3d\x3d\x3d\
    \x3d\x3d\x3d\x3d\x3d\x3d\x3d\x3d\x3d\x3d\x3d\x3d\x3d\x3d\x3d\x3d\
    \x3d\x3d\x3d\x3d\x3d\x3d\x3d\x3d\x3d\x3d\x3d\x3d\x3d\x3d\x3d\x3d\
    \x3d\x3d\x3d\x3d\x3d\x3d\x3d\x3d\x3d\x3d\x3d\x3d\x3d\x3d\x3d\x3d\
    \x3d\x3d\x3d\x3d\x3d\x3d\x3d\x3d\x3d\x3d\x3d\x3d\x3d\x3d\x3d\x3d\
    \x3d\x3d\x3d\x3d\x3d\x3d\x3d\x3d\x3d\x3d\x3d\x3d\x3d\x3d\x3d\x3d\
    \x3d\x3d\x3d\x3d\x3d\x3d\x3d\x3d\x3d\x3d\x3d\x3d\x3d\x3d\x3d\x3d\
    \x3d\x3d\x3d\x3d\x3d\x3d\x3d\x3d\x3d\x3d\x3d\x3d\x3d\x3d\x3d\x3d";

// How many bytes each byte is written as, if another follows it.
static LENGTHS: [u8; 256] = *b"\
    \x03\x03\x03\x03\x03\x03\x03\x03\x03\x01\x03\x03\x03\x03\x03\x03\
    \x03\x03\x03\x03\x03\x03\x03\x03\x03\x03\x03\x03\x03\x03\x03\x03\
    \x01\x01\x01\x01\x01\x01\x01\x01\x01\x01\x01\x01\x01\x01\x01\x01\
    \x01\x01\x01\x01\x01\x01\x01\x01\x01\x01\x01\x01\x01\x03\x01\x01\
    \x01\x01\x01\x01\x01\x01\x01\x01\x01\x01\x01\x01\x01\x01\x01\x01\
    \x01\x01\x01\x01\x01\x01\x01\x01\x01\x01\x01\x01\x01\x01\x01\x01\
    \x01\x01\x01\x01\x01\x01\x01\x01\x01\x01\x01\x01\x01\x01\x01\x01\
    \x01\x01\x01\x01\x01\x01\x01\x01\x01\x01\x01\x01\x01\x01\x01\x03\
    \x03\x03\x03\x03\x03\x03\x03\x03\x03\x03\x03\x03\x03\x03\x03\x03\
    \x03\x03\x03\x03\x03\x03\x03\x03\x03\x03\x03\x03\x03\x03\x03\x03\
    \x03\x03\x03\x03\x03\x03\x03\x03\x03\x03\x03\x03\x03\x03\x03\x03\
    \x03\x03\x03\x03\x03\x03\x03\x03\x03\x03\x03\x03\x03\x03\x03\x03\
    \x03\x03\x03\x03\x03\x03\x03\x03\x03\x03\x03\x03\x03\x03\x03\x03\
    \x03\x03\x03\x03\x03\x03\x03\x03\x03\x03\x03\x03\x03\x03\x03\x03\
    \x03\x03\x03\x03\x03\x03\x03\x03\x03\x03\x03\x03\x03\x03\x03\x03\
    \x03\x03\x03\x03\x03\x03\x03\x03\x03\x03\x03\x03\x03\x03\x03\x03";

// The least length of a run after which another run is looked for at once.
const LONG_RUN: usize = 16;

// How many bytes are written one by one after a shorter run, before another is looked for.
const FEW: usize = 8;

/// Returns the quoted-printable text of bytes (RFC 2045, section 6.7). [`crate::decode_qp`] reads it as the same
/// bytes.
///
/// Bytes 33 to 126 except `=` are written as they are, and so are spaces and tabs except as the last byte of all.
/// Every other byte is written as `=` and two upper-case digits, line breaks too. If all that is left fits into 76
/// bytes, it is the last line, without a break. Otherwise a line takes as many whole tokens as fit into 75 bytes,
/// then `=` CRLF.
///
/// For example, 77 times `a` become a line with 75 of them, `=` CRLF, and `aa`.
///
/// # Errors
///
/// `AllocError` if memory is refused.
pub fn encode_qp(alloc: Global, octets: &[u8]) -> Result<Vec<u8>, AllocError>
    ensures { IfOk result (λ text. text.items ≡ encoding_of octets.now) }
{
    let mut out = Vec::with_capacity(alloc, text_room(octets))?;
    let mut rest = octets;
    'lines: while !rest.is_empty() {
        let taken = encode_qp_line(rest, &mut out)?;
        let (_, after) = rest.split_at(taken);
        rest = after;
    }
    Ok(out)
}

/// Appends the first line of the quoted-printable text of bytes, with its soft break if bytes are left after it.
/// Returns how many of the bytes it took; it takes 0 only if there are none.
///
/// The text is this line, and then the text of the bytes that are left.
///
/// # Errors
///
/// `AllocError` if memory is refused. `out` is then as it was before.
#[inline]
pub fn encode_qp_line(octets: &[u8], out: &mut Vec<u8>) -> Result<usize, AllocError>
    ensures line { OnOk result (out.new.items ≡ out.old.items ++ first_line
        (tokens_of octets.now)) }
    ensures taken { IfOk result (λ taken. taken ≡ tokens_of_line (tokens_of octets.now)) }
    ensures within { IfOk result (λ taken. taken ≤ length octets.now) }
    ensures some { IfOk result (λ taken. 0 < length octets.now → 0 < taken) }
    ensures refused { OnErr result (out.new.items ≡ out.old.items) }
{
    let mut line = [0; LINE_ROOM];
    if octets.len() <= LINE_OCTETS {
        let (taken, len) = fill(&mut line, octets, LINE_OCTETS);
        if taken == octets.len() {
            out.extend_from_slice(&line[..len])?;
            return Ok(taken);
        }
    }
    let (taken, len) = fill(&mut line, octets, LINE_OCTETS - 1);
    let end = put_soft_break(&mut line, len);
    out.extend_from_slice(&line[..end])?;
    Ok(taken)
}

// Writes the tokens of the longest run that takes no more than so many bytes of the line, and returns how many tokens
// and how many bytes they are.
#[inline]
fn fill(line: &mut [u8; LINE_ROOM], octets: &[u8], room: usize) -> (usize, usize)
    requires { room ≤ 76 }
    ensures tokens { result.0 ≡ run_of room (tokens_of octets.now) }
    ensures octets { take result.1 line.new ≡ joined (take result.0 (tokens_of octets.now)) }
    ensures within { (result.0 ≤ length octets.now) × (result.1 ≤ room) }
{
    let mut taken = 0;
    let mut len = 0;
    let mut few = 0;
    'tokens: while taken < octets.len() {
        let (_, rest) = octets.split_at(taken);
        let run = put_run(line, len, rest, room, few == 0);
        len += run;
        taken += run;
        few = left_after(few, run);
        let end = put_token(line, len, octets[taken], taken + 1 == octets.len());
        if end > room {
            break;
        }
        len = end;
        taken += 1;
    }
    (taken, len)
}

// Writes the first bytes that are literal at a place of the line, at most 32 and as many as there is room for, and
// returns how many they are. It writes none if at most 32 bytes are left, and none if a run isn't tried.
#[inline(always)]
fn put_run(
    line: &mut [u8; LINE_ROOM],
    at: usize,
    octets: &[u8],
    room: usize,
    is_tried: bool,
) -> usize
    requires { (at ≤ room) × (room ≤ 76) }
    ensures within { at + result ≤ room }
    ensures fewer { 0 < length octets.now → result < length octets.now }
    ensures stand { (i : ℕ) → i < result → stands (slice_index octets.now i) false ≡ true }
    ensures copied { take (at + result) line.new ≡ take at line.old ++ take result octets.now }
{
    if !is_tried {
        return 0;
    }
    let Some((block, after)) = octets.split_first_chunk::<LANES>() else {
        return 0;
    };
    if after.is_empty() {
        return 0;
    }
    line[at..at + LANES].copy_from_slice(block);
    standing_len(block).min(room - at)
}

// How many bytes are still written one by one, after a run of so many.
#[inline(always)]
fn left_after(few: usize, run: usize) -> usize {
    if few > 0 {
        few - 1
    } else if run < LONG_RUN {
        FEW
    } else {
        0
    }
}

// The first byte that a byte is written as, if another follows it.
#[inline(always)]
fn first_of(octet: u8) -> u8
    ensures { result ≡ first_of octet }
{
    FIRSTS[octet as usize]
}

// How many bytes a byte is written as, if another follows it.
#[inline(always)]
fn length_of(octet: u8) -> usize
    ensures { result ≡ length_of octet }
{
    LENGTHS[octet as usize] as usize
}

// Whether a byte is written with digits even if another follows it.
#[inline(always)]
fn is_escaped(octet: u8) -> bool
    ensures { result ≡ not (stands octet false) }
{
    LENGTHS[octet as usize] == 3
}

// Writes a byte, and two digits after it, at a place of the line.
#[inline(always)]
fn put_three(line: &mut [u8; LINE_ROOM], at: usize, first: u8, octet: u8)
    requires { at ≤ 76 }
    ensures { take (at + 3) line.new ≡ take at line.old
        ++ first ∷ hex_of (octet / 16) ∷ hex_of (octet % 16) ∷ [] }
{
    line[at] = first;
    line[at + 1] = DIGITS[(octet / 16) as usize];
    line[at + 2] = DIGITS[(octet % 16) as usize];
}

// Writes the token of a byte that another follows at a place of the line, and returns where it ends.
#[inline(always)]
fn put_inner(line: &mut [u8; LINE_ROOM], at: usize, octet: u8) -> usize
    requires { at ≤ 76 }
    ensures end { result ≡ at + length (token_of octet false) }
    ensures token { take result line.new ≡ take at line.old ++ token_of octet false }
{
    put_three(line, at, first_of(octet), octet);
    at + length_of(octet)
}

// Writes a token at a place of the line, and returns where it ends.
#[inline]
fn put_token(line: &mut [u8; LINE_ROOM], at: usize, octet: u8, is_last: bool) -> usize
    requires { at ≤ 76 }
    ensures end { result ≡ at + length (token_of octet is_last) }
    ensures token { take result line.new ≡ take at line.old ++ token_of octet is_last }
{
    if !is_last {
        return put_inner(line, at, octet);
    }
    if stands(octet, true) {
        line[at] = octet;
        return at + 1;
    }
    put_escape(line, at, octet)
}

// Writes `=` and two digits at a place of the line, and returns where they end.
#[inline(always)]
fn put_escape(line: &mut [u8; LINE_ROOM], at: usize, octet: u8) -> usize
    requires { at ≤ 76 }
    ensures end { result ≡ at + 3 }
    ensures digits { take result line.new ≡ take at line.old ++ escape_of octet }
{
    line[at] = b'=';
    line[at + 1] = DIGITS[(octet / 16) as usize];
    line[at + 2] = DIGITS[(octet % 16) as usize];
    at + 3
}

// Writes a soft break at a place of the line, and returns where it ends.
#[inline]
fn put_soft_break(line: &mut [u8; LINE_ROOM], at: usize) -> usize
    requires { at ≤ 76 }
    ensures end { result ≡ at + 3 }
    ensures octets { take result line.new ≡ take at line.old ++ soft_break }
{
    line[at] = b'=';
    line[at + 1] = b'\r';
    line[at + 2] = b'\n';
    at + 3
}

// Whether a byte is written as it is.
#[inline]
fn stands(octet: u8, is_last: bool) -> bool
    ensures { result ≡ stands octet is_last }
{
    is_literal(octet) || ((octet == b' ' || octet == b'\t') && !is_last)
}

#[inline]
fn is_literal(octet: u8) -> bool
    ensures { result ≡ is_literal octet }
{
    octet.is_ascii_graphic() && octet != b'='
}

// Room for the text of bytes: all tokens, where the last byte can be a blank, and a soft break for each 73 bytes of
// them, the fewest that a line has.
fn text_room(octets: &[u8]) -> usize
    ensures enough { min (length (encoding_of octets.now)) (2 ^ 64 - 1) ≤ result }
    ensures few { result ≤ 4 * length octets.now + 6 }
{
    let escaped = escaped_count(octets) + 1;
    let tokens = octets.len().saturating_add(escaped.saturating_mul(2));
    tokens.saturating_add((tokens / 73 + 1).saturating_mul(3))
}

// How many bytes are written with digits even if others follow.
fn escaped_count(octets: &[u8]) -> usize
    ensures number { result ≡ length (filter (λ octet. not (stands octet false)) octets.now) }
    ensures few { result ≤ length octets.now }
{
    let mut number = 0;
    'octets: for octet in octets {
        number += usize::from(is_escaped(*octet));
    }
    number
}
