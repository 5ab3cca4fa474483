// How texts are read.
//
// Escapes that are close together are decoded together, up to 32 bytes that are then appended at once. That makes
// texts with many escapes much faster, and texts with few a little slower. A whole text is read as a decoder reads one
// piece and its end, but the bytes between the two are lent. There is no error except memory: any text has a reading.
// Lines are those of text_lines, so a CR alone ends none.
ghost use Rattle.std.specs.Prelude.{◌≡◌, ◌∷◌, ◌++◌, ◌<◌, ◌≤◌, IfOk, IfSome, OnOk, IsTrue, length, slice_index, take};
ghost use Rattle.text_lines.specs.Lines.{text_line};
ghost use Rattle.quoted_printable.specs.Private.{AreFor, Extends, Decodes};
ghost use Rattle.quoted_printable.specs.QuotedPrintable.{decoded_line, decoding_of, ends_in_equals, unescaped};

use crate::decoder::append_known;
use memchr::memchr;
use octets::{octet_of_digits, trim_trailing_blanks};
use std::alloc::{AllocError, Global};
use text_lines::Lines;

pub(crate) const EQUALS: u8 = b'=';

/// How many bytes are decoded together.
const STRETCH: usize = 32;

/// Returns the bytes of a quoted-printable text (RFC 2045, section 6.7). Any text is read.
///
/// Spaces and tabs at the end of a line or of the text are deleted. Then `=` with two hexadecimal digits of either
/// case means the byte of that value, `=` at the end of a line is deleted together with the line's break, and any
/// other `=` is literal. Everything else stays as it is, line breaks too. No bytes are kept aside, however many
/// blanks a line has.
///
/// For example, `caf=C3=A9` is read as the bytes of `café` in UTF-8.
///
/// # Errors
///
/// `AllocError` if memory is refused.
pub fn decode_qp(alloc: Global, text: &[u8]) -> Result<Vec<u8>, AllocError>
    ensures { IfOk result (λ octets. octets.items ≡ decoding_of text.now) }
{
    let mut out = Vec::with_capacity(alloc, text.len())?;
    let pending = append_known(text, &mut out)?;
    append_decoding(pending, &mut out)?;
    Ok(out)
}

// Appends the bytes of a text.
#[tactic(auto, unfolding(crate::specs::QuotedPrintable::decoding_of))]
pub(crate) fn append_decoding(text: &[u8], out: &mut Vec<u8>) -> Result<(), AllocError>
    ensures decoded { OnOk result (out.new.items ≡ out.old.items ++ decoding_of text.now) }
    ensures more { Extends out.old.items out.new.items }
{
    let mut lines = Lines::new(text);
    'lines: while let Some(line) = lines.next() {
        append_line(&text[line.start..line.end], &text[line.end..line.stop], out)?;
    }
    Ok(())
}

// Appends the bytes that a line means.
#[inline]
fn append_line(content: &[u8], line_break: &[u8], out: &mut Vec<u8>) -> Result<(), AllocError>
    ensures decoded { OnOk result (out.new.items ≡ out.old.items
        ++ decoded_line record { content = content.now; break = line_break.now }) }
    ensures more { Extends out.old.items out.new.items }
{
    if content.is_empty() {
        return out.extend_from_slice(line_break);
    }
    let kept = trim_trailing_blanks(content);
    if ends_in_equals(kept) {
        let (before, _) = kept.split_at(kept.len() - 1);
        return append_unescaped(before, out);
    }
    append_unescaped(kept, out)?;
    out.extend_from_slice(line_break)
}

// Whether the last byte is `=`.
#[tactic(auto, using(crate::proofs::Decoded::ends_by_last))]
#[inline]
fn ends_in_equals(text: &[u8]) -> bool
    ensures equals { result ≡ ends_in_equals text.now }
    ensures some { IsTrue result → 0 < length text.now }
{
    text.len() > 0 && text[text.len() - 1] == EQUALS
}

// Appends bytes whose escapes are decoded.
#[inline]
pub(crate) fn append_unescaped(text: &[u8], out: &mut Vec<u8>) -> Result<(), AllocError>
    ensures decoded { OnOk result (out.new.items ≡ out.old.items ++ unescaped text.now) }
    ensures more { Extends out.old.items out.new.items }
{
    let mut rest = text;
    'escapes: while let Some(place) = memchr(EQUALS, rest) {
        let (before, escape) = rest.split_at(place);
        out.extend_from_slice(before)?;
        // if there are many escapes, the next is near
        let (octets, n, after) = first_octets(append_escape(escape, out)?);
        out.extend_from_slice(&octets[..n])?;
        rest = after;
    }
    out.extend_from_slice(rest)
}

// Appends the byte that an escape means, or the `=` if it is literal, and returns the text after it.
#[inline]
fn append_escape<'a>(text: &'a [u8], out: &mut Vec<u8>) -> Result<&'a [u8], AllocError>
    requires some { 0 < length text.now }
    requires equals { slice_index text.now 0 ≡ 61 }
    ensures octets { IfOk result (λ rest. out.new.items ++ unescaped rest.now ≡ out.old.items
        ++ unescaped text.now) }
    ensures shorter { IfOk result (λ rest. length rest.now < length text.now) }
    ensures more { Extends out.old.items out.new.items }
{
    if text.len() >= 3 {
        if let Some(octet) = octet_of_digits(text[1], text[2]) {
            out.push(octet)?;
            let (_, after) = text.split_at(3);
            return Ok(after);
        }
    }
    out.push(EQUALS)?;
    let (_, after) = text.split_at(1);
    Ok(after)
}

// The bytes that the start of a text means, at most [`STRETCH`], and the text after them: up to a blank, because
// after a word without escapes a search is faster, or a `=` that two digits don't follow.
#[inline(always)]
fn first_octets(text: &[u8]) -> ([u8; STRETCH], usize, &[u8])
    ensures octets { AreFor text.now (take result.1 result.0) result.2.now }
    ensures few { result.1 ≤ 32 }
{
    let mut octets = [0; STRETCH];
    let mut n = 0;
    let mut rest = text;
    'octets: while n < STRETCH {
        let Some((octet, after)) = first_octet(rest) else {
            break;
        };
        octets[n] = octet;
        n += 1;
        rest = after;
    }
    (octets, n, rest)
}

// The byte that the start of a text means, and the text after it; `None` before a blank or a `=` without two digits.
#[inline(always)]
fn first_octet(text: &[u8]) -> Option<(u8, &[u8])>
    ensures { IfSome result (λ read. Decodes text.now read.0 read.1.now) }
{
    let (octet, after) = text.split_first()?;
    if *octet == EQUALS {
        return after_equals(after);
    }
    if *octet == b' ' || *octet == b'\t' {
        return None;
    }
    Some((*octet, after))
}

// The byte whose digits follow a `=`, and the text after them.
#[inline(always)]
fn after_equals(text: &[u8]) -> Option<(u8, &[u8])>
    ensures { IfSome result (λ read. Decodes (61 ∷ text.now) read.0 read.1.now) }
{
    if text.len() < 2 {
        return None;
    }
    let octet = octet_of_digits(text[0], text[1])?;
    let (_, rest) = text.split_at(2);
    Some((octet, rest))
}
