// Texts read in pieces.
ghost use Rattle.std.specs.Prelude.{◌≡◌, ◌++◌, ◌<◌, ◌≤◌, ℕ, [], false, true, List, IfOk, OnErr, OnOk, length, slice_index};
ghost use Rattle.octets.specs.Blank.{is_blank};
ghost use Rattle.octets.specs.Escapes.{is_hex};
ghost use Rattle.quoted_printable.specs.QuotedPrintable.{decoding_of};
ghost use Rattle.quoted_printable.specs.Pieces.{HasFed, begins, follows, is_held};
ghost use Rattle.quoted_printable.specs.Private.{Extends, HasNoFeed, IsChainFrom, IsPendingFrom, Reads, Stops, goes_on, has_digit};

use crate::decode::{EQUALS, append_decoding, append_unescaped};
use memchr::memrchr;
use octets::{octet_of_digits, trim_leading_blanks};
use std::alloc::{AllocError, Global};
use std::marker::Model;

/// A decoder of a quoted-printable text that comes in pieces, each of which can end anywhere.
///
/// Make one with [`QpDecoder::new`], give it each piece with [`QpDecoder::feed`], and call [`QpDecoder::finish`]
/// after the last. It keeps the bytes at the end of the pieces whose meaning depends on what follows: `=` and a
/// hexadecimal digit, or `=`, spaces and tabs, and one CR. A contract sees the list of these bytes.
#[derive(Drop)]
pub struct QpDecoder {
    alloc: Global,
    held: Vec<u8>,
}

impl Model for QpDecoder {
    ghost use Rattle.std.specs.Prelude.{◌≡◌, ℕ, List, true};
    ghost use Rattle.quoted_printable.specs.Pieces.{is_held};

    ghost Value = { List ℕ };

    ghost view = { λ d. d.held.items };

    ghost invariant = { λ d. is_held d.held.items ≡ true };
}

impl QpDecoder {
    /// Returns a decoder before the first piece. It takes no memory.
    pub fn new(alloc: Global) -> QpDecoder
        ensures { result ≡ [] }
    {
        QpDecoder {
            alloc,
            held: Vec::new(alloc),
        }
    }

    /// Reads the next piece: appends all bytes whose meaning is known, and keeps the others.
    ///
    /// # Errors
    ///
    /// `AllocError` if memory is refused. The decoder and `out` are then as they were before.
    pub fn feed(&mut self, piece: &[u8], out: &mut Vec<u8>) -> Result<(), AllocError>
        ensures fed { OnOk result (HasFed self.old piece.now self.new out.old.items out.new.items) }
        ensures decoder { OnErr result (self.new ≡ self.old) }
        ensures out { OnErr result (out.new.items ≡ out.old.items) }
    {
        let held_len = self.held.len();
        let out_len = out.len();
        let fed = feed_held(self.alloc, &mut self.held, piece, out);
        if fed.is_err() {
            self.held.truncate(held_len);
            out.truncate(out_len);
        }
        fed
    }

    /// Ends the text: appends the meaning of the bytes that are kept.
    ///
    /// # Errors
    ///
    /// `AllocError` if memory is refused. `out` is then as it was before.
    pub fn finish(self, out: &mut Vec<u8>) -> Result<(), AllocError>
        ensures finished { OnOk result (out.new.items ≡ out.old.items ++ decoding_of self) }
        ensures out { OnErr result (out.new.items ≡ out.old.items) }
    {
        let start = out.len();
        let finished = append_decoding(&self.held, out);
        if finished.is_err() {
            out.truncate(start);
        }
        finished
    }
}

// Reads a piece after the bytes that are kept, and then keeps others.
fn feed_held(
    alloc: Global,
    held: &mut Vec<u8>,
    piece: &[u8],
    out: &mut Vec<u8>,
) -> Result<(), AllocError>
    requires { is_held held.old.items ≡ true }
    ensures read { OnOk result (Reads out.old.items (held.old.items
        ++ piece.now) out.new.items held.new.items) }
    ensures held { OnOk result (is_held held.new.items ≡ true) }
    ensures begun { OnErr result (Extends held.old.items held.new.items) }
    ensures more { Extends out.old.items out.new.items }
{
    if held.is_empty() {
        *held = append_known(piece, out)?.to_vec(alloc)?;
        return Ok(());
    }
    let rest = hold(held, piece)?;
    if rest.is_empty() {
        return Ok(());
    }
    let rest = release(held, rest, out)?;
    *held = append_known(rest, out)?.to_vec(alloc)?;
    Ok(())
}

// Keeps the first bytes of a text, as many as can be kept after those that are, and returns the text after them.
fn hold<'a>(held: &mut Vec<u8>, text: &'a [u8]) -> Result<&'a [u8], AllocError>
    requires { is_held held.old.items ≡ true }
    ensures held { OnOk result (is_held held.new.items ≡ true) }
    ensures octets { IfOk result (λ rest. held.new.items ++ rest.now ≡ held.old.items ++ text.now) }
    ensures stops { IfOk result (λ rest. Stops held.new.items rest.now) }
    ensures more { Extends held.old.items held.new.items }
{
    let mut rest = text;
    'octets: while let Some((octet, after)) = rest.split_first() {
        if !goes_on(held, *octet) {
            break;
        }
        held.push(*octet)?;
        rest = after;
    }
    Ok(rest)
}

// Whether a byte is also kept, after those that are.
#[tactic(auto, using(crate::proofs::Held::goes_on_last))]
#[inline]
fn goes_on(held: &[u8], octet: u8) -> bool
    ensures { result ≡ goes_on held.now octet }
{
    if held.len() == 0 {
        return begins(octet);
    }
    follows(held[held.len() - 1], octet)
}

#[inline]
fn follows(last: u8, octet: u8) -> bool
    ensures { result ≡ follows last octet }
{
    (last == EQUALS && is_hex(octet)) || (begins(last) && (is_blank(octet) || octet == b'\r'))
}

#[inline]
fn begins(octet: u8) -> bool
    ensures { result ≡ begins octet }
{
    octet == EQUALS || is_blank(octet)
}

#[inline]
fn is_blank(octet: u8) -> bool
    ensures { result ≡ is_blank octet }
{
    octet == b' ' || octet == b'\t'
}

#[inline]
fn is_hex(octet: u8) -> bool
    ensures { result ≡ is_hex octet }
{
    octet.is_ascii_hexdigit()
}

// Appends the meaning of the kept bytes, which is known now, and returns the text after them.
fn release<'a>(held: &[u8], rest: &'a [u8], out: &mut Vec<u8>) -> Result<&'a [u8], AllocError>
    requires held { is_held held.now ≡ true }
    requires stops { Stops held.now rest.now }
    requires some { 0 < length rest.now }
    ensures read { IfOk result (λ left. Reads out.old.items
        (held.now ++ rest.now) out.new.items left.now) }
    ensures within { IfOk result (λ left. length left.now ≤ length rest.now) }
    ensures more { Extends out.old.items out.new.items }
{
    if has_digit(held) {
        return release_escape(held, rest, out);
    }
    if rest[0] == b'\n' {
        return release_line(held, rest, out);
    }
    out.extend_from_slice(held)?;
    Ok(rest)
}

// Whether a hexadecimal digit is kept after the first byte.
#[inline]
fn has_digit(held: &[u8]) -> bool
    ensures { result ≡ has_digit held.now }
{
    held.len() >= 2 && is_hex(held[1])
}

// The same if `=` and a digit are kept: a second digit ends the escape, and with any other byte both are literal.
#[inline]
fn release_escape<'a>(
    held: &[u8],
    rest: &'a [u8],
    out: &mut Vec<u8>,
) -> Result<&'a [u8], AllocError>
    requires held { is_held held.now ≡ true }
    requires digit { has_digit held.now ≡ true }
    requires some { 0 < length rest.now }
    ensures read { IfOk result (λ left. Reads out.old.items
        (held.now ++ rest.now) out.new.items left.now) }
    ensures within { IfOk result (λ left. length left.now ≤ length rest.now) }
    ensures more { Extends out.old.items out.new.items }
{
    if let Some(octet) = octet_of_digits(held[1], rest[0]) {
        out.push(octet)?;
        let (_, after) = rest.split_at(1);
        return Ok(after);
    }
    out.extend_from_slice(held)?;
    Ok(rest)
}

// The same if LF follows: after `=` it belongs to a soft break. Otherwise blanks are deleted, and a CR stays.
#[inline]
fn release_line<'a>(held: &[u8], rest: &'a [u8], out: &mut Vec<u8>) -> Result<&'a [u8], AllocError>
    requires held { is_held held.now ≡ true }
    requires digit { has_digit held.now ≡ false }
    requires some { 0 < length rest.now }
    requires feed { slice_index rest.now 0 ≡ 10 }
    ensures read { IfOk result (λ left. Reads out.old.items
        (held.now ++ rest.now) out.new.items left.now) }
    ensures within { IfOk result (λ left. length left.now ≤ length rest.now) }
    ensures more { Extends out.old.items out.new.items }
{
    if held.len() > 0 && held[0] == EQUALS {
        let (_, after) = rest.split_at(1);
        return Ok(after);
    }
    out.extend_from_slice(trim_leading_blanks(held))?;
    Ok(rest)
}

// Appends what is known of a text if no bytes are kept before it, and returns the end of it that has to be kept.
pub(crate) fn append_known<'a>(text: &'a [u8], out: &mut Vec<u8>) -> Result<&'a [u8], AllocError>
    ensures read { IfOk result (λ pending. Reads out.old.items text.now out.new.items pending.now) }
    ensures held { IfOk result (λ pending. is_held pending.now ≡ true) }
    ensures more { Extends out.old.items out.new.items }
{
    let (lines, open) = after_last_break(text);
    append_decoding(lines, out)?;
    let (known, pending) = open.split_at(pending_start(open));
    append_unescaped(known, out)?;
    Ok(pending)
}

// The text up to its last LF, and the text after it.
#[inline]
fn after_last_break(text: &[u8]) -> (&[u8], &[u8])
    ensures lines { (after : List ℕ) → decoding_of (text.now ++ after) ≡ decoding_of result.0.now
        ++ decoding_of (result.1.now ++ after) }
    ensures no_feed { HasNoFeed result.1.now }
{
    match memrchr(b'\n', text) {
        Some(place) => text.split_at(place + 1),
        None => text.split_at(0),
    }
}

// Where the longest end of a line begins that has to be kept, if the line can go on.
#[inline]
fn pending_start(line: &[u8]) -> usize
    ensures { IsPendingFrom line.now result }
{
    if line.is_empty() {
        return 0;
    }
    let start = chain_start(line);
    if begins(line[start]) {
        return start;
    }
    line.len()
}

// Where the longest end of a line begins in which each byte is kept after the one before it.
#[inline]
fn chain_start(line: &[u8]) -> usize
    requires { 0 < length line.now }
    ensures { IsChainFrom line.now result }
{
    let mut start = line.len() - 1;
    'octets: while start > 0 && follows(line[start - 1], line[start]) {
        start -= 1;
    }
    start
}
