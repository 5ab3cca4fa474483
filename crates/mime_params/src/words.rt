// The words of a value.
ghost use Rattle.std.specs.Prelude.{◌≡◌, length, IfOk, MatchOption, None, Some};
ghost use Rattle.std.specs.List.{take_while};
ghost use Rattle.mime_params.specs.Reading.{GivesWord, after_word};
ghost use Rattle.mime_params.specs.Words.{is_special, is_token_octet, is_value_octet, quoted, value, word};
ghost use Rattle.mime_params.specs.MediaValue.{token};

use octets::{Octets, first};
use std::alloc::{AllocError, Global};

// Whether the byte is one of ()<>@,;:\"/[]?=
fn is_special(octet: u8) -> bool
    ensures { result ≡ is_special octet }
{
    b"()<>@,;:\\\"/[]?=".contains(&octet)
}

// Whether the byte is allowed in a token.
fn is_token_octet(octet: u8) -> bool
    ensures { result ≡ is_token_octet octet }
{
    octet.is_ascii_graphic() && !is_special(octet)
}

// Whether the byte is allowed in a value without quotes.
fn is_value_octet(octet: u8) -> bool
    ensures { result ≡ is_value_octet octet }
{
    !matches!(octet, b' ' | b'\t' | b';' | b'"' | b'(')
}

// How many bytes of a token come first in the text.
fn token_len(text: &[u8]) -> usize
    ensures { result ≡ length (take_while is_token_octet text.now) }
{
    text.iter()
        .take_while(|octet| is_token_octet(**octet))
        .count()
}

// How many bytes of a value without quotes come first in the text.
fn plain_len(text: &[u8]) -> usize
    ensures { result ≡ length (take_while is_value_octet text.now) }
{
    text.iter()
        .take_while(|octet| is_value_octet(**octet))
        .count()
}

/// The token at the start of the text, and the text after it.
pub fn token(text: &[u8]) -> Option<(&[u8], &[u8])>
    ensures { MatchOption result (token text.now ≡ None) (λ read. token text.now
        ≡ Some (record { octets = read.0.now; rest = read.1.now })) }
{
    let (octets, rest) = text.split_at(token_len(text));
    if octets.is_empty() {
        return None;
    }
    Some((octets, rest))
}

// The value without quotes at the start of the text, and the text after it.
fn plain(text: &[u8]) -> Option<(&[u8], &[u8])>
    ensures { MatchOption result (word is_value_octet text.now ≡ None)
        (λ read. word is_value_octet text.now
        ≡ Some (record { octets = read.0.now; rest = read.1.now })) }
{
    let (octets, rest) = text.split_at(plain_len(text));
    if octets.is_empty() {
        return None;
    }
    Some((octets, rest))
}

// The value of a quoted string, whose opening quote was read before, and the text after it; `None` if it isn't
// closed.
fn quoted(alloc: Global, text: &[u8]) -> Result<Option<(Octets, &[u8])>, AllocError>
    ensures { IfOk result (λ read. GivesWord (quoted text.now) read) }
{
    let mut octets = Vec::new(alloc);
    let mut rest = text;
    'quoted: while let Some((octet, more)) = first(rest) {
        if octet == b'"' {
            return Ok(Some((Octets::from_vec(octets), more)));
        }
        if octet == b'\\' {
            let Some((escaped, after)) = first(more) else {
                return Ok(None);
            };
            octets.push(escaped)?;
            rest = after;
        } else {
            octets.push(octet)?;
            rest = more;
        }
    }
    Ok(None)
}

// The text after a quoted string, whose opening quote was read before; `None` if it isn't closed.
fn after_quoted(text: &[u8]) -> Option<&[u8]>
    ensures { MatchOption result (after_word (quoted text.now) ≡ None) (λ after. after_word
        (quoted text.now) ≡ Some after.now) }
{
    let mut rest = text;
    'quoted: while let Some((octet, more)) = first(rest) {
        if octet == b'"' {
            return Some(more);
        }
        if octet == b'\\' {
            let (_escaped, after) = first(more)?;
            rest = after;
        } else {
            rest = more;
        }
    }
    None
}

/// The text after the value at its start. It takes no memory.
pub fn after_value(text: &[u8]) -> Option<&[u8]>
    ensures { MatchOption result (after_word (value text.now) ≡ None) (λ after. after_word
        (value text.now) ≡ Some after.now) }
{
    if let Some((b'"', rest)) = first(text) {
        return after_quoted(rest);
    }
    let (_octets, rest) = plain(text)?;
    Some(rest)
}

/// The value at the start of the text, and the text after it.
///
/// # Errors
///
/// `AllocError` if memory is refused.
pub fn value(alloc: Global, text: &[u8]) -> Result<Option<(Octets, &[u8])>, AllocError>
    ensures { IfOk result (λ read. GivesWord (value text.now) read) }
{
    if let Some((b'"', rest)) = first(text) {
        return quoted(alloc, rest);
    }
    let Some((octets, rest)) = plain(text) else {
        return Ok(None);
    };
    Ok(Some((Octets::from_vec(octets.to_vec(alloc)?), rest)))
}
