// The values of tokens: numbers and strings.
ghost use Rattle.std.specs.Prelude.{◌≡◌, ◌<◌, ◌≤◌, ◌-◌, ◌^◌, ℕ, slice_index, IfOk, OnOk, length, flat_map, ◌++◌, ◌∷◌};
ghost use Rattle.sieve_lexer.specs.Values.{below_limit, decimal_value, number_value, string_value, unescaped, unstuffed, lines_of, inner, is_unit, unit_value};

use crate::separators::line_end;
use crate::token::TokenKind;
use crate::word::digits_end;
use octets::Octets;
use std::alloc::{AllocError, Global};

// Whether the byte is K, M or G, in either case.
pub fn is_unit(octet: u8) -> bool
    ensures { result ≡ is_unit octet }
{
    matches!(octet, b'K' | b'k' | b'M' | b'm' | b'G' | b'g')
}

// The factor of the suffix K, M or G, and 1 for any other byte.
fn unit_of(octet: u8) -> u64
    ensures { result ≡ unit_value octet }
{
    match octet {
        b'K' | b'k' => 1 << 10,
        b'M' | b'm' => 1 << 20,
        b'G' | b'g' => 1 << 30,
        _ => 1,
    }
}

// The number that decimal digits spell; `None` if it is greater than 2^64 - 1.
fn decimal_of(digits: &[u8]) -> Option<u64>
    requires { (i : ℕ) → i < length digits.now → 48 ≤ slice_index digits.now i }
    ensures { result ≡ below_limit (decimal_value digits.now) }
{
    let mut value: u64 = 0;
    for digit in digits {
        value = value
            .checked_mul(10)?
            .checked_add(u64::from(*digit - b'0'))?;
    }
    Some(value)
}

/// Returns the value of a number's text (RFC 5228, section 2.4.1); `None` if it is greater than 2^64 - 1. For
/// example, `3g` is 3,221,225,472.
pub fn number_of(text: &[u8]) -> Option<u64>
    ensures { result ≡ below_limit (number_value text.now) }
{
    let (digits, suffix) = text.split_at(digits_end(text, 0));
    let value = decimal_of(digits)?;
    match suffix.first() {
        Some(unit) => value.checked_mul(unit_of(*unit)),
        None => Some(value),
    }
}

// Appends the bytes; a backslash is dropped, and the byte after it kept.
fn push_unescaped(value: &mut Vec<u8>, text: &[u8]) -> Result<(), AllocError>
    ensures { OnOk result (value.new.items ≡ value.old.items ++ unescaped text.now) }
{
    let mut rest = text;
    'characters: while let [octet, after @ ..] = rest {
        match after {
            [escaped, following @ ..] if *octet == b'\\' => {
                value.push(*escaped)?;
                rest = following;
            }
            _ => {
                value.push(*octet)?;
                rest = after;
            }
        }
    }
    Ok(())
}

// A line without its first dot, if another dot follows.
fn without_stuffing(line: &[u8]) -> &[u8]
    ensures { result.now ≡ unstuffed line.now }
{
    match line {
        [b'.', b'.', ..] => &line[1..],
        _ => line,
    }
}

// The first line of a text with its break, and the text after it.
fn first_line(text: &[u8]) -> (&[u8], &[u8])
    ensures lines { 0 < length text.now → lines_of text.now ≡ result.0.now ∷ lines_of result.1.now }
    ensures shorter { length result.1.now ≤ length text.now - 1 }
{
    let end = line_end(text, 0);
    text.split_at(if end < text.len() { end + 1 } else { end })
}

// Appends the lines except the first and the last one, each without its stuffing.
fn push_unstuffed(value: &mut Vec<u8>, text: &[u8]) -> Result<(), AllocError>
    ensures { OnOk result (value.new.items ≡ value.old.items
        ++ flat_map unstuffed (inner (lines_of text.now))) }
{
    let (_, mut rest) = first_line(text);
    'lines: loop {
        let (line, after) = first_line(rest);
        if after.is_empty() {
            return Ok(());
        }
        value.extend_from_slice(without_stuffing(line))?;
        rest = after;
    }
}

// The bytes between the first and the last one.
fn between_quotes(text: &[u8]) -> &[u8]
    ensures { result.now ≡ inner text.now }
{
    match text {
        [_, between @ .., _] => between,
        _ => &[],
    }
}

/// Returns the value of a string's text (RFC 5228, sections 2.4.2 and 8.1).
///
/// For a quoted string it is the bytes between the quotes, where each backslash is removed and the byte after it
/// kept. For a multi-line string it is the lines between the first and the last one, where a leading dot is removed
/// if another dot follows. Line breaks stay as they are.
///
/// # Errors
///
/// `AllocError` if memory is refused.
pub fn string_of(alloc: Global, kind: TokenKind, text: &[u8]) -> Result<Octets, AllocError>
    ensures { IfOk result (λ octets. octets ≡ string_value kind text.now) }
{
    let mut value = Vec::with_capacity(alloc, text.len())?;
    match kind {
        TokenKind::MultiLineString => push_unstuffed(&mut value, text)?,
        _ => push_unescaped(&mut value, between_quotes(text))?,
    }
    Ok(Octets::from_vec(value))
}
