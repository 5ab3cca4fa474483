// The words of references: names and numbers.
ghost use Rattle.std.specs.Prelude.{◌≡◌, ◌+◌, Some, None, if◌then◌else◌, min};
ghost use Rattle.std.specs.List.{list_all};
ghost use Rattle.sieve_references.specs.References.{is_identifier, is_number, value_after};
ghost use Rattle.sieve_lexer.specs.Classes.{continues_identifier};
ghost use Rattle.sieve_references.specs.Reading.{is_element};

use octets::first;
use sieve_lexer::{begins_identifier, continues_identifier};

/// The last capture that a reference can name.
pub(crate) const LAST_CAPTURE: u8 = 9;

// Whether all of the bytes are allowed in a name or a number.
fn are_word_octets(octets: &[u8]) -> bool
    ensures { result ≡ list_all continues_identifier octets.now }
{
    octets.iter().all(|octet| continues_identifier(*octet))
}

/// Returns whether the name is an identifier: an ASCII letter or `_`, then letters, digits and `_` (RFC 5229, section
/// 3).
pub fn is_identifier(name: &[u8]) -> bool
    ensures { result ≡ is_identifier name.now }
{
    match first(name) {
        Some((octet, others)) => begins_identifier(octet) && are_word_octets(others),
        None => false,
    }
}

/// The number that a word of digits spells, or the one after the last capture if it is greater. `None` if the word
/// isn't one or more digits.
pub(crate) fn number(word: &[u8]) -> Option<u8>
    ensures { result ≡ (if is_number word.now then Some
        (min (LAST_CAPTURE + 1) (value_after 0 word.now)) else None) }
{
    if word.is_empty() {
        return None;
    }
    let mut value = 0;
    for octet in word {
        if !octet.is_ascii_digit() {
            return None;
        }
        value = (value * 10 + (*octet - b'0')).min(LAST_CAPTURE + 1);
    }
    Some(value)
}

/// Whether the word is a name or a number.
pub(crate) fn is_element(word: &[u8]) -> bool
    ensures { result ≡ is_element word.now }
{
    is_identifier(word) || number(word).is_some()
}
