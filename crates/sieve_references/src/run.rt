// The bytes of a class at the start of a text, and the byte after them.
ghost use Rattle.std.specs.Prelude.{◌≡◌, ◌∷◌, ◌++◌, length, true, false, MatchOption};
ghost use Rattle.std.specs.List.{list_all, take_while};
ghost use Rattle.sieve_lexer.specs.Classes.{continues_identifier};
ghost use Rattle.sieve_references.specs.Reading.{is_not_dollar};

use octets::first;
use sieve_lexer::continues_identifier;

// How many bytes come before the first `$`.
fn plain_len(text: &[u8]) -> usize
    ensures { result ≡ length (take_while is_not_dollar text.now) }
{
    text.iter().take_while(|octet| **octet != b'$').count()
}

// How many letters and digits come first in the text.
fn word_len(text: &[u8]) -> usize
    ensures { result ≡ length (take_while continues_identifier text.now) }
{
    text.iter()
        .take_while(|octet| continues_identifier(**octet))
        .count()
}

/// The bytes before the first `$`, and the text after it.
pub(crate) fn up_to_dollar(text: &[u8]) -> Option<(&[u8], &[u8])>
    ensures { MatchOption result (list_all is_not_dollar text.now ≡ true)
        (λ parts. (list_all is_not_dollar parts.0.now ≡ true)
        × (text.now ≡ parts.0.now ++ 36 ∷ parts.1.now)) }
{
    let (plain, at) = text.split_at(plain_len(text));
    let (_dollar, after) = first(at)?;
    Some((plain, after))
}

/// The letters and digits at the start of a text, the byte after them, and the text after that.
pub(crate) fn word(text: &[u8]) -> Option<(&[u8], u8, &[u8])>
    ensures { MatchOption result (list_all continues_identifier text.now ≡ true)
        (λ parts. (list_all continues_identifier parts.0.now ≡ true) × (continues_identifier parts.1 ≡ false)
        × (text.now ≡ parts.0.now ++ parts.1 ∷ parts.2.now)) }
{
    let (octets, at) = text.split_at(word_len(text));
    let (end, after) = first(at)?;
    Some((octets, end, after))
}
