// Stretches of a key without stars. Each token of a segment matches one byte.
ghost use Rattle.std.specs.Prelude.{◌≡◌, ◌∷◌, ◌++◌, ◌+◌, ◌≤◌, MatchOption, length, ◌<◌, ◌^◌};
ghost use Rattle.glob_match.specs.Containment.{begins_with};
ghost use Rattle.glob_match.specs.Matching.{max_captures};
ghost use Rattle.glob_match.specs.Segments.{NoStar, any_places, with_stretches};
ghost use Rattle.glob_match.specs.Tokens.{tokens_of};
ghost use Rattle.glob_match.specs.declared.token.Token.TheVariants.{Star};

use crate::captures::Captures;
use crate::comparator::Comparator;
use crate::token::{Token, first_token};

/// The key up to its first star, and the rest after that star.
pub(crate) fn split_segment(key: &[u8]) -> (&[u8], Option<&[u8]>)
    ensures tokens { MatchOption result.1 (tokens_of key.now ≡ tokens_of result.0.now)
        (λ rest. tokens_of key.now ≡ tokens_of result.0.now ++ Star ∷ tokens_of rest.now) }
    ensures lengths { MatchOption result.1 (length key.now ≡ length result.0.now)
        (λ rest. length key.now ≡ length result.0.now + (1 + length rest.now)) }
    ensures no_star { NoStar (tokens_of result.0.now) }
{
    let mut place = 0;
    'octets: while place < key.len() {
        match key[place] {
            b'*' => return (&key[..place], Some(&key[place + 1..])),
            b'\\' => place += 2,
            _ => place += 1,
        }
    }
    (key, None)
}

/// How many bytes the segment matches.
pub(crate) fn width(segment: &[u8]) -> usize
    ensures { result ≡ length (tokens_of segment.now) }
{
    let mut width = 0;
    let mut tokens = segment;
    'tokens: while let Some((_, rest)) = first_token(tokens) {
        width += 1;
        tokens = rest;
    }
    width
}

/// Whether the value begins with bytes that the segment matches.
pub(crate) fn begins_with(value: &[u8], segment: &[u8], comparator: Comparator) -> bool
    ensures { result ≡ begins_with comparator (tokens_of segment.now) value.now }
{
    let mut octets = value;
    let mut tokens = segment;
    'tokens: while let Some((token, after)) = first_token(tokens) {
        let [octet, rest @ ..] = octets else {
            return false;
        };
        if !token.takes(*octet, comparator) {
            return false;
        }
        octets = rest;
        tokens = after;
    }
    true
}

/// Adds the captures of a segment's wildcards, if its first byte is at `start` of the value, and returns the place
/// after its last byte.
pub(crate) fn push_any_octets(captures: &mut Captures, segment: &[u8], start: usize) -> usize
    requires few { length captures.old ≤ max_captures }
    requires room { start + length (tokens_of segment.now) < 2 ^ 64 }
    ensures few { length captures.new ≤ max_captures }
    ensures places { captures.new ≡ with_stretches captures.old
        (any_places start (tokens_of segment.now)) }
    ensures end { result ≡ start + length (tokens_of segment.now) }
{
    let mut place = start;
    let mut tokens = segment;
    'tokens: while let Some((token, rest)) = first_token(tokens) {
        if let Token::AnyOctet = token {
            captures.push(place, place + 1);
        }
        place += 1;
        tokens = rest;
    }
    place
}
