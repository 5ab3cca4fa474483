// The tokens of a listing, one at a time.
ghost use Rattle.std.specs.Prelude.{◌≡◌, ◌≤◌, ◌<◌, [], length, MatchResult, is_ok};
ghost use Rattle.std.specs.List.{take_while};
ghost use Rattle.bytecode_listing.specs.Tokens.{Comment, InText, Text, is_white, is_word_octet, tokens_of, tokens_from};
ghost use Rattle.bytecode_listing.specs.Items.{word_at, text_in, text_at, left_at, is_left, begins_with, begins_number};
ghost use Rattle.bytecode_listing.specs.Readers.{Fails, Gives, and_rest, IsStart, led};

use crate::error::ReadError;
use octets::{MAX_STRING, Octets, first, said_of};
use std::alloc::Global;

fn is_white(octet: u8) -> bool
    ensures { result ≡ is_white octet }
{
    matches!(octet, b' ' | b'\t' | b'\n' | b'\r')
}

fn is_word_octet(octet: u8) -> bool
    ensures { result ≡ is_word_octet octet }
{
    octet.is_ascii_alphanumeric() || octet == b'_'
}

// What is left after the line break that ends a comment.
#[tactic(auto, unfolding(crate::specs::Tokens::tokens_from))]
fn after_comment(octets: &[u8]) -> &[u8]
    ensures tokens { tokens_of result.now ≡ tokens_from Comment octets.now }
    ensures shorter { length result.now ≤ length octets.now }
{
    let mut rest = octets;
    'comment: while let Some((octet, after)) = first(rest) {
        if octet == b'\n' {
            return after;
        }
        rest = after;
    }
    rest
}

// What is left after blanks and comments.
#[tactic(auto, unfolding(crate::specs::Tokens::tokens_from))]
fn token_start(octets: &[u8]) -> &[u8]
    ensures tokens { tokens_of result.now ≡ tokens_of octets.now }
    ensures start { IsStart result.now }
{
    let mut rest = octets;
    'gap: while let Some((octet, after)) = first(rest) {
        if octet == b';' {
            rest = after_comment(after);
        } else if is_white(octet) {
            rest = after;
        } else {
            return rest;
        }
    }
    rest
}

// How many bytes of a word come first.
fn word_len(octets: &[u8]) -> usize
    ensures { result ≡ length (take_while is_word_octet octets.now) }
{
    octets
        .iter()
        .take_while(|octet| is_word_octet(**octet))
        .count()
}

/// The word that the tokens begin with, and the rest after it. If they begin with no word, it is empty, and the rest
/// begins at the first token.
pub fn leading_word(octets: &[u8]) -> (&[u8], &[u8])
    ensures { word_at (tokens_of octets.now) ≡ led result.0.now result.1.now }
{
    let start = token_start(octets);
    start.split_at(word_len(start))
}

/// The word that the tokens begin with.
///
/// # Errors
///
/// `ReadError::At` if they begin with no word.
pub fn word_of(octets: &[u8]) -> Result<(&[u8], &[u8]), ReadError>
    ensures { Gives (λ x. (x.0.now, tokens_of x.1.now)) result (word_at (tokens_of octets.now)) }
{
    let (word, rest) = leading_word(octets);
    if word.is_empty() {
        return Err(ReadError::At(rest.len()));
    }
    Ok((word, rest))
}

/// How many bytes are left at the start of the first token.
pub fn left_at(octets: &[u8]) -> usize
    ensures { result ≡ left_at (tokens_of octets.now) }
{
    token_start(octets).len()
}

/// Whether a token is left.
pub fn is_left(octets: &[u8]) -> bool
    ensures { result ≡ is_left (tokens_of octets.now) }
{
    !token_start(octets).is_empty()
}

/// Whether the tokens begin with this word, which isn't empty.
pub fn begins_with(octets: &[u8], word: &[u8]) -> bool
    requires { 0 < length word.now }
    ensures { result ≡ begins_with word.now (tokens_of octets.now) }
{
    let (read, _) = leading_word(octets);
    read == word
}

/// Whether the tokens begin with a word whose first byte is a digit.
pub fn begins_number(octets: &[u8]) -> bool
    ensures { result ≡ begins_number (word_at (tokens_of octets.now)) }
{
    let (read, _) = leading_word(octets);
    match first(read) {
        Some((octet, _)) => octet.is_ascii_digit(),
        None => false,
    }
}

/// Whether the tokens begin with a word.
pub fn begins_word(octets: &[u8]) -> bool
    ensures { result ≡ is_ok (word_at (tokens_of octets.now)) }
{
    let (read, _) = leading_word(octets);
    !read.is_empty()
}

// What is left after the quote that the tokens begin with, and how many bytes are left at the quote.
#[tactic(auto, unfolding(crate::specs::Tokens::tokens_from), using(crate::proofs::Lexing::quote_first, crate::proofs::Lexing::no_text))]
fn quote_of(octets: &[u8]) -> Result<(usize, &[u8]), ReadError>
    ensures { MatchResult result
        (λ x. tokens_of octets.now ≡ tokens_from (InText x.0 []) x.1.now)
        (λ e. Fails e (text_at (tokens_of octets.now))) }
{
    let start = token_start(octets);
    match first(start) {
        Some((octet, rest)) if octet == b'"' => Ok((start.len(), rest)),
        _ => Err(ReadError::At(start.len())),
    }
}

// A string that has ended, if it is within the limit of strings.
fn whole(text: Vec<u8>, left: usize, rest: &[u8]) -> Result<(Octets, &[u8]), ReadError>
    ensures { Gives and_rest result (text_in (Text text.items) left (tokens_of rest.now)) }
{
    if text.len() > MAX_STRING {
        return Err(ReadError::At(left));
    }
    Ok((Octets::from_vec(text), rest))
}

// The string whose bytes come first, up to its quote; it began with so many bytes left.
fn text_after(alloc: Global, left: usize, octets: &[u8]) -> Result<(Octets, &[u8]), ReadError>
    ensures { Gives and_rest result (text_at (tokens_from (InText left []) octets.now)) }
{
    let mut text = Vec::new(alloc);
    let mut rest = octets;
    'octets: while let Some((octet, after)) = first(rest) {
        if octet == b'"' {
            return whole(text, left, after);
        }
        let Some((said, after)) = said_of(octet, after) else {
            return Err(ReadError::At(left));
        };
        text.push(said)?;
        rest = after;
    }
    Err(ReadError::At(left))
}

/// The string that the tokens begin with, if it is within the limit of strings.
///
/// # Errors
///
/// - `ReadError::At` if they begin with no string, or with one that is too long.
/// - `ReadError::Memory` if memory is refused.
pub fn text_of(alloc: Global, octets: &[u8]) -> Result<(Octets, &[u8]), ReadError>
    ensures { Gives and_rest result (text_at (tokens_of octets.now)) }
{
    let (left, rest) = quote_of(octets)?;
    text_after(alloc, left, rest)
}
