// What an explanation looks for among the tokens of a script.
//
// The mark is under the name of the command or test, which is the place that `check` names, also if an argument is at
// fault; the sentence names the argument. A second place would be a second rule about what is at fault. Only a string
// that is no capability is marked itself.
ghost use Rattle.std.specs.Prelude.{◌≡◌, ◌<◌, ◌≤◌, ◌+◌, ◌-◌, ◌^◌, IfOk, drop, is_some, length, take, take_while};
ghost use Rattle.std.specs.List.{list_any, slice_get};
ghost use Rattle.sieve_check.specs.Names.{command_named, test_named};
ghost use Rattle.sieve_explain.specs.Explaining.{start_of};
ghost use Rattle.sieve_explain.specs.Marks.{bare_behind, has_unit, has_value, if_bare, if_unclosed, is_bare, is_name, is_no_name, is_number_at, is_of_arguments, is_separator, is_string, is_unit, is_unit_at, is_word_in_list, label_at, label_behind, precedes_string, string_among, text_of, unclosed, unopened, unopened_over};

use crate::hints::is_tag;
use crate::remarks::Source;
use crate::words::is_any;
use octets::is_word;
use readable_text::places::around;
use sieve_check::{command_named, test_named};
use sieve_lexer::{Token, TokenKind, string_of};
use std::alloc::AllocError;

/// The first ones, up to this number of them.
#[tactic(auto, using(std::proofs::lemmas::List::take_min))]
pub fn first_of<T>(all: &[T], number: usize) -> &[T]
    ensures { result.now ≡ take number all.now }
{
    let (first, _) = all.split_at(number.min(all.len()));
    first
}

/// The tokens from this number on.
#[tactic(auto, using(std::proofs::lemmas::List::drop_min))]
pub fn tokens_from(tokens: &[Token], number: usize) -> &[Token]
    ensures { result.now ≡ drop number tokens.now }
{
    let (_, rest) = tokens.split_at(number.min(tokens.len()));
    rest
}

/// The token with this number, if there is one.
pub fn token_at(tokens: &[Token], number: usize) -> Option<Token>
    ensures { result ≡ slice_get tokens.now number }
{
    tokens.get(number).copied()
}

/// Where the token begins; for no token, the script's end.
pub fn start_of(script: &[u8], token: Option<Token>) -> usize
    ensures { result ≡ start_of script.now token }
{
    match token {
        Some(token) => token.start,
        None => script.len(),
    }
}

/// The token's bytes.
pub fn text_of<'a>(script: &'a [u8], token: &Token) -> &'a [u8]
    ensures { result.now ≡ text_of script.now token.now }
{
    let (_, rest) = around(script, token.start);
    let (text, _) = around(rest, token.end.saturating_sub(token.start));
    text
}

/// Whether a token of this kind is a string.
pub fn is_string(kind: TokenKind) -> bool
    ensures { result ≡ is_string kind }
{
    matches!(kind, TokenKind::QuotedString | TokenKind::MultiLineString)
}

// Whether the token is a string with this value.
#[tactic(auto, unfolding(crate::specs::Marks::has_value))]
fn has_value(source: &Source<'_>, string: &[u8], token: &Token) -> Result<bool, AllocError>
    ensures { IfOk result (λ has. has ≡ has_value source.now.octets.now string.now token.now) }
{
    if !is_string(token.kind) {
        return Ok(false);
    }
    let value = string_of(source.alloc, token.kind, text_of(source.octets, token))?;
    Ok(value.as_slice() == string)
}

/// The first of the tokens that is a string with this value, if there is one.
///
/// # Errors
///
/// `AllocError` if memory is refused.
pub fn string_among(
    source: &Source<'_>,
    string: &[u8],
    tokens: &[Token],
) -> Result<Option<Token>, AllocError>
    ensures { IfOk result (λ found.
        found ≡ string_among source.now.octets.now string.now tokens.now) }
{
    for token in tokens {
        if has_value(source, string, token)? {
            return Ok(Some(*token));
        }
    }
    Ok(None)
}

// Whether the token is a number.
fn is_number_at(token: Option<Token>) -> bool
    ensures { result ≡ is_number_at token }
{
    match token {
        Some(token) => matches!(token.kind, TokenKind::Number),
        None => false,
    }
}

// Whether the text is a unit that people write after a number, or after its K, M or G.
#[tactic(auto, unfolding(crate::specs::Marks::is_unit))]
fn is_unit(text: &[u8]) -> bool
    ensures { result ≡ is_unit text.now }
{
    is_any(
        text,
        &[
            "b", "kb", "mb", "gb", "ib", "kib", "mib", "gib", "k", "m", "g", "byte", "bytes",
            "octets",
        ],
    )
}

// Whether the token is such a unit.
fn is_unit_at(script: &[u8], token: Option<Token>) -> bool
    ensures { result ≡ is_unit_at script.now token }
{
    match token {
        Some(token) => is_unit(text_of(script, &token)),
        None => false,
    }
}

// Whether the token isn't an identifier.
fn is_no_name(token: &&Token) -> bool
    ensures { result ≡ is_no_name token.now.now }
{
    !matches!(token.kind, TokenKind::Identifier)
}

// How many tokens there are before the first identifier.
fn named_at(tokens: &[Token]) -> usize
    ensures { result ≡ length (take_while is_no_name tokens.now) }
{
    tokens.iter().take_while(is_no_name).count()
}

/// Whether the first identifier among the tokens is such a unit, directly after a number.
pub fn has_unit(script: &[u8], tokens: &[Token]) -> bool
    ensures { result ≡ has_unit script.now tokens.now }
{
    let place = named_at(tokens);
    let before = token_at(tokens, place.saturating_sub(1));
    is_number_at(before) && is_unit_at(script, token_at(tokens, place))
}

// Whether arguments are written with the token.
fn is_of_arguments(token: &&Token) -> bool
    ensures { result ≡ is_of_arguments token.now.now }
{
    matches!(
        token.kind,
        TokenKind::QuotedString
            | TokenKind::MultiLineString
            | TokenKind::Number
            | TokenKind::Tag
            | TokenKind::Comma
            | TokenKind::OpeningBracket
            | TokenKind::ClosingBracket
    )
}

/// How many tokens of arguments come first.
pub fn arguments_length(tokens: &[Token]) -> usize
    ensures value { result ≡ length (take_while is_of_arguments tokens.now) }
    ensures bound { result ≤ length tokens.now }
{
    tokens.iter().take_while(is_of_arguments).count()
}

// The bytes of the token, if it is a name that a tag has; otherwise nothing.
fn label_at(script: &[u8], token: Option<Token>) -> &[u8]
    ensures { result.now ≡ label_at script.now token }
{
    match token {
        Some(token) if is_name(token.kind) && is_tag(text_of(script, &token)) => {
            text_of(script, &token)
        }
        _ => &[],
    }
}

/// The same for the token after the arguments with which the tokens begin.
#[tactic(auto, unfolding(crate::specs::Marks::label_behind))]
pub fn label_behind<'a>(script: &'a [u8], tokens: &[Token]) -> &'a [u8]
    ensures { result.now ≡ label_behind script.now tokens.now }
{
    label_at(script, token_at(tokens, arguments_length(tokens)))
}

/// Whether the token is a comma.
pub fn is_separator(token: Option<Token>) -> bool
    ensures { result ≡ is_separator token }
{
    match token {
        Some(token) => matches!(token.kind, TokenKind::Comma),
        None => false,
    }
}

// Whether a string of a list can come after a token of this kind.
fn precedes_string(kind: TokenKind) -> bool
    ensures { result ≡ precedes_string kind }
{
    matches!(kind, TokenKind::Comma | TokenKind::OpeningBracket)
}

/// Whether the token is a word in the place of a string of a list, by the token before it.
pub fn is_word_in_list(before: Option<Token>, token: Token) -> bool
    ensures { result ≡ is_word_in_list before token }
{
    match before {
        Some(before) => precedes_string(before.kind) && is_name(token.kind),
        None => false,
    }
}

// Whether no command, no test and no tag has this word as its name; after `require` any word counts.
fn is_bare(name: &[u8], word: &[u8]) -> bool
    ensures { result ≡ is_bare name.now word.now }
{
    is_word(name, b"require") || !(is_tag(word) || is_command(word) || is_test(word))
}

// Whether a command has this name.
fn is_command(word: &[u8]) -> bool
    ensures { result ≡ is_some (command_named word.now) }
{
    command_named(word).is_some()
}

// Whether a test has this name.
fn is_test(word: &[u8]) -> bool
    ensures { result ≡ is_some (test_named word.now) }
{
    test_named(word).is_some()
}

// The token, if it is such a word after this name.
fn if_bare(script: &[u8], name: &[u8], token: Option<Token>) -> Option<Token>
    ensures { result ≡ if_bare script.now name.now token }
{
    match token {
        Some(token) if is_name(token.kind) && is_bare(name, text_of(script, &token)) => Some(token),
        _ => None,
    }
}

/// The word after the arguments with which the tokens begin, if it is in the place of a string.
pub fn bare_behind(script: &[u8], name: &[u8], tokens: &[Token]) -> Option<Token>
    ensures { result ≡ bare_behind script.now name.now tokens.now }
{
    let place = arguments_length(tokens);
    if is_separator(token_at(tokens, place.saturating_sub(1))) {
        return None;
    }
    if_bare(script, name, token_at(tokens, place))
}

/// Whether a token of this kind is an identifier.
pub fn is_name(kind: TokenKind) -> bool
    ensures { result ≡ is_name kind }
{
    matches!(kind, TokenKind::Identifier)
}

// How many closing braces have no partner, with one more token before those that have that many.
fn unopened_over(kind: TokenKind, waiting: usize) -> usize
    requires { waiting + 1 < 2 ^ 64 }
    ensures over { result ≡ unopened_over kind waiting }
    ensures few { result ≤ waiting + 1 }
{
    match kind {
        TokenKind::ClosingBrace => waiting + 1,
        TokenKind::OpeningBrace => waiting.saturating_sub(1),
        _ => waiting,
    }
}

// The token, if it is an opening brace and no closing brace after it is without a partner.
fn if_unclosed(token: Token, waiting: usize) -> Option<Token>
    ensures { result ≡ if_unclosed token waiting }
{
    match token.kind {
        TokenKind::OpeningBrace if waiting == 0 => Some(token),
        _ => None,
    }
}

/// The last opening brace without a partner, if there is one.
pub fn unclosed(tokens: &[Token]) -> Option<Token>
    ensures { result ≡ unclosed tokens.now }
{
    let mut waiting = 0;
    let mut found = None;
    for place in (0..tokens.len()).rev() {
        let token = tokens[place];
        found = found.or(if_unclosed(token, waiting));
        waiting = unopened_over(token.kind, waiting);
    }
    found
}
