// The reader of tokens.
ghost use Rattle.std.specs.Prelude.{◌≡◌, ◌≤◌, ◌<◌, ◌⊎◌, length, slice_index, IfOk, IfErr, IsErrAnd, IsTrue, MatchOption, ℕ};
ghost use Rattle.std.specs.Char.{is_ascii_digit};
ghost use Rattle.octets.specs.Limits.{max_script};
ghost use Rattle.sieve_lexer.specs.Classes.{begins_identifier};
ghost use Rattle.sieve_lexer.specs.Texts.{IsSuffix, sign_octet};
ghost use Rattle.sieve_lexer.specs.declared.token.TokenKind.{TokenKind};
ghost use Rattle.sieve_lexer.specs.Tokens.{AreTokens, IsLexicalRefusal};
ghost use Rattle.sieve_lexer.specs.Private.{IsTokenAt};

use crate::MAX_SCRIPT;
use crate::error::LexicalError;
use crate::multi_line::{closing_line_end, opening_line_end};
use crate::quoted::quoted_end;
use crate::separators::gap_end;
use crate::token::{Token, TokenKind};
use crate::value::{is_unit, number_of};
use crate::word::{begins_identifier, digits_end, word_end};
use std::alloc::Global;

// The identifier or multi-line string that begins at this place.
fn word_at(script: &[u8], place: usize) -> Option<Token>
    requires within { place < length script.now }
    requires first { IsTrue (begins_identifier (slice_index script.now place)) }
    ensures { IsTokenAt script.now place result }
{
    if let Some(lines) = opening_line_end(script, place) {
        let end = closing_line_end(script, lines)?;
        Some(Token {
            kind: TokenKind::MultiLineString,
            start: place,
            end,
        })
    } else {
        let end = word_end(script, place);
        Some(Token {
            kind: TokenKind::Identifier,
            start: place,
            end,
        })
    }
}

// The tag that begins at this place.
fn tag_at(script: &[u8], place: usize) -> Option<Token>
    requires within { place < length script.now }
    requires first { slice_index script.now place ≡ 58 }
    ensures { IsTokenAt script.now place result }
{
    if place + 1 == script.len() || !begins_identifier(script[place + 1]) {
        return None;
    }
    let end = word_end(script, place + 1);
    Some(Token {
        kind: TokenKind::Tag,
        start: place,
        end,
    })
}

// Where a number ends whose digits end at this place: after K, M or G, if one of them follows.
fn suffix_end(script: &[u8], digits: usize) -> usize
    requires { digits ≤ length script.now }
    ensures suffix { IsSuffix script.now digits result }
    ensures longest { (end : ℕ) → IsSuffix script.now digits end → end ≤ result }
    ensures bound { result ≤ length script.now }
{
    if digits < script.len() && is_unit(script[digits]) {
        digits + 1
    } else {
        digits
    }
}

// The number that begins at this place.
fn number_at(script: &[u8], place: usize) -> Option<Token>
    requires within { place < length script.now }
    requires first { IsTrue (is_ascii_digit (slice_index script.now place)) }
    ensures { IsTokenAt script.now place result }
{
    let digits = digits_end(script, place);
    let end = suffix_end(script, digits);
    number_of(&script[place..end])?;
    Some(Token {
        kind: TokenKind::Number,
        start: place,
        end,
    })
}

// The quoted string that begins at this place.
fn quoted_at(script: &[u8], place: usize) -> Option<Token>
    requires within { place < length script.now }
    requires first { slice_index script.now place ≡ 34 }
    ensures { IsTokenAt script.now place result }
{
    let end = quoted_end(script, place + 1)?;
    Some(Token {
        kind: TokenKind::QuotedString,
        start: place,
        end,
    })
}

// The kind of token that is this byte alone.
fn sign_kind(octet: u8) -> Option<TokenKind>
    ensures { MatchOption result ((kind : TokenKind) → sign_octet kind ≡ Some octet → ⊥)
        (λ kind. sign_octet kind ≡ Some octet) }
{
    match octet {
        b';' => Some(TokenKind::Semicolon),
        b',' => Some(TokenKind::Comma),
        b'{' => Some(TokenKind::OpeningBrace),
        b'}' => Some(TokenKind::ClosingBrace),
        b'(' => Some(TokenKind::OpeningParenthesis),
        b')' => Some(TokenKind::ClosingParenthesis),
        b'[' => Some(TokenKind::OpeningBracket),
        b']' => Some(TokenKind::ClosingBracket),
        _ => None,
    }
}

// The token that begins at this place.
fn token_at(script: &[u8], place: usize) -> Option<Token>
    requires { place < length script.now }
    ensures { IsTokenAt script.now place result }
{
    let first = script[place];
    if begins_identifier(first) {
        word_at(script, place)
    } else if first.is_ascii_digit() {
        number_at(script, place)
    } else if first == b':' {
        tag_at(script, place)
    } else if first == b'"' {
        quoted_at(script, place)
    } else {
        let kind = sign_kind(first)?;
        Some(Token {
            kind,
            start: place,
            end: place + 1,
        })
    }
}

/// Returns the tokens of a script, each as long as possible, in order (RFC 5228, sections 2.1 to 2.4 and 8.1).
///
/// For example, `keep;` has two tokens: an identifier from byte 0 up to 4, and a semicolon from 4 up to 5.
///
/// # Errors
///
/// - `LexicalError::ScriptTooLong` if the script has more than [`MAX_SCRIPT`](crate::MAX_SCRIPT) bytes, before
///   anything else and whatever memory there is.
/// - `LexicalError::Lexical` with the first byte at which neither a token nor white space nor a comment begins: a
///   byte that no token has, a number greater than 2^64 - 1, or a string or comment that isn't closed.
/// - `LexicalError::Memory` if memory is refused.
pub fn tokens(alloc: Global, script: &[u8]) -> Result<Vec<Token>, LexicalError>
    ensures tokens { IfOk result
        (λ v. (length script.now ≤ max_script) × AreTokens script.now v.items) }
    ensures refused { IfErr result (λ e. IsLexicalRefusal script.now e) }
    ensures large { max_script < length script.now
        → IsErrAnd result (λ e. e ≡ LexicalError.ScriptTooLong) }
{
    if script.len() > MAX_SCRIPT {
        return Err(LexicalError::ScriptTooLong);
    }
    let mut tokens = Vec::new(alloc);
    let mut place = gap_end(script, 0);
    while place < script.len() {
        let Some(token) = token_at(script, place) else {
            return Err(LexicalError::Lexical { place });
        };
        tokens.push(token)?;
        place = gap_end(script, token.end);
    }
    Ok(tokens)
}
