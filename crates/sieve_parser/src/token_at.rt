// The token with a number.
ghost use Rattle.std.specs.Prelude.{◌≡◌, ◌↔◌, IsTrue, IfOk};
ghost use Rattle.std.specs.List.{slice_get};
ghost use Rattle.sieve_lexer.specs.Tokens.{AreTokens};
ghost use Rattle.sieve_parser.specs.Parsing.{IsIdentifierAt, IsStringAt, kind_at};
ghost use Rattle.sieve_parser.specs.Lexemes.{lexemes};

use octets::Octets;
use sieve_lexer::{Token, TokenKind, string_of};
use std::alloc::{AllocError, Global};

// The token with this number, if there is one.
pub fn token_at(tokens: &[Token], at: usize) -> Option<Token>
    ensures { result ≡ slice_get tokens.now at }
{
    if at < tokens.len() {
        Some(tokens[at])
    } else {
        None
    }
}

// Whether the token with this number is of the kind.
pub fn stands(tokens: &[Token], at: usize, kind: TokenKind) -> bool
    ensures { IsTrue result ↔ (kind_at tokens.now at ≡ Some kind) }
{
    match tokens.get(at) {
        Some(token) => token.kind == kind,
        None => false,
    }
}

// The bytes as an owned string.
pub fn owned(alloc: Global, octets: &[u8]) -> Result<Octets, AllocError>
    ensures { IfOk result (λ o. o ≡ octets.now) }
{
    Ok(Octets::from_vec(Vec::from_slice(alloc, octets)?))
}

// The value of the string with this number; `None` if the token isn't a string.
pub fn string_at(
    alloc: Global,
    script: &[u8],
    tokens: &[Token],
    at: usize,
) -> Result<Option<Octets>, AllocError>
    requires { AreTokens script.now tokens.now }
    ensures { IfOk result (λ answer. IsStringAt (lexemes script.now tokens.now) at answer) }
{
    let Some(token) = token_at(tokens, at) else {
        return Ok(None);
    };
    match token.kind {
        TokenKind::QuotedString | TokenKind::MultiLineString => {
            Ok(Some(string_of(alloc, token.kind, token.text(script))?))
        }
        _ => Ok(None),
    }
}

// The name of the identifier with this number; `None` if the token isn't an identifier.
pub fn identifier_at(
    alloc: Global,
    script: &[u8],
    tokens: &[Token],
    at: usize,
) -> Result<Option<Octets>, AllocError>
    requires { AreTokens script.now tokens.now }
    ensures { IfOk result (λ answer. IsIdentifierAt (lexemes script.now tokens.now) at answer) }
{
    let Some(token) = token_at(tokens, at) else {
        return Ok(None);
    };
    match token.kind {
        TokenKind::Identifier => Ok(Some(owned(alloc, token.text(script))?)),
        _ => Ok(None),
    }
}
