// Lists of strings.
ghost use Rattle.std.specs.Prelude.{◌≤◌, ◌<◌, ◌^◌, length};
ghost use Rattle.sieve_lexer.specs.Tokens.{AreTokens};
ghost use Rattle.sieve_parser.specs.Parsing.{IsExpectedString, IsListAfter};
ghost use Rattle.sieve_parser.specs.Lexemes.{lexemes};

use crate::error::ParseError;
use crate::token_at::{stands, string_at};
use crate::tree::Argument;
use octets::Octets;
use sieve_lexer::{Token, TokenKind};
use std::alloc::Global;

// The string that has to be at this number.
fn expected_string(
    alloc: Global,
    script: &[u8],
    tokens: &[Token],
    at: usize,
) -> Result<Octets, ParseError>
    requires tokens { AreTokens script.now tokens.now }
    requires within { at ≤ length (lexemes script.now tokens.now) }
    requires short { length (lexemes script.now tokens.now) < 2 ^ 63 }
    ensures { IsExpectedString (lexemes script.now tokens.now) at result }
{
    match string_at(alloc, script, tokens, at)? {
        Some(value) => Ok(value),
        None => Err(ParseError::Syntax { place: at }),
    }
}

// The list of strings whose first string has to be at this number, and the number after its bracket.
pub fn string_list(
    alloc: Global,
    script: &[u8],
    tokens: &[Token],
    at: usize,
) -> Result<(Argument, usize), ParseError>
    requires tokens { AreTokens script.now tokens.now }
    requires within { at ≤ length (lexemes script.now tokens.now) }
    requires short { length (lexemes script.now tokens.now) < 2 ^ 63 }
    ensures { IsListAfter (lexemes script.now tokens.now) at result }
{
    let first = expected_string(alloc, script, tokens, at)?;
    let mut rest = Vec::new(alloc);
    let mut next = at + 1;
    'strings: while stands(tokens, next, TokenKind::Comma) {
        let value = expected_string(alloc, script, tokens, next + 1)?;
        rest.push(value)?;
        next += 2;
    }
    if stands(tokens, next, TokenKind::ClosingBracket) {
        Ok((Argument::TextList(first, rest), next + 1))
    } else {
        Err(ParseError::Syntax { place: next })
    }
}
