// Tests, and commands up to their ends.
ghost use Rattle.std.specs.Prelude.{◌≤◌, ◌<◌, ◌^◌, length};
ghost use Rattle.octets.specs.Limits.{max_nesting};
ghost use Rattle.sieve_lexer.specs.Tokens.{AreTokens};
ghost use Rattle.sieve_parser.specs.Parsing.{AreTestsAfter, IsInvocationAt, IsTestAt};
ghost use Rattle.sieve_parser.specs.Lexemes.{lexemes};

use crate::MAX_NESTING;
use crate::arguments::arguments;
use crate::error::ParseError;
use crate::token_at::{identifier_at, stands};
use crate::tree::{Head, Invocation};
use octets::Octets;
use sieve_lexer::{Token, TokenKind};
use std::alloc::Global;

// The invocation at this depth whose identifier has this name and number, and the number after it.
#[cycle(tests)]
pub fn invocation(
    alloc: Global,
    script: &[u8],
    tokens: &[Token],
    name: Octets,
    token: usize,
    depth: usize,
) -> Result<(Invocation, usize), ParseError>
    requires tokens { AreTokens script.now tokens.now }
    requires within { token < length (lexemes script.now tokens.now) }
    requires short { length (lexemes script.now tokens.now) < 2 ^ 63 }
    requires depth { depth ≤ max_nesting }
    ensures { IsInvocationAt (lexemes script.now tokens.now) name token depth result }
{
    let (arguments, next) = arguments(alloc, script, tokens, token + 1)?;
    let head = Head {
        name,
        token,
        arguments,
    };
    if let Some(name) = identifier_at(alloc, script, tokens, next)? {
        if depth == MAX_NESTING {
            return Err(ParseError::TooDeep { place: next });
        }
        let (test, after) = invocation(alloc, script, tokens, name, next, depth + 1)?;
        return Ok((Invocation::WithTest(head, Box::new(alloc, test)?), after));
    }
    if stands(tokens, next, TokenKind::OpeningParenthesis) {
        let ((first, rest), after) = test_list(alloc, script, tokens, next + 1, depth)?;
        return Ok((
            Invocation::WithTests(head, Box::new(alloc, first)?, rest),
            after,
        ));
    }
    Ok((Invocation::Plain(head), next))
}

// The test whose identifier has to be at this number, below this depth, and the number after it.
#[cycle(tests)]
fn test_at(
    alloc: Global,
    script: &[u8],
    tokens: &[Token],
    at: usize,
    depth: usize,
) -> Result<(Invocation, usize), ParseError>
    requires tokens { AreTokens script.now tokens.now }
    requires within { at ≤ length (lexemes script.now tokens.now) }
    requires short { length (lexemes script.now tokens.now) < 2 ^ 63 }
    requires depth { depth ≤ max_nesting }
    ensures { IsTestAt (lexemes script.now tokens.now) at depth result }
{
    let Some(name) = identifier_at(alloc, script, tokens, at)? else {
        return Err(ParseError::Syntax { place: at });
    };
    if depth == MAX_NESTING {
        return Err(ParseError::TooDeep { place: at });
    }
    invocation(alloc, script, tokens, name, at, depth + 1)
}

// The tests of a list whose first test has to be at this number, below this depth, and the number after its bracket.
#[cycle(tests)]
fn test_list(
    alloc: Global,
    script: &[u8],
    tokens: &[Token],
    at: usize,
    depth: usize,
) -> Result<((Invocation, Vec<Invocation>), usize), ParseError>
    requires tokens { AreTokens script.now tokens.now }
    requires within { at ≤ length (lexemes script.now tokens.now) }
    requires short { length (lexemes script.now tokens.now) < 2 ^ 63 }
    requires depth { depth ≤ max_nesting }
    ensures { AreTestsAfter (lexemes script.now tokens.now) at depth result }
{
    let (first, mut next) = test_at(alloc, script, tokens, at, depth)?;
    let mut rest = Vec::new(alloc);
    'tests: while stands(tokens, next, TokenKind::Comma) {
        let (test, after) = test_at(alloc, script, tokens, next + 1, depth)?;
        rest.push(test)?;
        next = after;
    }
    if stands(tokens, next, TokenKind::ClosingParenthesis) {
        Ok(((first, rest), next + 1))
    } else {
        Err(ParseError::Syntax { place: next })
    }
}
